// Where the instructions of a program stand, by their offsets.
ghost use Rattle.std.specs.Prelude.{◌≡◌, IfOk, Some};
ghost use Rattle.std.specs.Option.{option_copied};
ghost use Rattle.px_program.specs.Formed.{Follow, IsWellFormed, method_at};
ghost use Rattle.px_verify.specs.Numbering.{ArePlaces, AreTabled, AreTables, instr_by};

use px_program::{Instr, Method, Program};
use px_shared::SharedList;
use px_verify_rounds::end_of;
use std::alloc::{AllocError, Global};

// What stands for an offset at which no instruction starts.
const NOWHERE: u32 = u32::MAX;

// For each offset of a method's code the number of the instruction that starts there, counted from 0.
fn places_of(alloc: Global, code: &[Instr]) -> Result<SharedList<u32>, AllocError>
    requires { Follow 0 code.now }
    ensures { IfOk result (ArePlaces code.now) }
{
    let mut places = Vec::new(alloc);
    places.resize(end_of(code) as usize, NOWHERE)?;
    for (number, instr) in code.iter().enumerate() {
        places[instr.offset as usize] = number as u32;
    }
    SharedList::from_vec(places)
}

/// The instruction that starts at an offset, by those numbers.
pub(crate) fn instr_by<'a>(code: &'a [Instr], places: &[u32], at: u32) -> Option<&'a Instr>
    ensures { option_copied result ≡ instr_by code.now places.now at }
{
    let place = *places.get(at as usize)?;
    code.get(place as usize)
}

// Those numbers for a method, by those of the methods before it.
fn places_at(
    alloc: Global,
    program: &Program,
    tables: &[SharedList<u32>],
    number: u32,
    method: &Method,
) -> Result<SharedList<u32>, AllocError>
    requires formed { IsWellFormed program.now }
    requires at { method_at program.now number ≡ Some method.now }
    requires tabled { AreTabled program.now.methods number tables.now }
    ensures { IfOk result (ArePlaces method.now.code) }
{
    let first = program.methods.first_like(number);
    if first == number {
        places_of(alloc, method.code.as_slice())
    } else {
        tables[first as usize].share()
    }
}

/// Those numbers for each method. Methods that are alike share them.
pub(crate) fn tables_of(
    alloc: Global,
    program: &Program,
) -> Result<Vec<SharedList<u32>>, AllocError>
    requires { IsWellFormed program.now }
    ensures { IfOk result (λ tables. AreTables program.now.methods tables.items) }
{
    let mut tables: Vec<SharedList<u32>> = Vec::new(alloc);
    for (number, method) in program.methods.as_slice().iter().enumerate() {
        let places = places_at(alloc, program, &tables, number as u32, method)?;
        tables.push(places)?;
    }
    Ok(tables)
}
