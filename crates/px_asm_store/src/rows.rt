// The rows that types, fields and methods have where a program is written.
ghost use Rattle.std.specs.Prelude.{◌≡◌, ◌+◌, ◌<◌, ◌≤◌, ◌^◌, ◌==◌, Some, true, length, IfOk, OnOk};
ghost use Rattle.std.specs.List.{AllByRecursion, IsDistinct};
ghost use Rattle.px_meta.specs.Rows.{is_in};
ghost use Rattle.px_link_methods.specs.Codes.{place_of};
ghost use Rattle.px_asm_described.specs.Describes.{method_row, type_row};
ghost use Rattle.px_asm_described.specs.Writable.{IsWritable};
ghost use Rattle.px_asm_store.specs.Kept.{HasRows, first_field_of};
ghost use Rattle.px_asm_store.specs.Rows.{HasRoom, IsLaid};
ghost use Rattle.px_asm_law_written.specs.Tokens.{fields_in, fields_of, first_field};

use px_program::{Program, TypeInfo};
use std::alloc::{AllocError, Global};
use std::marker::Model;

// A table that tokens have room for has fewer rows.
const MOST_ROWS: usize = 0x80_0000;

// The rows of some numbers, from a first row on, by number. The row of another number is 0.
fn rows_of(alloc: Global, count: usize, numbers: &[u32], first: u32) -> Result<Vec<u32>, AllocError>
    requires below { AllByRecursion (λ number. number < count) numbers.now }
    requires once { IsDistinct (λ number other. number == other) numbers.now }
    requires few { length numbers.now + first < 2 ^ 32 }
    ensures { IfOk result (λ rows. HasRows (λ number. is_in numbers.now number ≡ true) (λ number. place_of numbers.now number + first) rows.items) }
{
    let mut rows = vec![in alloc; 0; count]?;
    let mut row = first;
    for number in numbers {
        rows[*number as usize] = row;
        row += 1;
    }
    Ok(rows)
}

// The row behind the fields of a type, of which the first has this row.
fn behind_fields(first: u32, info: &TypeInfo) -> Result<u32, AllocError>
    ensures behind { IfOk result (λ row. row ≡ first + length (fields_in (Some info.now))) }
    ensures few { IfOk result (λ row. row ≤ 2 ^ 23) }
{
    let count = info.fields.len().saturating_add(info.statics.len());
    let row = count.saturating_add(first as usize);
    if row > MOST_ROWS {
        return Err(AllocError);
    }
    Ok(row as u32)
}

// The row of the first field of each type of the assembly, by the type's number.
fn first_fields(alloc: Global, program: &Program) -> Result<Vec<u32>, AllocError>
    requires { IsWritable program.now }
    ensures few { OnOk result (length (fields_of program.now program.now.layout.types) < 2 ^ 23) }
    ensures rows { IfOk result (λ rows. HasRows (IsLaid program.now) (first_field_of program.now) rows.items) }
{
    let types = program.types.as_slice();
    let mut rows = vec![in alloc; 0; types.len()]?;
    let mut row = 1;
    for number in program.layout.types.as_slice() {
        let type_index = *number as usize;
        rows[type_index] = row;
        row = behind_fields(row, &types[type_index])?;
    }
    Ok(rows)
}

/// A program that is written, with the rows of its types by their numbers, of its methods, and of the first field of each type.
#[derive(Drop)]
pub struct Rows<'p> {
    program: &'p Program,
    types: Vec<u32>,
    methods: Vec<u32>,
    fields: Vec<u32>,
}

impl<'p> Model for Rows<'p> {
    ghost use Rattle.px_program.specs.declared.program.Program.{Program};
    ghost use Rattle.px_asm_store.specs.Kept.{AreKept};

    ghost Value = { Program };

    ghost view = { λ r. r.program.now };

    ghost invariant = { λ r. AreKept r.program.now r.types.items r.methods.items r.fields.items };
}

impl<'p> Rows<'p> {
    /// The rows of a program. One with 2^23 types, methods or fields, which tokens have no room for, is answered as want of memory.
    pub fn new(alloc: Global, program: &'p Program) -> Result<Rows<'p>, AllocError>
        requires { IsWritable program.now }
        ensures { IfOk result (λ rows. rows ≡ program.now) }
    {
        let types_count = program.types.len();
        let methods_count = program.methods.len();
        if types_count >= MOST_ROWS || methods_count >= MOST_ROWS {
            return Err(AllocError);
        }
        // the first row of TypeDef is that of `<Module>`
        let types = rows_of(alloc, types_count, program.layout.types.as_slice(), 2)?;
        let methods = rows_of(alloc, methods_count, program.layout.methods.as_slice(), 1)?;
        let fields = first_fields(alloc, program)?;
        Ok(Rows {
            program,
            types,
            methods,
            fields,
        })
    }

    /// The program.
    pub fn program(&self) -> &'p Program
        ensures same { result.now ≡ self.now }
        ensures room { HasRoom self.now }
    {
        self.program
    }

    /// The row of a type of the assembly in TypeDef.
    pub fn type_row(&self, number: u32) -> u32
        requires { IsLaid self.now number }
        ensures row { result ≡ type_row self.now number }
        ensures few { result < 2 ^ 24 }
    {
        self.types[number as usize]
    }

    /// The row of a method in MethodDef.
    pub fn method_row(&self, number: u32) -> u32
        requires { number < length self.now.methods }
        ensures row { result ≡ method_row self.now number }
        ensures few { result < 2 ^ 24 }
    {
        self.methods[number as usize]
    }

    /// The row of the first field of a type of the assembly: those of instances come first, and then the static ones.
    pub fn first_field(&self, number: u32) -> u32
        requires { IsLaid self.now number }
        ensures row { result ≡ first_field self.now (place_of self.now.layout.types number) }
        ensures few { result < 2 ^ 24 }
    {
        self.fields[number as usize]
    }
}
