// The program of a raw body.
ghost use Rattle.std.specs.Prelude.{◌≡◌, ◌≢◌, ◌≤◌, ◌<◌, ◌^◌, ◌==◌, None, length, map, IfOk, IfErr};
ghost use Rattle.std.specs.List.{AllByRecursion};
ghost use Rattle.px_code.specs.Body.{IsFormed};
ghost use Rattle.px_program.specs.Alone.{alone, types_with};
ghost use Rattle.px_program.specs.Arguments.{AreGiven, arguments_of};
ghost use Rattle.px_program.specs.Formed.{FitsPlace, IsInteger, IsWellFormed};
ghost use Rattle.px_link.specs.Link.{BlamesRaw};
ghost use Rattle.px_link.specs.Raw.{instr_of, method_of, program_of};
ghost use Rattle.px_link_methods.specs.Methods.{clause_of};

use crate::RawFault;
use crate::params::{elements_of, params_of};
use px_code::{Body, RawClause, RawInstr};
use px_link_methods::clause_of;
use px_link_opcodes::code_of;
use px_program::{Clause, Instr, Method, Place, Program, alone};
use px_shared::SharedList;
use sqlite_items::Items;
use std::alloc::{AllocError, Global};

fn instr_of(alloc: Global, raw: &RawInstr) -> Result<Instr, AllocError>
    ensures { IfOk result (λ instr. instr ≡ instr_of raw.now) }
{
    Ok(Instr {
        offset: raw.offset,
        next: raw.next,
        code: code_of(alloc, raw)?,
    })
}

fn instrs_of(alloc: Global, raws: &[RawInstr]) -> Result<Vec<Instr>, AllocError>
    ensures { IfOk result (λ code. code.items ≡ map instr_of raws.now) }
{
    let mut code = Vec::new(alloc);
    for raw in raws {
        code.push(instr_of(alloc, raw)?)?;
    }
    Ok(code)
}

fn clauses_of(alloc: Global, raws: &[RawClause]) -> Result<Vec<Clause>, AllocError>
    ensures { IfOk result (λ clauses. clauses.items ≡ map (clause_of None) raws.now) }
{
    raws.iter().map(|raw| clause_of(None, raw)).collect(alloc)
}

// The static method of this name with these parameters that returns an int32.
fn method_of(
    alloc: Global,
    name: &[u8],
    body: &Body,
    params: &[Place],
) -> Result<Method, AllocError>
    ensures { IfOk result (λ method. method ≡ method_of name.now body.now params.now) }
{
    Ok(Method {
        name: Items::from_slice(alloc, name)?,
        owner: 0,
        is_static: true,
        params: SharedList::from_slice(alloc, params)?,
        ret: Some(Place::I4),
        locals: SharedList::from_vec(Vec::new(alloc))?,
        max_stack: body.max_stack,
        code: SharedList::from_vec(instrs_of(alloc, body.code.as_slice())?)?,
        clauses: SharedList::from_vec(clauses_of(alloc, body.clauses.as_slice())?)?,
    })
}

// The program of this method alone, over the arrays of these elements.
#[tactic(auto, using(crate::proofs::Formed::begins))]
fn program_with(
    alloc: Global,
    elements: &[Place],
    name: &[u8],
    body: &Body,
    params: &[Place],
) -> Result<Program, AllocError>
    requires formed { IsFormed body.now }
    requires integers { AllByRecursion IsInteger elements.now }
    requires params { AllByRecursion (FitsPlace (types_with elements.now)) params.now }
    ensures program { IfOk result (λ p. p ≡ alone elements.now (method_of name.now body.now params.now)) }
    ensures well_formed { IfOk result IsWellFormed }
{
    let method = method_of(alloc, name, body, params)?;
    alone(alloc, elements, method)
}

/// The program of one static method that returns an int32 and has the body as `read_body` gives it. Its parameters have these places,
/// or are arrays of these where `elements` says so. RawLocals comes exactly where the body names a signature of locals.
#[tactic(auto, using(crate::proofs::Elements::elements_integers, crate::proofs::Elements::elements_few))]
pub fn link_raw(
    alloc: Global,
    body: &Body,
    params: &[Place],
    elements: &[bool],
) -> Result<Program, RawFault>
    requires formed { IsFormed body.now }
    requires count { length params.now ≤ 16 }
    requires pairs { length elements.now ≡ length params.now }
    requires integers { AllByRecursion IsInteger params.now }
    ensures program { IfOk result (λ p. p ≡ program_of body.now params.now elements.now) }
    ensures well_formed { IfOk result IsWellFormed }
    ensures arguments { IfOk result (λ program. AreGiven program.types (arguments_of program)) }
    ensures no_locals { IfOk result (λ _. body.now.locals_token ≡ 0) }
    ensures fault { IfErr result (BlamesRaw body.now) }
{
    if body.locals_token != 0 {
        return Err(RawFault::RawLocals);
    }
    let places = elements_of(alloc, params, elements)?;
    let params = params_of(alloc, &places, params, elements)?;
    Ok(program_with(alloc, &places, b"raw", body, &params)?)
}
