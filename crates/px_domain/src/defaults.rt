// The default domain.
ghost use Rattle.std.specs.Prelude.{◌≡◌, ◌≤◌, IfOk, length};
ghost use Rattle.std.specs.List.{AllByRecursion};
ghost use Rattle.px_program.specs.Arguments.{AreGiven, arguments_of};
ghost use Rattle.px_domain.specs.Givens.{AreFor, IsGiven, givens_of, whole_domain, whole_part};

use crate::{Domain, Given, Part, givens_of, whole_of};
use px_program::Program;
use std::alloc::{AllocError, Global};

// All integers of the place, or null and the arrays of up to three of them.
fn whole_part(given: Given) -> Part
    ensures { result ≡ whole_part given }
{
    match given {
        Given::Integer(place) => {
            let whole = whole_of(place);
            Part::Scalar {
                place,
                low: whole.low,
                high: whole.high,
            }
        }
        Given::Array(element) => {
            let whole = whole_of(element);
            Part::Array {
                element,
                null: true,
                from: 0,
                to: 3,
                low: whole.low,
                high: whole.high,
            }
        }
    }
}

fn whole_parts(alloc: Global, params: &[Given]) -> Result<Vec<Part>, AllocError>
    ensures { IfOk result (λ parts. parts.items ≡ whole_domain params.now) }
{
    let mut parts = Vec::new(alloc);
    for given in params {
        parts.push(whole_part(*given))?;
    }
    Ok(parts)
}

fn whole_for(alloc: Global, params: &[Given]) -> Result<Domain, AllocError>
    requires few { length params.now ≤ 16 }
    requires each { AllByRecursion IsGiven params.now }
    ensures { IfOk result (λ d. d ≡ whole_domain params.now) }
{
    let parts = whole_parts(alloc, params)?;
    Domain::new(alloc, parts)
}

/// The default domain of a program's entry: for an integer its whole type, and for an array null and the lengths 0 to 3, with the whole type of its elements.
pub fn whole(alloc: Global, program: &Program) -> Result<Domain, AllocError>
    requires given { AreGiven program.now.types (arguments_of program.now) }
    ensures whole { IfOk result (λ d. d ≡ whole_domain (givens_of program.now)) }
    ensures for_program { IfOk result (AreFor program.now) }
{
    let params = givens_of(alloc, program)?;
    whole_for(alloc, params.as_slice())
}
