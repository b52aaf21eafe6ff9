// What a program's parameters are for domains.
ghost use Rattle.std.specs.Prelude.{◌≡◌, IfOk};
ghost use Rattle.px_domain.specs.Givens.{given_by, given_of, givens_of};

use px_program::{Place, Program, TypeInfo};
use std::alloc::{AllocError, Global};

/// What a parameter is given.
#[derive(Clone, Copy)]
pub enum Given {
    /// An integer of the place.
    Integer(Place),
    /// An array of integers of the place.
    Array(Place),
}

// A reference to an array is given by its elements.
fn given_by(place: Place, element: Option<Place>) -> Given
    ensures { result ≡ given_by place element }
{
    match element {
        Some(element) => Given::Array(element),
        None => Given::Integer(place),
    }
}

fn given_of(types: &[TypeInfo], place: Place) -> Given
    ensures { result ≡ given_of types.now place }
{
    let Place::Ref(number) = place else {
        return Given::Integer(place);
    };
    match types.get(number as usize) {
        Some(info) => given_by(place, info.element),
        None => Given::Integer(place),
    }
}

/// What the parameters of a program's entry are given, in order.
pub fn givens_of(alloc: Global, program: &Program) -> Result<Vec<Given>, AllocError>
    ensures { IfOk result (λ params. params.items ≡ givens_of program.now) }
{
    let types = program.types.as_slice();
    let mut params = Vec::new(alloc);
    for place in program.arguments() {
        params.push(given_of(types, *place))?;
    }
    Ok(params)
}
