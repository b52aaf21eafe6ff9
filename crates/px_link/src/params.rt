// Parameters that are arrays.
ghost use Rattle.std.specs.Prelude.{◌≡◌, ◌≤◌, ◌<◌, ◌+◌, ◌==◌, Bool, length, IfOk, OnOk};
ghost use Rattle.px_link.specs.Raw.{elements_of, has_place, number_of, param_of, params_of, position, with_place};

use px_program::Place;
use std::alloc::{AllocError, Global};

// How many types the library has; those of arrays have the numbers behind.
const LIBRARY_TYPES: u32 = 18;

// The number of a place among others, in their order.
fn number_of(place: Place) -> u64
    ensures { result ≡ number_of place }
{
    match place {
        Place::Bool => 0,
        Place::Char => 1,
        Place::I1 => 2,
        Place::U1 => 3,
        Place::I2 => 4,
        Place::U2 => 5,
        Place::I4 => 6,
        Place::U4 => 7,
        Place::I8 => 8,
        Place::U8 => 9,
        Place::N => 10,
        Place::UN => 11,
        Place::Ref(number) => 12 + u64::from(number),
    }
}

fn is_same(one: Place, other: Place) -> bool
    ensures { result ≡ (number_of one == number_of other) }
{
    number_of(one) == number_of(other)
}

// The index of a place among others, or their number where it isn't one of them.
fn position(places: &[Place], place: Place) -> usize
    ensures exact { result ≡ position places.now place }
    ensures within { result ≤ length places.now }
{
    for (at, other) in places.iter().enumerate() {
        if is_same(*other, place) {
            return at;
        }
    }
    places.len()
}

fn has_place(places: &[Place], place: Place) -> bool
    ensures { result ≡ has_place places.now place }
{
    places.iter().any(|other| is_same(*other, place))
}

// Adds the place of an array's elements to those that were met.
fn add_place(found: &mut Vec<Place>, is_array: bool, place: Place) -> Result<(), AllocError>
    ensures { OnOk result (found.new.items ≡ with_place found.old.items is_array place) }
{
    if is_array && !has_place(found, place) {
        found.push(place)?;
    }
    Ok(())
}

/// The places of the elements of the parameters that are arrays, each once, as they are met.
pub fn elements_of(
    alloc: Global,
    places: &[Place],
    arrays: &[bool],
) -> Result<Vec<Place>, AllocError>
    requires { length arrays.now ≡ length places.now }
    ensures { IfOk result (λ elements. elements.items ≡ elements_of places.now arrays.now) }
{
    let mut found = Vec::new(alloc);
    for (place, is_array) in places.iter().zip(arrays) {
        add_place(&mut found, *is_array, *place)?;
    }
    Ok(found)
}

// A parameter of this place, or an array of it.
fn param_of(elements: &[Place], is_array: bool, place: Place) -> Place
    requires { length elements.now ≤ 16 }
    ensures { result ≡ param_of elements.now is_array place }
{
    if is_array {
        Place::Ref(LIBRARY_TYPES + position(elements, place) as u32)
    } else {
        place
    }
}

/// The places of parameters, where those of arrays are references to the types of these elements' arrays.
pub fn params_of(
    alloc: Global,
    elements: &[Place],
    places: &[Place],
    arrays: &[bool],
) -> Result<Vec<Place>, AllocError>
    requires few { length elements.now ≤ 16 }
    requires pairs { length arrays.now ≡ length places.now }
    ensures { IfOk result (λ params. params.items ≡ params_of elements.now places.now arrays.now) }
{
    let mut params = Vec::new(alloc);
    for (place, is_array) in places.iter().zip(arrays) {
        params.push(param_of(elements, *is_array, *place))?;
    }
    Ok(params)
}
