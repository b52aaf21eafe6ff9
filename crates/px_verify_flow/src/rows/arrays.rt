// Arrays and their elements.
ghost use Rattle.std.specs.Prelude.{◌≡◌, [], false, true};
ghost use Rattle.px_program.specs.Formed.{AreTypes};
ghost use Rattle.px_verify_flow.specs.Outcome.{Gives};
ghost use Rattle.px_verify_flow.specs.Rows.{element_bits, element_kind, element_place, element_row, fits_element, fits_form, form_bits, has_form, is_array, is_number, kind_of_form, length_row, new_array_row, place_of_integer};
ghost use Rattle.px_verify_kinds.specs.Kinds.{fits_kind};
ghost use Rattle.px_verify_kinds.specs.Stacks.{Extends, IsStack, kinds_of};

use super::comparisons::is_reference;
use super::numbers::{is_count, kind_of_integer};
use super::steps::{need, pop, push, some};
use crate::Stop;
use px_program::{ElementForm, IntegerType, Place, Program};
use px_verify_kinds::{Kind, Stack, Stacks, fits_kind, kind_of};

// What the elements of an array of a type are.
fn element_place(program: &Program, number: u32) -> Option<Place>
    ensures { result ≡ element_place program.now.types number }
{
    program.types.get(number as usize)?.element
}

// How many bits an element of an integer place takes; none of a reference.
fn element_bits(place: Place) -> Option<u32>
    ensures { result ≡ element_bits place }
{
    match place {
        Place::Bool | Place::I1 | Place::U1 => Some(8),
        Place::Char | Place::I2 | Place::U2 => Some(16),
        Place::I4 | Place::U4 => Some(32),
        Place::I8 | Place::U8 | Place::N | Place::UN => Some(64),
        Place::Ref(_) => None,
    }
}

// The integer place of a type that an instruction names.
fn place_of_integer(integer: IntegerType) -> Place
    ensures { result ≡ place_of_integer integer }
{
    match integer {
        IntegerType::I1 => Place::I1,
        IntegerType::U1 => Place::U1,
        IntegerType::I2 => Place::I2,
        IntegerType::U2 => Place::U2,
        IntegerType::I4 => Place::I4,
        IntegerType::U4 => Place::U4,
        IntegerType::I8 => Place::I8,
        IntegerType::U8 => Place::U8,
        IntegerType::N => Place::N,
        IntegerType::UN => Place::UN,
    }
}

fn form_bits(form: ElementForm) -> Option<u32>
    ensures { result ≡ form_bits form }
{
    match form {
        ElementForm::Integer(integer) => element_bits(place_of_integer(integer)),
        ElementForm::Reference => None,
        ElementForm::Typed(place) => element_bits(place),
    }
}

// Whether the form's width is the element's, or both are references.
fn has_form(form: ElementForm, place: Place) -> bool
    ensures { result ≡ has_form form place }
{
    match (form_bits(form), element_bits(place)) {
        (None, None) => true,
        (Some(bits), Some(others)) => bits == others,
        _ => false,
    }
}

// What is loaded from an array that is null, as far as its instruction tells.
fn kind_of_form(form: ElementForm) -> Kind
    ensures { result ≡ kind_of_form form }
{
    match form {
        ElementForm::Integer(integer) => kind_of_integer(integer),
        ElementForm::Reference => Kind::Null,
        ElementForm::Typed(place) => kind_of(place),
    }
}

/// A new array of a type, whose length is taken.
pub fn new_array_row(stacks: &mut Stacks, number: u32, stack: Stack) -> Result<Stack, Stop>
    requires { IsStack stacks.old stack }
    ensures gives { Gives stacks.new result (new_array_row number (kinds_of stacks.old stack)) }
    ensures kept { Extends stacks.old stacks.new }
{
    let (count, below) = pop(stacks, stack)?;
    need(is_count(count))?;
    push(stacks, below, Kind::Ref(number))
}

fn is_array(program: &Program, kind: Kind) -> bool
    ensures { result ≡ is_array program.now.types kind }
{
    match kind {
        Kind::Null => true,
        Kind::Ref(number) => match element_place(program, number) {
            None => false,
            Some(_) => true,
        },
        _ => false,
    }
}

/// The length of an array.
pub fn length_row(stacks: &mut Stacks, program: &Program, stack: Stack) -> Result<Stack, Stop>
    requires { IsStack stacks.old stack }
    ensures gives { Gives stacks.new result (length_row program.now.types (kinds_of stacks.old stack)) }
    ensures kept { Extends stacks.old stacks.new }
{
    let (array, below) = pop(stacks, stack)?;
    need(is_array(program, array))?;
    push(stacks, below, Kind::N)
}

// The kind of an element of an array of this kind, where the instruction's form is right for it.
fn element_kind(program: &Program, form: ElementForm, array: Kind) -> Option<Kind>
    ensures { result ≡ element_kind program.now.types form array }
{
    match array {
        Kind::Null => Some(kind_of_form(form)),
        Kind::Ref(number) => match element_place(program, number) {
            None => None,
            Some(place) => {
                if has_form(form, place) {
                    Some(kind_of(place))
                } else {
                    None
                }
            }
        },
        _ => None,
    }
}

// An element of an array.
fn load_element_row(
    stacks: &mut Stacks,
    program: &Program,
    form: ElementForm,
    stack: Stack,
) -> Result<Stack, Stop>
    requires { IsStack stacks.old stack }
    ensures gives { Gives stacks.new result (element_row program.now.types false form (kinds_of stacks.old stack)) }
    ensures kept { Extends stacks.old stacks.new }
{
    let (index, rest) = pop(stacks, stack)?;
    let (array, below) = pop(stacks, rest)?;
    need(is_count(index))?;
    let kind = some(element_kind(program, form, array))?;
    push(stacks, below, kind)
}

// Whether a value is of a number's kind.
fn fits_number(value: Kind, wanted: Kind) -> bool
    requires { is_number wanted ≡ true }
    ensures { result ≡ fits_kind [] value wanted }
{
    match (value, wanted) {
        (Kind::I, Kind::I) | (Kind::L, Kind::L) | (Kind::N, Kind::N) => true,
        _ => false,
    }
}

// Whether a value may be stored into an array that is null: it is of the form's kind.
fn fits_form(form: ElementForm, value: Kind) -> bool
    ensures { result ≡ fits_form form value }
{
    match form {
        ElementForm::Integer(integer) => fits_number(value, kind_of_integer(integer)),
        ElementForm::Reference => is_reference(value),
        ElementForm::Typed(place) => match place {
            Place::Ref(_) => is_reference(value),
            _ => fits_number(value, kind_of(place)),
        },
    }
}

// Whether a value may be stored into an array of this kind.
fn fits_element(program: &Program, form: ElementForm, array: Kind, value: Kind) -> bool
    requires { AreTypes program.now.types }
    ensures { result ≡ fits_element program.now.types form array value }
{
    match array {
        Kind::Null => fits_form(form, value),
        Kind::Ref(number) => match element_place(program, number) {
            None => false,
            Some(place) => has_form(form, place) && fits_kind(program, value, kind_of(place)),
        },
        _ => false,
    }
}

// A value becomes an element of an array.
fn store_element_row(
    stacks: &Stacks,
    program: &Program,
    form: ElementForm,
    stack: Stack,
) -> Result<Stack, Stop>
    requires types { AreTypes program.now.types }
    requires stack { IsStack stacks.now stack }
    ensures { Gives stacks.now result (element_row program.now.types true form (kinds_of stacks.now stack)) }
{
    let (value, rest) = pop(stacks, stack)?;
    let (index, others) = pop(stacks, rest)?;
    let (array, below) = pop(stacks, others)?;
    need(is_count(index) && fits_element(program, form, array, value))?;
    Ok(below)
}

/// A load or a store of an array's element.
pub fn element_row(
    stacks: &mut Stacks,
    program: &Program,
    store: bool,
    form: ElementForm,
    stack: Stack,
) -> Result<Stack, Stop>
    requires types { AreTypes program.now.types }
    requires stack { IsStack stacks.old stack }
    ensures gives { Gives stacks.new result (element_row program.now.types store form (kinds_of stacks.old stack)) }
    ensures kept { Extends stacks.old stacks.new }
{
    if store {
        store_element_row(stacks, program, form, stack)
    } else {
        load_element_row(stacks, program, form, stack)
    }
}
