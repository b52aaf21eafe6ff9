// Fields of objects and static fields.
ghost use Rattle.std.specs.Prelude.{◌≡◌, false, true};
ghost use Rattle.px_program.specs.Formed.{AreTypes};
ghost use Rattle.px_verify_flow.specs.Outcome.{Gives};
ghost use Rattle.px_verify_flow.specs.Rows.{field_place, field_row, static_place, static_row};
ghost use Rattle.px_verify_kinds.specs.Stacks.{Extends, IsStack, kinds_of};

use super::moves::{fits_place, load_row, store_row};
use super::steps::{need, pop};
use crate::Stop;
use px_program::{Field, Place, Program};
use px_verify_kinds::{Kind, Stack, Stacks, fits_kind};

// What a field holds, where it is there.
fn field_place(program: &Program, field: Field) -> Option<Place>
    ensures { result ≡ field_place program.now.types field }
{
    let info = program.types.get(field.owner as usize)?;
    info.fields.get(field.index as usize).copied()
}

// What a static field holds, where it is there.
fn static_place(program: &Program, field: Field) -> Option<Place>
    ensures { result ≡ static_place program.now.types field }
{
    let info = program.types.get(field.owner as usize)?;
    info.statics.get(field.index as usize).copied()
}

// An object that has the field is taken, and what the field holds is pushed.
fn load_field_row(
    stacks: &mut Stacks,
    program: &Program,
    field: Field,
    stack: Stack,
) -> Result<Stack, Stop>
    requires types { AreTypes program.now.types }
    requires stack { IsStack stacks.old stack }
    ensures gives { Gives stacks.new result (field_row program.now.types false field (kinds_of stacks.old stack)) }
    ensures kept { Extends stacks.old stacks.new }
{
    let (object, below) = pop(stacks, stack)?;
    need(fits_kind(program, object, Kind::Ref(field.owner)))?;
    load_row(stacks, field_place(program, field), below)
}

// A value that fits the field and an object that has it are taken.
fn store_field_row(
    stacks: &Stacks,
    program: &Program,
    field: Field,
    stack: Stack,
) -> Result<Stack, Stop>
    requires types { AreTypes program.now.types }
    requires stack { IsStack stacks.now stack }
    ensures { Gives stacks.now result (field_row program.now.types true field (kinds_of stacks.now stack)) }
{
    let (value, rest) = pop(stacks, stack)?;
    let (object, below) = pop(stacks, rest)?;
    let has_field = fits_kind(program, object, Kind::Ref(field.owner));
    need(has_field && fits_place(program, value, field_place(program, field)))?;
    Ok(below)
}

/// A load or a store of an object's field.
pub fn field_row(
    stacks: &mut Stacks,
    program: &Program,
    store: bool,
    field: Field,
    stack: Stack,
) -> Result<Stack, Stop>
    requires types { AreTypes program.now.types }
    requires stack { IsStack stacks.old stack }
    ensures gives { Gives stacks.new result (field_row program.now.types store field (kinds_of stacks.old stack)) }
    ensures kept { Extends stacks.old stacks.new }
{
    if store {
        store_field_row(stacks, program, field, stack)
    } else {
        load_field_row(stacks, program, field, stack)
    }
}

/// A load or a store of a static field.
pub fn static_row(
    stacks: &mut Stacks,
    program: &Program,
    store: bool,
    field: Field,
    stack: Stack,
) -> Result<Stack, Stop>
    requires types { AreTypes program.now.types }
    requires stack { IsStack stacks.old stack }
    ensures gives { Gives stacks.new result (static_row program.now.types store field (kinds_of stacks.old stack)) }
    ensures kept { Extends stacks.old stacks.new }
{
    let place = static_place(program, field);
    if store {
        store_row(stacks, program, place, stack)
    } else {
        load_row(stacks, place, stack)
    }
}
