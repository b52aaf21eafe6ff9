// Fields, by the numbers of their owners.
ghost use Rattle.std.specs.Prelude.{◌≡◌, ◌≢◌, ◌<◌, ◌≤◌, ◌==◌, IfOk, IfSome, length, position, true};
ghost use Rattle.px_meta.specs.Members.{owner_of};
ghost use Rattle.px_meta.specs.Rows.{IsRow, count_of, fields, type_defs};
ghost use Rattle.px_link_types.specs.Keys.{alone};
ghost use Rattle.px_link_types.specs.Numbers.{is_numbered};
ghost use Rattle.px_link_methods.specs.Codes.{field_among, place_of};
ghost use Rattle.px_link_methods.specs.Parts.{fields_by};

use crate::places::number_of_row;
use px_link_types::{Leaf, Types, instance_fields, static_fields};
use px_meta::{FIELDS, Meta};
use px_program::Field;
use std::alloc::{AllocError, Global};

// Where a row stands among some, if it is among them.
fn position(rows: &[u32], row: u32) -> Option<usize>
    ensures place { result ≡ position (λ other. other == row) rows.now }
    ensures within { IfSome result (λ place. place < length rows.now) }
{
    rows.iter().position(|other| *other == row)
}

// Where a row stands among some, and their count where it isn't among them.
fn place_of(rows: &[u32], row: u32) -> usize
    ensures place { result ≡ place_of rows.now row }
    ensures within { result ≤ length rows.now }
{
    position(rows, row).unwrap_or(rows.len())
}

// The static fields of a type, or those of its instances.
fn fields_by(
    alloc: Global,
    meta: &Meta,
    owner: u32,
    is_static: bool,
) -> Result<Vec<u32>, AllocError>
    requires { IsRow meta.now type_defs owner }
    ensures { IfOk result (λ rows. rows.items ≡ fields_by meta.now is_static owner) }
{
    if is_static {
        static_fields(alloc, meta, owner)
    } else {
        instance_fields(alloc, meta, owner)
    }
}

/// The type that has a field.
pub fn owner_of(meta: &Meta, field: u32) -> u32
    requires { IsRow meta.now fields field }
    ensures { result ≡ owner_of meta.now fields field }
{
    meta.fields()[field as usize - 1].owner
}

/// A field by the number of its owner, and its place among the owner's static fields, or among those of its instances.
pub fn field_among(
    alloc: Global,
    meta: &Meta,
    types: &Types,
    field: u32,
    is_static: bool,
) -> Result<Field, AllocError>
    requires row { IsRow meta.now fields field }
    requires owned { owner_of meta.now fields field ≢ 0 }
    requires numbered { is_numbered types.now.keys (alone (Leaf.Defined (owner_of meta.now fields field))) ≡ true }
    ensures { IfOk result (λ made. made ≡ field_among meta.now types.now.keys (fields_by meta.now is_static) field) }
{
    let owner = owner_of(meta, field);
    let rows = fields_by(alloc, meta, owner, is_static)?;
    // of which there are no more than rows of the table, whose count has 32 bits
    let _count = meta.tables().rows(FIELDS);
    Ok(Field {
        owner: number_of_row(types, owner),
        index: place_of(&rows, field) as u32,
    })
}
