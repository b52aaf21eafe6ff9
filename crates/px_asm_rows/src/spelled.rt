// The rows of TypeSpec: Partition II, 22.39.
ghost use Rattle.std.specs.Prelude.{◌≡◌, ◌<◌, ◌^◌, ◌++◌, IfOk, OnOk, length, map};
ghost use Rattle.std.specs.List.{AllByRecursion, AllZip, range_with_len};
ghost use Rattle.px_program.specs.Formed.{FitsPlace};
ghost use Rattle.px_program.specs.declared.program.Place.TheVariants as places;
ghost use Rattle.px_asm_law_written.specs.Holds.{IsSpecRow, all_places, integer_places};
ghost use Rattle.px_asm_law_written.specs.Store.{StoreGrows};

use px_asm_store::{Rows, Store, type_of};
use px_program::Place;
use px_tables::Row;
use std::alloc::{AllocError, Global};

// The places that hold integers, in the order of their rows.
static INTEGERS: [Place; 12] = [
    Place::Bool,
    Place::Char,
    Place::I1,
    Place::U1,
    Place::I2,
    Place::U2,
    Place::I4,
    Place::U4,
    Place::I8,
    Place::U8,
    Place::N,
    Place::UN,
];

// All places, where there are so many types.
fn places_of(alloc: Global, types: u32) -> Result<Vec<Place>, AllocError>
    ensures { IfOk result (λ made. made.items ≡ integer_places ++ map places.Ref (range_with_len 0 types)) }
{
    let mut made = Vec::from_slice(alloc, &INTEGERS)?;
    for number in 0..types {
        made.push(Place::Ref(number))?;
    }
    Ok(made)
}

// The row of a place.
fn spec_row(rows: &Rows, store: &mut Store, place: Place) -> Result<Row, AllocError>
    requires { FitsPlace rows.now.types place }
    ensures row { IfOk result (IsSpecRow rows.now store.new place) }
    ensures grows { OnOk result (StoreGrows store.old store.new) }
{
    let item = type_of(rows, place);
    let sig = store.type_sig(&item)?;
    Ok(Row {
        cells: [sig, 0, 0, 0, 0, 0, 0, 0, 0],
    })
}

// The rows of some places.
fn rows_of(
    alloc: Global,
    rows: &Rows,
    store: &mut Store,
    places: &[Place],
) -> Result<Vec<Row>, AllocError>
    requires { AllByRecursion (FitsPlace rows.now.types) places.now }
    ensures are { IfOk result (λ made. AllZip (IsSpecRow rows.now store.new) places.now made.items) }
    ensures grows { OnOk result (StoreGrows store.old store.new) }
{
    let mut made = Vec::new(alloc);
    for place in places {
        made.push(spec_row(rows, store, *place)?)?;
    }
    Ok(made)
}

/// The rows of all places.
pub fn spec_rows(alloc: Global, rows: &Rows, store: &mut Store) -> Result<Vec<Row>, AllocError>
    ensures are { IfOk result (λ made. AllZip (IsSpecRow rows.now store.new) (all_places rows.now) made.items) }
    ensures grows { OnOk result (StoreGrows store.old store.new) }
{
    let places = places_of(alloc, rows.program().types.len() as u32)?;
    rows_of(alloc, rows, store, &places)
}
