// The tokens of instructions.
ghost use Rattle.std.specs.Prelude.{◌≡◌, ◌⊎◌, ◌<◌, ◌^◌, true, length, IfOk, OnOk, slice_get};
ghost use Rattle.px_meta.specs.Rows.{fields, member_refs, methods, type_specs};
ghost use Rattle.px_program.specs.Formed.{CanCall, CanMake, FitsPlace, HasField, HasOperands, has_element};
ghost use Rattle.px_asm_law_written.specs.Store.{AreReferences, StoreGrows};
ghost use Rattle.px_asm_law_written.specs.Tokens.{CalleeHas, HasElementAt, HasTextAt, HasTokenIn, check_row, field_row, spec_row, static_row, token};
ghost use Rattle.px_asm_described.specs.Describes.{method_row};

use px_asm_store::{Rows, Store};
use px_program::{Callee, Check, Code, ElementForm, Field, Move, Place};
use std::alloc::{AllocError, Global};

// The heap of texts and the tables of rows, as the first byte of a token.
const TEXTS: u32 = 0x7000_0000;

const FIELDS: u32 = 0x0400_0000;

const METHOD_TOKENS: u32 = 0x0600_0000;

const MEMBER_REFS: u32 = 0x0A00_0000;

const TYPE_SPECS: u32 = 0x1B00_0000;

// The row of TypeSpec that spells a place.
fn spec_row(rows: &Rows, place: Place) -> u32
    requires { FitsPlace rows.now.types place }
    ensures row { result ≡ spec_row place }
    ensures few { result < 2 ^ 24 }
{
    // there is room for a row of each type
    let _program = rows.program();
    match place {
        Place::Bool => 1,
        Place::Char => 2,
        Place::I1 => 3,
        Place::U1 => 4,
        Place::I2 => 5,
        Place::U2 => 6,
        Place::I4 => 7,
        Place::U4 => 8,
        Place::I8 => 9,
        Place::U8 => 10,
        Place::N => 11,
        Place::UN => 12,
        Place::Ref(number) => 13 + number,
    }
}

// The token that spells a place.
fn spec_token(rows: &Rows, place: Place) -> u32
    requires { FitsPlace rows.now.types place }
    ensures { result ≡ token type_specs (spec_row place) }
{
    TYPE_SPECS + spec_row(rows, place)
}

// The token that spells the elements of an array type.
fn element_token(rows: &Rows, array: u32) -> u32
    requires { has_element (slice_get rows.now.types array) ≡ true }
    ensures { HasElementAt rows.now array result }
{
    let types = rows.program().types.as_slice();
    let element = types[array as usize].element.unwrap();
    spec_token(rows, element)
}

// The token of a field of instances.
fn field_token(rows: &Rows, field: &Field) -> u32
    requires { HasField (λ t. t.fields) rows.now.types field.now }
    ensures { result ≡ token fields (field_row rows.now field.now) }
{
    // there is room for a row of each field
    let _program = rows.program();
    FIELDS + rows.first_field(field.owner) + field.index
}

// The token of a static field, which stands behind the fields of instances.
fn static_token(rows: &Rows, field: &Field) -> u32
    requires { HasField (λ t. t.statics) rows.now.types field.now }
    ensures { result ≡ token fields (static_row rows.now field.now) }
{
    let types = rows.program().types.as_slice();
    let instances = types[field.owner as usize].fields.len() as u32;
    FIELDS + rows.first_field(field.owner) + field.index + instances
}

// The token of a method of the program.
fn method_token(rows: &Rows, method: u32) -> u32
    requires { method < length rows.now.methods }
    ensures { result ≡ token methods (method_row rows.now method) }
{
    METHOD_TOKENS + rows.method_row(method)
}

// The token of a check, whose rows come first.
fn check_token(check: Check) -> u32
    ensures { result ≡ token member_refs (check_row check) }
{
    match check {
        Check::Assume => MEMBER_REFS + 1,
        Check::Assert => MEMBER_REFS + 2,
    }
}

// The token of a text, by its place among the texts.
fn text_token(rows: &Rows, store: &mut Store, units: &[u16]) -> Result<u32, AllocError>
    requires before { AreReferences rows.now store.old }
    ensures token { IfOk result (HasTextAt store.new units.now) }
    ensures grows { OnOk result (StoreGrows store.old store.new) }
    ensures kept { OnOk result (AreReferences rows.now store.new) }
{
    Ok(TEXTS + store.text(units)?)
}

// The token of what is called.
fn callee_token(rows: &Rows, store: &mut Store, callee: &Callee) -> Result<u32, AllocError>
    requires there { CanCall rows.now callee.now ⊎ CanMake rows.now callee.now }
    requires before { AreReferences rows.now store.old }
    ensures token { IfOk result (CalleeHas rows.now store.new callee.now) }
    ensures grows { OnOk result (StoreGrows store.old store.new) }
    ensures kept { OnOk result (AreReferences rows.now store.new) }
{
    match callee {
        Callee::Method(method) => Ok(method_token(rows, *method)),
        Callee::Constructor { class, params } => store.constructor(rows, *class, params.as_slice()),
    }
}

/// The token that an instruction has where the program is written, and 0 where it has none. Texts and constructors are added to the store.
pub fn token_of(rows: &Rows, store: &mut Store, code: &Code) -> Result<u32, AllocError>
    requires operands { HasOperands rows.now code.now }
    requires before { AreReferences rows.now store.old }
    ensures token { IfOk result (HasTokenIn rows.now store.new code.now) }
    ensures grows { OnOk result (StoreGrows store.old store.new) }
    ensures kept { OnOk result (AreReferences rows.now store.new) }
{
    match code {
        Code::Move(Move::Text(units)) => text_token(rows, store, units.as_slice()),
        Code::NewArray(array) => Ok(element_token(rows, *array)),
        Code::Element {
            form: ElementForm::Typed(place),
            ..
        } => Ok(spec_token(rows, *place)),
        Code::Cast { class, .. } => Ok(spec_token(rows, Place::Ref(*class))),
        Code::Field { field, .. } => Ok(field_token(rows, field)),
        Code::Static { field, .. } => Ok(static_token(rows, field)),
        Code::Call(callee) | Code::NewObject(callee) => callee_token(rows, store, callee),
        Code::CallVirtual(method) => Ok(method_token(rows, *method)),
        Code::Check(check) => Ok(check_token(*check)),
        _ => Ok(0),
    }
}
