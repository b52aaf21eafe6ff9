// What instructions do, by the numbers of types and methods.
ghost use Rattle.std.specs.Prelude.{◌≡◌, ◌≢◌, ◌<◌, ◌%◌, ◌^◌, IfOk, Some, false, length, map, true};
ghost use Rattle.std.specs.List.{AllZip, flat_map};
ghost use Rattle.px_meta.specs.Members.{owner_of};
ghost use Rattle.px_meta.specs.Rows.{IsRow, fields, is_in};
ghost use Rattle.px_link_opcodes.specs.Opcodes.{plain_code};
ghost use Rattle.px_link_reach.specs.Met.{operand_at, target_of};
ghost use Rattle.px_link_types.specs.Keys.{alone};
ghost use Rattle.px_link_types.specs.Making.{AreNumberedIn};
ghost use Rattle.px_link_types.specs.Numbers.{is_integer, is_numbered};
ghost use Rattle.px_link_types.specs.declared.key.Leaf.TheVariants.{Defined};
ghost use Rattle.px_link_methods.specs.Codes.{IsCode, IsInstr, IsTokenCode, call_code, code_with, field_code, method_code, place_of, type_code};
ghost use Rattle.px_link_methods.specs.Methods.{keys_of_instr};
ghost use Rattle.px_link_methods.specs.Parts.{AreAmong, IsLinked, is_element};

use crate::fields::field_among;
use crate::operands::{operand_at, token_of};
use crate::places::{number_of, places_of_keys};
use crate::slots::SlotForms;
use indexmap::IndexSet;
use px_code::RawInstr;
use px_link_opcodes::{outside, plain_code};
use px_link_tokens::{Operand, Tokens};
use px_link_types::{Key, Types};
use px_meta::Meta;
use px_program::{Callee, Code, ElementForm, Instr, Move};
use px_shared::SharedList;
use std::alloc::{AllocError, Global};

// The number of a method among those that have numbers.
fn number_of_method(rows: &IndexSet<u32>, row: u32) -> u32
    requires few { length rows.now.keys < 2 ^ 32 }
    requires there { is_in rows.now.keys row ≡ true }
    ensures { result ≡ place_of rows.now.keys row }
{
    match rows.get_index_of(&row) {
        Some(number) => number as u32,
        None => unreachable!(),
    }
}

// What an instruction does with the type that it names: it makes an array of it, reaches an element, or casts.
fn type_code(types: &Types, opcode: u16, key: Key) -> Code
    requires numbered { is_numbered types.now.keys key ≡ true }
    requires no_integer { is_element opcode ≡ false → is_integer key ≡ false }
    ensures { result ≡ type_code types.now.keys opcode key }
{
    match opcode {
        0x8D => Code::NewArray(number_of(types, key)),
        0xA3 | 0xA4 => Code::Element {
            store: opcode == 0xA4,
            form: ElementForm::Typed(types.place(key)),
        },
        _ => Code::Cast {
            throws: opcode == 0x74,
            class: number_of(types, key),
        },
    }
}

// What an instruction does with the field that it names.
fn field_code(
    alloc: Global,
    meta: &Meta,
    types: &Types,
    opcode: u16,
    field: u32,
) -> Result<Code, AllocError>
    requires row { IsRow meta.now fields field }
    requires owned { owner_of meta.now fields field ≢ 0 }
    requires numbered { is_numbered types.now.keys (alone (Defined (owner_of meta.now fields field))) ≡ true }
    ensures { IfOk result (λ code. code ≡ field_code meta.now types.now.keys opcode field) }
{
    match opcode {
        0x7B | 0x7D => Ok(Code::Field {
            store: opcode == 0x7D,
            field: field_among(alloc, meta, types, field, false)?,
        }),
        _ => Ok(Code::Static {
            store: opcode == 0x80,
            field: field_among(alloc, meta, types, field, true)?,
        }),
    }
}

// A call, or a new object that is given to the constructor.
fn call_code(opcode: u16, callee: Callee) -> Code
    ensures { result ≡ call_code opcode callee }
{
    if opcode == 0x73 {
        Code::NewObject(callee)
    } else {
        Code::Call(callee)
    }
}

// What an instruction does with the method that it names.
fn method_code(rows: &IndexSet<u32>, opcode: u16, method: u32) -> Code
    requires few { length rows.now.keys < 2 ^ 32 }
    requires there { is_in rows.now.keys method ≡ true }
    ensures { result ≡ method_code rows.now.keys opcode method }
{
    let number = number_of_method(rows, method);
    if opcode == 0x6F {
        Code::CallVirtual(number)
    } else {
        call_code(opcode, Callee::Method(number))
    }
}

// What an instruction does with what its token names.
fn code_with(
    alloc: Global,
    tokens: &Tokens,
    types: &Types,
    rows: &IndexSet<u32>,
    opcode: u16,
    operand: Operand,
) -> Result<Code, AllocError>
    requires few { length rows.now.keys < 2 ^ 32 }
    requires linked { IsLinked tokens.now (record { keys = types.now.keys; rows = rows.now.keys }) opcode operand }
    ensures { IfOk result (λ code. code ≡ code_with tokens.now (record { keys = types.now.keys; rows = rows.now.keys }) opcode operand) }
{
    match operand {
        Operand::Text(units) => Ok(Code::Move(Move::Text(units))),
        Operand::Type(key) => Ok(type_code(types, opcode, key)),
        Operand::Field(field) => field_code(alloc, tokens.meta(), types, opcode, field),
        Operand::Method(method) => Ok(method_code(rows, opcode, method)),
        Operand::Constructor { class, params } => {
            let params = places_of_keys(alloc, types, params.as_slice())?;
            Ok(call_code(opcode, Callee::Constructor { class, params }))
        }
        Operand::Check(check) => Ok(Code::Check(check)),
    }
}

// What an instruction with a token does.
fn token_code(
    alloc: Global,
    tokens: &Tokens,
    types: &Types,
    rows: &IndexSet<u32>,
    raw: &RawInstr,
) -> Result<Code, AllocError>
    requires few { length rows.now.keys < 2 ^ 32 }
    requires types { AreNumberedIn types.now.keys (keys_of_instr tokens.now raw.now) }
    requires methods { AreAmong rows.now.keys (target_of tokens.now raw.now) }
    ensures { IfOk result (IsTokenCode tokens.now (record { keys = types.now.keys; rows = rows.now.keys }) raw.now (operand_at tokens.now raw.now)) }
{
    match operand_at(tokens, raw)? {
        Some(operand) => code_with(alloc, tokens, types, rows, raw.opcode, operand),
        None => {
            let name = tokens.outside_name(raw.opcode, token_of(raw))?;
            Ok(Code::Outside(name, raw.opcode))
        }
    }
}

// What an instruction does.
fn code_of(
    alloc: Global,
    tokens: &Tokens,
    types: &Types,
    rows: &IndexSet<u32>,
    forms: &SlotForms,
    raw: &RawInstr,
) -> Result<Code, AllocError>
    requires few { length rows.now.keys < 2 ^ 32 }
    requires types { AreNumberedIn types.now.keys (keys_of_instr tokens.now raw.now) }
    requires methods { AreAmong rows.now.keys (target_of tokens.now raw.now) }
    ensures { IfOk result (IsCode tokens.now (record { keys = types.now.keys; rows = rows.now.keys }) forms.now raw.now (plain_code raw.now)) }
{
    match plain_code(alloc, raw)? {
        Some(code) if forms.bars(&code) => outside(alloc, raw.opcode),
        Some(code) => Ok(code),
        None => token_code(alloc, tokens, types, rows, raw),
    }
}

/// The instructions of a method, by those of its body.
pub fn instrs_of(
    alloc: Global,
    tokens: &Tokens,
    types: &Types,
    rows: &IndexSet<u32>,
    forms: &SlotForms,
    raws: &[RawInstr],
) -> Result<SharedList<Instr>, AllocError>
    requires few { length rows.now.keys < 2 ^ 32 }
    requires types { AreNumberedIn types.now.keys (flat_map (keys_of_instr tokens.now) raws.now) }
    requires methods { AreAmong rows.now.keys (flat_map (target_of tokens.now) raws.now) }
    ensures { IfOk result (AllZip (IsInstr tokens.now (record { keys = types.now.keys; rows = rows.now.keys }) forms.now) raws.now) }
{
    let mut instrs = Vec::new(alloc);
    for raw in raws {
        instrs.push(Instr {
            offset: raw.offset,
            next: raw.next,
            code: code_of(alloc, tokens, types, rows, forms, raw)?,
        })?;
    }
    SharedList::from_vec(instrs)
}
