// The types that methods meet.
ghost use Rattle.std.specs.Prelude.{◌≡◌, ◌∷◌, ◌++◌, ℕ, [], map, OnOk, Some};
ghost use Rattle.std.specs.List.{AllByRecursion, flat_map};
ghost use Rattle.px_meta.specs.Members.{method_sig_at};
ghost use Rattle.px_meta.specs.Rows.{IsRow, cell, methods, type_defs};
ghost use Rattle.px_link_reach.specs.Met.{IsOwned};
ghost use Rattle.px_link_reach.specs.declared.body.Whole.{Whole};
ghost use Rattle.px_link_types.specs.Keys.{IsLeaf, alone, place_key};
ghost use Rattle.px_link_types.specs.Numbers.{Numbers};
ghost use Rattle.px_link_methods.specs.Methods.{AreByAddress, keys_of_body, keys_of_clause, keys_of_instr, keys_of_operand, keys_of_sig, met_by_all};
ghost use Rattle.px_link_methods.specs.Parts.{ArePassed, IsAdded, IsMet, IsNamed, IsPassed, body_keys, sig_keys};

use crate::clauses::caught;
use crate::fields::owner_of;
use crate::names::method_at;
use crate::operands::operand_at;
use px_code::{RawClause, RawInstr};
use px_link_reach::Whole;
use px_link_tokens::{Operand, Tokens};
use px_link_types::{Key, Leaf, Types, place_key};
use px_meta::{METHODS, Meta, cell_of};
use px_shared::Shared;
use px_sig::{MethodSig, SigType};
use std::alloc::{AllocError, Global};
use std::collections::BTreeSet;

// Adds a class.
fn push_class(meta: &Meta, keys: &mut Vec<Key>, leaf: Leaf) -> Result<(), AllocError>
    requires { IsLeaf meta.now leaf }
    ensures { OnOk result (IsAdded meta.now keys.old.items (alone leaf ∷ []) keys.new.items) }
{
    keys.push(Key { depth: 0, leaf })?;
    Ok(())
}

// Adds what types of a signature are.
fn push_places(meta: &Meta, keys: &mut Vec<Key>, items: &[SigType]) -> Result<(), AllocError>
    ensures { OnOk result (IsAdded meta.now keys.old.items (map (place_key meta.now) items.now) keys.new.items) }
{
    for item in items {
        keys.push(place_key(meta, *item))?;
    }
    Ok(())
}

// Adds the types of what an instruction names.
fn push_operand(
    meta: &Meta,
    keys: &mut Vec<Key>,
    opcode: u16,
    operand: &Operand,
) -> Result<(), AllocError>
    requires { IsNamed meta.now opcode operand.now }
    ensures { OnOk result (IsAdded meta.now keys.old.items (keys_of_operand meta.now (Some operand.now)) keys.new.items) }
{
    match operand {
        Operand::Type(key) => keys.push(*key)?,
        Operand::Field(field) => push_class(meta, keys, Leaf::Defined(owner_of(meta, *field)))?,
        Operand::Constructor { class, params } => {
            push_class(meta, keys, Leaf::Library(*class))?;
            keys.extend_from_slice(params.as_slice())?;
        }
        _ => {}
    }
    Ok(())
}

// Adds the types of what an instruction names, where it names something.
fn push_instr(tokens: &Tokens, keys: &mut Vec<Key>, raw: &RawInstr) -> Result<(), AllocError>
    ensures { OnOk result (IsAdded tokens.now keys.old.items (keys_of_instr tokens.now raw.now) keys.new.items) }
{
    match operand_at(tokens, raw)? {
        Some(operand) => push_operand(tokens.meta(), keys, raw.opcode, &operand),
        None => Ok(()),
    }
}

// Adds the types of what the instructions of a body name.
fn push_instrs(tokens: &Tokens, keys: &mut Vec<Key>, raws: &[RawInstr]) -> Result<(), AllocError>
    ensures { OnOk result (IsAdded tokens.now keys.old.items (flat_map (keys_of_instr tokens.now) raws.now) keys.new.items) }
{
    for raw in raws {
        push_instr(tokens, keys, raw)?;
    }
    Ok(())
}

// Adds the class that a catch is for.
fn push_clause(meta: &Meta, keys: &mut Vec<Key>, raw: &RawClause) -> Result<(), AllocError>
    ensures { OnOk result (IsAdded meta.now keys.old.items (keys_of_clause meta.now raw.now) keys.new.items) }
{
    match caught(meta, raw) {
        Some(leaf) => push_class(meta, keys, leaf),
        None => Ok(()),
    }
}

// Adds the classes that catches are for.
fn push_clauses(meta: &Meta, keys: &mut Vec<Key>, raws: &[RawClause]) -> Result<(), AllocError>
    ensures { OnOk result (IsAdded meta.now keys.old.items (flat_map (keys_of_clause meta.now) raws.now) keys.new.items) }
{
    for raw in raws {
        push_clause(meta, keys, raw)?;
    }
    Ok(())
}

// Adds what a method's body meets.
fn push_body(tokens: &Tokens, keys: &mut Vec<Key>, whole: &Whole) -> Result<(), AllocError>
    ensures { OnOk result (IsAdded tokens.now keys.old.items (keys_of_body tokens.now whole.now) keys.new.items) }
{
    push_places(tokens.meta(), keys, whole.locals.as_slice())?;
    push_instrs(tokens, keys, whole.body.code.as_slice())?;
    push_clauses(tokens.meta(), keys, whole.body.clauses.as_slice())
}

// Adds what a method's signature spells.
fn push_sig(meta: &Meta, keys: &mut Vec<Key>, sig: &MethodSig) -> Result<(), AllocError>
    ensures { OnOk result (IsAdded meta.now keys.old.items (keys_of_sig meta.now (Some sig.now)) keys.new.items) }
{
    push_places(meta, keys, sig.params.as_slice())?;
    keys.push(place_key(meta, sig.ret))?;
    Ok(())
}

// What was gone through so far: signatures by their places, and bodies by their addresses.
#[derive(Drop)]
struct Passed {
    sigs: BTreeSet<u32>,
    bodies: BTreeSet<u32>,
}

// Gives a number to the type that has a method.
fn meet_owner(types: &mut Types, owner: u32) -> Result<(), AllocError>
    requires { IsRow types.old.tables type_defs owner }
    ensures tables { types.new.tables ≡ types.old.tables }
    ensures numbers { OnOk result (Numbers types.old.tables types.old.keys (alone (Leaf.Defined owner) ∷ []) types.new.keys) }
{
    let leaf = Leaf::Defined(owner);
    types.meet(&[Key { depth: 0, leaf }])
}

// Gives numbers to the types of the signature at a place, unless it was gone through before.
fn meet_sig(
    alloc: Global,
    types: &mut Types,
    passed: &mut BTreeSet<u32>,
    meta: &Meta,
    at: u32,
    sig: &MethodSig,
) -> Result<(), AllocError>
    requires tables { types.old.tables ≡ meta.now }
    requires sig { method_sig_at meta.now at ≡ Some sig.now }
    requires passed { ArePassed types.old.keys (sig_keys meta.now) passed.old }
    ensures tables { types.new.tables ≡ types.old.tables }
    ensures passed { OnOk result (IsPassed meta.now (sig_keys meta.now) at types.old.keys types.new.keys passed.new) }
{
    if passed.contains(&at) {
        return Ok(());
    }
    let mut keys = Vec::new(alloc);
    push_sig(meta, &mut keys, sig)?;
    types.meet(&keys)?;
    passed.insert(at)?;
    Ok(())
}

// Gives numbers to the types that the body at an address meets, unless it was gone through before.
fn meet_body(
    alloc: Global,
    types: &mut Types,
    passed: &mut BTreeSet<u32>,
    tokens: &Tokens,
    at: u32,
    whole: &Whole,
) -> Result<(), AllocError>
    requires { types.old.tables ≡ tokens.now }
    ensures tables { types.new.tables ≡ types.old.tables }
    ensures passed { (body : ℕ → Whole) → body at ≡ whole.now → ArePassed types.old.keys (body_keys tokens.now body) passed.old → OnOk result (IsPassed tokens.now (body_keys tokens.now body) at types.old.keys types.new.keys passed.new) }
{
    if passed.contains(&at) {
        return Ok(());
    }
    let mut keys = Vec::new(alloc);
    push_body(tokens, &mut keys, whole)?;
    types.meet(&keys)?;
    passed.insert(at)?;
    Ok(())
}

// Gives numbers to the types that a method meets.
fn meet_method(
    alloc: Global,
    types: &mut Types,
    passed: &mut Passed,
    tokens: &Tokens,
    row: u32,
    whole: &Whole,
) -> Result<(), AllocError>
    requires tables { types.old.tables ≡ tokens.now }
    requires owned { IsOwned tokens.now row }
    requires sigs { ArePassed types.old.keys (sig_keys tokens.now) passed.old.sigs }
    ensures tables { types.new.tables ≡ types.old.tables }
    ensures met { (body : ℕ → Whole) → body (cell tokens.now methods row 0) ≡ whole.now → ArePassed types.old.keys (body_keys tokens.now body) passed.old.bodies → OnOk result (IsMet tokens.now body (row, whole.now) types.old.keys types.new.keys passed.new) }
{
    let meta = tokens.meta();
    let method = method_at(meta, row);
    meet_owner(types, method.owner)?;
    let at = cell_of(meta.tables(), METHODS, row, 4);
    meet_sig(alloc, types, &mut passed.sigs, meta, at, method.sig.get())?;
    meet_body(alloc, types, &mut passed.bodies, tokens, method.rva, whole)
}

// Gives numbers to the types that methods meet, a method at a time.
fn meet_each(
    alloc: Global,
    types: &mut Types,
    passed: &mut Passed,
    tokens: &Tokens,
    rows: &[u32],
    bodies: &[Shared<Whole>],
) -> Result<(), AllocError>
    requires tables { types.old.tables ≡ tokens.now }
    requires owned { AllByRecursion (IsOwned tokens.now) rows.now }
    requires shared { AreByAddress tokens.now rows.now bodies.now }
    requires sigs { passed.old.sigs.keys ≡ [] }
    requires bodies { passed.old.bodies.keys ≡ [] }
    ensures tables { types.new.tables ≡ types.old.tables }
    ensures numbers { OnOk result (Numbers tokens.now types.old.keys (met_by_all tokens.now rows.now bodies.now) types.new.keys) }
{
    for (row, whole) in rows.iter().zip(bodies) {
        meet_method(alloc, types, passed, tokens, *row, whole.get())?;
    }
    Ok(())
}

/// Gives numbers to the types that methods meet, by their rows and bodies: of each its owner, those of its parameters, its return and its locals, those
/// that its instructions name, and the classes of its clauses. Methods with one address share a body, which is gone through once.
pub fn meet_all(
    alloc: Global,
    types: &mut Types,
    tokens: &Tokens,
    rows: &[u32],
    bodies: &[Shared<Whole>],
) -> Result<(), AllocError>
    requires tables { types.old.tables ≡ tokens.now }
    requires owned { AllByRecursion (IsOwned tokens.now) rows.now }
    requires shared { AreByAddress tokens.now rows.now bodies.now }
    ensures tables { types.new.tables ≡ types.old.tables }
    ensures numbers { OnOk result (Numbers tokens.now types.old.keys (met_by_all tokens.now rows.now bodies.now) types.new.keys) }
{
    let mut passed = Passed {
        sigs: BTreeSet::new(alloc),
        bodies: BTreeSet::new(alloc),
    };
    meet_each(alloc, types, &mut passed, tokens, rows, bodies)
}
