// Methods, by the numbers of types and methods.
ghost use Rattle.std.specs.Prelude.{◌≡◌, ◌⊎◌, ◌<◌, ◌^◌, ◌==◌, [], Some, true, length, slice_get, IfOk, OnOk};
ghost use Rattle.std.specs.List.{AllByRecursion, IsDistinct, flat_map};
ghost use Rattle.px_meta.specs.Members.{owner_of};
ghost use Rattle.px_meta.specs.Rows.{IsRow, is_in, methods};
ghost use Rattle.px_program.specs.declared.program.Method.{Method};
ghost use Rattle.px_link_reach.specs.Met.{IsOwned, target_of};
ghost use Rattle.px_link_types.specs.Keys.{alone, place_key};
ghost use Rattle.px_link_types.specs.Making.{AreNumberedIn};
ghost use Rattle.px_link_types.specs.Numbers.{is_numbered};
ghost use Rattle.px_link_methods.specs.Codes.{owner_number};
ghost use Rattle.px_link_methods.specs.Methods.{AreByAddress, AreMethods, IsMethod, met_by, met_by_all, return_place};
ghost use Rattle.px_link_methods.specs.Parts.{AreAmong, IsFirstLike, IsRenamed, likeness};

use crate::clauses::clauses_of;
use crate::codes::instrs_of;
use crate::names::{method_at, method_name};
use crate::places::{number_of_row, places_of};
use crate::slots::SlotForms;
use indexmap::IndexSet;
use px_link_reach::Whole;
use px_link_tokens::{Tokens, is_void};
use px_link_types::{Leaf, Types, place_key};
use px_meta::{METHODS, Meta, cell_of};
use px_program::{Method, MethodTable, Place};
use px_shared::Shared;
use px_sig::SigType;
use std::alloc::{AllocError, Global};
use std::collections::BTreeMap;

// What a method returns.
fn return_place(meta: &Meta, types: &Types, item: SigType) -> Option<Place>
    requires { is_numbered types.now.keys (place_key meta.now item) ≡ true }
    ensures { result ≡ return_place meta.now types.now.keys item }
{
    if is_void(item) {
        None
    } else {
        Some(types.place(place_key(meta, item)))
    }
}

// A method by its row and its body.
fn method_of(
    alloc: Global,
    tokens: &Tokens,
    types: &Types,
    rows: &IndexSet<u32>,
    row: u32,
    whole: &Whole,
) -> Result<Method, AllocError>
    requires few { length rows.now.keys < 2 ^ 32 }
    requires owned { IsOwned tokens.now row }
    requires types { AreNumberedIn types.now.keys (met_by tokens.now (row, whole.now)) }
    requires methods { AreAmong rows.now.keys (flat_map (target_of tokens.now) whole.now.body.code) }
    ensures { IfOk result (IsMethod tokens.now (record { keys = types.now.keys; rows = rows.now.keys }) row whole.now) }
{
    let meta = tokens.meta();
    let method = method_at(meta, row);
    let sig = method.sig.get();
    let locals = whole.locals.as_slice();
    let forms = SlotForms::new(alloc, meta, sig, locals)?;
    Ok(Method {
        name: method_name(alloc, meta, row)?,
        owner: number_of_row(types, method.owner),
        is_static: !sig.has_this,
        params: places_of(alloc, meta, types, sig.params.as_slice())?,
        ret: return_place(meta, types, sig.ret),
        locals: places_of(alloc, meta, types, locals)?,
        max_stack: whole.body.max_stack,
        code: instrs_of(
            alloc,
            tokens,
            types,
            rows,
            &forms,
            whole.body.code.as_slice(),
        )?,
        clauses: clauses_of(alloc, meta, types, whole.body.clauses.as_slice())?,
    })
}

/// Rows as the keys of a set, which finds the place of each.
pub fn set_of(alloc: Global, rows: &[u32]) -> Result<IndexSet<u32>, AllocError>
    requires { IsDistinct (λ row other. row == other) rows.now }
    ensures { IfOk result (λ set. set.keys ≡ rows.now) }
{
    let mut set = IndexSet::new(alloc);
    for row in rows {
        set.insert(*row)?;
    }
    Ok(set)
}

// The address of a method's body, the place of its signature, and the row of its receiver's type, or 0 where there is none.
type Likeness = (u32, u32, u32);

// What methods have in common that share all but their names.
fn likeness_of(meta: &Meta, row: u32) -> Likeness
    requires { IsRow meta.now methods row }
    ensures { result ≡ likeness meta.now row }
{
    let method = method_at(meta, row);
    let has_this = method.sig.get().has_this;
    let receiver = if has_this { method.owner } else { 0 };
    let sig = cell_of(meta.tables(), METHODS, row, 4);
    (method.rva, sig, receiver)
}

// The number of the first method of a likeness. Where there is none, that is the next one, whose number is kept.
fn first_like(
    firsts: &mut BTreeMap<Likeness, u32>,
    like: Likeness,
    next: u32,
) -> Result<Option<u32>, AllocError>
    ensures { IfOk result (IsFirstLike firsts.old firsts.new like next) }
{
    if let Some(first) = firsts.get(&like) {
        return Ok(Some(*first));
    }
    firsts.insert(like, next)?;
    Ok(None)
}

// Adds a method that shares all with the one of this number but its name and, where that is static, its owner.
fn push_like(
    alloc: Global,
    meta: &Meta,
    types: &Types,
    table: &mut MethodTable,
    first: u32,
    row: u32,
) -> Result<(), AllocError>
    requires owned { IsOwned meta.now row }
    requires numbered { is_numbered types.now.keys (alone (Leaf.Defined (owner_of meta.now methods row))) ≡ true }
    requires there { first < length table.old }
    requires owner { (method : Method) → slice_get table.old first ≡ Some method → (method.is_static ≡ true) ⊎ (method.owner ≡ owner_number meta.now types.now.keys (owner_of meta.now methods row)) }
    ensures { (method : Method) → slice_get table.old first ≡ Some method → OnOk result (IsRenamed meta.now types.now.keys row method table.old table.new) }
{
    let name = method_name(alloc, meta, row)?;
    let owner = number_of_row(types, method_at(meta, row).owner);
    table.push_like(first, name, owner)
}

// Adds the methods of a program, by the set of their rows and by their bodies.
fn push_all(
    alloc: Global,
    tokens: &Tokens,
    types: &Types,
    rows: &IndexSet<u32>,
    bodies: &[Shared<Whole>],
    table: &mut MethodTable,
    firsts: &mut BTreeMap<Likeness, u32>,
) -> Result<(), AllocError>
    requires few { length rows.now.keys < 2 ^ 32 }
    requires owned { AllByRecursion (IsOwned tokens.now) rows.now.keys }
    requires pairs { length bodies.now ≡ length rows.now.keys }
    requires shared { AreByAddress tokens.now rows.now.keys bodies.now }
    requires types { AreNumberedIn types.now.keys (met_by_all tokens.now rows.now.keys bodies.now) }
    requires methods { AllByRecursion (λ whole. AreAmong rows.now.keys (flat_map (target_of tokens.now) whole.body.code)) bodies.now }
    requires table { table.old ≡ [] }
    requires firsts { firsts.old.entries ≡ [] }
    ensures { OnOk result (AreMethods tokens.now (record { keys = types.now.keys; rows = rows.now.keys }) bodies.now table.new) }
{
    for (row, whole) in rows.as_slice().iter().zip(bodies) {
        let meta = tokens.meta();
        let next = table.len() as u32;
        match first_like(firsts, likeness_of(meta, *row), next)? {
            Some(first) => push_like(alloc, meta, types, table, first, *row)?,
            None => table.push(method_of(alloc, tokens, types, rows, *row, whole.get())?)?,
        }
    }
    Ok(())
}

// The methods of a program, by the set of their rows and by their bodies.
fn methods_in(
    alloc: Global,
    tokens: &Tokens,
    types: &Types,
    rows: &IndexSet<u32>,
    bodies: &[Shared<Whole>],
) -> Result<MethodTable, AllocError>
    requires few { length rows.now.keys < 2 ^ 32 }
    requires owned { AllByRecursion (IsOwned tokens.now) rows.now.keys }
    requires pairs { length bodies.now ≡ length rows.now.keys }
    requires shared { AreByAddress tokens.now rows.now.keys bodies.now }
    requires types { AreNumberedIn types.now.keys (met_by_all tokens.now rows.now.keys bodies.now) }
    requires methods { AllByRecursion (λ whole. AreAmong rows.now.keys (flat_map (target_of tokens.now) whole.body.code)) bodies.now }
    ensures { IfOk result (λ methods. AreMethods tokens.now (record { keys = types.now.keys; rows = rows.now.keys }) bodies.now methods) }
{
    let mut table = MethodTable::new(alloc);
    let mut firsts = BTreeMap::new(alloc);
    push_all(alloc, tokens, types, rows, bodies, &mut table, &mut firsts)?;
    Ok(table)
}

/// The methods of a program, by their rows in the order of their numbers and by their bodies. All types that they meet have numbers, and all methods that
/// their instructions name are among them. Methods with one address share a body, and where they share a signature and a receiver too, all but their names.
pub fn methods_of(
    alloc: Global,
    tokens: &Tokens,
    types: &Types,
    rows: &[u32],
    bodies: &[Shared<Whole>],
) -> Result<MethodTable, AllocError>
    requires owned { AllByRecursion (IsOwned tokens.now) rows.now }
    requires distinct { IsDistinct (λ row other. row == other) rows.now }
    requires few { length rows.now < 2 ^ 32 }
    requires pairs { length bodies.now ≡ length rows.now }
    requires shared { AreByAddress tokens.now rows.now bodies.now }
    requires numbered { AllByRecursion (λ key. is_numbered types.now.keys key ≡ true) (met_by_all tokens.now rows.now bodies.now) }
    requires targets { AllByRecursion (λ whole. AllByRecursion (λ row. is_in rows.now row ≡ true) (flat_map (target_of tokens.now) whole.body.code)) bodies.now }
    ensures { IfOk result (λ methods. AreMethods tokens.now (record { keys = types.now.keys; rows = rows.now }) bodies.now methods) }
{
    let set = set_of(alloc, rows)?;
    methods_in(alloc, tokens, types, &set, bodies)
}
