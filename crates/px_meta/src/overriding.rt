// Which method another overrides: Partition II, 10.3 and 22.27.
ghost use Rattle.std.specs.Prelude.{◌≡◌, ◌≢◌, ◌↔◌, ℕ, IfOk, IsTrue, MatchBool, MatchOption, false};
ghost use Rattle.px_meta.specs.Chains.{HasEnd, base_in};
ghost use Rattle.px_meta.specs.Impls.{IsAlike, IsDeclared, IsMatch, IsNamed};
ghost use Rattle.px_meta.specs.Members.{IsMethod, owner_of};
ghost use Rattle.px_meta.specs.Overriding.{Derives, IsFirstNamesake, IsNamesake, IsNearest, IsSaid, MayOverride, is_new_slot};
ghost use Rattle.px_meta.specs.Resolved.{AllEnd};
ghost use Rattle.px_meta.specs.Rows.{IsRow, method_impls, methods, row_by, type_defs};
ghost use Rattle.px_meta.specs.Tokens.{AreRows};

use crate::meta::MetaMethod;
use crate::table::{
    METHOD_IMPLS, METHODS, TYPE_DEFS, base_in, cell_of, list_end, list_start, set_row, some_row,
};
use px_sig::same_sig;
use px_tables::Tables;
use std::alloc::{AllocError, Global};

// Whether both are virtual instance methods with one signature.
fn matches(method: &MetaMethod, other: &MetaMethod) -> bool
    ensures { IsTrue result ↔ IsMatch method.now other.now }
{
    method.flags / 64 % 2 == 1
        && other.flags / 64 % 2 == 1
        && method.sig.get().has_this
        && same_sig(method.sig.get(), other.sig.get())
}

// Whether a method of a type has the name of another, which may override it.
fn is_alike(base: u32, method: &MetaMethod, other: &MetaMethod) -> bool
    ensures { IsTrue result ↔ IsAlike base method.now other.now }
{
    other.owner == base && other.name == method.name && matches(method, other)
}

// Whether a type derives from another.
fn derives(tables: &Tables, from: u32, ancestor: u32) -> bool
    requires row { IsRow tables.now type_defs from }
    requires end { HasEnd (base_in tables.now) from }
    ensures { MatchBool result (Derives tables.now from ancestor) (Derives tables.now from ancestor → ⊥) }
{
    let mut at = from;
    for turn in 0..tables.rows(TYPE_DEFS) {
        match base_in(tables, at) {
            None => return false,
            Some(base) if base == ancestor => return true,
            Some(base) => at = base,
        }
    }
    false
}

// Whether a method may override another.
fn may_override(tables: &Tables, members: &[MetaMethod], method: u32, other: u32) -> bool
    requires members { AreRows IsMethod tables.now methods members.now }
    requires ends { AllEnd tables.now }
    requires method { IsRow tables.now methods method }
    requires other { IsRow tables.now methods other }
    ensures { MatchBool result (MayOverride tables.now method other) (MayOverride tables.now method other → ⊥) }
{
    let own = &members[method as usize - 1];
    let another = &members[other as usize - 1];
    if own.owner == 0 {
        return false;
    }
    if !matches(own, another) {
        return false;
    }
    derives(tables, own.owner, another.owner)
}

// The row of the assembly's methods that a coded index names.
fn method_by(tables: &Tables, index: u32) -> Option<u32>
    ensures { result ≡ row_by tables.now methods 1 index }
{
    if index % 2 == 0 {
        some_row(tables, METHODS, index / 2)
    } else {
        None
    }
}

// Which method a row of MethodImpl says to override which.
fn said(tables: &Tables, members: &[MetaMethod], row: u32) -> Option<(u32, u32)>
    requires members { AreRows IsMethod tables.now methods members.now }
    requires ends { AllEnd tables.now }
    requires row { IsRow tables.now method_impls row }
    ensures { MatchOption result ((method other : ℕ) → IsSaid tables.now row method other → ⊥) (λ pair. IsSaid tables.now row pair.0 pair.1) }
{
    let body = method_by(tables, cell_of(tables, METHOD_IMPLS, row, 1))?;
    let declaration = method_by(tables, cell_of(tables, METHOD_IMPLS, row, 2))?;
    if may_override(tables, members, body, declaration) {
        Some((body, declaration))
    } else {
        None
    }
}

/// What rows of MethodImpl say each method to override. Rows are walked from the last one, so that the first for a method counts.
pub fn declared_of(
    alloc: Global,
    tables: &Tables,
    members: &[MetaMethod],
) -> Result<Vec<Option<u32>>, AllocError>
    requires members { AreRows IsMethod tables.now methods members.now }
    requires ends { AllEnd tables.now }
    ensures { IfOk result (λ declared. AreRows IsDeclared tables.now methods declared.items) }
{
    let mut declared = vec![in alloc; None; tables.rows(METHODS) as usize]?;
    for n in (0..tables.rows(METHOD_IMPLS)).rev() {
        let Some((body, declaration)) = said(tables, members, n + 1) else {
            continue;
        };
        set_row(&mut declared, body as usize, Some(declaration));
    }
    Ok(declared)
}

// The first namesake of a method in a type that its owner derives from.
fn namesake(tables: &Tables, members: &[MetaMethod], method: u32, base: u32) -> Option<u32>
    requires members { AreRows IsMethod tables.now methods members.now }
    requires method { IsRow tables.now methods method }
    requires base { IsRow tables.now type_defs base }
    requires owned { owner_of tables.now methods method ≢ 0 }
    requires derives { Derives tables.now (owner_of tables.now methods method) base }
    ensures { MatchOption result ((other : ℕ) → IsNamesake tables.now method base other → ⊥) (IsFirstNamesake tables.now method base) }
{
    let own = &members[method as usize - 1];
    let last = list_end(tables, METHODS, base).min(u64::from(tables.rows(METHODS)) + 1);
    for row in list_start(tables, METHODS, base).max(1).min(last)..last {
        let other = &members[row as usize - 1];
        if is_alike(base, own, other) {
            return Some(row as u32);
        }
    }
    None
}

// The first namesake of a method in the nearest base of its owner that has one.
fn nearest(tables: &Tables, members: &[MetaMethod], method: u32, owner: u32) -> Option<u32>
    requires members { AreRows IsMethod tables.now methods members.now }
    requires method { IsRow tables.now methods method }
    requires row { IsRow tables.now type_defs owner }
    requires owner { owner ≡ owner_of tables.now methods method }
    requires end { HasEnd (base_in tables.now) owner }
    ensures { MatchOption result ((other : ℕ) → IsNearest tables.now method owner other → ⊥) (IsNearest tables.now method owner) }
{
    let mut at = owner;
    for turn in 0..tables.rows(TYPE_DEFS) {
        let Some(base) = base_in(tables, at) else {
            return None;
        };
        if let Some(other) = namesake(tables, members, method, base) {
            return Some(other);
        }
        at = base;
    }
    None
}

/// The method that a method overrides by its name.
pub fn by_name(tables: &Tables, members: &[MetaMethod], method: u32) -> Option<u32>
    requires members { AreRows IsMethod tables.now methods members.now }
    requires ends { AllEnd tables.now }
    requires method { IsRow tables.now methods method }
    ensures { MatchOption result ((other : ℕ) → is_new_slot tables.now method ≡ false → IsNearest tables.now method (owner_of tables.now methods method) other → ⊥) (IsNamed tables.now method) }
{
    let own = &members[method as usize - 1];
    if own.flags / 64 % 2 != 1 {
        return None;
    }
    if own.flags / 256 % 2 == 1 {
        return None;
    }
    if own.owner == 0 {
        return None;
    }
    nearest(tables, members, method, own.owner)
}
