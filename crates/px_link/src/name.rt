// Whether a text is the name of a method.
ghost use Rattle.std.specs.Prelude.{◌≡◌, ◌≢◌, ◌++◌, ℕ, List, codes, IfSome, MatchBool, MatchOption};
ghost use Rattle.px_meta.specs.Chains.{outer_of};
ghost use Rattle.px_meta.specs.Members.{IsMethod, IsType};
ghost use Rattle.px_meta.specs.Rows.{IsRow, methods, type_defs};
ghost use Rattle.px_link.specs.Names.{IsNamed, IsTypeName, own_name, with_namespace};

use px_meta::{Meta, MetaMethod, MetaType};

// What stands before an ending, where the text ends so.
fn before<'t>(text: &'t [u8], ending: &[u8]) -> Option<&'t [u8]>
    ensures { MatchOption result ((front : List ℕ) → text.now ≢ front ++ ending.now) (λ front. text.now ≡ front.now ++ ending.now) }
{
    text.strip_suffix(ending)
}

// What stands before a name behind its namespace, where the text ends so.
fn before_name<'t>(text: &'t [u8], namespace: &[u8], name: &[u8]) -> Option<&'t [u8]>
    ensures { MatchOption result ((front : List ℕ) → text.now ≢ front ++ with_namespace namespace.now name.now) (λ front. text.now ≡ front.now ++ with_namespace namespace.now name.now) }
{
    let front = before(text, name)?;
    if namespace.is_empty() {
        return Some(front);
    }
    before(before(front, b".")?, namespace)
}

fn type_at<'m, 'a>(meta: &'m Meta<'a>, row: u32) -> &'m MetaType<'a>
    requires { IsRow meta.now type_defs row }
    ensures { IsType meta.now row result.now }
{
    &meta.types()[(row - 1) as usize]
}

// What stands before a type's own name, where the text ends so.
fn before_own_name<'t>(meta: &Meta, row: u32, text: &'t [u8]) -> Option<&'t [u8]>
    requires { IsRow meta.now type_defs row }
    ensures { MatchOption result ((front : List ℕ) → text.now ≢ front ++ own_name meta.now row) (λ front. text.now ≡ front.now ++ own_name meta.now row) }
{
    let own = type_at(meta, row);
    before_name(text, own.namespace.as_bytes(), own.name.as_bytes())
}

// The type that a type is nested in.
fn outer_of(meta: &Meta, row: u32) -> Option<u32>
    requires { IsRow meta.now type_defs row }
    ensures outer { result ≡ outer_of meta.now row }
    ensures row { IfSome result (IsRow meta.now type_defs) }
{
    type_at(meta, row).outer
}

// Whether a text is the name of a type, with those of the types around it. Each of these takes a byte of the text, so the walk ends.
fn is_type_name(meta: &Meta, row: u32, text: &[u8]) -> bool
    requires { IsRow meta.now type_defs row }
    ensures { MatchBool result (IsTypeName meta.now row text.now) (IsTypeName meta.now row text.now → ⊥) }
{
    let mut row = row;
    let mut text = text;
    loop {
        let Some(front) = before_own_name(meta, row, text) else {
            return false;
        };
        let Some(outer) = outer_of(meta, row) else {
            return front.is_empty();
        };
        let Some(rest) = before(front, b"/") else {
            return false;
        };
        row = outer;
        text = rest;
    }
}

/// Whether a text is the name of a method, of whatever row it is.
pub fn is_named(meta: &Meta, method: &MetaMethod, name: &[u8]) -> bool
    requires { method.now.owner ≢ 0 → IsRow meta.now type_defs method.now.owner }
    ensures { (row : ℕ) → IsRow meta.now methods row → IsMethod meta.now row method.now → MatchBool result (IsNamed meta.now name.now row) (IsNamed meta.now name.now row → ⊥) }
{
    if method.owner == 0 {
        return false;
    }
    let Some(front) = before(name, method.name.as_bytes()) else {
        return false;
    };
    match before(front, b"::") {
        Some(text) => is_type_name(meta, method.owner, text),
        None => false,
    }
}
