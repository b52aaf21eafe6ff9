// The references around a reference to a type of another assembly.
ghost use Rattle.std.specs.Prelude.{◌≡◌, [], ◌∷◌, IfOk, IfSome};
ghost use Rattle.std.specs.List.{AllByRecursion};
ghost use Rattle.px_meta.specs.Rows.{IsRow, is_in, type_refs};
ghost use Rattle.px_link_tokens.specs.Outside.{AreScopes, scope_of};

use px_meta::{TYPE_REFS, cell_of, some_row};
use px_tables::Tables;
use std::alloc::{AllocError, Global};

// The reference that a reference to a type is nested in.
fn scope_of(tables: &Tables, row: u32) -> Option<u32>
    requires { IsRow tables.now type_refs row }
    ensures scope { result ≡ scope_of tables.now row }
    ensures there { IfSome result (IsRow tables.now type_refs) }
{
    let scope = cell_of(tables, TYPE_REFS, row, 0);
    if scope % 4 == 3 {
        some_row(tables, TYPE_REFS, scope / 4)
    } else {
        None
    }
}

// Whether a reference is the first one or one around it.
fn is_met(row: u32, scopes: &[u32], scope: u32) -> bool
    ensures { result ≡ is_in (row ∷ scopes.now) scope }
{
    row == scope || scopes.contains(&scope)
}

/// The references around a reference to a type, the innermost first. Where they come back to one that was met, they stop before it.
pub fn scopes_of(alloc: Global, tables: &Tables, row: u32) -> Result<Vec<u32>, AllocError>
    requires { IsRow tables.now type_refs row }
    ensures scopes { IfOk result (λ scopes. AreScopes tables.now [] row scopes.items) }
    ensures there { IfOk result (λ scopes. AllByRecursion (IsRow tables.now type_refs) scopes.items) }
{
    let mut scopes = Vec::new(alloc);
    let mut at = row;
    while let Some(scope) = scope_of(tables, at) {
        // a hostile file may nest references in each other
        if is_met(row, &scopes, scope) {
            return Ok(scopes);
        }
        scopes.push(scope)?;
        at = scope;
    }
    Ok(scopes)
}
