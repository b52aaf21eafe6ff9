// Fields of the assembly.
ghost use Rattle.std.specs.Prelude.{◌≡◌, ◌≢◌, IfSome};
ghost use Rattle.px_meta.specs.Rows.{IsRow, type_defs};
ghost use Rattle.px_link_tokens.specs.Operands.{field_at};
ghost use Rattle.px_link_tokens.specs.Parts.{IsThere};
ghost use Rattle.px_link_tokens.specs.Read.{is_asked, is_run_field};

use crate::operand::Operand;
use crate::owned::{is_form, is_owned};
use crate::rows::row_at;
use crate::tokens::Tokens;
use px_meta::{FIELDS, Meta, MetaField};

// Whether a field is static or not, as asked, and what it holds is of a form that is run.
fn is_asked(meta: &Meta, is_static: bool, field: &MetaField) -> bool
    ensures { result ≡ is_asked meta.now is_static field.now }
{
    (field.flags / 16 % 2 == 1) == is_static && is_form(meta, field.sig)
}

// Whether a field can be run on: one of instances of a class, or a static one of a type without an initialiser.
fn is_run_field(tokens: &Tokens, is_static: bool, field: &MetaField) -> bool
    requires { field.now.owner ≢ 0 → IsRow tokens.now type_defs field.now.owner }
    ensures { result ≡ is_run_field tokens.now is_static field.now }
{
    let meta = tokens.meta();
    is_owned(meta, !is_static, field.owner)
        && is_asked(meta, is_static, field)
        && (!is_static || !tokens.has_initialiser(field.owner))
}

/// The field that a token names, where it is static or not, as asked, and can be run on.
pub fn field_at(tokens: &Tokens, is_static: bool, token: u32) -> Option<Operand>
    ensures field { result ≡ field_at tokens.now is_static token }
    ensures there { IfSome result (IsThere tokens.now) }
{
    let meta = tokens.meta();
    let row = row_at(meta.tables(), FIELDS, token)?;
    if is_run_field(tokens, is_static, &meta.fields()[row as usize - 1]) {
        Some(Operand::Field(row))
    } else {
        None
    }
}
