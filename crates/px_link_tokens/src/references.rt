// References to members of other assemblies.
ghost use Rattle.std.specs.Prelude.{◌≡◌, IfSome, Some};
ghost use Rattle.std.specs.Option.{option_map};
ghost use Rattle.px_meta.specs.Rows.{IsRow, member_refs, type_refs};
ghost use Rattle.px_link_tokens.specs.Named.{reference_sig};
ghost use Rattle.px_link_tokens.specs.Operands.{member_name, parent_ref};

use px_link_types::text_at;
use px_meta::{MEMBER_REFS, Member, Meta, TYPE_REFS, cell_of, some_row};
use px_sig::MethodSig;
use px_tables::Tables;

/// The signature of the reference to a method that a token names.
pub fn reference_sig<'m>(meta: &'m Meta, token: u32) -> Option<&'m MethodSig>
    ensures { option_map (λ sig. sig.now) result ≡ reference_sig meta.now token }
{
    match meta.member(token)? {
        Member::External { sig, .. } => sig,
        Member::Method(_) | Member::Field(_) => None,
    }
}

/// The row of TypeRef that is the parent of a reference to a member.
pub fn parent_ref(tables: &Tables, row: u32) -> Option<u32>
    requires { IsRow tables.now member_refs row }
    ensures row { result ≡ parent_ref tables.now row }
    ensures there { IfSome result (IsRow tables.now type_refs) }
{
    let parent = cell_of(tables, MEMBER_REFS, row, 0);
    if parent % 8 == 1 {
        some_row(tables, TYPE_REFS, parent / 8)
    } else {
        None
    }
}

/// The bytes of the name of a reference to a member.
pub fn member_name<'a>(tables: &Tables<'a>, row: u32) -> &'a [u8]
    requires { IsRow tables.now member_refs row }
    ensures { result.now ≡ member_name tables.now row }
{
    text_at(tables, cell_of(tables, MEMBER_REFS, row, 1))
}
