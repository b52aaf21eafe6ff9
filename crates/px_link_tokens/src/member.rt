// Members, and the types that have them.
ghost use Rattle.std.specs.Prelude.{◌≡◌, IfSome};
ghost use Rattle.px_meta.specs.Rows.{IsRow, member_refs, methods};
ghost use Rattle.px_link_tokens.specs.Naming.{IsParent, said};
ghost use Rattle.px_link_tokens.specs.Outside.{gives_name, member_at, method_member, owned_member, parent_type, reference_member};

use px_link_types::text_at;
use px_meta::{MEMBER_REFS, METHODS, Meta, TYPE_DEFS, TYPE_REFS, cell_of, some_row};
use px_tables::Tables;

/// The type that has a member: one of the assembly by its row of TypeDef, or one of another assembly by its row of TypeRef.
#[derive(Clone, Copy, PartialEq, Eq)]
pub enum Parent {
    Defined(u32),
    Referred(u32),
}

/// A member of a type: the type, and the member's own name, which is lent from the file.
#[derive(Clone, Copy)]
pub struct TypeMember<'a> {
    pub parent: Parent,
    pub name: &'a [u8],
}

// A member of the type of a row, where that isn't 0.
fn owned_member(owner: u32, name: &[u8]) -> Option<TypeMember<'_>>
    ensures { said result ≡ owned_member owner name.now }
{
    if owner == 0 {
        return None;
    }
    Some(TypeMember {
        parent: Parent::Defined(owner),
        name,
    })
}

// Whether a method gives its name to an instruction: one without a body, or the method of a `callvirt`.
fn gives_name(tables: &Tables, opcode: u16, row: u32) -> bool
    requires { IsRow tables.now methods row }
    ensures { result ≡ gives_name tables.now opcode row }
{
    opcode == 0x6F || cell_of(tables, METHODS, row, 0) == 0
}

// A method of the assembly that gives its name to an instruction.
fn method_member<'a>(meta: &Meta<'a>, opcode: u16, row: Option<u32>) -> Option<TypeMember<'a>>
    requires { IfSome row (IsRow meta.now methods) }
    ensures member { said result ≡ method_member meta.now opcode row }
    ensures there { IfSome result (λ member. IsParent meta.now member.parent) }
{
    let row = row?;
    let tables = meta.tables();
    if !gives_name(tables, opcode, row) {
        return None;
    }
    let owner = meta.methods()[row as usize - 1].owner;
    owned_member(owner, text_at(tables, cell_of(tables, METHODS, row, 3)))
}

// The type that is the parent of a reference, by the coded index.
fn parent_type(tables: &Tables, index: u32) -> Option<Parent>
    ensures { result ≡ parent_type tables.now index }
{
    match index % 8 {
        0 => Some(Parent::Defined(some_row(tables, TYPE_DEFS, index / 8)?)),
        1 => Some(Parent::Referred(some_row(tables, TYPE_REFS, index / 8)?)),
        _ => None,
    }
}

// A reference to a member whose parent is a type.
fn reference_member<'a>(tables: &Tables<'a>, row: Option<u32>) -> Option<TypeMember<'a>>
    requires { IfSome row (IsRow tables.now member_refs) }
    ensures member { said result ≡ reference_member tables.now row }
    ensures there { IfSome result (λ member. IsParent tables.now member.parent) }
{
    let row = row?;
    let parent = parent_type(tables, cell_of(tables, MEMBER_REFS, row, 0))?;
    let name = text_at(tables, cell_of(tables, MEMBER_REFS, row, 1));
    Some(TypeMember { parent, name })
}

/// The member of a type that gives its name to an instruction of an opcode, by the token.
pub fn member_at<'a>(meta: &Meta<'a>, opcode: u16, token: u32) -> Option<TypeMember<'a>>
    ensures member { said result ≡ member_at meta.now opcode token }
    ensures there { IfSome result (λ member. IsParent meta.now member.parent) }
{
    let tables = meta.tables();
    let row = token % 0x100_0000;
    if token / 0x100_0000 == u32::from(METHODS) {
        method_member(meta, opcode, some_row(tables, METHODS, row))
    } else if token / 0x100_0000 == u32::from(MEMBER_REFS) {
        reference_member(tables, some_row(tables, MEMBER_REFS, row))
    } else {
        None
    }
}
