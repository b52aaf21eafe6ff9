// Names of types and members, and of instructions that aren't run.
ghost use Rattle.std.specs.Prelude.{◌≡◌, ◌++◌, IfOk, IfSome, OnOk};
ghost use Rattle.std.specs.List.{AllByRecursion};
ghost use Rattle.px_code.specs.Body.{is_among, with_token};
ghost use Rattle.px_meta.specs.Rows.{IsRow, type_refs};
ghost use Rattle.px_link_tokens.specs.Naming.{IsParent, member_by, member_of, said};
ghost use Rattle.px_link_tokens.specs.Outside.{IsMemberName, IsOutsideName, IsParentName, IsRefName, nested_name, own_ref_name};

use crate::member::{Parent, TypeMember, member_at};
use crate::scopes::scopes_of;
use px_link_opcodes::opcode_name;
use px_link_types::{full_name, text_at};
use px_meta::{Meta, TYPE_REFS, cell_of};
use px_program::Name;
use px_tables::Tables;
use sqlite_items::Items;
use std::alloc::{AllocError, Global};

// Adds a reference's own name, behind its namespace.
fn push_own_name(name: &mut Vec<u8>, tables: &Tables, row: u32) -> Result<(), AllocError>
    requires { IsRow tables.now type_refs row }
    ensures { OnOk result (name.new.items ≡ name.old.items ++ own_ref_name tables.now row) }
{
    let namespace = text_at(tables, cell_of(tables, TYPE_REFS, row, 2));
    if !namespace.is_empty() {
        name.extend_from_slice(namespace)?;
        name.push(b'.')?;
    }
    name.extend_from_slice(text_at(tables, cell_of(tables, TYPE_REFS, row, 1)))?;
    Ok(())
}

// The name of a reference that is nested in others, the innermost of these first.
fn nested_name(
    alloc: Global,
    tables: &Tables,
    row: u32,
    scopes: &[u32],
) -> Result<Vec<u8>, AllocError>
    requires row { IsRow tables.now type_refs row }
    requires there { AllByRecursion (IsRow tables.now type_refs) scopes.now }
    ensures { IfOk result (λ name. name.items ≡ nested_name tables.now row scopes.now) }
{
    let mut name = Vec::new(alloc);
    for n in (0..scopes.len()).rev() {
        push_own_name(&mut name, tables, scopes[n])?;
        name.push(b'/')?;
    }
    push_own_name(&mut name, tables, row)?;
    Ok(name)
}

// The name of a type of another assembly.
fn ref_name(alloc: Global, tables: &Tables, row: u32) -> Result<Name, AllocError>
    requires { IsRow tables.now type_refs row }
    ensures { IfOk result (IsRefName tables.now row) }
{
    let scopes = scopes_of(alloc, tables, row)?;
    let name = nested_name(alloc, tables, row, &scopes)?;
    Ok(Items::from_vec(name))
}

// The name of a type that has a member.
fn parent_name(alloc: Global, meta: &Meta, parent: Parent) -> Result<Name, AllocError>
    requires { IsParent meta.now parent }
    ensures { IfOk result (IsParentName meta.now parent) }
{
    match parent {
        Parent::Defined(row) => full_name(alloc, meta, row),
        Parent::Referred(row) => ref_name(alloc, meta.tables(), row),
    }
}

// The name of a member, behind that of its type.
fn member_name(alloc: Global, meta: &Meta, member: &TypeMember) -> Result<Name, AllocError>
    requires { IsParent meta.now member.now.parent }
    ensures { IfOk result (IsMemberName meta.now (member_of member.now)) }
{
    let parent = parent_name(alloc, meta, member.parent)?;
    let mut name = Vec::from_slice(alloc, parent.as_slice())?;
    name.extend_from_slice(b"::")?;
    name.extend_from_slice(member.name)?;
    Ok(Items::from_vec(name))
}

// Whether an opcode takes the token of a row, or of a text.
fn has_token(opcode: u16) -> bool
    ensures { result ≡ is_among with_token opcode }
{
    matches!(
        opcode,
        0x27..=0x29
            | 0x6F..=0x75
            | 0x79
            | 0x7B..=0x81
            | 0x8C..=0x8D
            | 0x8F
            | 0xA3..=0xA5
            | 0xC2
            | 0xC6
            | 0xD0
            | 0xFE06..=0xFE07
            | 0xFE15..=0xFE16
            | 0xFE1C
    )
}

// The member that gives an instruction its name.
fn member_by<'a>(meta: &Meta<'a>, opcode: u16, token: u32) -> Option<TypeMember<'a>>
    ensures member { said result ≡ member_by meta.now opcode token }
    ensures there { IfSome result (λ member. IsParent meta.now member.parent) }
{
    if has_token(opcode) {
        member_at(meta, opcode, token)
    } else {
        None
    }
}

/// The name of an instruction that isn't run: that of a member, where its token names one that gives it, and else that of its opcode.
pub fn outside_name(alloc: Global, meta: &Meta, opcode: u16, token: u32) -> Result<Name, AllocError>
    ensures { IfOk result (IsOutsideName meta.now opcode token) }
{
    match member_by(meta, opcode, token) {
        Some(member) => member_name(alloc, meta, &member),
        None => opcode_name(alloc, opcode),
    }
}
