// Reads members, and the types that TypeSpecs spell.
ghost use Rattle.std.specs.Prelude.{◌≡◌, IfErr, IfOk, OnOk};
ghost use Rattle.px_meta.specs.Known.{IsKnown};
ghost use Rattle.px_meta.specs.Members.{IsField, IsMethod, flags_in, owner_of};
ghost use Rattle.px_meta.specs.Parts.{BlamesRow, BlamesTable};
ghost use Rattle.px_meta.specs.Resolved.{IsReference, IsSpec};
ghost use Rattle.px_meta.specs.Rows.{IsRow, fields, member_refs, methods, type_specs};
ghost use Rattle.px_meta.specs.Tokens.{AreRows};

use crate::fault::{MetaFault, MetaKind};
use crate::known::Known;
use crate::meta::{MetaField, MetaMethod};
use crate::owner::owners_of;
use crate::table::{FIELDS, MEMBER_REFS, METHODS, TYPE_SPECS, cell_of};
use px_shared::Shared;
use px_sig::{MethodSig, SigType};
use px_tables::Tables;
use std::alloc::Global;

// The flags in a column of two bytes.
fn flags_in(number: u32) -> u16
    ensures { result ≡ flags_in number }
{
    (number % 0x10000) as u16
}

fn read_field<'a>(
    alloc: Global,
    tables: &Tables<'a>,
    known: &mut Known<'a>,
    row: u32,
    owner: u32,
) -> Result<MetaField<'a>, MetaFault>
    requires known { IsKnown tables.now known.old }
    requires row { IsRow tables.now fields row }
    requires owner { owner ≡ owner_of tables.now fields row }
    ensures field { IfOk result (IsField tables.now row) }
    ensures known { OnOk result (IsKnown tables.now known.new) }
    ensures fault { IfErr result (BlamesRow tables.now fields row) }
{
    let Some(name) = known.text(tables, cell_of(tables, FIELDS, row, 1))? else {
        return Err(MetaKind::BadToken.at(FIELDS, row));
    };
    let Some(sig) = known.field_sig(alloc, tables, cell_of(tables, FIELDS, row, 2))? else {
        return Err(MetaKind::BadToken.at(FIELDS, row));
    };
    let flags = flags_in(cell_of(tables, FIELDS, row, 0));
    Ok(MetaField {
        owner,
        name,
        flags,
        sig,
    })
}

fn read_method<'a>(
    alloc: Global,
    tables: &Tables<'a>,
    known: &mut Known<'a>,
    row: u32,
    owner: u32,
) -> Result<MetaMethod<'a>, MetaFault>
    requires known { IsKnown tables.now known.old }
    requires row { IsRow tables.now methods row }
    requires owner { owner ≡ owner_of tables.now methods row }
    ensures method { IfOk result (IsMethod tables.now row) }
    ensures known { OnOk result (IsKnown tables.now known.new) }
    ensures fault { IfErr result (BlamesRow tables.now methods row) }
{
    let Some(name) = known.text(tables, cell_of(tables, METHODS, row, 3))? else {
        return Err(MetaKind::BadToken.at(METHODS, row));
    };
    let Some(sig) = known.method_sig(alloc, tables, cell_of(tables, METHODS, row, 4))? else {
        return Err(MetaKind::BadToken.at(METHODS, row));
    };
    let flags = flags_in(cell_of(tables, METHODS, row, 2));
    let rva = cell_of(tables, METHODS, row, 0);
    Ok(MetaMethod {
        owner,
        name,
        flags,
        rva,
        sig,
    })
}

// The signature of a reference to a method, and None of one to a field.
fn read_reference<'a>(
    alloc: Global,
    tables: &Tables<'a>,
    known: &mut Known<'a>,
    row: u32,
) -> Result<Option<Shared<MethodSig>>, MetaFault>
    requires known { IsKnown tables.now known.old }
    requires row { IsRow tables.now member_refs row }
    ensures reference { IfOk result (IsReference tables.now row) }
    ensures known { OnOk result (IsKnown tables.now known.new) }
    ensures fault { IfErr result (BlamesRow tables.now member_refs row) }
{
    let bad = Err(MetaKind::BadToken.at(MEMBER_REFS, row));
    let named = known.text(tables, cell_of(tables, MEMBER_REFS, row, 1))?;
    if named.is_none() {
        return bad;
    }
    let at = cell_of(tables, MEMBER_REFS, row, 2);
    if let Some(sig) = known.method_sig(alloc, tables, at)? {
        return Ok(Some(sig));
    }
    match known.field_sig(alloc, tables, at)? {
        Some(_) => Ok(None),
        None => bad,
    }
}

// The type that a TypeSpec spells.
fn read_spec<'a>(
    alloc: Global,
    tables: &Tables<'a>,
    known: &mut Known<'a>,
    row: u32,
) -> Result<SigType, MetaFault>
    requires known { IsKnown tables.now known.old }
    requires row { IsRow tables.now type_specs row }
    ensures spec { IfOk result (IsSpec tables.now row) }
    ensures known { OnOk result (IsKnown tables.now known.new) }
    ensures fault { IfErr result (BlamesRow tables.now type_specs row) }
{
    match known.type_sig(alloc, tables, cell_of(tables, TYPE_SPECS, row, 0))? {
        Some(sig) => Ok(sig),
        None => Err(MetaKind::BadToken.at(TYPE_SPECS, row)),
    }
}

/// Reads the fields of the assembly.
pub fn read_fields<'a>(
    alloc: Global,
    tables: &Tables<'a>,
    known: &mut Known<'a>,
) -> Result<Vec<MetaField<'a>>, MetaFault>
    requires { IsKnown tables.now known.old }
    ensures fields { IfOk result (λ read. AreRows IsField tables.now fields read.items) }
    ensures known { OnOk result (IsKnown tables.now known.new) }
    ensures fault { IfErr result (BlamesTable tables.now fields) }
{
    let owners = owners_of(alloc, tables, FIELDS)?;
    let mut fields = Vec::new(alloc);
    for n in 0..tables.rows(FIELDS) {
        let read = read_field(alloc, tables, known, n + 1, owners[n as usize])?;
        fields.push(read)?;
    }
    Ok(fields)
}

/// Reads the methods of the assembly.
pub fn read_methods<'a>(
    alloc: Global,
    tables: &Tables<'a>,
    known: &mut Known<'a>,
) -> Result<Vec<MetaMethod<'a>>, MetaFault>
    requires { IsKnown tables.now known.old }
    ensures methods { IfOk result (λ read. AreRows IsMethod tables.now methods read.items) }
    ensures known { OnOk result (IsKnown tables.now known.new) }
    ensures fault { IfErr result (BlamesTable tables.now methods) }
{
    let owners = owners_of(alloc, tables, METHODS)?;
    let mut methods = Vec::new(alloc);
    for n in 0..tables.rows(METHODS) {
        match read_method(alloc, tables, known, n + 1, owners[n as usize]) {
            Ok(read) => methods.push(read)?,
            Err(fault) => return Err(fault),
        }
    }
    Ok(methods)
}

/// Reads the signatures of references to members, and None for a field.
pub fn read_references<'a>(
    alloc: Global,
    tables: &Tables<'a>,
    known: &mut Known<'a>,
) -> Result<Vec<Option<Shared<MethodSig>>>, MetaFault>
    requires { IsKnown tables.now known.old }
    ensures references { IfOk result (λ read. AreRows IsReference tables.now member_refs read.items) }
    ensures known { OnOk result (IsKnown tables.now known.new) }
    ensures fault { IfErr result (BlamesTable tables.now member_refs) }
{
    let mut references = Vec::new(alloc);
    for n in 0..tables.rows(MEMBER_REFS) {
        let read = read_reference(alloc, tables, known, n + 1)?;
        references.push(read)?;
    }
    Ok(references)
}

/// Reads the types that TypeSpecs spell.
pub fn read_specs<'a>(
    alloc: Global,
    tables: &Tables<'a>,
    known: &mut Known<'a>,
) -> Result<Vec<SigType>, MetaFault>
    requires { IsKnown tables.now known.old }
    ensures specs { IfOk result (λ read. AreRows IsSpec tables.now type_specs read.items) }
    ensures known { OnOk result (IsKnown tables.now known.new) }
    ensures fault { IfErr result (BlamesTable tables.now type_specs) }
{
    let mut specs = Vec::new(alloc);
    for n in 0..tables.rows(TYPE_SPECS) {
        let read = read_spec(alloc, tables, known, n + 1)?;
        specs.push(read)?;
    }
    Ok(specs)
}
