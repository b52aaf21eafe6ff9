// Resolves metadata.
ghost use Rattle.std.specs.Prelude.{◌≡◌, ℕ, MatchOption, OnOk, IfOk, IfErr, IfSome};
ghost use Rattle.std.specs.Option.{option_copied};
ghost use Rattle.px_meta.specs.Faults.{Blames, IsFaultless};
ghost use Rattle.px_meta.specs.Known.{IsKnown};
ghost use Rattle.px_meta.specs.Members.{IsField, IsMethod, IsType};
ghost use Rattle.px_meta.specs.Overriding.{Overrides};
ghost use Rattle.px_meta.specs.Rows.{IsRow, fields, methods, type_defs, type_specs};
ghost use Rattle.px_meta.specs.Tokens.{AreRows, IsMember, IsOverridden, IsTypeName, IsTypeSpec, Names, NamesMember, NamesType};

use crate::fault::MetaFault;
use crate::known::Known;
use crate::members::{read_fields, read_methods, read_references, read_specs};
use crate::meta::{Member, MetaField, MetaMethod, MetaType};
use crate::overriding::{by_name, declared_of};
use crate::table::{
    FIELDS, MEMBER_REFS, METHODS, TYPE_DEFS, TYPE_REFS, TYPE_SPECS, cell_of, names_of,
    parent_token, row_named, text_of, token_of,
};
use crate::types::{check_type_refs, read_types};
use px_shared::Shared;
use px_sig::{MethodSig, SigType};
use px_tables::Tables;
use std::alloc::Global;
use std::marker::Model;

/// The types and members of an assembly, seen as its tables. Names are lent from the file.
#[derive(Drop)]
pub struct Meta<'a> {
    tables: Tables<'a>,
    types: Vec<MetaType<'a>>,
    methods: Vec<MetaMethod<'a>>,
    fields: Vec<MetaField<'a>>,
    // the signatures of references to members, and None of one to a field
    references: Vec<Option<Shared<MethodSig>>>,
    specs: Vec<SigType>,
    // the methods that rows of MethodImpl say to be overridden
    declared: Vec<Option<u32>>,
}

impl<'a> Model for Meta<'a> {
    ghost use Rattle.px_meta.specs.Resolved.{IsResolved};
    ghost use Rattle.px_tables.specs.Metadata.{View};

    ghost Value = { View };

    ghost view = { λ m. m.tables };

    ghost invariant = { λ m. IsResolved m.tables m.types.items m.methods.items m.fields.items m.references.items m.specs.items m.declared.items };
}

// Resolves metadata, where something of the heaps is known.
fn resolve_with<'a>(
    alloc: Global,
    tables: Tables<'a>,
    known: &mut Known<'a>,
) -> Result<Meta<'a>, MetaFault>
    requires { IsKnown tables known.old }
    ensures same { IfOk result (λ meta. meta ≡ tables.entry) }
    ensures faultless { OnOk result (IsFaultless tables.entry) }
    ensures fault { IfErr result (Blames tables.entry) }
{
    check_type_refs(&tables, known)?;
    let types = read_types(alloc, &tables, known)?;
    let fields = read_fields(alloc, &tables, known)?;
    let methods = read_methods(alloc, &tables, known)?;
    let references = read_references(alloc, &tables, known)?;
    let specs = read_specs(alloc, &tables, known)?;
    let declared = declared_of(alloc, &tables, &methods)?;
    Ok(Meta {
        tables,
        types,
        methods,
        fields,
        references,
        specs,
        declared,
    })
}

/// Reads names, signatures, owners and bases, and checks that each can be read and that no chain of types comes back.
/// It takes time by the size of the tables, and reads each place of the heaps once. The fault is the first, by table, row, and then the order of the kinds.
pub fn resolve<'a>(alloc: Global, tables: Tables<'a>) -> Result<Meta<'a>, MetaFault>
    ensures same { IfOk result (λ meta. meta ≡ tables.entry) }
    ensures faultless { OnOk result (IsFaultless tables.entry) }
    ensures fault { IfErr result (Blames tables.entry) }
{
    let mut known = Known::new(alloc, &tables);
    resolve_with(alloc, tables, &mut known)
}

// The signature of a reference, lent.
fn lent(sig: &Option<Shared<MethodSig>>) -> Option<&MethodSig>
    ensures { option_copied result ≡ sig.now }
{
    match sig {
        Some(sig) => Some(sig.get()),
        None => None,
    }
}

impl<'a> Meta<'a> {
    /// The tables, of which `resolve` made sure that no row has a fault.
    pub fn tables(&self) -> &Tables<'a>
        ensures same { result.now ≡ self.now }
        ensures faultless { IsFaultless self.now }
    {
        &self.tables
    }

    /// The types of the assembly, in the order of their rows.
    pub fn types(&self) -> &[MetaType<'a>]
        ensures { AreRows IsType self.now type_defs result.now }
    {
        self.types.as_slice()
    }

    /// The methods of the assembly, in the order of their rows.
    pub fn methods(&self) -> &[MetaMethod<'a>]
        ensures { AreRows IsMethod self.now methods result.now }
    {
        self.methods.as_slice()
    }

    /// The fields of the assembly, in the order of their rows.
    pub fn fields(&self) -> &[MetaField<'a>]
        ensures { AreRows IsField self.now fields result.now }
    {
        self.fields.as_slice()
    }

    /// What a token names as a member: a method or field that some type of the assembly has, or a reference to a member.
    /// None exactly where it names none.
    pub fn member(&self, token: u32) -> Option<Member<'_>>
        ensures { MatchOption result (NamesMember self.now token → ⊥) (IsMember self.now token) }
    {
        if let Some(row) = row_named(&self.tables, METHODS, token) {
            let owner = self.methods[row as usize - 1].owner;
            return if owner == 0 {
                None
            } else {
                Some(Member::Method(row))
            };
        }
        if let Some(row) = row_named(&self.tables, FIELDS, token) {
            let owner = self.fields[row as usize - 1].owner;
            return if owner == 0 {
                None
            } else {
                Some(Member::Field(row))
            };
        }
        let row = row_named(&self.tables, MEMBER_REFS, token)?;
        let owner = parent_token(cell_of(&self.tables, MEMBER_REFS, row, 0));
        let name = text_of(&self.tables, cell_of(&self.tables, MEMBER_REFS, row, 1))?;
        let sig = lent(&self.references[row as usize - 1]);
        Some(Member::External { owner, name, sig })
    }

    /// The namespace and the name of a type, by the token of a TypeDef or TypeRef. None exactly where it is neither.
    pub fn type_name(&self, token: u32) -> Option<(&'a str, &'a str)>
        ensures { MatchOption result (NamesType self.now token → ⊥) (λ names. IsTypeName self.now token names.0.now names.1.now) }
    {
        if let Some(row) = row_named(&self.tables, TYPE_DEFS, token) {
            return names_of(&self.tables, TYPE_DEFS, row);
        }
        let row = row_named(&self.tables, TYPE_REFS, token)?;
        names_of(&self.tables, TYPE_REFS, row)
    }

    /// The type of a TypeSpec. None exactly where the token is none.
    pub fn spec(&self, token: u32) -> Option<&SigType>
        ensures { MatchOption result (Names self.now type_specs token → ⊥) (λ spec. IsTypeSpec self.now token spec.now) }
    {
        let row = row_named(&self.tables, TYPE_SPECS, token)?;
        Some(&self.specs[row as usize - 1])
    }

    /// The row of the method that a method overrides: the declaration of the first row of MethodImpl that has it as body, and where there is none and it
    /// begins no new slot, the first method with its name in the nearest base that has one. None exactly where it overrides none.
    pub fn overridden_row(&self, row: u32) -> Option<u32>
        requires { IsRow self.now methods row }
        ensures overridden { MatchOption result ((other : ℕ) → Overrides self.now row other → ⊥) (Overrides self.now row) }
        ensures there { IfSome result (IsRow self.now methods) }
    {
        if let Some(other) = self.declared[row as usize - 1] {
            return Some(other);
        }
        by_name(&self.tables, &self.methods, row)
    }

    /// The token of the method that a token's method overrides. None exactly where it overrides none, or the token is that of no method.
    pub fn overridden(&self, token: u32) -> Option<u32>
        ensures { MatchOption result ((other : ℕ) → IsOverridden self.now token other → ⊥) (IsOverridden self.now token) }
    {
        let row = row_named(&self.tables, METHODS, token)?;
        let other = self.overridden_row(row)?;
        Some(token_of(METHODS, other))
    }
}
