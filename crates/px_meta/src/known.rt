// What stands at places of the heaps, each read once, however many rows share it.
ghost use Rattle.std.specs.Prelude.{◌≡◌, IfErr, IfOk, MatchOption, OnOk};
ghost use Rattle.px_blobs.specs.Items.{IsStringAt};
ghost use Rattle.px_meta.specs.Faults.{HasNames};
ghost use Rattle.px_meta.specs.Known.{IsKnown};
ghost use Rattle.px_meta.specs.Members.{field_sig_at, method_sig_at, type_sig_at};
ghost use Rattle.px_meta.specs.Rows.{IsReadable, IsRow, cell};
ghost use Rattle.px_meta.specs.declared.fault.MetaFault.TheVariants.{Memory};

use crate::fault::MetaFault;
use crate::signature::{field_sig_of, method_sig_of, type_sig_of};
use crate::table::{cell_of, text_of};
use px_shared::Shared;
use px_sig::{MethodSig, SigType};
use px_tables::Tables;
use std::alloc::Global;
use std::collections::BTreeMap;

/// What was read so far at places of the heaps: texts of the strings, and signatures of the blobs.
#[derive(Drop)]
pub struct Known<'a> {
    texts: BTreeMap<u32, Option<&'a str>>,
    methods: BTreeMap<u32, Option<Shared<MethodSig>>>,
    fields: BTreeMap<u32, Option<SigType>>,
    types: BTreeMap<u32, Option<SigType>>,
}

// The signature of a method for one more owner.
fn share_of(sig: &Option<Shared<MethodSig>>) -> Result<Option<Shared<MethodSig>>, MetaFault>
    ensures same { IfOk result (λ it. it ≡ sig.now) }
    ensures memory { IfErr result (λ fault. fault ≡ Memory) }
{
    match sig {
        Some(sig) => Ok(Some(sig.share()?)),
        None => Ok(None),
    }
}

impl<'a> Known<'a> {
    /// Nothing yet, of the heaps of any tables.
    pub fn new(alloc: Global, tables: &Tables<'a>) -> Known<'a>
        ensures { IsKnown tables.now result }
    {
        Known {
            texts: BTreeMap::new(alloc),
            methods: BTreeMap::new(alloc),
            fields: BTreeMap::new(alloc),
            types: BTreeMap::new(alloc),
        }
    }

    /// The text at a place of the strings.
    pub fn text(&mut self, tables: &Tables<'a>, at: u32) -> Result<Option<&'a str>, MetaFault>
        requires { IsKnown tables.now self.old }
        ensures text { IfOk result (λ it. MatchOption it (IsReadable tables.now at → ⊥) (λ text. IsStringAt tables.now.strings at text.now)) }
        ensures known { OnOk result (IsKnown tables.now self.new) }
        ensures memory { IfErr result (λ fault. fault ≡ Memory) }
    {
        if let Some(text) = self.texts.get(&at) {
            return Ok(*text);
        }
        let text = text_of(tables, at);
        self.texts.insert(at, text)?;
        Ok(text)
    }

    /// The namespace and the name of a TypeRef or TypeDef.
    pub fn names(
        &mut self,
        tables: &Tables<'a>,
        table: u8,
        row: u32,
    ) -> Result<Option<(&'a str, &'a str)>, MetaFault>
        requires row { IsRow tables.now table row }
        requires known { IsKnown tables.now self.old }
        ensures names { IfOk result (λ it. MatchOption it (HasNames tables.now table row → ⊥) (λ names. IsStringAt tables.now.strings (cell tables.now table row 2) names.0.now × IsStringAt tables.now.strings (cell tables.now table row 1) names.1.now)) }
        ensures known { OnOk result (IsKnown tables.now self.new) }
        ensures memory { IfErr result (λ fault. fault ≡ Memory) }
    {
        let Some(name) = self.text(tables, cell_of(tables, table, row, 1))? else {
            return Ok(None);
        };
        let Some(namespace) = self.text(tables, cell_of(tables, table, row, 2))? else {
            return Ok(None);
        };
        Ok(Some((namespace, name)))
    }

    /// The signature of a method at a place of the blobs, where one that can be read stands there.
    pub fn method_sig(
        &mut self,
        alloc: Global,
        tables: &Tables<'a>,
        at: u32,
    ) -> Result<Option<Shared<MethodSig>>, MetaFault>
        requires { IsKnown tables.now self.old }
        ensures sig { IfOk result (λ sig. sig ≡ method_sig_at tables.now at) }
        ensures known { OnOk result (IsKnown tables.now self.new) }
        ensures memory { IfErr result (λ fault. fault ≡ Memory) }
    {
        if let Some(sig) = self.methods.get(&at) {
            return share_of(sig);
        }
        let sig = method_sig_of(alloc, tables, at)?;
        let shared = share_of(&sig)?;
        self.methods.insert(at, shared)?;
        Ok(sig)
    }

    /// The type in the signature of a field.
    pub fn field_sig(
        &mut self,
        alloc: Global,
        tables: &Tables<'a>,
        at: u32,
    ) -> Result<Option<SigType>, MetaFault>
        requires { IsKnown tables.now self.old }
        ensures sig { IfOk result (λ sig. sig ≡ field_sig_at tables.now at) }
        ensures known { OnOk result (IsKnown tables.now self.new) }
        ensures memory { IfErr result (λ fault. fault ≡ Memory) }
    {
        if let Some(sig) = self.fields.get(&at) {
            return Ok(*sig);
        }
        let sig = field_sig_of(alloc, tables, at)?;
        self.fields.insert(at, sig)?;
        Ok(sig)
    }

    /// The type that a blob spells.
    pub fn type_sig(
        &mut self,
        alloc: Global,
        tables: &Tables<'a>,
        at: u32,
    ) -> Result<Option<SigType>, MetaFault>
        requires { IsKnown tables.now self.old }
        ensures sig { IfOk result (λ sig. sig ≡ type_sig_at tables.now at) }
        ensures known { OnOk result (IsKnown tables.now self.new) }
        ensures memory { IfErr result (λ fault. fault ≡ Memory) }
    {
        if let Some(sig) = self.types.get(&at) {
            return Ok(*sig);
        }
        let sig = type_sig_of(alloc, tables, at)?;
        self.types.insert(at, sig)?;
        Ok(sig)
    }
}
