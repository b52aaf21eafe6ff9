// Heaps and references to members, as they are gathered.
ghost use Rattle.std.specs.Prelude.{◌≡◌, ◌+◌, ◌*◌, ◌<◌, ◌^◌, [], ◌∷◌, ◌++◌, true, length, IfOk, OnOk};
ghost use Rattle.std.specs.List.{AllByRecursion, list_all};
ghost use Rattle.px_asm_heaps.specs.Heaps.{HasString, HasText};
ghost use Rattle.px_asm_heaps.specs.Spelling.{IsSpelledSig, is_spelled};
ghost use Rattle.px_program.specs.Formed.{FitsPlace};
ghost use Rattle.px_program.specs.declared.program.Program.{Program};
ghost use Rattle.px_asm_described.specs.Writable.{IsText};
ghost use Rattle.px_sig.specs.Grammar.{field_sig, locals_sig, method_sig, type_sig};
ghost use Rattle.px_asm_store.specs.Constructors.{HasConstructorSig};
ghost use Rattle.px_asm_law_written.specs.Store.{AreReferences, HasSig, StoreGrows, check_sig};
ghost use Rattle.px_asm_law_written.specs.Tokens.{HasConstructor};

use crate::places::types_of;
use crate::rows::Rows;
use px_asm_heaps::{
    field_sig, locals_sig, method_sig, push_blob, push_string, push_text, type_sig,
};
use px_program::Place;
use px_sig::{Integer, MethodSig, SigLeaf, SigType};
use px_tables::Row;
use sqlite_items::Items;
use std::alloc::{AllocError, Global};
use std::marker::Model;

// The number of MemberRef, times 2^24.
const MEMBER_REFS: u32 = 0x0A00_0000;

// A token has room for fewer rows.
const ALL_ROWS: usize = 0x100_0000;

// The rows of TypeRef of the types that have the two checks.
const ASSUME: u32 = 19;

const ASSERT: u32 = 20;

/// The heaps of strings, of user strings and of blobs, and the rows of MemberRef.
#[derive(Drop)]
pub struct Store {
    alloc: Global,
    pub strings: Vec<u8>,
    pub texts: Vec<u8>,
    pub blob: Vec<u8>,
    pub references: Vec<Row>,
    // where the name of constructors stands among the strings
    constructor_name: u32,
}

impl Model for Store {
    ghost use Rattle.std.specs.Prelude.{codes};
    ghost use Rattle.px_asm_heaps.specs.Heaps.{HasString};
    ghost use Rattle.px_asm_law_written.specs.Store.{Store};

    ghost Value = { Store };

    ghost view = { λ s. record { strings = s.strings.items; texts = s.texts.items; blob = s.blob.items; references = s.references.items } };

    ghost invariant = { λ s. HasString s.strings.items s.constructor_name (codes ".ctor") };
}

// The signature of the two checks.
fn check_sig(alloc: Global) -> Result<MethodSig, AllocError>
    ensures is { IfOk result (λ sig. sig ≡ check_sig) }
    ensures spelled { IfOk result IsSpelledSig }
{
    let mut params = Items::new(alloc);
    params.push(SigType {
        depth: 0,
        leaf: SigLeaf::Int(Integer::Bool),
    })?;
    Ok(MethodSig {
        has_this: false,
        plain: true,
        ret: SigType {
            depth: 0,
            leaf: SigLeaf::Void,
        },
        params,
    })
}

// A row of MemberRef: of a type of TypeRef by its row, with a name and a signature.
fn reference(parent: u32, name: u32, sig: u32) -> Row
    requires { parent < 2 ^ 24 }
    ensures { result.cells ≡ (8 * parent + 1) ∷ name ∷ sig ∷ 0 ∷ 0 ∷ 0 ∷ 0 ∷ 0 ∷ 0 ∷ [] }
{
    // 1 is the tag of TypeRef
    Row {
        cells: [8 * parent + 1, name, sig, 0, 0, 0, 0, 0, 0],
    }
}

impl Store {
    /// Heaps of one zero each, and the references to the two checks.
    pub fn new(alloc: Global) -> Result<Store, AllocError>
        ensures { (p : Program) → IfOk result (AreReferences p) }
    {
        let mut strings = vec![in alloc; 0]?;
        let name = push_string(&mut strings, "IsTrue".as_bytes())?;
        let constructor_name = push_string(&mut strings, ".ctor".as_bytes())?;
        let texts = vec![in alloc; 0]?;
        let mut blob = vec![in alloc; 0]?;
        let sig = push_blob(&mut blob, &method_sig(alloc, &check_sig(alloc)?)?)?;
        let assume = reference(ASSUME, name, sig);
        let assert = reference(ASSERT, name, sig);
        let references = vec![in alloc; assume, assert]?;
        Ok(Store {
            alloc,
            strings,
            texts,
            blob,
            references,
            constructor_name,
        })
    }

    /// Adds a name.
    pub fn name(&mut self, text: &[u8]) -> Result<u32, AllocError>
        requires { IsText text.now }
        ensures stands { IfOk result (λ at. HasString self.new.strings at text.now) }
        ensures grows { OnOk result (StoreGrows self.old self.new) }
        ensures references { self.new.references ≡ self.old.references }
    {
        push_string(&mut self.strings, text)
    }

    /// Adds a text that an instruction loads. Its place fits in a token.
    pub fn text(&mut self, units: &[u16]) -> Result<u32, AllocError>
        ensures stands { IfOk result (λ at. HasText self.new.texts at units.now) }
        ensures near { IfOk result (λ at. at < 2 ^ 24) }
        ensures grows { OnOk result (StoreGrows self.old self.new) }
        ensures references { self.new.references ≡ self.old.references }
    {
        push_text(self.alloc, &mut self.texts, units)
    }

    /// Adds the blob of a type.
    pub fn type_sig(&mut self, item: &SigType) -> Result<u32, AllocError>
        requires { is_spelled item.now ≡ true }
        ensures stands { IfOk result (λ at. HasSig type_sig self.new.blob at item.now) }
        ensures grows { OnOk result (StoreGrows self.old self.new) }
        ensures references { self.new.references ≡ self.old.references }
    {
        let blob = type_sig(self.alloc, item)?;
        push_blob(&mut self.blob, &blob)
    }

    /// Adds the signature of a field.
    pub fn field_sig(&mut self, item: &SigType) -> Result<u32, AllocError>
        requires { is_spelled item.now ≡ true }
        ensures stands { IfOk result (λ at. HasSig field_sig self.new.blob at item.now) }
        ensures grows { OnOk result (StoreGrows self.old self.new) }
        ensures references { self.new.references ≡ self.old.references }
    {
        let blob = field_sig(self.alloc, item)?;
        push_blob(&mut self.blob, &blob)
    }

    /// Adds the signature of locals.
    pub fn locals_sig(&mut self, locals: &[SigType]) -> Result<u32, AllocError>
        requires { list_all is_spelled locals.now ≡ true }
        ensures stands { IfOk result (λ at. HasSig locals_sig self.new.blob at locals.now) }
        ensures grows { OnOk result (StoreGrows self.old self.new) }
        ensures references { self.new.references ≡ self.old.references }
    {
        let blob = locals_sig(self.alloc, locals)?;
        push_blob(&mut self.blob, &blob)
    }

    /// Adds the signature of a method.
    pub fn method_sig(&mut self, sig: &MethodSig) -> Result<u32, AllocError>
        requires { IsSpelledSig sig.now }
        ensures stands { IfOk result (λ at. HasSig method_sig self.new.blob at sig.now) }
        ensures grows { OnOk result (StoreGrows self.old self.new) }
        ensures references { self.new.references ≡ self.old.references }
    {
        let blob = method_sig(self.alloc, sig)?;
        push_blob(&mut self.blob, &blob)
    }

    // Adds the signature of a constructor with parameters of these places.
    fn constructor_sig(&mut self, rows: &Rows, params: &[Place]) -> Result<u32, AllocError>
        requires { AllByRecursion (FitsPlace rows.now.types) params.now }
        ensures stands { IfOk result (HasConstructorSig rows.now self.new params.now) }
        ensures grows { OnOk result (StoreGrows self.old self.new) }
        ensures references { self.new.references ≡ self.old.references }
    {
        let params = types_of(self.alloc, rows, params)?;
        self.method_sig(&MethodSig {
            has_this: true,
            plain: true,
            ret: SigType {
                depth: 0,
                leaf: SigLeaf::Void,
            },
            params,
        })
    }

    // Adds a row of MemberRef, and tells its token.
    fn push_reference(&mut self, row: Row) -> Result<u32, AllocError>
        ensures token { IfOk result (λ at. at ≡ 0x0A * 2 ^ 24 + (length self.old.references + 1)) }
        ensures room { IfOk result (λ at. length self.old.references + 1 < 2 ^ 24) }
        ensures added { OnOk result (self.new ≡ record self.old { references = self.old.references ++ row ∷ [] }) }
    {
        let number = self.references.len() + 1;
        if number >= ALL_ROWS {
            return Err(AllocError);
        }
        self.references.push(row)?;
        Ok(MEMBER_REFS + number as u32)
    }

    /// Adds a reference to a constructor of a type of the library, and tells its token. A table has room for fewer than 2^24 rows; one that has none left is
    /// answered as want of memory.
    pub fn constructor(
        &mut self,
        rows: &Rows,
        class: u32,
        params: &[Place],
    ) -> Result<u32, AllocError>
        requires class { class < 17 }
        requires params { AllByRecursion (FitsPlace rows.now.types) params.now }
        requires before { AreReferences rows.now self.old }
        ensures token { IfOk result (λ at. HasConstructor rows.now self.new class params.now at) }
        ensures fits { IfOk result (λ at. at < 2 ^ 32) }
        ensures grows { OnOk result (StoreGrows self.old self.new) }
        ensures kept { OnOk result (AreReferences rows.now self.new) }
    {
        let sig = self.constructor_sig(rows, params)?;
        let row = reference(class + 1, self.constructor_name, sig);
        self.push_reference(row)
    }
}
