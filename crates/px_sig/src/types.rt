// Reads types and lists of types: Partition II, 23.2.12.
ghost use Rattle.std.specs.Prelude.{◌≡◌, ◌+◌, ◌-◌, ◌*◌, ◌≤◌, ◌<◌, ℕ, List, length, vec_len, IfOk, IfErr, OnOk};
ghost use Rattle.px_sig.specs.Grammar.{is_kind, many, method_at, type_at, type_behind};
ghost use Rattle.px_sig.specs.Parts.{Goes, IsInner, LeadsIn, Makes, MayPass, behind_all, behind_both, behind_owed, plain};

use crate::cursor::{Callee, Cursor};
use crate::fault::SigFault;
use crate::form::{Form, Owes};
use crate::sig::{MethodSig, SigLeaf, SigType};
use sqlite_items::Items;
use std::alloc::Global;

// Puts what is owed on the pile, if that is anything: so a chain of pointers doesn't grow it.
fn owe(owed: &mut Vec<Owes>, more: Owes) -> Result<(), SigFault>
    ensures all { OnOk result ((blob : List ℕ) (at : ℕ) → behind_all blob owed.new.items at ≡ behind_both blob more owed.old.items at) }
    ensures length { vec_len owed.new ≤ vec_len owed.old + 1 }
    ensures memory { IfErr result (λ fault. fault ≡ SigFault.Memory) }
{
    if more.types > 0 || more.shape {
        owed.push(more)?;
    }
    Ok(())
}

impl Cursor<'_> {
    // Passes over a part of what is owed; what is left of it goes on the pile.
    fn step(&mut self, owed: &mut Vec<Owes>, owes: Owes) -> Result<(), SigFault>
        ensures goes { Goes self.old.blob.now result owed.new.items self.new.at (behind_both self.old.blob.now owes owed.old.items self.old.at) }
        ensures blob { self.new.blob.now ≡ self.old.blob.now }
        ensures later { OnOk result (self.old.at ≤ self.new.at) }
        ensures less { OnOk result (4 * (length self.old.blob.now - self.new.at) + vec_len owed.new ≤ 4 * (length self.old.blob.now - self.old.at) + vec_len owed.old) }
    {
        if owes.types > 0 {
            let types = owes.types - 1;
            let left = Owes {
                types,
                shape: owes.shape,
            };
            owe(owed, left)?;
            let form = self.form()?;
            let inner = self.owes(&form)?;
            owe(owed, inner)?;
        } else if owes.shape {
            self.shape()?;
        }
        Ok(())
    }

    // Passes over all that is owed.
    fn pass(&mut self, alloc: Global, first: Owes) -> Result<(), SigFault>
        ensures passes { MayPass result self.new.at (behind_owed self.old.blob.now first self.old.at) }
        ensures blob { self.new.blob.now ≡ self.old.blob.now }
    {
        let mut owed = Vec::new(alloc);
        owed.push(first)?;
        while let Some(owes) = owed.pop() {
            self.step(&mut owed, owes)?;
        }
        Ok(())
    }

    // Passes over modifiers and counts arrays, up to the form of the type in them.
    fn innermost(&mut self) -> Result<(u32, Form), SigFault>
        ensures leads { LeadsIn self.old.blob.now result self.new.at (type_at self.old.blob.now self.old.at) }
        ensures blob { self.new.blob.now ≡ self.old.blob.now }
    {
        let mut arrays = 0;
        loop {
            match self.form()? {
                Form::Modifier => {
                    self.token()?;
                }
                Form::Pinned => {}
                Form::Array => arrays += 1,
                form => return Ok((arrays, form)),
            }
        }
    }

    // The type that is no array, by what follows its first byte.
    #[tactic(auto, unfolding(crate::specs::Grammar::type_behind))]
    fn inner(&mut self, alloc: Global, form: Form) -> Result<SigLeaf, SigFault>
        requires { IsInner form }
        ensures makes { Makes (plain result) self.new.at (type_behind (type_at self.old.blob.now) self.old.blob.now form self.old.at) }
        ensures blob { self.new.blob.now ≡ self.old.blob.now }
    {
        match form {
            Form::Alone(itself) => Ok(itself),
            Form::Class => Ok(SigLeaf::Class(self.token()?)),
            form => {
                let owes = self.owes(&form)?;
                self.pass(alloc, owes)?;
                Ok(SigLeaf::Other)
            }
        }
    }

    /// A type.
    pub fn sig_type(&mut self, alloc: Global) -> Result<SigType, SigFault>
        ensures makes { Makes result self.new.at (type_at self.old.blob.now self.old.at) }
        ensures blob { self.new.blob.now ≡ self.old.blob.now }
    {
        let (depth, form) = self.innermost()?;
        let leaf = self.inner(alloc, form)?;
        Ok(SigType { depth, leaf })
    }

    /// So many types.
    pub fn types(&mut self, alloc: Global, count: u32) -> Result<Items<SigType>, SigFault>
        ensures makes { Makes result self.new.at (many (type_at self.old.blob.now) count self.old.at) }
        ensures blob { self.new.blob.now ≡ self.old.blob.now }
    {
        let mut types = Vec::new(alloc);
        for _ in 0..count {
            types.push(self.sig_type(alloc)?)?;
        }
        Ok(Items::from_vec(types))
    }

    /// The signature of a method.
    #[tactic(auto, unfolding(crate::specs::Grammar::method_at))]
    pub fn method(&mut self, alloc: Global) -> Result<MethodSig, SigFault>
        ensures makes { Makes result self.new.at (method_at is_kind (type_at self.old.blob.now) self.old.blob.now self.old.at) }
        ensures blob { self.new.blob.now ≡ self.old.blob.now }
    {
        let front = self.front(Callee::Method)?;
        let ret = self.sig_type(alloc)?;
        let params = self.types(alloc, front.count)?;
        Ok(MethodSig {
            has_this: front.has_this,
            plain: front.plain,
            ret,
            params,
        })
    }
}
