// Where objects of a class have their fields.
ghost use Rattle.std.specs.Prelude.{◌≡◌, ◌<◌, ◌^◌, ◌++◌, ℕ, List, Some, slice_get, IfOk, IfSome, MatchOption};
ghost use Rattle.px_program.specs.Fields.{AreFields, IsSlot, own_fields};
ghost use Rattle.px_program.specs.Formed.{AreTypes, IsKindOf};

use crate::{Field, Place, Program};
use std::alloc::{AllocError, Global};

impl Program {
    // How many fields a type has of its own.
    fn own_fields(&self, type_number: u32) -> &[Place]
        ensures { result.now ≡ own_fields (slice_get self.now.types type_number) }
    {
        match self.types.get(type_number as usize) {
            Some(info) => info.fields.as_slice(),
            None => &[],
        }
    }

    /// The fields of an object of a class: those of the last base first, and the class's own last. So they begin with those of each base.
    pub fn all_fields(&self, alloc: Global, class: u32) -> Result<Vec<Place>, AllocError>
        requires types { AreTypes self.now.types }
        ensures fields { IfOk result (λ fields. AreFields self.now.types class fields.items) }
        ensures of_base { (base : ℕ) (those : List Place) → IsKindOf self.now.types class base → AreFields self.now.types base those → IfOk result (λ fields. (more : List Place) × (fields.items ≡ those ++ more)) }
    {
        let mut chain = Vec::new(alloc);
        let mut at = Some(class);
        while let Some(type_number) = at {
            chain.push(type_number)?;
            at = self.base_of(type_number);
        }
        let mut fields = Vec::new(alloc);
        while let Some(type_number) = chain.pop() {
            fields.extend_from_slice(self.own_fields(type_number))?;
        }
        Ok(fields)
    }

    /// The place of a field among all fields of an object that has it, the same in each class whose kind its owner is. None exactly where the place would be
    /// 2^32 or more.
    pub fn slot_of(&self, field: Field) -> Option<u32>
        requires types { AreTypes self.now.types }
        ensures slot { MatchOption result ((slot : ℕ) → IsSlot self.now.types field slot → slot < 2 ^ 32 → ⊥) (IsSlot self.now.types field) }
        ensures has { (class : ℕ) (fields : List Place) (place : Place) → IsKindOf self.now.types class field.owner → AreFields self.now.types class fields → slice_get (own_fields (slice_get self.now.types field.owner)) field.index ≡ Some place → IfSome result (λ slot. slice_get fields slot ≡ Some place) }
    {
        let mut slot = field.index;
        let mut at = field.owner;
        while let Some(base) = self.base_of(at) {
            let count = u32::try_from(self.own_fields(base).len()).ok()?;
            slot = slot.checked_add(count)?;
            at = base;
        }
        Some(slot)
    }
}
