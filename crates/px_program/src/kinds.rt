// Which references may stand for which.
ghost use Rattle.std.specs.Prelude.{◌≡◌, ◌↔◌, ℕ, IsTrue};
ghost use Rattle.px_program.specs.Formed.{AreTypes, element_of};
ghost use Rattle.px_program.specs.Kinds.{Fits};

use crate::{Place, Program};

impl Program {
    // The type of an array's elements, where these are references.
    fn element_of(&self, type_number: u32) -> Option<u32>
        ensures { result ≡ element_of self.now.types type_number }
    {
        match self.types.get(type_number as usize)?.element {
            Some(Place::Ref(element)) => Some(element),
            _ => None,
        }
    }

    /// Whether a reference of a type may stand where one of another is asked for. The other is `Object`, or the type itself or one of its bases, or both are
    /// arrays of references and those of the first may stand for those of the other: Partition I, 8.7.1.
    pub fn fits(&self, type_number: u32, other: u32) -> bool
        requires types { AreTypes self.now.types }
        ensures { IsTrue result ↔ Fits self.now.types type_number other }
    {
        let (mut from, mut to) = (type_number, other);
        while to != 0 && !self.is_kind_of(from, to) {
            match (self.element_of(from), self.element_of(to)) {
                (Some(inner), Some(wanted)) => {
                    from = inner;
                    to = wanted;
                }
                _ => return false,
            }
        }
        true
    }
}

/// What may stand for itself, and for what may stand for another, may stand for the other.
pub fn fits_is_preorder(program: &Program)
    ensures itself { (type : ℕ) → Fits program.now.types type type }
    ensures through { (type between other : ℕ) → AreTypes program.now.types → Fits program.now.types type between → Fits program.now.types between other → Fits program.now.types type other }
{}
