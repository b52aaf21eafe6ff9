// The bases of types.
ghost use Rattle.std.specs.Prelude.{◌≡◌, ◌≢◌, ◌<◌, ◌≤◌, ◌↔◌, ℕ, min, IsTrue, MatchOption};
ghost use Rattle.px_program.specs.Bases.{AreBothOn, HasBases, IsNearestBase};
ghost use Rattle.px_program.specs.Formed.{AreTypes, DerivesFrom, IsKindOf, base_of};

use crate::Program;

impl Program {
    /// The base of a type, where it has one: Partition I, 8.9.9.
    pub fn base_of(&self, type_number: u32) -> Option<u32>
        ensures { result ≡ base_of self.now.types type_number }
    {
        self.types.get(type_number as usize)?.base
    }

    // A base of a type that has more bases than this, and that has no fewer itself: where the type leaps to, or its base where that is too far.
    fn towards(&self, type_number: u32, depth: u32) -> u32
        requires { (count : ℕ) → HasBases self.now.types type_number count → depth < count }
        ensures derives { DerivesFrom self.now.types type_number result }
        ensures deep { (count : ℕ) → HasBases self.now.types result count → depth ≤ count }
    {
        let jump = self.types.step(type_number).jump;
        match self.base_of(type_number) {
            Some(base) if self.types.step(jump).depth < depth => base,
            _ => jump,
        }
    }

    // The base of a type that has so many bases itself. It is the type where that has no more.
    fn climb(&self, type_number: u32, depth: u32) -> u32
        ensures kind { IsKindOf self.now.types type_number result }
        ensures depth { (count : ℕ) → HasBases self.now.types type_number count → HasBases self.now.types result (min count depth) }
    {
        let mut at = type_number;
        let mut count = self.types.step(at).depth;
        while count > depth {
            at = self.towards(at, depth);
            count = self.types.step(at).depth;
        }
        at
    }

    /// Whether a type is another or has it among its bases: Partition I, 8.9.9. It takes time by the logarithm of how many bases they have.
    pub fn is_kind_of(&self, type_number: u32, other: u32) -> bool
        requires types { AreTypes self.now.types }
        ensures { IsTrue result ↔ IsKindOf self.now.types type_number other }
    {
        self.climb(type_number, self.types.step(other).depth) == other
    }

    // Where two different types with equally many bases go on: where they leap to, if that is to different types with equally many bases, and else to their
    // bases. None where they have no base.
    fn both_on(&self, one: u32, other: u32) -> Option<(u32, u32)>
        requires apart { one ≢ other }
        requires even { (count : ℕ) → HasBases self.now.types one count → HasBases self.now.types other count }
        ensures { MatchOption result ((base : ℕ) → IsKindOf self.now.types one base → IsKindOf self.now.types other base → ⊥) (λ next. AreBothOn self.now.types one other next.0 next.1) }
    {
        let (jump, other_jump) = (self.types.step(one).jump, self.types.step(other).jump);
        let Some(base) = self.base_of(one) else {
            return None;
        };
        let Some(other_base) = self.base_of(other) else {
            return None;
        };
        if jump != other_jump && self.types.step(jump).depth == self.types.step(other_jump).depth {
            Some((jump, other_jump))
        } else {
            Some((base, other_base))
        }
    }

    /// The nearest of the types that are bases of both types, each being one of its own here. It takes time by the logarithm of how many bases they have.
    pub fn common_base(&self, one: u32, other: u32) -> Option<u32>
        requires types { AreTypes self.now.types }
        ensures { MatchOption result ((base : ℕ) → IsKindOf self.now.types one base → IsKindOf self.now.types other base → ⊥) (IsNearestBase self.now.types one other) }
    {
        let depth = self.types.step(one).depth.min(self.types.step(other).depth);
        let mut at = self.climb(one, depth);
        let mut beside = self.climb(other, depth);
        while at != beside {
            let Some(next) = self.both_on(at, beside) else {
                return None;
            };
            (at, beside) = next;
        }
        Some(at)
    }
}
