// Offsets whose instructions are still to be visited.
ghost use Rattle.std.specs.Prelude.{◌≡◌, [], MatchOption, OnOk};
ghost use Rattle.px_verify_rounds.specs.Rounds.{Added, IsOver, Popped, Puts, Takes};

use std::alloc::AllocError;
use std::collections::BTreeSet;

/// The offsets that are to be visited in this round, the least one first, and those that are in the next one.
#[derive(Drop)]
pub(crate) struct Worklist {
    pub(crate) now: BTreeSet<u32>,
    pub(crate) later: BTreeSet<u32>,
}

/// Adds an offset to a set.
pub(crate) fn add(set: &mut BTreeSet<u32>, at: u32) -> Result<(), AllocError>
    ensures { OnOk result (Added set.old set.new at) }
{
    set.insert(at)?;
    Ok(())
}

// Takes the least offset of a set.
fn pop(set: &mut BTreeSet<u32>) -> Option<u32>
    ensures { MatchOption result (set.old.keys ≡ [] × set.new.keys ≡ []) (Popped set.old set.new) }
{
    set.pop_first()
}

impl Worklist {
    /// Takes the first offset of this round.
    pub(crate) fn next(&mut self) -> Option<u32>
        ensures { MatchOption result (IsOver self.old self.new) (Takes self.old self.new) }
    {
        pop(&mut self.now)
    }

    /// Puts an offset where it waits after a change by the instruction at another one: behind that in this round, and else in the next one.
    pub(crate) fn put(&mut self, from: u32, at: u32) -> Result<(), AllocError>
        ensures { OnOk result (Puts from at self.old self.new) }
    {
        if at > from {
            add(&mut self.now, at)
        } else {
            add(&mut self.later, at)
        }
    }
}
