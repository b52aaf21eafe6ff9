// Laws of merges.
ghost use Rattle.px_verify_kinds.specs.Heights.{AbsorbsOn, CommonAbove, FitsAreOrdered, GivenIsAbsorbed, HeightIsBounded, MergesFall};

/// A merge leaves what stands or makes it lower, what was given is absorbed from then on, and what two stacks become may stand for either.
pub fn merges_settle()
    ensures falls { MergesFall }
    ensures absorbed { GivenIsAbsorbed }
    ensures on { AbsorbsOn }
    ensures bounded { HeightIsBounded }
    ensures above { CommonAbove }
    ensures ordered { FitsAreOrdered }
{}
