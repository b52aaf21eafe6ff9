// Programs that are run so far.
ghost use Rattle.std.specs.Prelude.{◌≡◌, IsSome, Some};
ghost use Rattle.px_program.specs.Formed.{Follow, entry_of};
ghost use Rattle.px_simple.specs.Simple.{IsSimple};
ghost use Rattle.px_simple.specs.Typing.{IsTyped};
ghost use Rattle.px_verify.specs.Verdict as verdict;

use px_program::{Method, Program};
use px_verify::Verified;
use std::marker::Model;

/// A verified program whose entry is simple, seen as the program.
#[derive(Drop)]
pub struct Simple {
    pub(crate) verified: Verified,
}

impl Model for Simple {
    ghost use Rattle.px_program.specs.declared.program.Program.{Program};
    ghost use Rattle.px_simple.specs.Simple.{IsSimple};

    ghost Value = { Program };

    ghost view = { λ s. s.verified };

    ghost invariant = { λ s. IsSimple s.verified };
}

impl Simple {
    /// The program that was accepted.
    pub fn program(&self) -> &Program
        ensures same { result.now ≡ self.now }
        ensures simple { IsSimple self.now }
        ensures typed { verdict.IsTyped self.now }
    {
        self.verified.program()
    }

    /// The method that a run begins with.
    pub fn entry(&self) -> &Method
        ensures entry { entry_of self.now ≡ Some result.now }
        ensures follow { Follow 0 result.now.code }
        ensures typed { IsTyped result.now }
    {
        entry_of(self.verified.program())
    }
}

// The method numbered `entry`.
pub(crate) fn entry_of(program: &Program) -> &Method
    requires { IsSome (entry_of program.now) }
    ensures { entry_of program.now ≡ Some result.now }
{
    match program.methods.get(program.entry as usize) {
        Some(method) => method,
        None => unreachable!(),
    }
}
