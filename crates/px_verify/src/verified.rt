// Programs that were accepted.
ghost use Rattle.std.specs.Prelude.{◌≡◌};
ghost use Rattle.std.specs.Option.{option_copied};
ghost use Rattle.px_program.specs.Formed.{IsWellFormed};
ghost use Rattle.px_verify.specs.Numbering.{instr_in};
ghost use Rattle.px_verify.specs.Verdict.{IsTyped};

use crate::numbering::instr_by;
use px_program::{Instr, Program};
use px_shared::SharedList;
use std::marker::Model;

/// A program each of whose methods is typed, seen as the program. It keeps for each offset of each method where the instruction stands.
#[derive(Drop)]
pub struct Verified {
    pub(crate) program: Program,
    pub(crate) tables: Vec<SharedList<u32>>,
}

impl Model for Verified {
    ghost use Rattle.px_program.specs.declared.program.Program.{Program};
    ghost use Rattle.px_verify.specs.Accepted.{IsAccepted};

    ghost Value = { Program };

    ghost view = { λ v. v.program };

    ghost invariant = { λ v. IsAccepted v.program v.tables.items };
}

impl Verified {
    /// The program that was accepted.
    pub fn program(&self) -> &Program
        ensures same { result.now ≡ self.now }
        ensures formed { IsWellFormed self.now }
        ensures typed { IsTyped self.now }
    {
        &self.program
    }

    /// The instruction that starts at an offset of a method, where one does. It takes constant time.
    pub fn instr_at(&self, method: u32, at: u32) -> Option<&Instr>
        ensures { option_copied result ≡ instr_in self.now method at }
    {
        let code = &self.program.methods.get(method as usize)?.code;
        let places = self.tables.get(method as usize)?;
        instr_by(code.as_slice(), places.as_slice(), at)
    }
}
