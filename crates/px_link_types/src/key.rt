// Places and types of an assembly, before they have numbers.
ghost use Rattle.std.specs.Prelude.{◌++◌, ◌≡◌};
ghost use Rattle.std.proofs.Common.{rules};
ghost use Rattle.std.specs.Cmp.Rules.{hashing};
ghost use Rattle.std.specs.Hash as fed;
ghost use Rattle.px_link_types.specs.Hashes.{kind_of, row_of};

use px_sig::Integer;
use std::hash::{Hash, Hasher};

/// What lies at the bottom of a place: an integer, a type of the library by its number, or a type of the assembly by its row of TypeDef.
#[derive(Clone, Copy, PartialEq, Eq)]
pub enum Leaf {
    Number(Integer),
    Library(u32),
    Defined(u32),
}

impl Leaf {
    // Which of the three it is.
    fn kind(self) -> u8
        ensures { result ≡ kind_of self }
    {
        match self {
            Leaf::Number(_) => 0,
            Leaf::Library(_) => 1,
            Leaf::Defined(_) => 2,
        }
    }

    // The number of a type, and 0 for an integer.
    fn row(self) -> u32
        ensures { result ≡ row_of self }
    {
        match self {
            Leaf::Number(_) => 0,
            Leaf::Library(row) | Leaf::Defined(row) => row,
        }
    }
}

impl Hash for Leaf {
    ghost hash_input = { λ leaf. fed.u8 (kind_of leaf) ++ fed.u32 (row_of leaf) };

    ghost respects_eq = { Prim.search (hashing, rules) };

    fn hash<H: Hasher>(&self, state: &mut H) {
        state.write_u8(self.kind());
        state.write_u32(self.row());
    }
}

/// A place: its leaf, or arrays of arrays of it, `depth` deep. All but an integer alone is a type.
#[derive(Clone, Copy, PartialEq, Eq, Hash)]
pub struct Key {
    pub depth: u32,
    pub leaf: Leaf,
}
