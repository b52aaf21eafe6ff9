// A body, its instructions and its faults.
ghost use Rattle.std.specs.Prelude.{◌≡◌};

use sqlite_items::Items;
use std::alloc::{AllocError, AllocFailed};

/// What is wrong with a body.
#[derive(Clone, Copy, PartialEq, Eq)]
pub enum BodyKind {
    /// The header is of no known form, or says that there is no code.
    BadHeader,
    /// The bytes end before the body does.
    Cut,
    /// A byte, or the one behind 0xFE, that is no opcode.
    BadOpcode,
    /// A branch leads to a place at which no instruction starts.
    BadTarget,
    /// A clause of no known kind, or with a range that is empty or doesn't begin and end at instructions.
    BadClause,
}

/// Why a body isn't read: want of memory, or what is wrong and at which byte, counted from the header.
#[derive(Clone, Copy, PartialEq, Eq)]
pub enum BodyFault {
    Memory,
    Bad { kind: BodyKind, at: u32 },
}

impl BodyKind {
    // The fault of this kind at a byte.
    pub(crate) fn at(self, at: u32) -> BodyFault
        ensures { result ≡ BodyFault.Bad self at }
    {
        BodyFault::Bad { kind: self, at }
    }
}

impl From<AllocError> for BodyFault {
    ghost use Rattle.px_code.specs.declared.body.BodyFault.TheVariants.{Memory};

    ghost from_gives = { λ _ e. e ≡ Memory };

    fn from(_: AllocError) -> Self {
        BodyFault::Memory
    }
}

impl<T: Drop> From<AllocFailed<T>> for BodyFault {
    ghost use Rattle.px_code.specs.declared.body.BodyFault.TheVariants.{Memory};

    ghost from_gives = { λ _ e. e ≡ Memory };

    fn from(_: AllocFailed<T>) -> Self {
        BodyFault::Memory
    }
}

/// What follows an opcode, by its size in bytes: a number, or how far a branch leads. A switch has a count of targets, and these.
#[derive(Clone, Copy, PartialEq, Eq)]
pub enum Operand {
    Number(u32),
    Target(u32),
    Switch,
}

/// An instruction as it stands in the code, at its offset; `next` is the offset behind it. An opcode behind 0xFE is 0xFE00 plus its second byte.
/// The operand is its bytes as a number, the low byte first; it is 0 where there is none, where it is a target, and for a switch. Targets are offsets.
#[derive(Drop)]
pub struct RawInstr {
    pub offset: u32,
    pub next: u32,
    pub opcode: u16,
    pub operand: u64,
    pub targets: Items<u32>,
}

/// A clause of a protected range as it stands behind the code: Partition II, 25.4.6. `to` and `stop` are the ends of the two ranges,
/// and `class` is the token of the class that a catch is for, or where a filter starts. Flags: 0 catch, 1 filter, 2 finally, 4 fault.
#[derive(Clone, Copy, PartialEq, Eq)]
pub struct RawClause {
    pub flags: u32,
    pub from: u32,
    pub to: u32,
    pub start: u32,
    pub stop: u32,
    pub class: u32,
}

/// The body of a method: what its header says, its instructions in order, and its clauses.
#[derive(Drop)]
pub struct Body {
    pub max_stack: u16,
    pub init_locals: bool,
    pub locals_token: u32,
    pub code: Items<RawInstr>,
    pub clauses: Items<RawClause>,
}
