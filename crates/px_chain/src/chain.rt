// Chains of resolutions, and logs of conflicts.
use sqlite_items::Items;
use std::alloc::AllocError;

/// A literal: twice its variable, and one more where it is negated.
pub type Lit = u32;

/// A chain of resolutions: from the clause numbered `first`, each pair of `rest` resolves on a variable with the clause of a number.
/// The formula's clauses are numbered from 0, and the claims of earlier chains follow. `claim` is what the chain resolves to.
#[derive(Drop)]
pub struct Chain {
    pub claim: Items<Lit>,
    pub first: u64,
    pub rest: Items<(u32, u64)>,
}

/// A refutation: chains of which each may use the claims of those before it, the last with the empty claim.
pub type Chains = Items<Chain>;

/// A conflict that propagation met: the decisions before it, the last decision, and the chain whose claim is the clause that was learnt.
#[derive(Drop)]
pub struct LogEntry {
    pub decisions: Items<Lit>,
    pub last: Lit,
    pub chain: Chain,
}

/// The conflicts of a search, in order.
pub type Log = Items<LogEntry>;

/// What is wrong with a chain.
#[derive(Drop)]
pub enum Why {
    /// There is no clause of this number yet.
    NoClause(u64),
    /// The variable doesn't stand with one sign in the one clause and with the other in the other.
    NoPivot(u32),
    /// The chain resolves to another clause than it claims; both ascend.
    Claim {
        claimed: Items<Lit>,
        resolved: Items<Lit>,
    },
    /// The last claim isn't empty, or there is no chain.
    NotEmpty,
}

/// Why chains are no refutation: want of memory, or the first chain that fails.
#[derive(Drop)]
pub enum ChainFault {
    Memory,
    BadStep { step: u32, why: Why },
}

impl From<AllocError> for ChainFault {
    ghost use Rattle.std.specs.Prelude.{◌≡◌};
    ghost use Rattle.px_chain.specs.declared.chain.ChainFault.TheVariants.{Memory};

    ghost from_gives = { λ _ fault. fault ≡ Memory };

    fn from(_: AllocError) -> ChainFault {
        ChainFault::Memory
    }
}

/// Why a log isn't genuine: want of memory, or the first entry that is no genuine conflict.
#[derive(Clone, Copy, PartialEq, Eq)]
pub enum LogFault {
    Memory,
    BadEntry { entry: u32 },
}

impl From<AllocError> for LogFault {
    ghost use Rattle.std.specs.Prelude.{◌≡◌};
    ghost use Rattle.px_chain.specs.declared.chain.LogFault.TheVariants.{Memory};

    ghost from_gives = { λ _ fault. fault ≡ Memory };

    fn from(_: AllocError) -> LogFault {
        LogFault::Memory
    }
}

/// The formula was refuted: no assignment meets all its clauses.
#[derive(Clone, Copy, PartialEq, Eq)]
pub struct Refuted;
