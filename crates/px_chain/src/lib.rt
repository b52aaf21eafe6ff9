//! Formulas, resolution, and the check of refutations and of logs of conflicts.
#![tactic(auto)]

mod chain;
mod checker;
mod cnf;
mod fault;
mod laws;
mod log_checker;
mod premises;
mod propagation;
mod resolver;

pub use chain::{Chain, ChainFault, Chains, Lit, Log, LogEntry, LogFault, Refuted, Why};
pub use checker::check;
pub use cnf::Cnf;
pub use laws::{
    genuine_logs_are_short, learnt_clauses_differ, refuted_is_unmet, resolution_is_sound,
};
pub use log_checker::check_log;
pub use premises::Premises;
pub use propagation::complement;
pub use resolver::Resolver;
