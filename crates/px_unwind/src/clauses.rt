// Handlers and exits.
ghost use Rattle.std.specs.Prelude.{◌≡◌, ◌<◌, ◌^◌, length};
ghost use Rattle.px_program.specs.Formed.{AreTypes, method_at};
ghost use Rattle.px_unwind.specs.Clauses.{catches, clauses_of, exit_in, exits, handler_in, holds, meets, meets_kind};

use px_program::{Clause, ClauseKind, Method, Program};

// Whether the clause's range holds an offset.
fn holds(clause: Clause, at: u32) -> bool
    ensures { result ≡ holds clause at }
{
    clause.from <= at && at < clause.to
}

// Whether a catch for this class, if it is a known one, is for exceptions of the class.
fn catches(program: &Program, class: u32, caught: Option<u32>) -> bool
    requires types { AreTypes program.now.types }
    ensures { result ≡ catches program.now.types class caught }
{
    match caught {
        Some(caught) => program.is_kind_of(class, caught),
        None => false,
    }
}

// Whether a clause of this kind and class is for exceptions of the class.
fn meets_kind(program: &Program, class: u32, caught: Option<u32>, kind: ClauseKind) -> bool
    requires types { AreTypes program.now.types }
    ensures { result ≡ meets_kind program.now.types class caught kind }
{
    match kind {
        ClauseKind::Catch => catches(program, class, caught),
        ClauseKind::Filter | ClauseKind::Finally | ClauseKind::Fault => true,
    }
}

// Whether an exception of the class that is thrown at an offset meets the clause.
fn meets(program: &Program, at: u32, class: u32, clause: Clause) -> bool
    requires types { AreTypes program.now.types }
    ensures { result ≡ meets program.now.types at class clause }
{
    holds(clause, at) && meets_kind(program, class, clause.class, clause.kind)
}

// Whether a jump leads out of the range of a finally clause.
fn exits(from: u32, to: u32, clause: Clause) -> bool
    ensures { result ≡ exits from to clause }
{
    matches!(clause.kind, ClauseKind::Finally) && holds(clause, from) && !holds(clause, to)
}

/// The first clause numbered `after` or more that an exception of the class meets where it is thrown at an offset: a catch for the class or a base of it, or a
/// filter, finally or fault clause. A method that isn't there has none: Partition I, 12.4.2.5.
pub fn handler_of(
    program: &Program,
    method: u32,
    offset: u32,
    after: u32,
    class: u32,
) -> Option<u32>
    requires types { AreTypes program.now.types }
    requires few { length (clauses_of (method_at program.now method)) < 2 ^ 32 }
    ensures { result ≡ handler_in program.now method offset after class }
{
    let clauses = program.methods.get(method as usize)?.clauses.as_slice();
    for (number, clause) in clauses.iter().enumerate() {
        if number >= after as usize && meets(program, offset, class, *clause) {
            return Some(number as u32);
        }
    }
    None
}

/// The first finally clause numbered `after` or more whose range a jump from one offset to another leaves: Partition III, 3.46.
pub fn exits_of(method: &Method, from: u32, to: u32, after: u32) -> Option<u32>
    requires { length method.now.clauses < 2 ^ 32 }
    ensures { result ≡ exit_in method.now from to after }
{
    for (number, clause) in method.clauses.as_slice().iter().enumerate() {
        if number >= after as usize && exits(from, to, *clause) {
            return Some(number as u32);
        }
    }
    None
}
