// A run over any kind of scalars.
ghost use Rattle.std.specs.Prelude.{◌≡◌, ◌≤◌, ℕ, Some, IfOk, IsSome, OnOk, map, vec_len};
ghost use Rattle.px_cells.specs.Plain.{plain, plain_algebra};
ghost use Rattle.px_program.specs.Formed.{Follow, all_params, instr_at};
ghost use Rattle.px_simple.specs.Typing.{IsTyped};
ghost use Rattle.px_interp.specs.Run.{course_by, no_pool, seen_events, seen_gaps};
ghost use Rattle.px_interp.specs.Table.{first, run};
ghost use Rattle.px_interp.specs.Words.{AreArguments};

use crate::rows::{Next, act};
use crate::stack::Stack;
use px_cells::Worded;
use px_program::{End, Event, Instr, Method};
use px_simple::instr_at;
use std::alloc::{AllocError, Global};

/// An event of a run, with what is known beside it.
#[derive(Clone, Copy)]
pub struct Seen<W> {
    pub event: Event,
    /// How far the run was from the other side: Xie, Tillmann, de Halleux and Schulte, DSN 2009.
    pub gap: u64,
    /// The scalar whose word is the side that was taken.
    pub side: W,
}

/// What a run came to: its events in order, and how it ended.
#[derive(Drop)]
pub struct Traced<W> {
    pub seen: Vec<Seen<W>>,
    pub end: End,
}

/// Runs a method, which has the number `number` in its program, on arguments that stand in the pool, for at most `steps`
/// steps: Partition III, 3. Scalars that the run makes stand in the pool afterwards. The only error is want of memory,
/// after which the pool may have gained something.
pub fn trace<W: Worded>(
    alloc: Global,
    method: &Method,
    number: u32,
    args: &[W],
    pool: &mut W::Pool,
    steps: u32,
) -> Result<Traced<W>, AllocError>
    requires follow { Follow 0 method.now.code }
    requires typed { IsTyped method.now }
    requires pool { W.sound pool.old }
    requires args { AreArguments (W.stands pool.old) (all_params method.now) args.now }
    ensures seen { IfOk result (λ t. t.seen.items ≡ (run W.algebra steps method.now number args.now (first pool.old)).seen) }
    ensures end { IfOk result (λ t. (run W.algebra steps method.now number args.now (first pool.old)).end ≡ Some t.end) }
    ensures pool_after { OnOk result (pool.new ≡ (run W.algebra steps method.now number args.now (first pool.old)).pool) }
    ensures short { IfOk result (λ t. vec_len t.seen ≤ steps) }

    // Seen by its words, the run is the plain run on the words of the arguments.
    ensures words { IfOk result (λ t. record { events = seen_events t.seen.items; gaps = seen_gaps t.seen.items; end = Some t.end } ≡ course_by (run plain_algebra steps method.now number (map (λ x. plain (W.algebra.word x)) args.now) (first no_pool))) }
{
    let mut seen = Vec::new(alloc);
    let mut stack = Stack::new(alloc);
    let mut at = 0;
    for i in 0..steps {
        let instr = instr_of(method, at);
        match act(alloc, instr, number, args, pool, &mut stack)? {
            Next::Goes(to) => at = to,
            Next::Chooses(choice, to) => {
                seen.push(choice)?;
                at = to;
            }
            Next::Ends(end) => return Ok(Traced { seen, end }),
        }
    }
    Ok(Traced {
        seen,
        end: End::StepBound,
    })
}

// The instruction that starts at the offset, where one does.
fn instr_of(method: &Method, at: u32) -> &Instr
    requires follow { Follow 0 method.now.code }
    requires there { IsSome (instr_at method.now.code at) }
    ensures { instr_at method.now.code at ≡ Some result.now }
{
    match instr_at(method, at) {
        Some(instr) => instr,
        None => unreachable!(),
    }
}
