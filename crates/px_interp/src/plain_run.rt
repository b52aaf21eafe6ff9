// The plain run of a program.
ghost use Rattle.std.specs.Prelude.{◌≡◌, ◌≤◌, ◌+◌, ◌*◌, length, map, IfOk};
ghost use Rattle.px_cells.specs.Plain.{plain};
ghost use Rattle.px_domain.specs.Domain.{InDomain, places_of};
ghost use Rattle.px_program.specs.Arguments.{arguments_of};
ghost use Rattle.px_program.specs.declared.record.Bounds.{Bounds};
ghost use Rattle.px_interp.specs.Run.{IsRun, seen_events, seen_gaps, with_receiver};
ghost use Rattle.px_interp.specs.Shape.{SameShape};

use crate::machine::{Seen, trace};
use px_cells::{NoPool, Plain};
use px_domain::Domain;
use px_program::{Bounds, Event, Method, Record, Words};
use px_simple::Simple;
use sqlite_items::Items;
use std::alloc::{AllocError, Global};

/// Runs the program's entry on words of the domain, for at most `bounds.steps` steps: Partition III, 3.
/// The record has the events, the gap of each, and the end. The only error is want of memory.
pub fn run(
    alloc: Global,
    program: &Simple,
    domain: &Domain,
    words: &Words,
    bounds: Bounds,
) -> Result<Record, AllocError>
    requires places { places_of domain.now ≡ arguments_of program.now }
    requires holds { InDomain domain.now words.now }
    ensures words { IfOk result (λ r. r.words ≡ words.now) }
    ensures is_run { IfOk result (IsRun program.now domain.now bounds) }
    ensures short { IfOk result (λ r. length r.events ≤ 2 * bounds.steps + 16) }
{
    let number = program.program().entry;
    let method = program.entry();
    let args = args_of(alloc, method, words.as_slice())?;
    let mut pool = NoPool;
    let traced = trace(
        alloc,
        method,
        number,
        args.as_slice(),
        &mut pool,
        bounds.steps,
    )?;
    Ok(Record {
        words: Items::from_slice(alloc, words.as_slice())?,
        events: events_of(alloc, traced.seen.as_slice())?,
        gaps: gaps_of(alloc, traced.seen.as_slice())?,
        end: traced.end,
    })
}

// The words as scalars.
fn scalars_of(alloc: Global, words: &[u64]) -> Result<Vec<Plain>, AllocError>
    ensures { IfOk result (λ scalars. scalars.items ≡ map plain words.now) }
{
    words
        .iter()
        .map(|word| Plain { word: *word })
        .collect(alloc)
}

// The same after the word 0 for a receiver, where there is one.
fn args_of(alloc: Global, method: &Method, words: &[u64]) -> Result<Vec<Plain>, AllocError>
    ensures { IfOk result (λ args. args.items ≡ map plain (with_receiver method.now words.now)) }
{
    let scalars = scalars_of(alloc, words)?;
    if method.is_static {
        return Ok(scalars);
    }
    let mut args = Vec::new(alloc);
    args.push(Plain { word: 0 })?;
    args.extend_from_slice(scalars.as_slice())?;
    Ok(args)
}

fn events_of(alloc: Global, seen: &[Seen<Plain>]) -> Result<Items<Event>, AllocError>
    ensures { IfOk result (λ events. events ≡ seen_events seen.now) }
{
    let mut events = Items::new(alloc);
    for choice in seen {
        events.push(choice.event)?;
    }
    Ok(events)
}

fn gaps_of(alloc: Global, seen: &[Seen<Plain>]) -> Result<Items<u64>, AllocError>
    ensures { IfOk result (λ gaps. gaps ≡ seen_gaps seen.now) }
{
    let gaps = seen.iter().map(|seen| seen.gap).collect(alloc)?;
    Ok(Items::from_vec(gaps))
}

/// The law that paths part only at sites: where two runs of a domain have begun with the same events, they come to the same site next,
/// or both end, and in the same way. So no path is a front of another. The call changes nothing.
pub fn same_shape(program: &Simple, domain: &Domain)
    requires places { places_of domain.now ≡ arguments_of program.now }
    ensures { (bounds : Bounds) → SameShape program.now domain.now bounds }
{
    let _entry = program.entry();
}
