// Runs every tuple of a domain.
ghost use Rattle.std.specs.Prelude.{◌≡◌, ◌≤◌, ◌<◌, ◌^◌, ◌↔◌, IfOk, IsTrue};
ghost use Rattle.px_domain.specs.Domain.{places_of, ranges_of, size_of};
ghost use Rattle.px_program.specs.Arguments.{arguments_of};
ghost use Rattle.px_session.specs.Explored.{IsExplored};
ghost use Rattle.px_tests.specs.Sound.{Sound};
ghost use Rattle.px_tree.specs.Tree.{HasPath, paths_of};

use px_domain::Domain;
use px_interp::run;
use px_program::{Bounds, Event, Limits, Record, is_same_path};
use px_simple::Simple;
use px_tests::Findings;
use px_tree::untaken_sides;
use sqlite_items::Items;
use std::alloc::{AllocError, Global};

// Whether a record has the path.
fn has_path(records: &[Record], path: &[Event]) -> bool
    ensures { IsTrue result ↔ HasPath (paths_of records.now) path.now }
{
    for record in records {
        if is_same_path(record.events.as_slice(), path) {
            return true;
        }
    }
    false
}

// A record for each path of the domain, in the order of its tuples.
fn records_of(
    alloc: Global,
    program: &Simple,
    domain: &Domain,
    bounds: Bounds,
) -> Result<Vec<Record>, AllocError>
    requires places { places_of domain.now ≡ arguments_of program.now }
    requires few { size_of (ranges_of domain.now) < 2 ^ 32 }
    ensures { IfOk result (λ v. IsExplored program.now domain.now bounds v.items) }
{
    let size = match domain.size_within(u32::MAX) {
        Some(size) => size,
        None => unreachable!(),
    };
    let mut records: Vec<Record> = Vec::new(alloc);
    for number in 0..size {
        let words = domain.tuple(alloc, number)?;
        let tried = run(alloc, program, domain, &words, bounds)?;
        if has_path(records.as_slice(), tried.events.as_slice()) {
            continue;
        }
        records.push(tried)?;
    }
    Ok(records)
}

/// Runs every tuple of the domain in order, the last parameter running fastest, and keeps each run whose path is new.
pub fn explore_one(
    alloc: Global,
    program: &Simple,
    domain: Domain,
    bounds: Bounds,
    limits: Limits,
) -> Result<Findings, AllocError>
    requires places { places_of domain ≡ arguments_of program.now }
    requires few { size_of (ranges_of domain) < 2 ^ 32 }
    requires bounds { bounds.steps ≤ 8000 }
    ensures sound { IfOk result (Sound program.now) }
    ensures domain { IfOk result (λ f. f.domain ≡ domain) }
    ensures bounds { IfOk result (λ f. f.bounds ≡ bounds) }
    ensures limits { IfOk result (λ f. f.limits ≡ limits) }
{
    let records = records_of(alloc, program, &domain, bounds)?;
    let untaken = untaken_sides(alloc, records.as_slice())?;
    Ok(Findings {
        domain,
        bounds,
        limits,
        records: Items::from_vec(records),
        refuted: untaken.len() as u64,
    })
}
