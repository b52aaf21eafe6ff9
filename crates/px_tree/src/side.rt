// The sides of the tree, by a scan of the records.
ghost use Rattle.std.specs.Prelude.{◌≡◌, ◌+◌, ◌≤◌, ◌<◌, ◌^◌, ◌++◌, ◌&&◌, ℕ, map, nat_lt, drop, filter, slice_get, length, IfOk, OnOk};
ghost use Rattle.std.specs.List.{AllByRecursion};
ghost use Rattle.px_program.specs.Paths.{has_side};
ghost use Rattle.px_tree.specs.Passed.{passed_nodes, is_old, made_by, IsMade};
ghost use Rattle.px_tree.specs.Tree.{paths_of, path_at, arity_of, below, side_at, sides_of, is_taken, is_untaken, untaken_of};

use px_program::{Event, Record};
use std::alloc::{AllocError, Global};

/// A side of a node of the tree: the node is the first `depth` events of the path of the record that made it, numbered `maker`.
#[derive(Clone, Copy, PartialEq, Eq)]
pub struct Side {
    pub maker: u32,
    pub depth: u32,
    pub side: u32,
}

// The path of a record.
#[tactic(auto, using(crate::proofs::Nodes::path_at_is))]
fn path_at(records: &[Record], n: usize) -> &[Event]
    requires { n < length records.now }
    ensures { result.now ≡ path_at (paths_of records.now) n }
{
    records[n].events.as_slice()
}

// How many sides the site at a depth of a path has.
#[tactic(auto, using(crate::proofs::Nodes::arity_is))]
fn arity_at(path: &[Event], depth: usize) -> u32
    requires { depth < length path.now }
    ensures { result ≡ arity_of (slice_get path.now depth) }
{
    path[depth].site.arity
}

// How many nodes of the maker's path the other path passes.
#[tactic(auto, using(crate::proofs::Nodes::passed_end))]
fn passed_nodes(maker: &[Event], path: &[Event]) -> usize
    ensures { result ≡ passed_nodes maker.now path.now }
{
    for (depth, event) in maker.iter().enumerate() {
        if depth == path.len() {
            return depth;
        }
        if !path[depth].is_same(*event) {
            return depth + 1;
        }
    }
    maker.len()
}

// The first depth at which no earlier path passes a record's path, or its length.
fn first_new_depth(records: &[Record], maker: usize) -> usize
    requires { maker < length records.now }
    ensures within { result ≤ length (path_at (paths_of records.now) maker) }
    ensures first { (depth : ℕ) → depth < length (path_at (paths_of records.now) maker)
        → is_old (paths_of records.now) maker depth ≡ nat_lt depth result }
{
    let path = path_at(records, maker);
    let mut first: usize = 0;
    for earlier in 0..maker {
        first = first.max(passed_nodes(path, path_at(records, earlier)));
    }
    first
}

// Adds the sides of a node.
fn push_node(out: &mut Vec<Side>, maker: u32, depth: u32, arity: u32) -> Result<(), AllocError>
    ensures { OnOk result (out.new.items ≡ out.old.items ++ map (side_at maker depth) (below arity)) }
{
    for side in 0..arity {
        out.push(Side { maker, depth, side })?;
    }
    Ok(())
}

// Adds the sides of the nodes that a record makes.
fn push_made(out: &mut Vec<Side>, records: &[Record], maker: usize) -> Result<(), AllocError>
    requires few { length records.now < 2 ^ 32 }
    requires short { AllByRecursion (λ r. length r.events < 2 ^ 32) records.now }
    requires there { maker < length records.now }
    ensures { OnOk result (out.new.items ≡ out.old.items ++ made_by (paths_of records.now) maker) }
{
    let path = path_at(records, maker);
    for depth in first_new_depth(records, maker)..path.len() {
        push_node(out, maker as u32, depth as u32, arity_at(path, depth))?;
    }
    Ok(())
}

/// The sides of the tree of the records' paths, by number: the records in order, each path from its start, and at each new node all its sides.
/// The one error is want of memory.
#[tactic(auto, unfolding(crate::specs::Tree::sides_of))]
pub fn sides(alloc: Global, records: &[Record]) -> Result<Vec<Side>, AllocError>
    requires few { length records.now < 2 ^ 32 }
    requires short { AllByRecursion (λ r. length r.events < 2 ^ 32) records.now }
    ensures { IfOk result (λ v. v.items ≡ sides_of (paths_of records.now)) }
{
    let mut out = Vec::new(alloc);
    for maker in 0..records.len() {
        push_made(&mut out, records, maker)?;
    }
    Ok(out)
}

// How many nodes of the maker's path the path of each record passes.
fn passed_by_each(
    alloc: Global,
    records: &[Record],
    maker: &[Event],
) -> Result<Vec<usize>, AllocError>
    ensures { IfOk result (λ v. v.items ≡ map (λ r. passed_nodes maker.now r.events) records.now) }
{
    records
        .iter()
        .map(|record| passed_nodes(maker, record.events.as_slice()))
        .collect(alloc)
}

// Whether a path that passes so many nodes takes a side of the node at a depth.
fn takes(path: &[Event], passed: usize, depth: usize, side: u32) -> bool
    ensures { result ≡ (nat_lt depth passed && has_side (slice_get path.now depth) side) }
{
    depth < passed && path.get(depth).is_some_and(|event| event.side == side)
}

// Whether some record takes a new side of its maker's path, by how many nodes of that path each record from the maker on passes.
fn is_taken(records: &[Record], passed: &[usize], side: Side) -> bool
    requires made { IsMade (paths_of records.now) side }
    requires passed { let maker = path_at (paths_of records.now) side.maker in
        passed.now ≡ map (λ r. passed_nodes maker r.events) (drop side.maker records.now) }
    ensures { result ≡ is_taken (paths_of records.now) side }
{
    let maker = side.maker as usize;
    for n in maker..records.len() {
        let path = path_at(records, n);
        if takes(path, passed[n - maker], side.depth as usize, side.side) {
            return true;
        }
    }
    false
}

// Adds the sides that a record makes and no record takes.
fn push_untaken(
    alloc: Global,
    out: &mut Vec<Side>,
    records: &[Record],
    maker: usize,
) -> Result<(), AllocError>
    requires few { length records.now < 2 ^ 32 }
    requires short { AllByRecursion (λ r. length r.events < 2 ^ 32) records.now }
    requires there { maker < length records.now }
    ensures { OnOk result (out.new.items
        ≡ out.old.items ++ filter (is_untaken (paths_of records.now)) (made_by (paths_of records.now) maker)) }
{
    let mut made = Vec::new(alloc);
    push_made(&mut made, records, maker)?;
    let passed = passed_by_each(alloc, &records[maker..], path_at(records, maker))?;
    for side in &made {
        if is_taken(records, passed.as_slice(), *side) {
            continue;
        }
        out.push(*side)?;
    }
    Ok(())
}

/// The sides of the tree that no record's path takes, by number. The one error is want of memory.
#[tactic(auto, unfolding(crate::specs::Tree::sides_of))]
pub fn untaken_sides(alloc: Global, records: &[Record]) -> Result<Vec<Side>, AllocError>
    requires few { length records.now < 2 ^ 32 }
    requires short { AllByRecursion (λ r. length r.events < 2 ^ 32) records.now }
    ensures { IfOk result (λ v. v.items ≡ untaken_of (paths_of records.now)) }
{
    let mut out = Vec::new(alloc);
    for maker in 0..records.len() {
        push_untaken(alloc, &mut out, records, maker)?;
    }
    Ok(out)
}
