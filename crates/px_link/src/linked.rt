// The program of a method of an assembly.
ghost use Rattle.std.specs.Prelude.{◌≡◌, ◌<◌, ◌^◌, ◌∷◌, ℕ, List, length, IfOk, IfErr};
ghost use Rattle.std.specs.List.{AllByRecursion};
ghost use Rattle.px_link_methods.specs.Methods.{AreByAddress, met_by_all};
ghost use Rattle.px_pe.specs.Image as pe;
ghost use Rattle.px_program.specs.Arguments.{AreGiven, arguments_of};
ghost use Rattle.px_program.specs.Formed.{IsWellFormed};
ghost use Rattle.px_link_reach.specs.Met.{IsOwned, IsReached};
ghost use Rattle.px_link_reach.specs.Overriders.{AreLists};
ghost use Rattle.px_link_types.specs.Numbers.{Numbers, library_keys};
ghost use Rattle.px_link.specs.Link.{Blames, Reads, maker_number, rows_of};
ghost use Rattle.px_link.specs.Parts.{IsEntryOf, IsLinked, IsReachedFrom, fault_of};

use crate::LinkFault;
use crate::entry::{Entry, find_entry};
use crate::layout::layout_of;
use crate::overrides::{in_order, types_of};
use px_code::BodyFault;
use px_link_methods::{meet_all, methods_of};
use px_link_reach::{Overriding, ReachFault, Reached, Whole, reach};
use px_link_tokens::Tokens;
use px_link_types::Types;
use px_meta::Meta;
use px_pe::Image;
use px_program::{Program, TypeTable};
use px_shared::Shared;
use sqlite_items::Items;
use std::alloc::{AllocError, Global};

// The methods that a program starts with.
fn starts_of(alloc: Global, entry: &Entry) -> Result<Vec<u32>, AllocError>
    ensures { IfOk result (λ starts. starts.items ≡ entry.now.method ∷ rows_of entry.now.maker) }
{
    let mut starts = Vec::new(alloc);
    starts.push(entry.method)?;
    if let Some(maker) = entry.maker {
        starts.push(maker)?;
    }
    Ok(starts)
}

// The fault of a body that isn't read.
fn fault_of(fault: ReachFault) -> LinkFault
    ensures { result ≡ fault_of fault }
{
    match fault {
        ReachFault::Memory => LinkFault::Memory,
        ReachFault::Bad { kind, at, method } => LinkFault::BadBody {
            fault: BodyFault::Bad { kind, at },
            method,
        },
    }
}

// The number of the maker, where there is one.
fn maker_number(rows: &[u32], maker: Option<u32>) -> Option<u32>
    requires { length rows.now < 2 ^ 32 }
    ensures { result ≡ maker_number rows.now maker }
{
    let maker = maker?;
    for (at, row) in rows.iter().enumerate() {
        if *row == maker {
            return Some(at as u32);
        }
    }
    Some(rows.len() as u32)
}

// The types that methods meet.
fn types_met<'m, 'a>(
    alloc: Global,
    tokens: &Tokens<'m, 'a>,
    rows: &[u32],
    bodies: &[Shared<Whole>],
) -> Result<Types<'m, 'a>, AllocError>
    requires owned { AllByRecursion (IsOwned tokens.now) rows.now }
    requires shared { AreByAddress tokens.now rows.now bodies.now }
    ensures tables { IfOk result (λ types. types.tables ≡ tokens.now) }
    ensures numbers { IfOk result (λ types. Numbers tokens.now library_keys (met_by_all tokens.now rows.now bodies.now) types.keys) }
{
    let mut types = Types::new(alloc, tokens.meta())?;
    meet_all(alloc, &mut types, tokens, rows, bodies)?;
    Ok(types)
}

// The program, by the types that its methods meet.
fn program_with(
    alloc: Global,
    tokens: &Tokens,
    overriding: &Overriding,
    entry: &Entry,
    reached: &Reached,
    types: &Types,
) -> Result<Program, AllocError>
    requires same { overriding.now.tables ≡ tokens.now }
    requires owned { AllByRecursion (IsOwned tokens.now) reached.now.rows }
    requires few { length reached.now.rows < 2 ^ 32 }
    requires lists { AreLists tokens.now overriding.now.lists }
    requires reached { IsReachedFrom tokens.now overriding.now.lists entry.now reached.now }
    requires types { types.now.tables ≡ tokens.now }
    requires numbers { Numbers tokens.now library_keys (met_by_all tokens.now reached.now.rows reached.now.bodies) types.now.keys }
    ensures { (image : pe.View) (name : List ℕ) → IsEntryOf tokens.now name entry.now → IsReached tokens.now image overriding.now.lists (entry.now.method ∷ rows_of entry.now.maker) reached.now → IfOk result (IsLinked tokens.now image name) }
{
    let rows = reached.rows.as_slice();
    let bodies = reached.bodies.as_slice();
    let targets = in_order(alloc, rows, reached.virtual_targets.as_slice())?;
    let infos = types_of(alloc, tokens.meta(), overriding, types, rows, &targets)?;
    let methods = methods_of(alloc, tokens, types, rows, bodies)?;
    let layout = layout_of(alloc, tokens.meta(), types, rows)?;
    let table = TypeTable::new(alloc, Items::from_vec(infos))?;
    Ok(Program {
        types: table,
        methods,
        entry: 0,
        maker: maker_number(rows, entry.maker),
        layout,
    })
}

// The program of the methods that are reached.
fn program_of(
    alloc: Global,
    tokens: &Tokens,
    overriding: &Overriding,
    entry: &Entry,
    reached: &Reached,
) -> Result<Program, AllocError>
    requires same { overriding.now.tables ≡ tokens.now }
    requires owned { AllByRecursion (IsOwned tokens.now) reached.now.rows }
    requires few { length reached.now.rows < 2 ^ 32 }
    requires lists { AreLists tokens.now overriding.now.lists }
    requires reached { IsReachedFrom tokens.now overriding.now.lists entry.now reached.now }
    ensures { (image : pe.View) (name : List ℕ) → IsEntryOf tokens.now name entry.now → IsReached tokens.now image overriding.now.lists (entry.now.method ∷ rows_of entry.now.maker) reached.now → IfOk result (IsLinked tokens.now image name) }
{
    let rows = reached.rows.as_slice();
    let bodies = reached.bodies.as_slice();
    let types = types_met(alloc, tokens, rows, bodies)?;
    program_with(alloc, tokens, overriding, entry, reached, &types)
}

// The program of a method with all that it reaches.
fn linked(alloc: Global, meta: &Meta, image: &Image, entry: &Entry) -> Result<Program, LinkFault>
    requires { AllByRecursion (IsOwned meta.now) (entry.now.method ∷ rows_of entry.now.maker) }
    ensures program { (name : List ℕ) → IsEntryOf meta.now name entry.now → IfOk result (IsLinked meta.now image.now name) }
    ensures fault { (name : List ℕ) → IsEntryOf meta.now name entry.now → IfErr result (Blames meta.now image.now name) }
{
    let tokens = Tokens::new(alloc, meta)?;
    let overriding = Overriding::new(alloc, meta)?;
    let starts = starts_of(alloc, entry)?;
    let reached = match reach(alloc, &tokens, &overriding, image, &starts) {
        Ok(reached) => reached,
        Err(fault) => return Err(fault_of(fault)),
    };
    Ok(program_of(alloc, &tokens, &overriding, entry, &reached)?)
}

/// The program of the one method of this name: `Namespace.Type::Name`, where a nested type is `Outer/Inner`. It has the method, the constructor
/// that makes its object where it needs one, and all methods that calls and overriding reach, with all types that these meet. The faults are told in
/// this order: no method of the name, more than one, no body or a signature that isn't plain, a parameter that can't be given, no constructor for the
/// object, the first body by the number of its method that isn't read.
pub fn link(alloc: Global, meta: &Meta, image: &Image, name: &str) -> Result<Program, LinkFault>
    ensures reads { IfOk result (Reads meta.now image.now name.now) }
    ensures well_formed { IfOk result IsWellFormed }
    ensures arguments { IfOk result (λ program. AreGiven program.types (arguments_of program)) }
    ensures fault { IfErr result (Blames meta.now image.now name.now) }
{
    let entry = find_entry(meta, name.as_bytes())?;
    linked(alloc, meta, image, &entry)
}
