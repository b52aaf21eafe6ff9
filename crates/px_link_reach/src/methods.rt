// All methods that calls and overriding reach.
ghost use Rattle.std.specs.Prelude.{◌≡◌, ◌+◌, ◌<◌, ◌^◌, length, take, IfOk, IfErr, OnOk};
ghost use Rattle.std.specs.List.{AllByRecursion};
ghost use Rattle.px_link_reach.specs.Finding.{AreCalled, AreKept, IsKnown, IsRefused, Visits, refused_by};
ghost use Rattle.px_link_reach.specs.Met.{Blames, IsOwned, IsReached};

use crate::body::{Whole, address_of, whole_at};
use crate::found::Found;
use crate::known::Known;
use crate::overriding::Overriding;
use px_code::{BodyFault, BodyKind};
use px_link_tokens::Tokens;
use px_pe::Image;
use px_shared::Shared;
use sqlite_items::Items;
use std::alloc::{AllocError, AllocFailed, Global};

/// Why methods aren't reached: want of memory, or the fault of the body of a method, by its number.
#[derive(Clone, Copy, PartialEq, Eq)]
pub enum ReachFault {
    Memory,
    Bad {
        kind: BodyKind,
        at: u32,
        method: u32,
    },
}

impl From<AllocError> for ReachFault {
    ghost use Rattle.px_link_reach.specs.declared.methods.ReachFault.TheVariants.{Memory};

    ghost from_gives = { λ _ e. e ≡ Memory };

    fn from(_: AllocError) -> Self {
        ReachFault::Memory
    }
}

impl<T: Drop> From<AllocFailed<T>> for ReachFault {
    ghost use Rattle.px_link_reach.specs.declared.methods.ReachFault.TheVariants.{Memory};

    ghost from_gives = { λ _ e. e ≡ Memory };

    fn from(_: AllocFailed<T>) -> Self {
        ReachFault::Memory
    }
}

/// The methods of a program by their rows, in the order of their numbers, with their bodies, and the methods that `callvirt` names in them, as they come first.
#[derive(Drop)]
pub struct Reached {
    pub rows: Items<u32>,
    pub bodies: Items<Shared<Whole>>,
    pub virtual_targets: Items<u32>,
}

// The fault of the body of a method, by the method's number.
fn refused_by(fault: BodyFault, number: u32) -> ReachFault
    ensures { result ≡ refused_by fault number }
{
    match fault {
        BodyFault::Memory => ReachFault::Memory,
        BodyFault::Bad { kind, at } => ReachFault::Bad {
            kind,
            at,
            method: number,
        },
    }
}

// Looks at the method of a number: adds its body, and what it calls. What a body at an address that was read before calls is met already.
fn visit(
    alloc: Global,
    tokens: &Tokens,
    overriding: &Overriding,
    image: &Image,
    found: &mut Found,
    known: &mut Known,
    number: u32,
) -> Result<(), ReachFault>
    requires same { overriding.now.tables ≡ tokens.now }
    requires kept { AreKept tokens.now overriding.now.lists found.old.rows.keys found.old.virtual_targets.keys }
    requires number { number < length found.old.rows.keys }
    requires known { IsKnown tokens.now image.now (take number found.old.rows.keys) known.old }
    requires called { AreCalled tokens.now image.now overriding.now.lists (take number found.old.rows.keys) found.old.rows.keys found.old.virtual_targets.keys }
    ensures visits { OnOk result (Visits tokens.now image.now overriding.now.lists found.old.rows.keys found.old.virtual_targets.keys number found.new.rows.keys found.new.virtual_targets.keys) }
    ensures kept { OnOk result (AreKept tokens.now overriding.now.lists found.new.rows.keys found.new.virtual_targets.keys) }
    ensures known { OnOk result (IsKnown tokens.now image.now (take (number + 1) found.new.rows.keys) known.new) }
    ensures refused { IfErr result (IsRefused tokens.now image.now found.old.rows.keys number) }
{
    let method = found.rows.as_slice()[number as usize];
    let address = address_of(tokens.meta().tables(), method);
    if let Some(whole) = known.share_at(address)? {
        known.bodies.push(whole)?;
        return Ok(());
    }
    match whole_at(alloc, tokens.meta().tables(), image, method) {
        Ok(whole) => {
            found.add_code(tokens, overriding, whole.body.code.as_slice())?;
            known.add_first(alloc, address, whole)?;
            Ok(())
        }
        Err(fault) => Err(refused_by(fault, number)),
    }
}

/// All methods that calls and overriding reach from some, each once and as it is met first: those to start with, and then what the calls name, by the
/// method that calls and by offset. A method that a `callvirt` names is followed by those that override it. A method without a body has no
/// instructions. The fault is that of the first method by number whose body isn't read, or names no signature of locals: BadHeader at 8.
pub fn reach(
    alloc: Global,
    tokens: &Tokens,
    overriding: &Overriding,
    image: &Image,
    starts: &[u32],
) -> Result<Reached, ReachFault>
    requires same { overriding.now.tables ≡ tokens.now }
    requires starts { AllByRecursion (IsOwned tokens.now) starts.now }
    ensures reached { IfOk result (IsReached tokens.now image.now overriding.now.lists starts.now) }
    ensures owned { IfOk result (λ reached. AllByRecursion (IsOwned tokens.now) reached.rows) }
    ensures few { IfOk result (λ reached. length reached.rows < 2 ^ 32) }
    ensures fault { IfErr result (Blames tokens.now image.now overriding.now.lists starts.now) }
{
    let mut found = Found::new(alloc, starts)?;
    let mut known = Known::new(alloc);
    let mut number = 0;
    while (number as usize) < found.rows.len() {
        visit(
            alloc, tokens, overriding, image, &mut found, &mut known, number,
        )?;
        number += 1;
    }
    Ok(Reached {
        rows: Items::from_slice(alloc, found.rows.as_slice())?,
        bodies: known.bodies,
        virtual_targets: Items::from_slice(alloc, found.virtual_targets.as_slice())?,
    })
}
