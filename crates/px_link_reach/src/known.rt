// The bodies of the methods that are looked at. Each address is read once, however many methods share it.
ghost use Rattle.std.specs.Prelude.{◌≡◌, [], ◌∷◌, ◌++◌, ◌<◌, ◌^◌, length, slice_get, Some, IfOk, OnOk};
ghost use Rattle.std.specs.BTreeMap.{Updates, get};
ghost use Rattle.std.specs.Option.{option_and_then};
ghost use Rattle.std.specs.Ordering.{nat_cmp};
ghost use Rattle.px_link_reach.specs.Finding.{AreWithin};

use crate::body::Whole;
use px_shared::Shared;
use sqlite_items::Items;
use std::alloc::{AllocError, Global};
use std::collections::BTreeMap;

/// The bodies of the first methods, in the order of their numbers, and by address the number of the first of these methods that has it.
#[derive(Drop)]
pub struct Known {
    pub bodies: Items<Shared<Whole>>,
    pub firsts: BTreeMap<u32, u32>,
}

impl Known {
    /// No methods yet.
    pub fn new(alloc: Global) -> Known
        ensures bodies { result.bodies ≡ [] }
        ensures firsts { result.firsts.entries ≡ [] }
    {
        Known {
            bodies: Items::new(alloc),
            firsts: BTreeMap::new(alloc),
        }
    }

    /// The body at an address for one more owner, where one of the methods has it.
    pub fn share_at(&self, address: u32) -> Result<Option<Shared<Whole>>, AllocError>
        requires { AreWithin self.now }
        ensures { IfOk result (λ it. it ≡ option_and_then (slice_get self.now.bodies) (get nat_cmp self.now.firsts address)) }
    {
        match self.firsts.get(&address) {
            Some(number) => Ok(Some(self.bodies.as_slice()[*number as usize].share()?)),
            None => Ok(None),
        }
    }

    /// Adds the body of the next method, which is the first with its address.
    pub fn add_first(&mut self, alloc: Global, address: u32, whole: Whole) -> Result<(), AllocError>
        requires few { length self.old.bodies < 2 ^ 32 }
        ensures bodies { OnOk result (self.new.bodies ≡ self.old.bodies ++ whole ∷ []) }
        ensures firsts { OnOk result (Updates nat_cmp self.old.firsts self.new.firsts address (Some (length self.old.bodies))) }
    {
        let number = self.bodies.len() as u32;
        self.firsts.insert(address, number)?;
        self.bodies.push(Shared::new(alloc, whole)?)
    }
}
