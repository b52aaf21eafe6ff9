// The methods that override each method: Partition II, 10.3.
ghost use Rattle.std.specs.Prelude.{◌≡◌, [], length, replicate, IfOk, OnOk};
ghost use Rattle.px_meta.specs.Rows.{IsRow, count_of, methods};
ghost use Rattle.px_link_reach.specs.Overriders.{AreLists, AreOverriders, overriders_in};
ghost use Rattle.px_link_reach.specs.Parts.{AreAdded, AreOrdered};

use crate::order::in_order;
use crate::parents::Parents;
use px_meta::Meta;
use sqlite_items::Items;
use std::alloc::{AllocError, Global};
use std::marker::Model;

// An empty list for each method.
fn empty_lists(alloc: Global, count: u32) -> Result<Vec<Items<u32>>, AllocError>
    ensures { IfOk result (λ lists. lists.items ≡ replicate count []) }
{
    let mut lists = Vec::new(alloc);
    for _n in 0..count {
        lists.push(Items::new(alloc))?;
    }
    Ok(lists)
}

// Adds a method to the list of each method that it overrides, at once or through others.
fn add(lists: &mut [Items<u32>], parents: &Parents, row: u32) -> Result<(), AllocError>
    requires row { IsRow parents.now methods row }
    requires size { length lists.old ≡ count_of parents.now methods }
    ensures { OnOk result (AreAdded parents.now row lists.old lists.new) }
{
    let mut at = row;
    while let Some(method) = parents.of(at) {
        lists[method as usize - 1].push(row)?;
        at = method;
    }
    Ok(())
}

// The methods that override each method, in the order of those that override some.
fn lists_of(alloc: Global, parents: &Parents, order: &[u32]) -> Result<Vec<Items<u32>>, AllocError>
    requires { AreOrdered parents.now order.now }
    ensures { IfOk result (λ lists. AreLists parents.now lists.items) }
{
    let mut lists = empty_lists(alloc, parents.count())?;
    for row in order {
        add(&mut lists, parents, *row)?;
    }
    Ok(lists)
}

/// For each method of an assembly, the methods that override it.
#[derive(Drop)]
pub struct Overriding<'m, 'a> {
    meta: &'m Meta<'a>,
    // by the rows of methods
    lists: Vec<Items<u32>>,
}

impl<'m, 'a> Model for Overriding<'m, 'a> {
    ghost use Rattle.px_link_reach.specs.Overriders.{AreLists, Overriders};

    ghost Value = { Overriders };

    ghost view = { λ o. record { tables = o.meta.now; lists = o.lists.items } };

    ghost invariant = { λ o. AreLists o.meta.now o.lists.items };
}

impl<'m, 'a> Overriding<'m, 'a> {
    /// Which methods override which in an assembly. It takes a turn per method and method that it overrides, and a sort of those that override some.
    pub fn new(alloc: Global, meta: &'m Meta<'a>) -> Result<Overriding<'m, 'a>, AllocError>
        ensures { IfOk result (λ overriding. overriding.tables ≡ meta.now) }
    {
        let parents = Parents::new(alloc, meta)?;
        let order = in_order(alloc, &parents)?;
        let lists = lists_of(alloc, &parents, &order)?;
        Ok(Overriding { meta, lists })
    }

    /// The methods that override a method, at once or through others, by the bytes of their owners' full names, and then by row.
    pub fn of(&self, method: u32) -> &[u32]
        requires { IsRow self.now.tables methods method }
        ensures list { result.now ≡ overriders_in self.now.lists method }
        ensures overriders { AreOverriders self.now.tables method result.now }
    {
        self.lists[method as usize - 1].as_slice()
    }
}
