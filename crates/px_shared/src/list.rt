// A list with several owners.
ghost use Rattle.std.specs.Prelude.{◌≡◌, ◌↔◌, [], ◌<◌, length, slice_get, IsTrue, IfOk, OnSome};
ghost use Rattle.std.specs.Option.{option_copied};

use std::alloc::{AllocError, Global};
use std::marker::Model;
use std::sync::Arc;

/// A list that several owners share, which contracts see as the list of its items.
#[derive(Drop)]
pub struct SharedList<T> {
    items: Arc<Vec<T>, Global>,
}

impl<T> Model for SharedList<T> {
    ghost use Rattle.std.specs.Prelude.{List};
    ghost use Rattle.std.specs.Coded.{coded_list};

    ghost Value = { List T };

    ghost coded = { coded_list T.code };

    ghost view = { λ it. it.items.value.items };
}

impl<T> SharedList<T> {
    /// The items.
    pub fn as_slice(&self) -> &[T]
        ensures { result.now ≡ self.now }
    {
        self.items.as_slice()
    }

    /// How many items there are.
    pub fn len(&self) -> usize
        ensures { result ≡ length self.now }
    {
        self.as_slice().len()
    }

    /// The item at a place, if the list has one there.
    pub fn get(&self, at: usize) -> Option<&T>
        ensures value { option_copied result ≡ slice_get self.now at }
        ensures within { OnSome result (at < length self.now) }
    {
        self.as_slice().get(at)
    }

    /// Whether there are no items.
    pub fn is_empty(&self) -> bool
        ensures { IsTrue result ↔ (self.now ≡ []) }
    {
        self.as_slice().is_empty()
    }
}

impl<T: Drop> SharedList<T> {
    /// The items of a vector, with one owner.
    pub fn from_vec(items: Vec<T>) -> Result<SharedList<T>, AllocError>
        ensures { IfOk result (λ it. it ≡ items.items) }
    {
        Ok(SharedList {
            items: Arc::new(items.allocator().clone()?, items)?,
        })
    }

    /// The same list for one more owner. It fails only where the count of owners is full.
    pub fn share(&self) -> Result<SharedList<T>, AllocError>
        ensures { IfOk result (λ it. it ≡ self.now) }
    {
        Ok(SharedList {
            items: self.items.clone()?,
        })
    }
}

impl<T: Copy + Drop> SharedList<T> {
    /// A copy of the items, with one owner.
    pub fn from_slice(alloc: Global, items: &[T]) -> Result<SharedList<T>, AllocError>
        ensures { IfOk result (λ it. it ≡ items.now) }
    {
        SharedList::from_vec(Vec::from_slice(alloc, items)?)
    }
}
