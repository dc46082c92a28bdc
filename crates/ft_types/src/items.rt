//! The one form of every list in a module.

ghost use Rattle.std.specs.Prelude.{◌≡◌, ◌<◌, ◌≤◌, List, [], ◌∷◌, ◌++◌, length, slice_get, insert, remove, OnOk, OnErr};
ghost use Rattle.std.specs.Option.{option_copied, option_copied_mut};
ghost use Rattle.std.specs.Borrow.{sem};
ghost use Rattle.std.specs.List.{refill};

use crate::no_memory::NoMemory;
use std::alloc::Global;
use std::marker::Model;

/// A list of values, which contracts see as the list of its elements.
#[derive(Debug, Drop)]
pub struct Items<T> {
    items: Vec<T>,
}

impl<T> Model for Items<T> {
    ghost use Rattle.std.specs.Prelude.{List};
    ghost use Rattle.std.specs.Coded.{coded_list};

    ghost Value = { List T };

    ghost coded = { coded_list T.code };

    ghost view = { λ it. it.items.items };
}

impl<T> Items<T> {
    ghost use Rattle.ft_types.specs.Lends.{lends_element, lends_elements};

    /// The empty list. It keeps `alloc` for its later growth.
    pub fn new(alloc: Global) -> Items<T>
        ensures { result ≡ [] }
    {
        Items {
            items: Vec::new(alloc),
        }
    }

    /// The elements of a vector. No memory is taken.
    pub fn from_vec(items: Vec<T>) -> Items<T>
        ensures { result ≡ items.items }
    {
        Items { items }
    }

    /// The vector of the elements. No memory is taken.
    pub fn into_vec(self) -> Vec<T>
        ensures { result.items ≡ self }
    {
        self.items
    }

    /// All elements, in order.
    pub fn as_slice(&self) -> &[T]
        ensures { result.now ≡ self.now }
    {
        self.items.as_slice()
    }

    /// The number of elements.
    pub fn len(&self) -> usize
        ensures { result ≡ length self.now }
    {
        self.items.len()
    }

    /// The element at `i`, counted from 0. None exactly where `i` isn't below the length.
    pub fn get(&self, i: usize) -> Option<&T>
        ensures { option_copied result ≡ slice_get self.now i }
    {
        self.items.get(i)
    }

    /// The element at `i`, for writing. None exactly where `i` isn't below the length. No memory
    /// is taken.
    pub fn get_mut(&mut self, i: usize) -> Option<&mut T>
        ensures* writes_back { sem 𝓛 (lends_element T.row self.entry i result) }
        ensures value { option_copied_mut result ≡ slice_get self.old i }
    {
        self.items.get_mut(i)
    }

    /// All elements, in order, for writing. No memory is taken.
    pub fn as_mut_slice(&mut self) -> &mut [T]
        ensures* writes_back { sem 𝓛 (lends_elements T.row self.entry result) }
        ensures value { result.now ≡ self.old }
        ensures same_length { (elements : List T) → length elements ≡ length self.old
            → refill (length self.old) self.old elements ≡ elements }
    {
        self.items.as_mut_slice()
    }

    /// Takes the element at `i` out. No memory is taken.
    pub fn remove(&mut self, i: usize) -> T
        requires { i < length self.old }
        ensures element { slice_get self.old i ≡ Some result }
        ensures rest { self.new ≡ remove self.old i }
    {
        self.items.remove(i)
    }
}

impl<T: Drop> Items<T> {
    /// Appends `x`. Where memory runs out the list stays as it was.
    pub fn push(&mut self, x: T) -> Result<(), NoMemory>
        ensures ok { OnOk result (self.new ≡ self.old ++ x ∷ []) }
        ensures err { OnErr result (self.new ≡ self.old) }
    {
        self.items.push(x)?;
        Ok(())
    }

    /// Puts `x` before the place `i`, which may be the end. Where memory runs out the list stays as
    /// it was.
    pub fn insert(&mut self, i: usize, x: T) -> Result<(), NoMemory>
        requires { i ≤ length self.old }
        ensures ok { OnOk result (self.new ≡ insert self.old i x) }
        ensures err { OnErr result (self.new ≡ self.old) }
    {
        self.items.insert(i, x)?;
        Ok(())
    }
}
