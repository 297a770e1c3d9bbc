//! A list that grows at its end.

ghost use Rattle.std.specs.Prelude.{◌≡◌, [], ◌∷◌, ◌++◌, ◌↔◌, length, slice_get, reverse, IsTrue, IsOk, IsNone, IfOk};
ghost use Rattle.std.specs.Prelude.{IfSome, IfNone, IfErr, OnOk, OnErr};
ghost use Rattle.std.specs.Borrow.{sem};
ghost use Rattle.std.specs.Option.{option_copied, option_copied_mut};
ghost use Rattle.rc_names.specs.Lends.list.{lends_item};

use crate::CloneIn;
use std::alloc::{AllocError, Global};
use std::marker::Model;
use std::mem;

/// A `Vec` that contracts see as the list of its entries.
#[derive(Debug, Drop)]
pub struct List<T> {
    items: Vec<T>,
}

impl<T> Model for List<T> {
    ghost use Rattle.std.specs.Prelude.{List as Entries};
    ghost use Rattle.std.specs.Coded.{coded_list};

    ghost Value = { Entries T };

    ghost coded = { coded_list T.code };

    ghost view = { λ it. it.items.items };
}

impl<T> List<T> {
    /// Returns an empty list. This takes no memory.
    pub fn new(alloc: Global) -> List<T>
        ensures { result ≡ [] }
    {
        List {
            items: Vec::new(alloc),
        }
    }

    /// Returns an empty list with room for so many entries. Fails only when out of memory.
    pub fn with_capacity(alloc: Global, n: usize) -> Result<List<T>, AllocError>
        ensures { IfOk result (λ list. list ≡ []) }
    {
        Ok(List {
            items: Vec::with_capacity(alloc, n)?,
        })
    }

    /// Returns the number of entries.
    pub fn len(&self) -> usize
        ensures { result ≡ length self.now }
    {
        self.items.len()
    }

    /// Returns whether the list has no entry.
    pub fn is_empty(&self) -> bool
        ensures { IsTrue result ↔ (self.now ≡ []) }
    {
        self.items.is_empty()
    }

    /// Returns the entry at an index, and `None` past the end.
    pub fn get(&self, i: usize) -> Option<&T>
        ensures { option_copied result ≡ slice_get self.now i }
    {
        self.items.get(i)
    }

    /// Returns the entry at an index, to be changed in its place, and `None` past the end.
    pub fn get_mut(&mut self, i: usize) -> Option<&mut T>
        ensures* writes_back { sem 𝓛 (lends_item T.row self.entry i result) }
        ensures value { option_copied_mut result ≡ slice_get self.old i }
    {
        self.items.get_mut(i)
    }

    /// Removes and returns the last entry; returns `None` if the list is empty.
    pub fn pop(&mut self) -> Option<T>
        ensures none { IsNone result ↔ (self.old ≡ []) }
        ensures last { IfSome result (λ last. self.old ≡ self.new ++ last ∷ []) }
        ensures empty { IfNone result (self.new ≡ []) }
    {
        self.items.pop()
    }

    /// Reverses the list.
    pub fn reverse(&mut self)
        ensures { self.new ≡ reverse self.old }
    {
        self.items.reverse()
    }

    /// Returns the whole list and leaves an empty one.
    pub fn take(&mut self) -> List<T>
        ensures list { result ≡ self.old }
        ensures left { self.new ≡ [] }
    {
        let alloc = *self.items.allocator();
        List {
            items: mem::replace(&mut self.items, Vec::new(alloc)),
        }
    }

    /// Moves all entries of another list to the end, and leaves that list empty. Fails only when out of memory, and
    /// then nothing has changed. An empty list takes them without memory.
    pub fn take_from(&mut self, more: &mut List<T>) -> Result<(), AllocError>
        ensures ok { OnOk result (self.new ≡ self.old ++ more.old) }
        ensures left { OnOk result (more.new ≡ []) }
        ensures err { OnErr result (self.new ≡ self.old) }
        ensures kept { OnErr result (more.new ≡ more.old) }
        ensures no_memory { self.old ≡ [] → IsOk result }
    {
        if self.items.is_empty() {
            mem::swap(&mut self.items, &mut more.items);
            return Ok(());
        }
        self.items.append(&mut more.items)
    }

    /// Appends an entry. Out of memory nothing changes, and the entry is handed back.
    pub fn try_push(&mut self, t: T) -> Result<(), T>
        ensures ok { OnOk result (self.new ≡ self.old ++ t ∷ []) }
        ensures err { OnErr result (self.new ≡ self.old) }
        ensures back { IfErr result (λ back. back ≡ t) }
    {
        match self.items.push(t) {
            Ok(()) => Ok(()),
            Err(failed) => Err(failed.value),
        }
    }

    /// Returns the entries, for a loop over them.
    pub fn as_slice(&self) -> &[T]
        ensures { result.now ≡ self.now }
    {
        self.items.as_slice()
    }
}

impl<T: Drop> List<T> {
    /// Makes room for so many more entries. Fails only when out of memory, and never changes what is there.
    pub fn reserve(&mut self, additional: usize) -> Result<(), AllocError>
        ensures { self.new ≡ self.old }
    {
        self.items.reserve(additional)
    }

    /// Appends an entry. Fails only when out of memory, and then nothing has changed.
    pub fn push(&mut self, t: T) -> Result<(), AllocError>
        ensures ok { OnOk result (self.new ≡ self.old ++ t ∷ []) }
        ensures err { OnErr result (self.new ≡ self.old) }
    {
        self.items.push(t)?;
        Ok(())
    }

    /// Moves the entries of another list to the end. Fails only when out of memory.
    pub fn append(&mut self, more: List<T>) -> Result<(), AllocError>
        ensures ok { OnOk result (self.new ≡ self.old ++ more) }
        ensures err { OnErr result (self.new ≡ self.old) }
    {
        let List { mut items } = more;
        self.items.append(&mut items)
    }
}

impl<T: Copy> List<T> {
    /// Returns a list of these entries. Fails only when out of memory.
    pub fn from_slice(alloc: Global, items: &[T]) -> Result<List<T>, AllocError>
        ensures { IfOk result (λ list. list ≡ items.now) }
    {
        Ok(List {
            items: Vec::from_slice(alloc, items)?,
        })
    }

    /// Returns a copy, which is made in one piece. Fails only when out of memory.
    pub fn copy_in(&self, alloc: Global) -> Result<List<T>, AllocError>
        ensures { IfOk result (λ copy. copy ≡ self.now) }
    {
        List::from_slice(alloc, self.as_slice())
    }
}

impl<T: CloneIn> CloneIn for List<T> {
    fn clone_in(&self, alloc: Global) -> Result<List<T>, AllocError> {
        let mut copy = List::new(alloc);
        for item in self.items.as_slice() {
            copy.push(item.clone_in(alloc)?)?;
        }
        Ok(copy)
    }
}
