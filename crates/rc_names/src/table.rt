//! A table whose indexes are typed numbers.

ghost use Rattle.std.specs.Prelude.{◌≡◌, [], ◌∷◌, ◌++◌, ◌<◌, ◌≤◌, ◌-◌, ◌^◌, ◌↔◌, length, slice_get, IsTrue, IfOk, OnOk};
ghost use Rattle.std.specs.Prelude.{OnErr};
ghost use Rattle.std.specs.Borrow.{sem};
ghost use Rattle.std.specs.Option.{option_copied, option_copied_mut};
ghost use Rattle.rc_names.specs.Lends.table.{lends_entry};

use crate::{CloneIn, List, Name};
use std::alloc::{AllocError, Global};
use std::marker::{Model, PhantomData};

/// Entries whose indexes are numbers of one type. Contracts see the list of the entries.
#[derive(Debug, Drop)]
pub struct Table<I: Name, T> {
    entries: List<T>,
    of: PhantomData<I>,
}

impl<I: Name, T> Model for Table<I, T> {
    ghost use Rattle.std.specs.Prelude.{List as Entries, ◌<◌, ◌^◌, length};
    ghost use Rattle.std.specs.Coded.{coded_list};

    ghost Value = { Entries T };

    ghost coded = { coded_list T.code };

    ghost view = { λ it. it.entries };

    // Each entry has a number of 32 bits.
    ghost invariant = { λ it. length it.entries < 2 ^ 32 };
}

impl<I: Name, T> Table<I, T> {
    /// Returns an empty table. This takes no memory.
    pub fn new(alloc: Global) -> Table<I, T>
        ensures { result ≡ [] }
    {
        Table::from_list(List::new(alloc))
    }

    /// Makes a list the table's entries, without a copy.
    pub fn from_list(entries: List<T>) -> Table<I, T>
        requires { length entries < 2 ^ 32 }
        ensures { result ≡ entries }
    {
        Table {
            entries,
            of: PhantomData,
        }
    }

    /// Returns the number of entries.
    pub fn len(&self) -> usize
        ensures value { result ≡ length self.now }
        ensures fits { length self.now < 2 ^ 32 }
    {
        self.entries.len()
    }

    /// Returns whether no number is left for a further entry.
    pub fn is_full(&self) -> bool
        ensures { IsTrue result ↔ (2 ^ 32 - 1 ≤ length self.now) }
    {
        self.entries.len() >= u32::MAX as usize
    }

    /// Returns the entry with a number, and `None` if the number is outside the table.
    pub fn get(&self, i: I) -> Option<&T>
        ensures { option_copied result ≡ slice_get self.now (I.number i) }
    {
        self.entries.get(i.index())
    }

    /// Returns the entry with a number, to be changed in its place, and `None` if the number is outside the table.
    pub fn get_mut(&mut self, i: I) -> Option<&mut T>
        ensures* writes_back { sem 𝓛 (lends_entry I.row T.row I.Name self.entry (I.number i) result) }
        ensures value { option_copied_mut result ≡ slice_get self.old (I.number i) }
    {
        self.entries.get_mut(i.index())
    }

    /// Returns the entries, for a loop over them.
    pub fn as_slice(&self) -> &[T]
        ensures { result.now ≡ self.now }
    {
        self.entries.as_slice()
    }
}

impl<I: Name, T: Drop> Table<I, T> {
    /// Appends an entry and returns its number. Fails only when out of memory, and then nothing has changed.
    pub fn push(&mut self, t: T) -> Result<I, AllocError>
        requires { length self.old < 2 ^ 32 - 1 }
        ensures ok { OnOk result (self.new ≡ self.old ++ t ∷ []) }
        ensures number { IfOk result (λ i. I.number i ≡ length self.old) }
        ensures err { OnErr result (self.new ≡ self.old) }
    {
        let place = self.entries.len();
        self.entries.push(t)?;
        match I::from_index(place) {
            Some(i) => Ok(i),
            None => unreachable!(),
        }
    }
}

impl<I: Name, T: Copy> Table<I, T> {
    /// Returns a copy, which is made in one piece. Fails only when out of memory.
    pub fn copy_in(&self, alloc: Global) -> Result<Table<I, T>, AllocError>
        ensures { IfOk result (λ copy. copy ≡ self.now) }
    {
        Ok(Table::from_list(self.entries.copy_in(alloc)?))
    }
}

impl<I: Name, T: CloneIn> CloneIn for Table<I, T> {
    fn clone_in(&self, alloc: Global) -> Result<Table<I, T>, AllocError> {
        Ok(Table::from_list(self.entries.clone_in(alloc)?))
    }
}
