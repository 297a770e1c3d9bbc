//! Distinct keys, in the order of insertion.

ghost use Rattle.std.specs.Prelude.{◌≡◌, ◌↔◌, ◌++◌, [], ◌∷◌, length, not, position, slice_get};
ghost use Rattle.std.specs.Prelude.{IfNone, IfOk, IfSome, IsNone, OnErr, OnOk};
ghost use Rattle.std.specs.List.{list_any, IsDistinct};
ghost use Rattle.indexmap.specs.IndexSet.{insert_key};

use crate::{CloneIn, Name};
use indexmap::IndexSet;
use std::alloc::{AllocError, Global};
use std::marker::Model;

/// An `IndexSet` that contracts see as the list of its keys. The keys are distinct.
#[derive(Drop)]
pub struct KeySet<K: Name> {
    set: IndexSet<K>,
}

impl<K: Name> Model for KeySet<K> {
    ghost use Rattle.std.specs.Prelude.{List};
    ghost use Rattle.std.specs.List.{IsDistinct};
    ghost use Rattle.std.specs.Coded.{coded_list};

    ghost Value = { List K };

    ghost coded = { coded_list K.code };

    ghost view = { λ it. it.set.keys };

    ghost invariant = { λ it. IsDistinct K.eq it.set.keys };
}

impl<K: Name> KeySet<K> {
    /// Returns an empty set. This takes no memory.
    pub fn new(alloc: Global) -> KeySet<K>
        ensures { result ≡ [] }
    {
        KeySet {
            set: IndexSet::new(alloc),
        }
    }

    /// Returns an empty set with room for so many keys. Fails only when out of memory.
    pub fn with_capacity(alloc: Global, n: usize) -> Result<KeySet<K>, AllocError>
        ensures { IfOk result (λ set. set ≡ []) }
    {
        Ok(KeySet {
            set: IndexSet::with_capacity(alloc, n)?,
        })
    }

    /// Returns the number of keys.
    pub fn len(&self) -> usize
        ensures value { result ≡ length self.now }
        ensures distinct { IsDistinct K.eq self.now }
    {
        self.set.len()
    }

    /// Returns whether the set has a key.
    pub fn contains(&self, key: K) -> bool
        ensures { result ≡ list_any (K.eq key) self.now }
    {
        self.set.contains(&key)
    }

    /// Returns the index of a key, and `None` if the key isn't there.
    pub fn position(&self, key: K) -> Option<usize>
        ensures { result ≡ position (K.eq key) self.now }
    {
        self.set.get_index_of(&key)
    }

    /// Returns the key at an index, and `None` past the end.
    pub fn at(&self, i: usize) -> Option<K>
        ensures { result ≡ slice_get self.now i }
    {
        self.set.get_index(i).copied()
    }

    /// Returns the keys, for a loop over them.
    pub fn as_slice(&self) -> &[K]
        ensures { result.now ≡ self.now }
    {
        self.set.as_slice()
    }

    /// Inserts a key and returns whether it is new. A new key goes last. Fails only when out of memory, and then
    /// nothing has changed.
    pub fn insert(&mut self, key: K) -> Result<bool, AllocError>
        ensures keys { OnOk result (self.new ≡ insert_key K.eq self.old key) }
        ensures added { IfOk result (λ added. added ≡ not (list_any (K.eq key) self.old)) }
        ensures err { OnErr result (self.new ≡ self.old) }
    {
        Ok(self.set.insert(key)?)
    }

    /// Removes and returns the last key; returns `None` if the set is empty.
    pub fn pop(&mut self) -> Option<K>
        ensures none { IsNone result ↔ (self.old ≡ []) }
        ensures last { IfSome result (λ last. self.old ≡ self.new ++ last ∷ []) }
        ensures empty { IfNone result (self.new ≡ []) }
    {
        self.set.pop()
    }
}

impl<K: Name> CloneIn for KeySet<K> {
    fn clone_in(&self, alloc: Global) -> Result<KeySet<K>, AllocError> {
        let mut copy = KeySet::new(alloc);
        for key in self.set.as_slice() {
            copy.insert(*key)?;
        }
        Ok(copy)
    }
}
