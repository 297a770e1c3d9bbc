//! Values under keys, in the order of insertion.

ghost use Rattle.std.specs.Prelude.{◌≡◌, [], length, position, slice_get, IfOk, OnOk, OnErr};
ghost use Rattle.std.specs.Borrow.{sem};
ghost use Rattle.std.specs.List.{IsDistinct};
ghost use Rattle.std.specs.Map.{keys_of, values_of, lookup};
ghost use Rattle.std.specs.Option.{option_copied, option_copied_mut, option_map};
ghost use Rattle.indexmap.specs.IndexMap.{insert_entry};
ghost use Rattle.rc_names.specs.Lends.keyed.{lends_value};

use crate::{CloneIn, Name, Seed};
use indexmap::IndexMap;
use std::alloc::{AllocError, Global};
use std::marker::Model;

/// An `IndexMap` that contracts see as the list of its pairs. The keys are distinct.
#[derive(Drop)]
pub struct Keyed<K: Name, V> {
    map: IndexMap<K, V, Seed>,
}

impl<K: Name, V> Model for Keyed<K, V> {
    ghost use Rattle.std.specs.Prelude.{List};
    ghost use Rattle.std.specs.List.{IsDistinct};
    ghost use Rattle.std.specs.Coded.{coded_list, coded×};
    ghost use Rattle.std.specs.Map.{keys_of};

    ghost Value = { List (K × V) };

    ghost coded = { coded_list (coded× K.code V.code) };

    ghost view = { λ it. it.map.entries };

    ghost invariant = { λ it. IsDistinct K.eq (keys_of it.map.entries) };
}

impl<K: Name, V> Keyed<K, V> {
    /// Returns an empty map. This takes no memory.
    pub fn new(alloc: Global) -> Keyed<K, V>
        ensures { result ≡ [] }
    {
        Keyed {
            map: IndexMap::with_hasher(alloc, Seed::new(0)),
        }
    }

    /// Returns an empty map with room for so many pairs. Fails only when out of memory.
    pub fn with_capacity(alloc: Global, n: usize) -> Result<Keyed<K, V>, AllocError>
        ensures { IfOk result (λ map. map ≡ []) }
    {
        Ok(Keyed {
            map: IndexMap::with_capacity_and_hasher(alloc, n, Seed::new(0))?,
        })
    }

    /// Returns an empty map with room for so many pairs, whose keys are hashed with a seed. Fails only when out of memory.
    pub fn with_seed(alloc: Global, n: usize, seed: Seed) -> Result<Keyed<K, V>, AllocError>
        ensures { IfOk result (λ map. map ≡ []) }
    {
        Ok(Keyed {
            map: IndexMap::with_capacity_and_hasher(alloc, n, seed)?,
        })
    }

    /// Returns the number of pairs.
    pub fn len(&self) -> usize
        ensures value { result ≡ length self.now }
        ensures distinct { IsDistinct K.eq (keys_of self.now) }
    {
        self.map.len()
    }

    /// Returns the value under a key, and `None` if the key isn't there.
    pub fn get(&self, key: K) -> Option<&V>
        ensures { option_copied result ≡ lookup (K.eq key) self.now }
    {
        self.map.get(&key)
    }

    /// Returns the value under a key, to be changed in its place, and `None` if the key isn't there.
    pub fn get_mut(&mut self, key: K) -> Option<&mut V>
        ensures* writes_back { sem 𝓛 (lends_value K.row V.row K.Name self.entry key result) }
        ensures value { option_copied_mut result ≡ lookup (K.eq key) self.old }
    {
        self.map.get_mut(&key)
    }

    /// Returns the index of a key's pair, and `None` if the key isn't there.
    pub fn position(&self, key: K) -> Option<usize>
        ensures { result ≡ position (K.eq key) (keys_of self.now) }
    {
        self.map.get_index_of(&key)
    }

    /// Returns the keys in their order.
    pub fn keys(&self) -> &[K]
        ensures { result.now ≡ keys_of self.now }
    {
        self.map.keys().as_slice()
    }

    /// Returns the values in the order of their keys.
    pub fn values(&self) -> &[V]
        ensures { result.now ≡ values_of self.now }
    {
        self.map.values().as_slice()
    }

    /// Returns the pair at an index, and `None` past the end.
    pub fn at(&self, i: usize) -> Option<(K, &V)>
        ensures { option_map (λ p. (p.0, p.1.now)) result ≡ slice_get self.now i }
    {
        match self.map.get_index(i) {
            Some((key, value)) => Some((*key, value)),
            None => None,
        }
    }
}

impl<K: Name, V: Drop> Keyed<K, V> {
    /// Sets the value of a key and returns the old one. A new key goes last, and a key that is there keeps its index.
    /// Fails only when out of memory, and then nothing has changed.
    pub fn insert(&mut self, key: K, value: V) -> Result<Option<V>, AllocError>
        ensures entries { OnOk result (self.new ≡ insert_entry K.eq self.old key value) }
        ensures old { IfOk result (λ old. old ≡ lookup (K.eq key) self.old) }
        ensures err { OnErr result (self.new ≡ self.old) }
    {
        Ok(self.map.insert(key, value)?)
    }
}

impl<K: Name, V: CloneIn> CloneIn for Keyed<K, V> {
    fn clone_in(&self, alloc: Global) -> Result<Keyed<K, V>, AllocError> {
        let mut copy = Keyed::with_seed(alloc, self.len(), *self.map.hasher())?;
        for (key, value) in self.map.iter() {
            copy.insert(*key, value.clone_in(alloc)?)?;
        }
        Ok(copy)
    }
}
