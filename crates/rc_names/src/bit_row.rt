//! A row of truth values.

ghost use Rattle.std.specs.Prelude.{◌≡◌, ◌≢◌, ◌<◌, ◌/◌, ℕ, false, length, nat_eq, replicate, slice_get, slice_index_or, slice_set, IfOk};
ghost use Rattle.std.specs.Int.{bit_at};

use crate::FixedList;
use std::alloc::{AllocError, Global};
use std::marker::Model;

/// The number of truth values in a word.
const WORD: usize = 64;

/// Truth values, eight in a byte, which contracts see as the list of them.
#[derive(Drop)]
pub struct BitRow {
    words: FixedList<u64>,
    len: usize,
}

impl Model for BitRow {
    ghost use Rattle.std.specs.Prelude.{◌≤◌, ◌*◌, Bool, List as Values, length};
    ghost use Rattle.std.specs.Coded.{coded_list, coded_bool};
    ghost use Rattle.rc_names.specs.BitRows.{bits_of};

    ghost Value = { Values Bool };

    ghost coded = { coded_list coded_bool };

    ghost view = { λ it. bits_of it.words it.len };

    ghost invariant = { λ it. it.len ≤ length it.words * 64 };
}

impl BitRow {
    /// Returns `n` times false, made by one growth. Fails only when out of memory.
    pub fn new(alloc: Global, n: usize) -> Result<BitRow, AllocError>
        ensures { IfOk result (λ row. row ≡ replicate n false) }
    {
        let words = FixedList::new(alloc, 0, n.div_ceil(WORD))?;
        Ok(BitRow { words, len: n })
    }

    /// Returns the number of truth values.
    pub fn len(&self) -> usize
        ensures { result ≡ length self.now }
    {
        self.len
    }

    /// Returns the truth value at a place, and `None` past the end.
    pub fn get(&self, i: usize) -> Option<bool>
        ensures { result ≡ slice_get self.now i }
    {
        if i >= self.len {
            return None;
        }
        Some(bit_of(word_of(&self.words, i), i % WORD))
    }

    /// Puts a truth value at a place. This takes no memory.
    pub fn set(&mut self, i: usize, value: bool)
        requires { i < length self.old }
        ensures { self.new ≡ slice_set self.old i value }
    {
        let word = with_bit(word_of(&self.words, i), i % WORD, value);
        self.words.set(i / WORD, word);
    }
}

/// Returns the word with another bit at a place.
fn with_bit(word: u64, k: usize, value: bool) -> u64
    requires { k < 64 }
    ensures bit { nat_eq (bit_at result k) 1 ≡ value }
    ensures others { (j : ℕ) → j < 64 → j ≢ k → bit_at result j ≡ bit_at word j }
{
    if value {
        word | (1u64 << k)
    } else {
        word & !(1u64 << k)
    }
}

/// Returns the bit of a word at a place.
fn bit_of(word: u64, k: usize) -> bool
    requires { k < 64 }
    ensures { result ≡ nat_eq (bit_at word k) 1 }
{
    (word >> k) & 1 == 1
}

/// Returns the word that holds a truth value, and 0 past the last word.
fn word_of(words: &FixedList<u64>, i: usize) -> u64
    ensures { result ≡ slice_index_or words.now (i / 64) 0 }
{
    words.get(i / WORD).unwrap_or(0)
}
