//! The numbers of blocks and of nested values, in the order of the text. A part that has its number waits until it is
//! sent.

ghost use Rattle.std.specs.Prelude.{◌≡◌, [], ◌∷◌, ◌++◌, ◌↔◌, map, IfOk, IsTrue, OnOk};
ghost use Rattle.rc_answer.specs.inside.Numbering.{Grows};

use std::alloc::{AllocError, Global};
use std::marker::Model;
use std::mem;

pub mod blocks;
pub mod entries;
pub mod statements;
pub mod terminals;
pub mod values;

/// Parts of a tree, which contracts see as a list of them.
#[derive(Drop)]
pub struct Parts<'a, T> {
    parts: Vec<&'a T>,
}

impl<'a, T> Model for Parts<'a, T> {
    ghost use Rattle.std.specs.Prelude.{List, map};
    ghost use Rattle.std.specs.Coded.{coded_list};

    ghost Value = { List T };

    ghost coded = { coded_list T.code };

    ghost view = { λ it. map (λ part. part.now) it.parts.items };
}

impl<'a, T> Parts<'a, T> {
    /// Returns no parts. This takes no memory.
    pub fn none(alloc: Global) -> Parts<'a, T>
        ensures { result ≡ [] }
    {
        Parts {
            parts: Vec::new(alloc),
        }
    }

    /// Returns one part. Fails only when out of memory.
    pub fn one(alloc: Global, part: &'a T) -> Result<Parts<'a, T>, AllocError>
        ensures { IfOk result (λ parts. parts ≡ part.now ∷ []) }
    {
        let mut parts = Parts::none(alloc);
        parts.push(part)?;
        Ok(parts)
    }

    /// Returns whether there is no part.
    pub fn is_empty(&self) -> bool
        ensures { IsTrue result ↔ (self.now ≡ []) }
    {
        self.parts.is_empty()
    }

    /// Appends a part. Fails only when out of memory.
    pub fn push(&mut self, part: &'a T) -> Result<(), AllocError>
        ensures { OnOk result (self.new ≡ self.old ++ part.now ∷ []) }
    {
        self.parts.push(part)?;
        Ok(())
    }

    /// Returns the parts, for a loop over them.
    pub fn as_slice(&self) -> &[&'a T]
        ensures { map (λ part. part.now) result.now ≡ self.now }
    {
        self.parts.as_slice()
    }
}

/// Parts that have their numbers and aren't sent yet, and the next number.
#[derive(Drop)]
pub struct Numbered<'a, T> {
    pub waiting: Parts<'a, T>,
    pub next: u32,
}

impl<'a, T> Numbered<'a, T> {
    /// Returns no parts, with that next number. This takes no memory.
    pub fn from(alloc: Global, next: u32) -> Numbered<'a, T>
        ensures { result ≡ record { waiting = []; next = next } }
    {
        Numbered {
            waiting: Parts::none(alloc),
            next,
        }
    }

    /// Returns the parts that wait, and leaves none.
    pub fn take(&mut self, alloc: Global) -> Parts<'a, T>
        ensures parts { result ≡ self.old.waiting }
        ensures left { self.new ≡ record self.old { waiting = [] } }
    {
        mem::replace(&mut self.waiting, Parts::none(alloc))
    }

    /// Gives a part the next number, and returns it. Fails when out of memory, and when no number is left.
    pub fn number(&mut self, part: &'a T) -> Result<u32, AllocError>
        ensures number { IfOk result (λ n. n ≡ self.old.next) }
        ensures grows { OnOk result (Grows (part.now ∷ []) self.old self.new) }
    {
        let number = self.next;
        match number.checked_add(1) {
            Some(next) => {
                self.next = next;
                self.waiting.push(part)?;
                Ok(number)
            }
            None => Err(AllocError),
        }
    }
}
