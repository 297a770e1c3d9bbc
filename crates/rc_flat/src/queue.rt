//! A queue that contracts see as a list.

ghost use Rattle.std.specs.Prelude.{◌≡◌, [], ◌∷◌, ◌++◌, ◌↔◌, IsTrue, IsNone, IfSome, IfNone, OnOk, OnErr};

use std::alloc::{AllocError, Global};
use std::collections::VecDeque;
use std::marker::Model;

/// A `VecDeque` that contracts see as the list of its entries. The entry that was put in first is the last.
#[derive(Drop)]
pub struct Queue<T> {
    entries: VecDeque<T>,
}

impl<T> Model for Queue<T> {
    ghost use Rattle.std.specs.Prelude.{List};
    ghost use Rattle.std.specs.Coded.{coded_list};

    ghost Value = { List T };

    ghost coded = { coded_list T.code };

    ghost view = { λ it. it.entries.items };
}

impl<T> Queue<T> {
    /// Returns an empty queue. This takes no memory.
    pub fn new(alloc: Global) -> Queue<T>
        ensures { result ≡ [] }
    {
        Queue {
            entries: VecDeque::new(alloc),
        }
    }

    /// Returns whether there is no entry.
    pub fn is_empty(&self) -> bool
        ensures { IsTrue result ↔ (self.now ≡ []) }
    {
        self.entries.is_empty()
    }

    /// Takes out the entry that was put in first; returns `None` if there is none.
    pub fn take_oldest(&mut self) -> Option<T>
        ensures none { IsNone result ↔ (self.old ≡ []) }
        ensures oldest { IfSome result (λ oldest. self.old ≡ self.new ++ oldest ∷ []) }
        ensures empty { IfNone result (self.new ≡ []) }
    {
        self.entries.pop_back()
    }
}

impl<T: Drop> Queue<T> {
    /// Puts an entry in. Fails only when out of memory, and then nothing has changed.
    pub fn put(&mut self, entry: T) -> Result<(), AllocError>
        ensures ok { OnOk result (self.new ≡ entry ∷ self.old) }
        ensures err { OnErr result (self.new ≡ self.old) }
    {
        self.entries.push_front(entry)?;
        Ok(())
    }
}
