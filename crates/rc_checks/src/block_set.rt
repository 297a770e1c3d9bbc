//! Sets of blocks whose order nobody sees.

ghost use Rattle.std.specs.Prelude.{◌≡◌, OnErr, OnOk};
ghost use Rattle.std.specs.FinSet as set;

use rc_names::BlockId;
use std::alloc::{AllocError, Global};
use std::collections::BTreeSet;
use std::marker::Model;

/// Blocks by their numbers. A document may choose these freely, and no choice makes a look-up in an ordered set long.
#[derive(Drop)]
pub struct BlockSet {
    numbers: BTreeSet<u32>,
}

impl Model for BlockSet {
    ghost use Rattle.std.specs.Coded.{coded_ℕ};
    ghost use Rattle.std.specs.FinSet as set;
    ghost use Rattle.std.specs.Ordering.{nat_cmp};

    ghost Value = { set.FinSet nat_cmp };

    ghost coded = { set.code coded_ℕ };

    ghost view = { λ it. set.from_list it.numbers.keys };
}

impl BlockSet {
    /// Returns an empty set. This takes no memory.
    pub fn new(alloc: Global) -> BlockSet
        ensures { result ≡ set.empty }
    {
        BlockSet {
            numbers: BTreeSet::new(alloc),
        }
    }

    /// Returns whether the set has a block.
    pub fn contains(&self, block: BlockId) -> bool
        ensures { result ≡ set.contains self.now block.0 }
    {
        self.numbers.contains(&block.0)
    }

    /// Inserts a block. Fails only when out of memory, and then nothing has changed.
    pub fn insert(&mut self, block: BlockId) -> Result<(), AllocError>
        ensures ok { OnOk result (self.new ≡ set.insert self.old block.0) }
        ensures err { OnErr result (self.new ≡ self.old) }
    {
        self.numbers.insert(block.0)?;
        Ok(())
    }
}
