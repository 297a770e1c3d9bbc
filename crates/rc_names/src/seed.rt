//! Hash tables with a seed, so that whoever chooses the keys alone can't have them collide.

use std::hash::{BuildHasher, FoldHasher, Hasher};

/// Makes the hashers of a table. Keys that collide under one seed are apart under nearly all others.
#[derive(Clone, Copy, Drop)]
pub struct Seed {
    start: FoldHasher,
}

impl Seed {
    /// Returns the seed of a number.
    pub fn new(number: u64) -> Seed {
        let mut start = FoldHasher::default();
        start.write(&number.to_le_bytes());
        Seed { start }
    }
}

impl BuildHasher for Seed {
    type Hasher = FoldHasher;

    ghost build_hasher = { λ seed. seed.start };

    fn build_hasher(&self) -> FoldHasher {
        self.start
    }
}
