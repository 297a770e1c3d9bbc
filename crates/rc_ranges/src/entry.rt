//! What groups hold of a place.

use rc_hir::MutableRange;

/// The range of a place, and the index of the place among all that were given.
#[derive(Clone, Copy)]
pub struct Entry {
    pub range: MutableRange,
    pub index: usize,
}
