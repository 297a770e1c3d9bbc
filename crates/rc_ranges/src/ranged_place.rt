//! Places with their ranges.

use rc_hir::{MutableRange, Place};

/// A place with the range of its scope.
#[derive(Clone, Copy)]
pub struct RangedPlace {
    pub place: Place,
    pub range: MutableRange,
}
