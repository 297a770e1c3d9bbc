//! Equality of ids, places and the parts that hold one place.

use crate::Equals;
use rc_hir::{ArrayElement, ArrayPatternElement, LValue, ParamPattern, Place, PlaceOrSpread};
use rc_names::{BlockId, EvaluationOrder};

impl Equals for BlockId {
    fn equals(&self, other: &BlockId) -> bool {
        self == other
    }
}

impl Equals for EvaluationOrder {
    fn equals(&self, other: &EvaluationOrder) -> bool {
        self == other
    }
}

impl Equals for Place {
    fn equals(&self, other: &Place) -> bool {
        self == other
    }
}

impl Equals for LValue {
    fn equals(&self, other: &LValue) -> bool {
        self.kind == other.kind && self.place.equals(&other.place)
    }
}

impl Equals for ParamPattern {
    fn equals(&self, other: &ParamPattern) -> bool {
        self == other
    }
}

impl Equals for PlaceOrSpread {
    fn equals(&self, other: &PlaceOrSpread) -> bool {
        self == other
    }
}

impl Equals for ArrayElement {
    fn equals(&self, other: &ArrayElement) -> bool {
        self == other
    }
}

impl Equals for ArrayPatternElement {
    fn equals(&self, other: &ArrayPatternElement) -> bool {
        self == other
    }
}
