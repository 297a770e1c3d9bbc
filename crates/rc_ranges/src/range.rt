//! Which ids ranges have.

ghost use Rattle.std.specs.Prelude.{◌≡◌, max, min};
ghost use Rattle.rc_ranges.specs.Ranges as spec;
ghost use Rattle.rc_ranges.specs.inside.Within.{AreWithin, HasNoId, IsWithin};

use crate::entry::Entry;
use rc_hir::MutableRange;
use rc_names::EvaluationOrder;

/// Returns whether the id is in the range, whose end is outside.
pub fn is_in_range(id: EvaluationOrder, range: MutableRange) -> bool
    ensures { result ≡ spec.is_in_range id range }
{
    range.start.0 <= id.0 && id.0 < range.end.0
}

/// Returns the smallest range that two ranges are within.
pub fn hull(one: MutableRange, other: MutableRange) -> MutableRange
    ensures start { result.start.0 ≡ min one.start.0 other.start.0 }
    ensures end { result.end.0 ≡ max one.end.0 other.end.0 }
    ensures one { IsWithin one result }
    ensures other { IsWithin other result }
{
    MutableRange {
        start: EvaluationOrder::new(one.start.0.min(other.start.0)),
        end: EvaluationOrder::new(one.end.0.max(other.end.0)),
    }
}

/// Returns a range that has no id, and with which the hull of a range is that range.
pub fn no_ids() -> MutableRange
    ensures empty { HasNoId result }
    ensures start { result.start.0 ≡ 4294967295 }
    ensures end { result.end.0 ≡ 0 }
{
    MutableRange {
        start: EvaluationOrder::new(u32::MAX),
        end: EvaluationOrder::new(0),
    }
}

/// Returns a range that the ranges of entries are within: the hull of all.
pub fn hull_of(entries: &[Entry]) -> MutableRange
    ensures { AreWithin result entries.now }
{
    let mut ids = no_ids();
    for entry in entries {
        ids = hull(ids, entry.range);
    }
    ids
}
