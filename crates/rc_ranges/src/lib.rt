//! Places found by an id in their range, without a look at all of them.
//!
//! Each place has a range of ids. The ranges are sorted by their start and put in groups, and these in sections, each
//! with a range around those of its entries. So an id is looked for only in those sections and groups that can have it.
#![tactic(auto)]

mod entry;
mod group;
mod places_by_range;
mod range;
mod ranged_place;
mod section;

pub use places_by_range::PlacesByRange;
pub use range::is_in_range;
pub use ranged_place::RangedPlace;
