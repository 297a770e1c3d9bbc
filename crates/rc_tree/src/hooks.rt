//! What the hooks of the walks return.
//!
//! After oxc's visitors.rs.

use rc_names::List;

/// The result of an enter hook, which says whether the inside of its part is walked.
#[derive(Clone, Copy, Debug, PartialEq, Eq)]
pub enum Enter {
    /// The inside is walked, and then the leave hook is called.
    Inside,
    /// The inside is skipped, and the leave hook isn't called.
    Skip,
}

/// The way in which a statement is replaced.
#[derive(Drop)]
pub enum Transformed<T> {
    /// The statement stays.
    Keep,
    /// The statement is removed.
    Remove,
    /// Another statement takes its place.
    Replace(T),
    /// Other statements take its place, in order.
    ReplaceMany(List<T>),
}
