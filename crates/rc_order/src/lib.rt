//! Names in the order of their numbers.
#![tactic(auto)]

mod order;

pub use order::in_order;
