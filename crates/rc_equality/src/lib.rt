//! Equality of whole trees, with all their parts.
//!
//! Two trees are compared part by part, each part once, and no memory is taken. The answer is that of `≡` in contracts:
//! places, effects, spans, texts, labels and ids count.
#![tactic(auto)]

mod containers;
mod equals;
mod instruction_parts;
mod kinds;
mod patterns;
mod places;
mod statements;
mod values;

pub use equals::Equals;
