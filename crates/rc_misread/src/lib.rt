//! Where a value that isn't read as a document is at fault.
#![tactic(auto)]

mod closer;
mod fields;
mod form;
mod kinds;
mod known;
mod misread;
mod misreads;
mod mistake;
mod near;
mod sentence;
mod terminals;
mod text_position;
mod words;

pub use form::{Asked, Form};
pub use misread::{Misread, Step, find_misread};
pub use misreads::{Misreads, find_misreads};
pub use text_position::{Position, position_at};
pub use words::misread_words;
