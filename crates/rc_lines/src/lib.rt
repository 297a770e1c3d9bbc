//! The printed lines of a tree, and how they reach a sink of bytes.
#![tactic(auto)]

mod blank;
mod buffer;
mod counts;
mod fates;
mod fault;
mod function;
mod page;
mod sink;
mod statement;
mod statement_count;
mod terminal;
mod text;
mod value;
mod write;

pub use counts::count_lines;
pub use fates::{fates_alone, write_scope_fate};
pub use fault::fault_line;
pub use function::{lines, tree_page};
pub use page::Page;
pub use sink::{Failed, Sink};
pub use text::write_number;
pub use write::write_lines;
