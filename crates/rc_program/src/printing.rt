//! The printed lines of what a tree alone doesn't say.

mod json;
mod reason;
mod replay;
mod slots;

pub use json::json_line;
pub use reason::reason_lines;
pub use replay::replay_lines;
pub use slots::slot_lines;
