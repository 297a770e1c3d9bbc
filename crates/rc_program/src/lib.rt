//! The program over any source and sink: devices, printed lines, statuses.
#![tactic(auto)]

mod answer;
mod command;
mod command_line;
mod device;
mod given;
mod json_mistake;
mod load;
mod memory;
mod nesting;
mod note;
mod printing;
mod run_mistake;
mod stack;
mod standard;
mod status;
mod stop;
mod top;

pub use command_line::{Words, words};
pub use device::Source;
pub use memory::{MemorySink, MemorySource};
pub use note::Note;
pub use rc_lines::{Failed, Sink, lines, write_lines};
pub use rc_pipe::USUAL_STACK;
pub use stack::stack_for_nesting;
pub use standard::{StdSink, StdSource};
pub use status::Status;
pub use top::program;
