//! The sentence that is being written.

use rc_names::Text;
use std::alloc::{AllocError, Global};
use std::fmt::Write;

/// A text that grows. Writing fails only when out of memory.
#[derive(Drop)]
pub struct Line {
    text: String,
}

impl Line {
    /// An empty line, which takes no memory.
    pub fn new(alloc: Global) -> Line {
        Line {
            text: String::new(alloc),
        }
    }

    /// Writes a text.
    pub fn push(&mut self, piece: &str) -> Result<(), AllocError> {
        self.text.push_str(piece)
    }

    /// Writes a number after a text.
    pub fn number(&mut self, front: &str, number: u32) -> Result<(), AllocError> {
        self.index(front, number as usize)
    }

    /// Writes an index or a length after a text.
    pub fn index(&mut self, front: &str, index: usize) -> Result<(), AllocError> {
        self.text.push_str(front)?;
        let out = &mut self.text;
        if write!(out, "{index}").is_err() {
            return Err(AllocError);
        }
        Ok(())
    }

    /// The text, without a copy.
    pub fn finish(self) -> Text {
        Text::from(self.text)
    }
}
