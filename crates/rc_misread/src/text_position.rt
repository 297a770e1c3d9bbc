//! Where in the text of a JSON value a part of the value is.

use crate::misread::Step;

/// A line and a column, each counted from 1. A column counts bytes.
#[derive(Clone, Copy, Debug, PartialEq, Eq)]
pub struct Position {
    pub line: usize,
    pub column: usize,
}

/// Returns the position of the byte at an index of a text.
pub fn position_at(text: &[u8], at: usize) -> Position {
    let mut found = Position { line: 1, column: 1 };
    for byte in text.iter().take(at) {
        if *byte == b'\n' {
            found.line = found.line.saturating_add(1);
            found.column = 1;
        } else {
            found.column = found.column.saturating_add(1);
        }
    }
    found
}

/// The position of the part to which these steps lead, if each of them is found in the text of the value.
pub(crate) fn position_of(text: &[u8], path: &[Step]) -> Option<Position> {
    let mut at = 0usize;
    for step in path {
        let part = index_of(text.get(at..)?, *step)?;
        at = at.checked_add(part)?;
    }
    Some(position_at(text, at))
}

/// The index at which the part begins to which a step leads, in the text of an array or object and of what is after it.
/// The last of two members with one name counts.
fn index_of(text: &[u8], step: Step) -> Option<usize> {
    let mut walk = Walk::default();
    let mut found = None;
    for (at, byte) in text.iter().enumerate() {
        if walk.begins_part(*byte) {
            walk.awaits_part = false;
            if walk.is_at(text, step) {
                found = Some(at);
            }
        }
        walk.pass(at, *byte);
        if walk.has_ended {
            return found;
        }
    }
    None
}

/// How far a walk over the text of an array or object has come.
#[derive(Clone, Copy, Debug, Default)]
struct Walk {
    /// The number of arrays and objects that are open.
    depth: usize,
    is_in_string: bool,
    is_escaped: bool,
    is_array: bool,
    /// The next byte outside of white space begins a part.
    awaits_part: bool,
    /// The number of commas that were passed.
    count: usize,
    /// The last string outside of the parts, or the last part that is one, without its quotes.
    string_start: usize,
    string_end: usize,
    has_ended: bool,
}

impl Walk {
    /// Whether a part begins with this byte.
    fn begins_part(&self, byte: u8) -> bool {
        self.awaits_part
            && self.depth == 1
            && !self.is_in_string
            && !byte.is_ascii_whitespace()
            && byte != b']'
    }

    /// Whether the step leads to the part that begins here.
    fn is_at(&self, text: &[u8], step: Step) -> bool {
        match step {
            Step::Item(index) => self.is_array && self.count == index,
            Step::Field(name) => {
                !self.is_array
                    && text.get(self.string_start..self.string_end) == Some(name.as_bytes())
            }
        }
    }

    /// Passes a byte.
    fn pass(&mut self, at: usize, byte: u8) {
        if self.is_in_string {
            self.pass_in_string(at, byte);
        } else {
            self.pass_outside(at, byte);
        }
    }

    fn pass_in_string(&mut self, at: usize, byte: u8) {
        if self.is_escaped {
            self.is_escaped = false;
        } else if byte == b'\\' {
            self.is_escaped = true;
        } else if byte == b'"' {
            self.is_in_string = false;
            if self.depth == 1 {
                self.string_end = at;
            }
        }
    }

    fn pass_outside(&mut self, at: usize, byte: u8) {
        match byte {
            b'"' => {
                self.is_in_string = true;
                if self.depth == 1 {
                    self.string_start = at.saturating_add(1);
                }
            }
            b'[' | b'{' => {
                self.depth = self.depth.saturating_add(1);
                if self.depth == 1 {
                    self.is_array = byte == b'[';
                    self.awaits_part = self.is_array;
                }
            }
            b']' | b'}' => {
                self.depth = self.depth.saturating_sub(1);
                self.has_ended = self.depth == 0;
            }
            b',' if self.depth == 1 => {
                self.count = self.count.saturating_add(1);
                self.awaits_part = self.is_array;
            }
            b':' if self.depth == 1 => self.awaits_part = true,
            _ => {}
        }
    }
}
