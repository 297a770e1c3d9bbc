//! Why bytes aren't read as JSON, in words: the library that parses them tells the line and the column alone.

use rc_misread::position_at;
use rc_names::Text;
use std::alloc::{AllocError, Global};

/// How deep the arrays and objects of a JSON text may nest.
const MOST_LEVELS: usize = 127;

const OTHER_BRACKET: &str = "a bracket that closes another one than the last that was opened";

/// Returns why these bytes aren't read as JSON, with the line and the column where there is one. Fails only when out of
/// memory.
pub(crate) fn json_mistake(
    alloc: Global,
    bytes: &[u8],
    error: &serde_json::Error,
) -> Result<Text, AllocError> {
    if let Some(reason) = encoding(bytes) {
        return Text::from_str(alloc, reason);
    }
    let (line, column) = (error.line(), error.column());
    if let Err(error) = str::from_utf8(bytes) {
        let place = position_at(bytes, error.valid_up_to());
        return placed(alloc, "the bytes aren't UTF-8", place.line, place.column);
    }
    let said = format!(in alloc; "{error}")?;
    if !said.as_str().as_bytes().starts_with(b"invalid JSON") {
        return Ok(Text::from(said));
    }
    let index = index_of(bytes, line, column).min(bytes.len());
    let (before, rest) = bytes.split_at(index);
    let front = Front::of(before);
    if let Some(other) = front.other_bracket {
        let place = position_at(bytes, other);
        return placed(alloc, OTHER_BRACKET, place.line, place.column);
    }
    match reason(front, rest) {
        Some(reason) => placed(alloc, reason, line, column),
        None => Ok(Text::from(said)),
    }
}

/// A reason with the line and the column.
fn placed(alloc: Global, reason: &str, line: usize, column: usize) -> Result<Text, AllocError> {
    Ok(Text::from(format!(in alloc; "{reason} at line {line} column {column}")?))
}

/// The index of the byte at a line and a column.
fn index_of(bytes: &[u8], line: usize, column: usize) -> usize {
    let mut current = 1usize;
    let mut start = 0usize;
    for (index, byte) in bytes.iter().enumerate() {
        if current == line {
            break;
        }
        if *byte == b'\n' {
            current = current.saturating_add(1);
            start = index.saturating_add(1);
        }
    }
    start.saturating_add(column).saturating_sub(1)
}

/// What the first bytes say of all of them, if they aren't those of a text in UTF-8.
fn encoding(bytes: &[u8]) -> Option<&'static str> {
    match bytes {
        [0xef, 0xbb, 0xbf, ..] => Some(
            "the bytes begin with a byte order mark, which JSON leaves out",
        ),
        [0x1f, 0x8b, ..] => Some("the bytes are compressed, as by gzip"),
        [0xff, 0xfe, ..] | [0xfe, 0xff, ..] | [0, _, ..] | [_, 0, ..] => {
            Some("the bytes are UTF-16, and JSON is UTF-8")
        }
        _ => None,
    }
}

/// What is wrong where the rest begins, after the front of a JSON text.
fn reason(front: Front, rest: &[u8]) -> Option<&'static str> {
    let next = *rest.first()?;
    if next == b'/' || next == b'#' {
        return Some("a comment, which JSON doesn't have,");
    }
    if front.depth == 0 && front.last.is_some() {
        return Some("more text after the end of the value");
    }
    if front.depth > MOST_LEVELS {
        return Some("more than 127 levels of arrays and objects, which aren't read,");
    }
    match next {
        // A typographic quote begins with 0xe2.
        b'\'' | b'`' | 0xe2 => Some("a text that isn't between double quotes"),
        b']' | b'}' => bracket(front),
        b',' => Some("a comma without a value before it"),
        b':' => Some("a key that isn't a text between double quotes, or a colon too much,"),
        _ if front.ends_value() => Some(front.missing()),
        b'"' => string(rest),
        b'0'..=b'9' | b'-' | b'+' | b'.' => Some(number(rest)),
        _ => word(rest),
    }
}

/// What is wrong with a closing bracket.
fn bracket(front: Front) -> Option<&'static str> {
    match front.last {
        Some(b',') => Some("a comma before a closing bracket"),
        Some(b':') => Some("a colon without a value after it"),
        _ => Some(OTHER_BRACKET),
    }
}

/// What is wrong with a string that begins here. Of an escape by a number it isn't looked at which it is.
fn string(rest: &[u8]) -> Option<&'static str> {
    let mut is_escaped = false;
    for byte in rest.iter().skip(1) {
        if *byte < b' ' {
            return Some(
                "a text with a line break, a tab or another control character, which JSON writes as an escape,",
            );
        }
        if is_escaped && !b"\"\\/bfnrt".contains(byte) {
            return Some("a text with an escape that JSON doesn't have");
        }
        if *byte == b'"' && !is_escaped {
            return None;
        }
        is_escaped = *byte == b'\\' && !is_escaped;
    }
    None
}

/// What is wrong with a number that begins here.
fn number(rest: &[u8]) -> &'static str {
    match rest {
        [b'-', b'I', ..] | [b'-', b'N', ..] => "NaN or Infinity, which JSON doesn't have,",
        _ => "a number that JSON writes in another way",
    }
}

/// What is wrong with a word that begins here.
fn word(rest: &[u8]) -> Option<&'static str> {
    if !rest.first()?.is_ascii_alphabetic() {
        return None;
    }
    if rest.starts_with(b"NaN") || rest.starts_with(b"Infinity") {
        return Some("NaN or Infinity, which JSON doesn't have,");
    }
    for byte in rest {
        if *byte == b':' {
            return Some("a key that isn't between double quotes");
        }
        if !byte.is_ascii_alphanumeric() && *byte != b'_' && *byte != b' ' {
            break;
        }
    }
    Some("a word that is none of true, false and null")
}

/// What the front of a JSON text leaves open.
#[derive(Clone, Copy, Debug, Default)]
struct Front {
    /// The number of arrays and objects that are open.
    depth: usize,
    /// The last byte that isn't white space.
    last: Option<u8>,
    /// The last bracket, comma or colon outside of strings.
    mark: Option<u8>,
    /// Which of the open ones are objects: the last bit is that of the innermost one.
    objects: u128,
    /// The index of the first bracket that closes one of the other kind.
    other_bracket: Option<usize>,
    is_in_string: bool,
    is_escaped: bool,
}

impl Front {
    fn of(bytes: &[u8]) -> Front {
        let mut front = Front::default();
        for (index, byte) in bytes.iter().enumerate() {
            front.pass(index, *byte);
        }
        front
    }

    fn pass(&mut self, index: usize, byte: u8) {
        if !byte.is_ascii_whitespace() {
            self.last = Some(byte);
        }
        if self.is_in_string {
            self.is_in_string = byte != b'"' || self.is_escaped;
            self.is_escaped = byte == b'\\' && !self.is_escaped;
            return;
        }
        match byte {
            b'"' => self.is_in_string = true,
            b'[' | b'{' => self.open(byte),
            b']' | b'}' => self.close(index, byte),
            _ => {}
        }
        if b"[]{},:".contains(&byte) {
            self.mark = Some(byte);
        }
    }

    fn open(&mut self, bracket: u8) {
        self.depth = self.depth.saturating_add(1);
        self.objects = (self.objects << 1) | (bracket == b'{') as u128;
    }

    fn close(&mut self, index: usize, bracket: u8) {
        if (self.objects & 1 == 1) != (bracket == b'}') && self.other_bracket.is_none() {
            self.other_bracket = Some(index);
        }
        self.depth = self.depth.saturating_sub(1);
        self.objects >>= 1;
    }

    /// Whether it ends with a value or a key.
    fn ends_value(&self) -> bool {
        match self.last {
            Some(last) => !b"[{,:".contains(&last),
            None => false,
        }
    }

    /// What is missing after its last value or key.
    fn missing(&self) -> &'static str {
        match self.mark {
            Some(b'{') => "a colon is missing",
            Some(b',') => "a comma or a colon is missing",
            _ => "a comma is missing",
        }
    }
}
