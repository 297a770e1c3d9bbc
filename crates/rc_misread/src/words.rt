//! Where a value isn't read as a document, in words:
//! `hir.body.blocks[3].terminal (line 9 column 21): unknown key "fallthru"; the keys are ..`.

use crate::closer::look_closer;
use crate::misread::{Misread, Step};
use crate::misreads::{MOST_OTHERS, find_misreads};
use crate::mistake::write_wrong;
use crate::sentence::Sentence;
use crate::text_position::position_of;
use rc_names::Text;
use serde_json::Value;
use std::alloc::{AllocError, Global};

/// Returns the way to each part that isn't read, up to ten, what is there and what was expected, and `None` for a
/// document. Each of them has a line, the second and later ones as standard error begins a line. The text of the value
/// gives the parts their lines and columns; they are left out where it isn't there. Fails only when out of memory.
pub fn misread_words(
    alloc: Global,
    value: &Value,
    text: Option<&[u8]>,
) -> Result<Option<Text>, AllocError> {
    let Some(found) = find_misreads(alloc, value)? else {
        return Ok(None);
    };
    let mut out = Sentence::new(alloc);
    let first = found.first.path.as_slice();
    for other in found.others.as_slice() {
        if first.starts_with(other.path.as_slice()) {
            write_line(alloc, &mut out, other, text)?;
        }
    }
    write_line(alloc, &mut out, &found.first, text)?;
    for other in found.others.as_slice() {
        if !first.starts_with(other.path.as_slice()) {
            write_line(alloc, &mut out, other, text)?;
        }
    }
    if found.others.len() == MOST_OTHERS {
        out.push("\nrc: and there may be more")?;
    }
    Ok(Some(out.finish()))
}

/// The line of a part.
fn write_line(
    alloc: Global,
    out: &mut Sentence,
    found: &Misread<'_>,
    text: Option<&[u8]>,
) -> Result<(), AllocError> {
    if !out.is_empty() {
        out.push("\nrc: and ")?;
    }
    let closer = look_closer(alloc, found)?;
    let mut path = found.path.copy_in(alloc)?;
    path.append(closer.steps)?;
    if !path.is_empty() {
        write_path(out, path.as_slice())?;
        write_position(out, path.as_slice(), text)?;
        out.push(": ")?;
    }
    write_wrong(alloc, out, closer.wrong)
}

/// The steps as they would be written in a program.
fn write_path(out: &mut Sentence, path: &[Step]) -> Result<(), AllocError> {
    for (index, step) in path.iter().enumerate() {
        match step {
            Step::Field(name) => {
                if index > 0 {
                    out.push(".")?;
                }
                out.push(name)?;
            }
            Step::Item(item) => {
                out.push("[")?;
                out.number(*item)?;
                out.push("]")?;
            }
        }
    }
    Ok(())
}

/// Where the part is in the text, if that is there.
fn write_position(
    out: &mut Sentence,
    path: &[Step],
    text: Option<&[u8]>,
) -> Result<(), AllocError> {
    let Some(text) = text else { return Ok(()) };
    let Some(position) = position_of(text, path) else {
        return Ok(());
    };
    out.push(" (line ")?;
    out.number(position.line)?;
    out.push(" column ")?;
    out.number(position.column)?;
    out.push(")")
}
