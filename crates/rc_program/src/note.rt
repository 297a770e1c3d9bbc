//! What standard error says beyond the status: where bytes are no document, or why a graph is refused. A note that
//! finds no memory is left out.

use crate::given::Form;
use crate::json_mistake::json_mistake;
use crate::nesting::nesting;
use crate::run_mistake::run_mistake;
use rc_doc::Doc;
use rc_hir::{Fault, Hir};
use rc_misread::misread_words;
use rc_names::Text;
use rc_sentences::fault_sentence;
use serde_json::Value;
use std::alloc::{AllocError, Global};

/// A note, if there is one.
pub type Note = Option<Text>;

/// Notes why bytes aren't read as JSON, and the line and the column.
pub fn note_no_json(alloc: Global, note: &mut Note, bytes: &[u8], error: &serde_json::Error) {
    if let Ok(text) = json_mistake(alloc, bytes, error) {
        *note = Some(text);
    }
}

/// Notes the parts of a value that aren't read, what was expected, and where they are in the text, if that is still
/// there.
pub fn note_no_doc(
    alloc: Global,
    note: &mut Note,
    form: Form,
    value: Value,
    text: &Option<Vec<u8>>,
) {
    if let Ok(words) = misread(alloc, form, value, text.as_ref().map(Vec::as_slice)) {
        *note = words;
    }
}

/// The parts of a value that aren't read. Where a run is asked for, that is looked at once the rest is a document.
fn misread(
    alloc: Global,
    form: Form,
    mut value: Value,
    text: Option<&[u8]>,
) -> Result<Option<Text>, AllocError> {
    if form == Form::Alone {
        return misread_words(alloc, &value, text);
    }
    let run = match value.as_object_mut() {
        Some(members) => members.remove("run"),
        None => None,
    };
    match misread_words(alloc, &value, text)? {
        Some(words) => Ok(Some(words)),
        None => Ok(Some(run_mistake(alloc, run.as_ref())?)),
    }
}

/// Notes why the graph of a document is refused.
pub fn note_fault(alloc: Global, note: &mut Note, fault: &Fault, doc: &Doc) {
    if let Ok(text) = fault_sentence(alloc, fault, &doc.hir, &doc.env) {
        *note = Some(text);
    }
}

/// Notes how deep a graph nests that found no memory, and how much stack nesting may take.
pub fn note_nesting(alloc: Global, note: &mut Note, graph: &Hir, stack: usize) {
    if let Ok(text) = nesting_text(alloc, graph, stack) {
        *note = Some(text);
    }
}

fn nesting_text(alloc: Global, graph: &Hir, stack: usize) -> Result<Text, AllocError> {
    let levels = nesting(alloc, graph)?;
    let room = stack / 1024;
    let text = format!(in alloc;
        "the blocks of the graph nest {levels} levels deep, and nesting may take {room} KiB of the stack; `ulimit -s` raises it"
    )?;
    Ok(Text::from(text))
}
