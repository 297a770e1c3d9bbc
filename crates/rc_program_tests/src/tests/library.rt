//! The use of the crates as libraries, as README has it.

use super::{DOCUMENT, TEXT};
use rc_doc::{Doc, read_doc};
use rc_names::Text;
use rc_pipe::{Pruned, build_and_prune};
use rc_program::lines;
use serde_json::Value;
use std::alloc::Global;
use std::test::Fail;

/// The lines of a document's tree, if it has one. README has the body.
fn tree_of(alloc: Global, text: &str) -> Result<Option<Text>, Fail> {
    let value = Value::from_str(alloc, text)?;
    let Some(Doc { hir, mut env }) = read_doc(alloc, &value)? else {
        return Ok(None);
    };
    match build_and_prune(alloc, &hir, &mut env) {
        // A code generator goes over `func.body`; `fates` has the fate of each scope.
        Ok(Pruned { func, fates }) => Ok(Some(lines(alloc, &func, &fates)?)),
        Err(_fault) => Ok(None),
    }
}

/// Whether the small document has its text in this way too.
fn is_answered(alloc: Global) -> Result<bool, Fail> {
    match tree_of(alloc, DOCUMENT)? {
        Some(text) => Ok(text.as_str() == TEXT),
        None => Ok(false),
    }
}

#[test]
fn the_calls_of_the_readme_answer_a_document(rt: HostRuntime) -> Result<(), Fail> {
    assert!(rt; is_answered(rt.alloc())?);
    Ok(())
}
