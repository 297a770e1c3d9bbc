//! Copies of a component's graph and environment, which are like their sources in each part.

mod alike;

use super::component::COMPONENT;
use super::forms::changes::exchange;
use super::forms::judged::{OTHERS, takes};
use super::forms::parts::{Part, parts};
use super::forms::types::TYPES;
use alike::Alike;
use rc_doc::{Doc, read_doc};
use rc_names::CloneIn;
use serde_json::Value;
use std::alloc::{AllocError, Global};
use std::test::Fail;

/// The document of a value.
fn read(alloc: Global, value: &Value) -> Result<Doc, Fail> {
    match read_doc(alloc, value)? {
        Some(doc) => Ok(doc),
        None => Err(Fail::new("the component is no document")),
    }
}

/// Whether the copies of a document's graph and environment are like their sources.
fn are_copies_alike(alloc: Global, doc: &Doc) -> Result<bool, AllocError> {
    let graph = doc.hir.clone_in(alloc)?;
    let environment = doc.env.clone_in(alloc)?;
    Ok(graph.is_like(&doc.hir, alloc)? && environment.is_like(&doc.env, alloc)?)
}

/// Whether the copies of the component are like their sources.
fn is_component_copied(alloc: Global) -> Result<bool, Fail> {
    let doc = read(alloc, &Value::from_str(alloc, COMPONENT)?)?;
    Ok(are_copies_alike(alloc, &doc)?)
}

#[test]
fn copies_of_a_component_are_like_their_sources(rt: HostRuntime) -> Result<(), Fail> {
    assert!(rt; is_component_copied(rt.alloc())?);
    Ok(())
}

/// Whether the document with one part changed is unlike the source, for each value that the part may have.
fn are_changes_seen(
    alloc: Global,
    document: &mut Value,
    source: &Doc,
    types: &Value,
    part: &Part,
) -> Result<bool, Fail> {
    let mut are_seen = true;
    for other in OTHERS {
        if takes(types, part.type_.as_str(), other) {
            let mut held = Value::from_str(alloc, other)?;
            exchange(document, part.path.as_str(), &mut held);
            let is_same = held.to_string(alloc)?.as_str() == other;
            if let Some(changed) = read_doc(alloc, document)? {
                let is_like = changed.hir.is_like(&source.hir, alloc)?
                    && changed.env.is_like(&source.env, alloc)?;
                are_seen &= is_like == is_same;
            }
            exchange(document, part.path.as_str(), &mut held);
        }
    }
    Ok(are_seen)
}

/// The path of a part of the component of which a change isn't seen, if there is one.
fn unseen_part(alloc: Global) -> Result<Option<String>, Fail> {
    let types = Value::from_str(alloc, TYPES)?;
    let mut document = Value::from_str(alloc, COMPONENT)?;
    let source = read(alloc, &document)?;
    for part in parts(alloc, &types, "Doc", &document)?.as_slice() {
        if !are_changes_seen(alloc, &mut document, &source, &types, part)? {
            return Ok(Some(part.path.clone()?));
        }
    }
    Ok(None)
}

#[test]
fn a_component_with_another_part_is_not_like_it(rt: HostRuntime) -> Result<(), Fail> {
    assert_eq!(rt; unseen_part(rt.alloc())?, None);
    Ok(())
}
