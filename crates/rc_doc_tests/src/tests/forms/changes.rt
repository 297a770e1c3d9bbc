//! Each change of the document at one of its parts, which is judged by the type of that part and then undone.

use super::document::DOCUMENT;
use super::judged::{OTHERS, may_be_left_out, takes};
use super::parts::{Part, parts};
use super::types::TYPES;
use rc_doc::read_doc;
use serde_json::{Map, Value};
use std::alloc::{AllocError, Global};
use std::mem;
use std::test::Fail;

/// Exchanges the part at a path with a value.
pub fn exchange(whole: &mut Value, path: &str, held: &mut Value) {
    if let Some(part) = whole.pointer_mut(path) {
        mem::swap(part, held);
    }
}

/// The fields of the object at a path.
fn fields_at<'v>(whole: &'v mut Value, path: &str) -> Option<&'v mut Map<String, Value>> {
    whole.pointer_mut(path)?.as_object_mut()
}

/// Removes the field at a path from its object; `None` if there is no such field of an object.
pub fn take_field(whole: &mut Value, path: &str) -> Option<(String, Value)> {
    let (owner, key) = path.rsplit_once('/')?;
    fields_at(whole, owner)?.remove_entry(key)
}

/// Puts a field that was taken back into its object.
pub fn put_field(whole: &mut Value, path: &str, field: (String, Value)) -> Result<(), AllocError> {
    let (owner, _) = path.rsplit_once('/').unwrap_or(("", ""));
    if let Some(fields) = fields_at(whole, owner) {
        fields.insert(field.0, field.1)?;
    }
    Ok(())
}

/// Whether the document with another value at a path is one.
pub fn is_document_with(
    alloc: Global,
    document: &mut Value,
    path: &str,
    other: &str,
) -> Result<bool, Fail> {
    let mut held = Value::from_str(alloc, other)?;
    exchange(document, path, &mut held);
    let is_document = read_doc(alloc, document)?.is_some();
    exchange(document, path, &mut held);
    Ok(is_document)
}

/// Whether the document without the field at a path is one; `None` if there is no such field of an object.
fn is_document_without(
    alloc: Global,
    document: &mut Value,
    path: &str,
) -> Result<Option<bool>, AllocError> {
    let Some(field) = take_field(document, path) else {
        return Ok(None);
    };
    let is_document = read_doc(alloc, document)?.is_some();
    put_field(document, path, field)?;
    Ok(Some(is_document))
}

/// Whether the document with one more key in the object at a path is one; `None` if there is no such object.
fn is_document_with_key(
    alloc: Global,
    document: &mut Value,
    path: &str,
) -> Result<Option<bool>, AllocError> {
    let key = String::from_str(alloc, "other")?;
    let Some(fields) = fields_at(document, path) else {
        return Ok(None);
    };
    fields.insert(key, Value::Null)?;
    let is_document = read_doc(alloc, document)?.is_some();
    if let Some(fields) = fields_at(document, path) {
        let _ = fields.remove("other");
    }
    Ok(Some(is_document))
}

/// Whether each of the other values is judged, in the place of a part, as the part's type says.
fn are_judged(
    alloc: Global,
    types: &Value,
    document: &mut Value,
    part: &Part,
) -> Result<bool, Fail> {
    let (path, type_) = (part.path.as_str(), part.type_.as_str());
    let mut are_judged = true;
    for other in OTHERS {
        are_judged &= is_document_with(alloc, document, path, other)? == takes(types, type_, other);
    }
    Ok(are_judged)
}

/// Whether the document without a part, and with one more key in it, is judged as the part's type says.
fn are_keys_judged(alloc: Global, document: &mut Value, part: &Part) -> Result<bool, AllocError> {
    let path = part.path.as_str();
    let due = may_be_left_out(part.type_.as_str());
    let without = is_document_without(alloc, document, path)?;
    let with_key = is_document_with_key(alloc, document, path)?;
    Ok(without.unwrap_or(due) == due && !with_key.unwrap_or(false))
}

/// The path of a part of which a change is misjudged, if there is one.
fn misjudged_part(alloc: Global, document: &mut Value) -> Result<Option<String>, Fail> {
    let types = Value::from_str(alloc, TYPES)?;
    for part in parts(alloc, &types, "Doc", document)?.as_slice() {
        let are_keys_judged = are_keys_judged(alloc, document, part)?;
        if !are_judged(alloc, &types, document, part)? || !are_keys_judged {
            return Ok(Some(part.path.clone()?));
        }
    }
    Ok(None)
}

/// Whether a value is a document.
pub fn is_document(alloc: Global, value: &Value) -> Result<bool, AllocError> {
    Ok(read_doc(alloc, value)?.is_some())
}

#[test]
fn each_change_of_a_document_is_judged_by_the_type_of_its_part(
    rt: HostRuntime,
) -> Result<(), Fail> {
    let alloc = rt.alloc();
    let mut document = Value::from_str(alloc, DOCUMENT)?;
    assert_eq!(rt; misjudged_part(alloc, &mut document)?, None);
    assert!(rt; is_document(alloc, &document)?);
    Ok(())
}
