//! The parts of a value, each with its type.

use serde_json::{Map, Value};
use std::alloc::{AllocError, Global};

/// More parts than any value here has.
const MOST_PARTS: usize = 10_000;

/// A part of a value: its path, as a JSON pointer, and its type.
#[derive(Drop)]
pub struct Part {
    pub path: String,
    pub type_: String,
}

/// The text between the angle brackets after a name of a type.
pub fn within<'t>(type_: &'t str, name: &str) -> Option<&'t str> {
    type_
        .strip_prefix(name)?
        .strip_prefix('<')?
        .strip_suffix('>')
}

/// The type of the value that an option has.
pub fn without_option(type_: &str) -> &str {
    within(type_, "Option").unwrap_or(type_)
}

/// The type of the entries of a list.
pub fn entry_type(type_: &str) -> Option<&str> {
    match within(type_, "List") {
        Some(entry) => Some(entry),
        None => within(type_, "Table").or(within(type_, "Keyed")),
    }
}

/// The type of the item at an index of an array.
fn item_type(type_: &str, place: usize) -> &str {
    match (type_, place) {
        ("Span", _) | ("Place", 0) => "number",
        ("Place", 1) => "Effect",
        ("Place", 2) => "bool",
        ("Place", _) => "Span",
        _ => entry_type(type_).unwrap_or("none"),
    }
}

/// The fields of a struct.
pub fn fields_of_struct<'t>(types: &'t Value, type_: &str) -> Option<&'t Map<String, Value>> {
    types.get("structs")?.get(type_)?.as_object()
}

/// The fields of a variant.
pub fn fields_of_variant<'t>(
    types: &'t Value,
    type_: &str,
    name: &str,
) -> Option<&'t Map<String, Value>> {
    types.get("enums")?.get(type_)?.get(name)?.as_object()
}

/// The name of an object's variant.
fn tag(value: &Value) -> &str {
    value.get("k").and_then(Value::as_str).unwrap_or("")
}

/// The type of an object's field; the name of the variant, `k`, is one.
fn field_type<'t>(types: &'t Value, type_: &str, object: &Value, key: &str) -> &'t str {
    let fields = fields_of_struct(types, type_).or(fields_of_variant(types, type_, tag(object)));
    match fields.and_then(|fields| fields.get(key)) {
        Some(found) => found.as_str().unwrap_or("none"),
        None if key == "k" => "tag",
        None => "none",
    }
}

fn items_of(alloc: Global, part: &Part, items: &[Value]) -> Result<Vec<Part>, AllocError> {
    let type_ = without_option(part.type_.as_str());
    let mut parts = Vec::new(alloc);
    for place in 0..items.len() {
        let path = format!(in alloc; "{}/{place}", part.path)?;
        let type_ = String::from_str(alloc, item_type(type_, place))?;
        parts.push(Part { path, type_ })?;
    }
    Ok(parts)
}

fn fields_of(
    alloc: Global,
    types: &Value,
    part: &Part,
    object: &Value,
    members: &Map<String, Value>,
) -> Result<Vec<Part>, AllocError> {
    let type_ = without_option(part.type_.as_str());
    let mut parts = Vec::new(alloc);
    for (key, _) in members {
        let path = format!(in alloc; "{}/{key}", part.path)?;
        let type_ = String::from_str(alloc, field_type(types, type_, object, key.as_str()))?;
        parts.push(Part { path, type_ })?;
    }
    Ok(parts)
}

/// The items or fields of a part.
fn parts_of(
    alloc: Global,
    types: &Value,
    part: &Part,
    whole: &Value,
) -> Result<Vec<Part>, AllocError> {
    match whole.pointer(part.path.as_str()) {
        Some(Value::Array(items)) => items_of(alloc, part, items.as_slice()),
        Some(object) => match object.as_object() {
            Some(members) => fields_of(alloc, types, part, object, members),
            None => Ok(Vec::new(alloc)),
        },
        None => Ok(Vec::new(alloc)),
    }
}

/// All parts of a value of a type, itself the first.
pub fn parts(
    alloc: Global,
    types: &Value,
    type_: &str,
    value: &Value,
) -> Result<Vec<Part>, AllocError> {
    let mut parts = Vec::new(alloc);
    let type_ = String::from_str(alloc, type_)?;
    parts.push(Part {
        path: String::new(alloc),
        type_,
    })?;
    for index in 0..MOST_PARTS {
        let Some(part) = parts.get(index) else { break };
        let mut inner = parts_of(alloc, types, part, value)?;
        parts.append(&mut inner)?;
    }
    Ok(parts)
}
