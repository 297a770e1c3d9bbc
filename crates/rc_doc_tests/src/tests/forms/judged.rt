//! Which parts of a document may be left out or replaced by another value, by the definition of a document.

use super::parts::{entry_type, fields_of_struct, within};
use serde_json::Value;

/// The values that are put in the place of each part.
pub const OTHERS: [&str; 10] = [
    "null",
    "false",
    "\"\"",
    "[]",
    "{}",
    "4294967295",
    "4294967296",
    "-1",
    "1.0",
    "-0",
];

/// Whether a field of this type may be left out: an option, a list, a table or a flag.
pub fn may_be_left_out(type_: &str) -> bool {
    let is_list = within(type_, "List").is_some() || within(type_, "Table").is_some();
    is_list || within(type_, "Option").is_some() || type_ == "bool"
}

/// Whether an object of this type may be empty.
fn may_be_empty(types: &Value, type_: &str) -> bool {
    let Some(fields) = fields_of_struct(types, type_) else {
        return false;
    };
    for (_, field) in fields {
        if !may_be_left_out(field.as_str().unwrap_or("none")) {
            return false;
        }
    }
    true
}

/// Whether a value of this type, which isn't an `Option`, may be one of the others.
fn takes_plain(types: &Value, type_: &str, other: &str) -> bool {
    match other {
        "false" => type_ == "bool",
        "\"\"" => type_ == "Text",
        "[]" => entry_type(type_).is_some(),
        "{}" => may_be_empty(types, type_),
        "4294967295" => type_ == "number" || type_ == "Place",
        _ => false,
    }
}

/// Whether a value of this type may be one of the others.
pub fn takes(types: &Value, type_: &str, other: &str) -> bool {
    match within(type_, "Option") {
        Some(some) => other == "null" || takes_plain(types, some, other),
        None => takes_plain(types, type_, other),
    }
}
