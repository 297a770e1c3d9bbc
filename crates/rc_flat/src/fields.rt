//! The fields of an object by their names: a function for each form of a field.

ghost use Rattle.std.specs.Prelude.{◌≡◌, map};
ghost use Rattle.std.specs.List.{list_any};
ghost use Rattle.std.specs.Str.{bytes_eq};
ghost use Rattle.serde_json.specs.View.{view, members_view};
ghost use Rattle.rc_doc.specs.Reading.{IsRead, all_known, field, flag_field, list_field, only, option_field};

use rc_doc::{Read, Refusal};
use rc_names::List;
use serde_json::{Map, Value};
use std::alloc::Global;

/// A field that must be there.
pub(crate) fn required<T: Read>(alloc: Global, value: &Value, name: &str) -> Result<T, Refusal>
    ensures { IsRead result (field T.reads name.now (view value.now)) }
{
    match value.get(name) {
        Some(found) => T::read(alloc, found),
        None => Err(Refusal::NotDoc),
    }
}

/// A field that is `None` if it is left out or null.
pub(crate) fn optional<T: Read>(
    alloc: Global,
    value: &Value,
    name: &str,
) -> Result<Option<T>, Refusal>
    ensures { IsRead result (option_field T.reads name.now (view value.now)) }
{
    match value.get(name) {
        Some(found) if found.is_null() => Ok(None),
        Some(found) => Ok(Some(T::read(alloc, found)?)),
        None => Ok(None),
    }
}

/// A list that is empty if it is left out.
pub(crate) fn list_or_empty<T: Read + Drop>(
    alloc: Global,
    value: &Value,
    name: &str,
) -> Result<List<T>, Refusal>
    ensures { IsRead result (list_field T.reads name.now (view value.now)) }
{
    match value.get(name) {
        Some(found) => List::read(alloc, found),
        None => Ok(List::new(alloc)),
    }
}

/// A flag that is false if it is left out.
pub(crate) fn flag(value: &Value, name: &str) -> Result<bool, Refusal>
    ensures { IsRead result (flag_field name.now (view value.now)) }
{
    match value.get(name) {
        Some(found) => found.as_bool().ok_or(Refusal::NotDoc),
        None => Ok(false),
    }
}

/// Refuses a value that isn't an object, and an object with a key that is none of these names.
pub(crate) fn only(value: &Value, names: &[&str]) -> Result<(), Refusal>
    ensures { IsRead result (only (map (λ name. name.now) names.now) (view value.now)) }
{
    match value.as_object() {
        Some(members) if are_known(members, names) => Ok(()),
        _ => Err(Refusal::NotDoc),
    }
}

/// Whether each key is one of these names.
fn are_known(members: &Map<String, Value>, names: &[&str]) -> bool
    ensures { result ≡ all_known (map (λ name. name.now) names.now) (members_view members.now.entries) }
{
    for (key, _) in members {
        if !is_one_of(key.as_str(), names) {
            return false;
        }
    }
    true
}

/// Whether a key is one of these names.
fn is_one_of(key: &str, names: &[&str]) -> bool
    ensures { result ≡ list_any (bytes_eq key.now) (map (λ name. name.now) names.now) }
{
    any_is(names, key)
}

/// Whether one of the names is this one.
fn any_is(names: &[&str], key: &str) -> bool
    ensures { result ≡ list_any (λ name. bytes_eq key.now name.now) names.now }
{
    names.iter().any(|name| key == *name)
}
