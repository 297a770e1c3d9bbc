//! Reading a value part by part: `Read` for types, and a function for each form of a field in an object.
//! `specs/Reading.antt` has the same words.

ghost use Rattle.std.specs.Prelude.{◌≡◌, [], false, Option, None, option_and_then, option_map};
ghost use Rattle.serde_json.specs.Data.{Data};
ghost use Rattle.serde_json.specs.Find.{as_str};
ghost use Rattle.serde_json.specs.View.{view, items_view};
ghost use Rattle.rc_doc.specs.Reading.{IsRead, all_items, array_len, flag_of, item_at, list_of, number_of, or_absent};
ghost use Rattle.rc_doc.specs.Reading.{or_null, table_of, tag_of, text_of};
ghost use Rattle.rc_doc.specs.inside.Found.{found_data};

use crate::refusal::Refusal;
use rc_names::{List, Name, Table, Text};
use serde_json::Value;
use std::alloc::Global;

/// A type that is a part of documents.
pub trait Read: Sized {
    /// The value of this type that a JSON value gives, if it gives one.
    ghost reads: { Data → Option Self };

    /// Reads the value. Refuses with `NotDoc` if the value isn't of this type, and with `Memory` when out of memory.
    fn read(alloc: Global, value: &Value) -> Result<Self, Refusal>
        ensures { IsRead result (reads (view value.now)) };
}

/// The value that was found; refuses if there is none.
pub(crate) fn or_refuse<T>(found: Option<T>) -> Result<T, Refusal>
    ensures { IsRead result found }
{
    found.ok_or(Refusal::NotDoc)
}

/// A whole number below 2^32.
pub(crate) fn number(value: &Value) -> Option<u32>
    ensures { result ≡ number_of (view value.now) }
{
    u32::try_from(value.as_u64()?).ok()
}

impl Read for u32 {
    ghost reads = { number_of };

    fn read(_alloc: Global, value: &Value) -> Result<u32, Refusal> {
        or_refuse(number(value))
    }
}

impl Read for bool {
    ghost reads = { flag_of };

    fn read(_alloc: Global, value: &Value) -> Result<bool, Refusal> {
        or_refuse(value.as_bool())
    }
}

impl Read for Text {
    ghost reads = { text_of };

    fn read(alloc: Global, value: &Value) -> Result<Text, Refusal> {
        let text = or_refuse(value.as_str())?;
        Ok(Text::from_str(alloc, text)?)
    }
}

impl<T: Read + Drop> Read for List<T> {
    ghost reads = { list_of T.reads };

    fn read(alloc: Global, value: &Value) -> Result<List<T>, Refusal> {
        let items = or_refuse(value.as_array())?;
        list_of_items(alloc, items.as_slice())
    }
}

fn list_of_items<T: Read + Drop>(alloc: Global, values: &[Value]) -> Result<List<T>, Refusal>
    ensures { IsRead result (all_items T.reads (items_view values.now)) }
{
    let mut items = List::with_capacity(alloc, values.len())?;
    for value in values {
        items.push(T::read(alloc, value)?)?;
    }
    Ok(items)
}

impl<I: Name, T: Read + Drop> Read for Table<I, T> {
    ghost reads = { table_of T.reads };

    fn read(alloc: Global, value: &Value) -> Result<Table<I, T>, Refusal> {
        if array_len(value) >= 1 << 32 {
            return Err(Refusal::NotDoc);
        }
        Ok(Table::from_list(List::read(alloc, value)?))
    }
}

/// The number of items of an array; any other value has none.
pub(crate) fn array_len(value: &Value) -> usize
    ensures { result ≡ array_len (view value.now) }
{
    match value.as_array() {
        Some(items) => items.len(),
        None => 0,
    }
}

/// The item at an index, which must be there.
pub(crate) fn item<T: Read>(alloc: Global, value: &Value, at: usize) -> Result<T, Refusal>
    ensures { IsRead result (item_at T.reads at (view value.now)) }
{
    match value.get(at) {
        Some(found) => T::read(alloc, found),
        None => Err(Refusal::NotDoc),
    }
}

/// The name of an enum's variant that has fields.
pub fn tag(value: &Value) -> Option<&str>
    ensures { option_map (λ name. name.now) result ≡ tag_of (view value.now) }
{
    value.get("k").and_then(Value::as_str)
}

/// The name of an enum's variant, as the member `k` has it.
pub(crate) fn variant_name(k: Option<&Value>) -> Option<&str>
    ensures { option_map (λ name. name.now) result ≡ option_and_then as_str (found_data k.entry) }
{
    k.and_then(Value::as_str)
}

/// A field that must be there.
pub(crate) fn required<T: Read>(alloc: Global, found: Option<&Value>) -> Result<T, Refusal>
    ensures { IsRead result (option_and_then T.reads (found_data found.entry)) }
{
    match found {
        Some(value) => T::read(alloc, value),
        None => Err(Refusal::NotDoc),
    }
}

/// A field that is `None` if it is left out or null.
pub(crate) fn optional<T: Read>(alloc: Global, found: Option<&Value>) -> Result<Option<T>, Refusal>
    ensures { IsRead result (or_absent (or_null T.reads) None (found_data found.entry)) }
{
    match found {
        Some(value) if value.is_null() => Ok(None),
        Some(value) => Ok(Some(T::read(alloc, value)?)),
        None => Ok(None),
    }
}

/// A list that is empty if it is left out.
pub(crate) fn list_or_empty<T: Read + Drop>(
    alloc: Global,
    found: Option<&Value>,
) -> Result<List<T>, Refusal>
    ensures { IsRead result (or_absent (list_of T.reads) [] (found_data found.entry)) }
{
    match found {
        Some(value) => List::read(alloc, value),
        None => Ok(List::new(alloc)),
    }
}

/// A table that is empty if it is left out.
pub(crate) fn table_or_empty<I: Name, T: Read + Drop>(
    alloc: Global,
    found: Option<&Value>,
) -> Result<Table<I, T>, Refusal>
    ensures { IsRead result (or_absent (table_of T.reads) [] (found_data found.entry)) }
{
    match found {
        Some(value) => Table::read(alloc, value),
        None => Ok(Table::new(alloc)),
    }
}

/// A flag that is false if it is left out.
pub(crate) fn flag(found: Option<&Value>) -> Result<bool, Refusal>
    ensures { IsRead result (or_absent flag_of false (found_data found.entry)) }
{
    match found {
        Some(value) => or_refuse(value.as_bool()),
        None => Ok(false),
    }
}
