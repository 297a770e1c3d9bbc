//! Each instruction value of the document is printed and read again, in each of its spellings.

use super::changes::{exchange, put_field, take_field};
use super::document::DOCUMENT;
use super::parts::{Part, parts, within};
use super::types::TYPES;
use rc_doc::read_instruction_value;
use rc_hir::InstructionValue;
use rc_show::value_json;
use serde_json::Value;
use std::alloc::{AllocError, Global};
use std::test::Fail;

/// The printing form of the instruction value that was read; empty if there is none.
fn printed(alloc: Global, value: &Value) -> Result<String, Fail> {
    let Some(read) = read_instruction_value(alloc, value)? else {
        return Ok(String::new(alloc));
    };
    Ok(value_json(alloc, &read)?.to_string(alloc)?)
}

/// The printing form of the value with another part at a path.
fn printed_with(alloc: Global, value: &mut Value, path: &str, other: &str) -> Result<String, Fail> {
    let mut held = Value::from_str(alloc, other)?;
    exchange(value, path, &mut held);
    let text = printed(alloc, value)?;
    exchange(value, path, &mut held);
    Ok(text)
}

/// The text of the value with another part at a path.
fn text_with(alloc: Global, value: &mut Value, path: &str, other: &str) -> Result<String, Fail> {
    let mut held = Value::from_str(alloc, other)?;
    exchange(value, path, &mut held);
    let text = value.to_string(alloc)?;
    exchange(value, path, &mut held);
    Ok(text)
}

/// The text of the value without the field at a path, and that of its printing form; `None` if it has no such field.
fn texts_without(
    alloc: Global,
    value: &mut Value,
    path: &str,
) -> Result<Option<(String, String)>, Fail> {
    let Some(field) = take_field(value, path) else {
        return Ok(None);
    };
    let text = value.to_string(alloc)?;
    let printed = printed(alloc, value)?;
    put_field(value, path, field)?;
    Ok(Some((text, printed)))
}

/// Whether the value without an optional field is printed without it, and the same if the field is null.
fn is_printed_without(alloc: Global, value: &mut Value, path: &str) -> Result<bool, Fail> {
    let Some((text, printed)) = texts_without(alloc, value, path)? else {
        return Ok(true);
    };
    Ok(printed == text && printed_with(alloc, value, path, "null")? == text)
}

/// Whether the value without a field is printed as with an empty one.
fn is_printed_as(alloc: Global, value: &mut Value, path: &str, empty: &str) -> Result<bool, Fail> {
    let Some((_, printed)) = texts_without(alloc, value, path)? else {
        return Ok(true);
    };
    let text = text_with(alloc, value, path, empty)?;
    Ok(printed == text && printed_with(alloc, value, path, empty)? == text)
}

/// Whether the value with its short place at a path spelled out is printed with the short place.
fn is_printed_short(alloc: Global, value: &mut Value, path: &str) -> Result<bool, Fail> {
    let Some(number) = value.pointer(path).and_then(Value::as_u64) else {
        return Ok(true);
    };
    let text = value.to_string(alloc)?;
    let long = format!(in alloc; "[{number},\"Read\",false]")?;
    Ok(printed_with(alloc, value, path, long.as_str())? == text)
}

/// Whether the value is printed in its one form in each spelling of a part.
fn is_printed_alike(alloc: Global, value: &mut Value, part: &Part) -> Result<bool, Fail> {
    let (path, type_) = (part.path.as_str(), part.type_.as_str());
    match type_ {
        "Place" => is_printed_short(alloc, value, path),
        "bool" => is_printed_as(alloc, value, path, "false"),
        _ if within(type_, "List").is_some() => is_printed_as(alloc, value, path, "[]"),
        _ if within(type_, "Option").is_some() => is_printed_without(alloc, value, path),
        _ => Ok(true),
    }
}

/// Whether the value is printed as it is written, and reads as the same value again.
fn is_printed_as_it_stands(alloc: Global, value: &Value) -> Result<bool, Fail> {
    let text = value.to_string(alloc)?;
    let first = printed(alloc, value)?;
    let second = printed(alloc, &Value::from_str(alloc, first.as_str())?)?;
    Ok(first == text && second == text)
}

/// The instruction value of a text.
fn read(alloc: Global, text: &str) -> Result<Option<InstructionValue>, Fail> {
    Ok(read_instruction_value(alloc, &Value::from_str(alloc, text)?)?)
}

/// Whether the value is a debugger without a span.
fn is_debugger(value: Option<InstructionValue>) -> bool {
    match &value {
        Some(InstructionValue::Debugger { span }) => span.is_none(),
        _ => false,
    }
}

/// Whether there is no value.
fn is_none(value: Option<InstructionValue>) -> bool {
    value.is_none()
}

#[test]
fn a_debugger_is_an_instruction_value_and_an_empty_object_is_none(
    rt: HostRuntime,
) -> Result<(), Fail> {
    let alloc = rt.alloc();
    assert!(rt; is_debugger(read(alloc, r#"{"k":"Debugger"}"#)?));
    assert!(rt; is_none(read(alloc, "{}")?));
    Ok(())
}

/// Takes the instruction value of that row from the document.
fn take_value(alloc: Global, document: &mut Value, row: usize) -> Result<Value, AllocError> {
    let path = format!(in alloc; "/hir/instructions/{row}/value")?;
    let mut value = Value::Null;
    exchange(document, path.as_str(), &mut value);
    Ok(value)
}

/// The path of a part of an instruction value of which a spelling is printed in another form, if there is one.
fn misprinted_part(
    alloc: Global,
    types: &Value,
    value: &mut Value,
) -> Result<Option<String>, Fail> {
    for part in parts(alloc, types, "InstructionValue", value)?.as_slice() {
        if !is_printed_alike(alloc, value, part)? {
            return Ok(Some(part.path.clone()?));
        }
    }
    Ok(None)
}

#[test]
fn each_value_is_printed_in_one_form_in_each_spelling(rt: HostRuntime) -> Result<(), Fail> {
    let alloc = rt.alloc();
    let types = Value::from_str(alloc, TYPES)?;
    let mut document = Value::from_str(alloc, DOCUMENT)?;
    for row in 0..53 {
        let mut value = take_value(alloc, &mut document, row)?;
        assert!(rt; is_printed_as_it_stands(alloc, &value)?, "of row {row}");
        assert_eq!(rt;
            misprinted_part(alloc, &types, &mut value)?,
            None,
            "of row {row}"
        );
    }
    Ok(())
}
