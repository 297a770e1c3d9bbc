//! Spellings of single parts of the document, among them those that are easily mistaken for a right one.

use super::changes::{is_document, is_document_with};
use super::document::DOCUMENT;
use serde_json::Value;
use std::alloc::Global;
use std::test::Fail;

/// Whether the document with each of these spellings at a path is one exactly if that is expected.
fn are_judged(alloc: Global, path: &str, spellings: &[(&str, bool)]) -> Result<bool, Fail> {
    let mut document = Value::from_str(alloc, DOCUMENT)?;
    let mut are_judged = true;
    for (spelling, due) in spellings {
        are_judged &= is_document_with(alloc, &mut document, path, spelling)? == *due;
    }
    Ok(are_judged)
}

#[test]
fn a_place_has_three_forms(rt: HostRuntime) -> Result<(), Fail> {
    let spellings = [
        ("1", true),
        (r#"[1,"Read",false]"#, true),
        (r#"[1,"Read",false,[0,4294967295]]"#, true),
        (r#"[1,"Read",false,null]"#, false),
        (r#"[1,"Read",false,[0,1],[0,1]]"#, false),
        (r#"[1,"Read"]"#, false),
        ("[1]", false),
        (r#"{"identifier":1}"#, false),
    ];
    assert!(rt;
        are_judged(
            rt.alloc(),
            "/hir/instructions/0/lvalue",
            spellings.as_slice()
        )?
    );
    Ok(())
}

#[test]
fn a_span_has_two_ends(rt: HostRuntime) -> Result<(), Fail> {
    let spellings = [
        ("[1,2]", true),
        ("[1,2,3]", false),
        ("[1]", false),
        (r#"{"start":1,"end":2}"#, false),
    ];
    assert!(rt; are_judged(rt.alloc(), "/hir/span", spellings.as_slice())?);
    Ok(())
}

#[test]
fn a_variant_without_fields_is_its_name_and_no_other_is(rt: HostRuntime) -> Result<(), Fail> {
    let spellings = [
        (r#""Null""#, true),
        (r#"{"k":"Null"}"#, false),
        (r#"{"k":"Undefined"}"#, false),
        (r#"{"k":"Boolean"}"#, true),
        (r#"{"k":"Boolean","v":null}"#, false),
        (r#""Boolean""#, false),
        (r#"{"k":"Number"}"#, false),
        (r#"{"k":"Number","v":1}"#, false),
    ];
    let alloc = rt.alloc();
    assert!(rt;
        are_judged(
            alloc,
            "/hir/instructions/12/value/value",
            spellings.as_slice()
        )?
    );
    let values = [(r#"{"k":"Debugger"}"#, true), (r#""Debugger""#, false)];
    assert!(rt; are_judged(alloc, "/hir/instructions/0/value", values.as_slice())?);
    let terminals = [
        (r#"{"k":"Unreachable","id":1}"#, true),
        (r#""Unreachable""#, false),
    ];
    assert!(rt; are_judged(alloc, "/hir/body/blocks/0/terminal", terminals.as_slice())?);
    let elements = [(r#""Hole""#, true), (r#"{"k":"Hole"}"#, false)];
    assert!(rt;
        are_judged(
            alloc,
            "/hir/instructions/28/value/elements/0",
            elements.as_slice()
        )?
    );
    Ok(())
}

#[test]
fn no_key_of_a_block_stands_twice(rt: HostRuntime) -> Result<(), Fail> {
    let alloc = rt.alloc();
    let keys = [("25", true), ("null", true), ("4", false)];
    assert!(rt; are_judged(alloc, "/hir/body/blocks/0/key", keys.as_slice())?);
    let ids = [("25", true), ("0", false)];
    assert!(rt; are_judged(alloc, "/hir/body/blocks/1/id", ids.as_slice())?);
    Ok(())
}

#[test]
fn the_document_with_every_form_is_read(rt: HostRuntime) -> Result<(), Fail> {
    let alloc = rt.alloc();
    let document = Value::from_str(alloc, DOCUMENT)?;
    assert!(rt; is_document(alloc, &document)?);
    Ok(())
}
