//! Tables that give no function, beside ones that give one.

use super::parts::is_function;
use std::alloc::Global;
use std::test::Fail;

/// Texts that give a function: of them, the refused ones are changed.
const TAKEN: [&str; 6] = [
    r#"{"blocks":[[]]}"#,
    r#"{"blocks":[[]],"id":null,"name_hint":null,"span":null}"#,
    r#"{"blocks":[[{"k":"Scope","v":{"instructions":1,"scope":0}},
        {"k":"PrunedScope","v":{"instructions":2,"scope":1}}],[],[]]}"#,
    r#"{"blocks":[[{"k":"Instruction","v":{"id":1,"value":{"k":"Nested","v":0}}}]],
        "values":[{"k":"LogicalExpression","operator":"And","left":{"k":"LoadLocal","place":0},
        "right":{"k":"LoadLocal","place":1}}]}"#,
    r#"{"blocks":[[{"k":"Terminal","v":{"label":null,
        "terminal":{"k":"If","id":1,"test":0,"alternate":1,"consequent":2}}}],[],[]]}"#,
    r#"{"blocks":[[{"k":"Terminal","v":{"terminal":{"k":"If","id":1,"test":0,"alternate":null,"consequent":1}}}],
        []]}"#,
];

/// Blocks with other numbers than those of their places.
const OTHER_BLOCKS: [&str; 8] = [
    // Out of order.
    r#"{"blocks":[[{"k":"Scope","v":{"instructions":2,"scope":0}},
        {"k":"PrunedScope","v":{"instructions":1,"scope":1}}],[],[]]}"#,
    r#"{"blocks":[[{"k":"Terminal","v":{
        "terminal":{"k":"If","id":1,"test":0,"alternate":2,"consequent":1}}}],[],[]]}"#,
    // Twice.
    r#"{"blocks":[[{"k":"Scope","v":{"instructions":1,"scope":0}},
        {"k":"PrunedScope","v":{"instructions":1,"scope":1}}],[]]}"#,
    // One too many.
    r#"{"blocks":[[{"k":"Scope","v":{"instructions":2,"scope":0}}],[]]}"#,
    // Its own.
    r#"{"blocks":[[{"k":"Scope","v":{"instructions":0,"scope":0}}]]}"#,
    // An entry that nothing mentions.
    r#"{"blocks":[[],[]]}"#,
    // No entry at all.
    r#"{"blocks":[]}"#,
    r#"{}"#,
];

/// Nested values with other numbers than those of their places.
const OTHER_VALUES: [&str; 5] = [
    // Out of order.
    r#"{"blocks":[[{"k":"Instruction","v":{"id":1,"value":{"k":"Nested","v":1}}},
        {"k":"Instruction","v":{"id":2,"value":{"k":"Nested","v":0}}}]],
        "values":[{"k":"OptionalExpression","optional":true,"value":{"k":"LoadLocal","place":0}},
        {"k":"OptionalExpression","value":{"k":"LoadLocal","place":0}}]}"#,
    // Twice.
    r#"{"blocks":[[{"k":"Instruction","v":{"id":1,"value":{"k":"Nested","v":0}}},
        {"k":"Instruction","v":{"id":2,"value":{"k":"Nested","v":0}}}]],
        "values":[{"k":"OptionalExpression","optional":true,"value":{"k":"LoadLocal","place":0}}]}"#,
    // One too many.
    r#"{"blocks":[[{"k":"Instruction","v":{"id":1,"value":{"k":"Nested","v":0}}}]]}"#,
    // Its own.
    r#"{"blocks":[[]],"values":[{"k":"OptionalExpression","optional":true,"value":{"k":"Nested","v":0}}]}"#,
    // An entry that nothing mentions.
    r#"{"blocks":[[]],"values":[{"k":"OptionalExpression","optional":true,"value":{"k":"LoadLocal","place":0}}]}"#,
];

/// Fields that are unknown, missing, null or of another form.
const OTHER_FIELDS: [&str; 8] = [
    r#"{"blocks":[[]],"body":0}"#,
    r#"{"blocks":[[]],"values":null}"#,
    r#"{"blocks":[[]],"generator":null}"#,
    r#"{"blocks":[[{"k":"Scope","v":{"instructions":1}}],[]]}"#,
    r#"{"blocks":[[{"k":"Scope","v":{"instructions":1,"scope":0,"id":1}}],[]]}"#,
    r#"{"blocks":[[{"k":"Scope","v":{"instructions":null,"scope":0}}],[]]}"#,
    r#"{"blocks":[[{"k":"Debugger"}]]}"#,
    r#"[[]]"#,
];

/// The index of the first text that gives a function where none should, or none where one should, if there is one.
fn exception(alloc: Global, texts: &[&str], is_taken: bool) -> Result<Option<usize>, Fail> {
    for (index, text) in texts.iter().enumerate() {
        if is_function(alloc, *text)? != is_taken {
            return Ok(Some(index));
        }
    }
    Ok(None)
}

#[test]
fn small_tables_are_read(rt: HostRuntime) -> Result<(), Fail> {
    assert_eq!(rt; exception(rt.alloc(), &TAKEN, true)?, None);
    Ok(())
}

#[test]
fn blocks_with_other_numbers_are_refused(rt: HostRuntime) -> Result<(), Fail> {
    assert_eq!(rt; exception(rt.alloc(), &OTHER_BLOCKS, false)?, None);
    Ok(())
}

#[test]
fn values_with_other_numbers_are_refused(rt: HostRuntime) -> Result<(), Fail> {
    assert_eq!(rt; exception(rt.alloc(), &OTHER_VALUES, false)?, None);
    Ok(())
}

#[test]
fn other_fields_are_refused(rt: HostRuntime) -> Result<(), Fail> {
    assert_eq!(rt; exception(rt.alloc(), &OTHER_FIELDS, false)?, None);
    Ok(())
}
