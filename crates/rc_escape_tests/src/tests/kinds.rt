//! The memo record of one row of each of the 42 kinds, beside nodes that are written by hand from the memo table.

use rc_doc::{read_doc, read_instruction_value};
use rc_escape::{MemoRecord, MemoizationLevel, collect};
use rc_hir::{Config, Effect, Environment, InstructionValue, Place};
use rc_names::{EvaluationOrder, IdentifierId, List};
use rc_tree::{
    ReactiveBlock, ReactiveFunction, ReactiveInstruction, ReactiveStatement, ReactiveValue,
};
use serde_json::Value;
use std::alloc::{AllocError, Global};
use std::test::Fail;

/// A document whose environment has ten identifiers, each its own declaration, and a function that captures number 5.
const DOCUMENT: &str = r#"{"hir":{"body":{"entry":0,"blocks":[]}},"env":{"identifiers":[
{"declaration_id":0,"type_":0},{"declaration_id":1,"type_":0},{"declaration_id":2,"type_":0},
{"declaration_id":3,"type_":0},{"declaration_id":4,"type_":0},{"declaration_id":5,"type_":0},
{"declaration_id":6,"type_":0},{"declaration_id":7,"type_":0},{"declaration_id":8,"type_":0},
{"declaration_id":9,"type_":0}],"types":["Other"],
"functions":[{"context":[[5,"Mutate",false]],"body":{"entry":0,"blocks":[]}}],"config":{},"next_block":0}}"#;

/// Each kind with the nodes that its row gives: a name, the first letter of its level, and the names that it needs. The
/// target of the row is 9.
const KINDS: [(&str, &str); 42] = [
    (
        r#"{"k":"JsxExpression","tag":{"k":"Place","v":0},
"props":[{"k":"Attribute","name":"a","place":1}],"children":[2]}"#,
        "9M012",
    ),
    (r#"{"k":"JsxFragment","children":[0,1]}"#, "9M01"),
    (r#"{"k":"NextPropertyOf","value":0}"#, "9N"),
    (
        r#"{"k":"StartMemoize","manual_memo_id":0,"deps":[0,1]}"#,
        "9N",
    ),
    (
        r#"{"k":"FinishMemoize","manual_memo_id":0,"decl":0,"pruned":false}"#,
        "9N",
    ),
    (r#"{"k":"Debugger"}"#, "9N"),
    (r#"{"k":"ComputedDelete","object":0,"property":1}"#, "9N"),
    (
        r#"{"k":"PropertyDelete","object":0,"property":{"k":"String","v":"a"}}"#,
        "9N",
    ),
    (
        r#"{"k":"LoadGlobal","binding":{"k":"Global","name":"g"}}"#,
        "9N",
    ),
    (
        r#"{"k":"MetaProperty","meta":"import","property":"meta"}"#,
        "9N",
    ),
    (
        r#"{"k":"TemplateLiteral","subexprs":[0],"quasis":["q","r"]}"#,
        "9N",
    ),
    (r#"{"k":"Primitive","value":"Null"}"#, "9N"),
    (r#"{"k":"JSXText","value":"text"}"#, "9N"),
    (
        r#"{"k":"BinaryExpression","operator":"+","left":0,"right":1}"#,
        "9N",
    ),
    (r#"{"k":"UnaryExpression","operator":"!","value":0}"#, "9N"),
    (r#"{"k":"Await","value":0}"#, "9C0"),
    (
        r#"{"k":"TypeCastExpression","value":0,"annotation":"T"}"#,
        "9C0",
    ),
    (
        r#"{"k":"IteratorNext","iterator":0,"collection":1}"#,
        "9C01",
    ),
    (r#"{"k":"GetIterator","collection":0}"#, "9C0"),
    (r#"{"k":"LoadLocal","place":0}"#, "9C0"),
    (r#"{"k":"LoadContext","place":0}"#, "9C0"),
    (
        r#"{"k":"DeclareContext","lvalue":{"kind":"Let","place":2}}"#,
        "2M 9U",
    ),
    (
        r#"{"k":"DeclareLocal","lvalue":{"kind":"Let","place":2}}"#,
        "2U 9U",
    ),
    (
        r#"{"k":"PrefixUpdate","lvalue":2,"operation":"++","value":0}"#,
        "2C0 9C0",
    ),
    (
        r#"{"k":"PostfixUpdate","lvalue":2,"operation":"--","value":0}"#,
        "2C0 9C0",
    ),
    (
        r#"{"k":"StoreLocal","lvalue":{"kind":"Const","place":2},"value":0}"#,
        "2C0 9C0",
    ),
    (
        r#"{"k":"StoreContext","lvalue":{"kind":"Reassign","place":2},"value":0}"#,
        "2M0 9C0",
    ),
    (r#"{"k":"StoreGlobal","name":"g","value":0}"#, "9U0"),
    (
        r#"{"k":"Destructure","value":0,"lvalue":{"kind":"Const","pattern":{"k":"Array",
"items":[{"k":"Place","v":2},{"k":"Spread","v":{"place":3}}]}}}"#,
        "9C0 2C0 3M0",
    ),
    (r#"{"k":"ComputedLoad","object":0,"property":1}"#, "9C0"),
    (
        r#"{"k":"PropertyLoad","object":0,"property":{"k":"String","v":"a"}}"#,
        "9C0",
    ),
    (
        r#"{"k":"ComputedStore","object":0,"property":1,"value":2}"#,
        "0C2 9C2",
    ),
    (
        r#"{"k":"TaggedTemplateExpression","tag":[0,"Mutate",false],"quasi":"q"}"#,
        "9M0 0M",
    ),
    (
        r#"{"k":"CallExpression","callee":0,
"args":[{"k":"Place","v":[1,"Mutate",false]},{"k":"Spread","v":{"place":2}}]}"#,
        "9M012 1M02",
    ),
    (
        r#"{"k":"MethodCall","receiver":[0,"Mutate",false],"property":1,"args":[{"k":"Place","v":2}]}"#,
        "9M012 0M12",
    ),
    (r#"{"k":"RegExpLiteral","pattern":"a","flags":"g"}"#, "9M"),
    (
        r#"{"k":"ArrayExpression","elements":[{"k":"Place","v":[0,"Mutate",false]},
{"k":"Spread","v":{"place":1}}]}"#,
        "0M1 9M01",
    ),
    (
        r#"{"k":"NewExpression","callee":0,"args":[{"k":"Place","v":[1,"Mutate",false]}]}"#,
        "1M0 9M01",
    ),
    (
        r#"{"k":"ObjectExpression","properties":[{"k":"Property",
"v":{"key":{"k":"Identifier","v":"a"},"place":[0,"Mutate",false]}},{"k":"Spread","v":{"place":1}}]}"#,
        "0M1 9M01",
    ),
    (
        r#"{"k":"PropertyStore","object":[0,"Mutate",false],"property":{"k":"String","v":"a"},"value":1}"#,
        "0M1 9M01",
    ),
    (
        r#"{"k":"ObjectMethod","lowered_func":{"func":0}}"#,
        "5M 9M5",
    ),
    (
        r#"{"k":"FunctionExpression","lowered_func":{"func":0}}"#,
        "5M 9M5",
    ),
];

/// Kinds whose nodes depend on the configuration, with the forest enabled alone.
const FOREST: [(&str, &str); 2] = [
    (r#"{"k":"JsxFragment","children":[0,1]}"#, "9U01"),
    (
        r#"{"k":"BinaryExpression","operator":"+","left":0,"right":1}"#,
        "9C01",
    ),
];

/// The same, with the guarantees of existing memoization preserved alone.
const PRESERVED: [(&str, &str); 2] = [
    (r#"{"k":"JsxFragment","children":[0,1]}"#, "9M01"),
    (
        r#"{"k":"BinaryExpression","operator":"+","left":0,"right":1}"#,
        "9C01",
    ),
];

/// The same, with both switches on.
const SWITCHED: [(&str, &str); 4] = [
    (r#"{"k":"JsxFragment","children":[0,1]}"#, "9U01"),
    (
        r#"{"k":"BinaryExpression","operator":"+","left":0,"right":1}"#,
        "9C01",
    ),
    (r#"{"k":"Primitive","value":"Null"}"#, "9C"),
    (r#"{"k":"Await","value":0}"#, "9C0"),
];

/// The environment of a document, and none where it isn't one.
fn environment(alloc: Global, text: &str) -> Result<Option<Environment>, AllocError> {
    match Value::from_slice(alloc, text.as_bytes()) {
        Ok(value) => environment_of(alloc, &value),
        Err(_) => Ok(None),
    }
}

fn environment_of(alloc: Global, value: &Value) -> Result<Option<Environment>, AllocError> {
    match read_doc(alloc, value)? {
        Some(doc) => Ok(Some(doc.env)),
        None => Ok(None),
    }
}

/// The instruction value of a text, and none where it isn't one.
fn instruction(alloc: Global, text: &str) -> Result<Option<InstructionValue>, AllocError> {
    match Value::from_slice(alloc, text.as_bytes()) {
        Ok(value) => read_instruction_value(alloc, &value),
        Err(_) => Ok(None),
    }
}

/// A function of one row, whose target is 9.
fn function(alloc: Global, value: InstructionValue) -> Result<ReactiveFunction, AllocError> {
    let mut statements = List::new(alloc);
    statements.push(ReactiveStatement::Instruction(ReactiveInstruction {
        id: EvaluationOrder::new(1),
        lvalue: Some(Place {
            identifier: IdentifierId::new(9),
            effect: Effect::Unknown,
            reactive: false,
            span: None,
        }),
        value: ReactiveValue::Instruction(value),
        span: None,
    }))?;
    Ok(ReactiveFunction {
        span: None,
        id: None,
        name_hint: None,
        params: List::new(alloc),
        generator: false,
        is_async: false,
        body: ReactiveBlock { statements },
        directives: List::new(alloc),
    })
}

/// The first letter of a level.
fn letter(level: MemoizationLevel) -> u8 {
    match level {
        MemoizationLevel::Memoized => b'M',
        MemoizationLevel::Conditional => b'C',
        MemoizationLevel::Unmemoized => b'U',
        MemoizationLevel::Never => b'N',
    }
}

/// The digit of a number below ten.
fn digit(number: u32) -> u8 {
    if number < 10 {
        b'0' + number as u8
    } else {
        b'?'
    }
}

/// The nodes of a record as they are written here.
fn written(alloc: Global, record: &MemoRecord) -> Result<List<u8>, AllocError> {
    let mut text = List::new(alloc);
    for place in 0..record.nodes.len() {
        if let Some((name, node)) = record.nodes.at(place) {
            if place > 0 {
                text.push(b' ')?;
            }
            text.push(digit(name.0))?;
            text.push(letter(node.level))?;
            for at in 0..node.dependencies.len() {
                if let Some(needed) = node.dependencies.at(at) {
                    text.push(digit(needed.0))?;
                }
            }
        }
    }
    Ok(text)
}

/// Whether a row of that value gives these nodes.
fn gives(alloc: Global, env: &Environment, text: &str, nodes: &str) -> Result<bool, AllocError> {
    let Some(value) = instruction(alloc, text)? else {
        return Ok(false);
    };
    let func = function(alloc, value)?;
    match collect(alloc, &func, env) {
        Ok(record) => Ok(written(alloc, &record)?.as_slice() == nodes.as_bytes()),
        Err(_) => Ok(false),
    }
}

/// The first text whose row doesn't give its nodes.
fn first_other<'a>(
    alloc: Global,
    config: Config,
    kinds: &[(&'a str, &str)],
) -> Result<Option<&'a str>, AllocError> {
    let Some(mut env) = environment(alloc, DOCUMENT)? else {
        return Ok(Some("no document"));
    };
    env.config = config;
    for (text, nodes) in kinds {
        if !gives(alloc, &env, text, nodes)? {
            return Ok(Some(*text));
        }
    }
    Ok(None)
}

/// The configuration with these switches.
fn config(forest: bool, preserved: bool) -> Config {
    Config {
        enable_forest: forest,
        enable_preserve_existing_memoization_guarantees: preserved,
    }
}

#[test]
fn each_kind_has_its_line_of_the_memo_table(rt: HostRuntime) -> Result<(), Fail> {
    let alloc = rt.alloc();
    assert_eq!(rt; first_other(alloc, config(false, false), &KINDS)?, None);
    Ok(())
}

#[test]
fn each_switch_changes_its_lines_alone(rt: HostRuntime) -> Result<(), Fail> {
    let alloc = rt.alloc();
    assert_eq!(rt; first_other(alloc, config(true, false), &FOREST)?, None);
    assert_eq!(rt; first_other(alloc, config(false, true), &PRESERVED)?, None);
    Ok(())
}

#[test]
fn both_switches_change_the_lines_of_each(rt: HostRuntime) -> Result<(), Fail> {
    let alloc = rt.alloc();
    assert_eq!(rt; first_other(alloc, config(true, true), &SWITCHED)?, None);
    Ok(())
}
