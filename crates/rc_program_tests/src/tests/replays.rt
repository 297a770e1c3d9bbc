//! Whether runs beside a document are runs of its graph and of the answered body.

use super::DOCUMENT;
use super::commands::ends;
use rc_program::Status;
use std::alloc::{AllocError, Global};
use std::test::Fail;

/// The two lines where the run is one of both, and where it is one of neither.
const BOTH: &str = "graph yes\nbody yes\n";

const NEITHER: &str = "graph no\nbody no\n";

/// An `If` without an alternate, with a row in its consequent.
const IF: &str =
    r#"{"hir":{"params":[{"k":"Place","v":0},{"k":"Place","v":1}],"body":{"entry":0,"blocks":[
{"id":0,"terminal":{"k":"If","test":0,"consequent":1,"alternate":2,"fallthrough":2,"id":1}},
{"id":1,"instructions":[0],"terminal":{"k":"Goto","variant":"Break","block":2,"id":3}},
{"id":2,"terminal":{"k":"Return","value":1,"id":4}}]},
"instructions":[{"id":2,"lvalue":2,"value":{"k":"Debugger"}}]},
"env":{"identifiers":[{"declaration_id":0,"type_":0},{"declaration_id":1,"type_":0},{"declaration_id":2,"type_":0}],
"types":["Other"],"config":{},"next_block":3}"#;

/// A `Try` around a call, up to the handler that the call's block names.
const TRY: &str = r#"{"hir":{"params":[{"k":"Place","v":0}],"body":{"entry":0,"blocks":[
{"id":0,"terminal":{"k":"Try","block":1,"handler_binding":3,"handler":5,"fallthrough":6,"id":1}},
{"id":1,"terminal":{"k":"Sequence","block":2,"fallthrough":4,"id":2}},
{"id":2,"instructions":[0],"terminal":{"k":"MaybeThrow","continuation":3,"id":4,"handler":"#;

/// The rest of it.
const AFTER_HANDLER: &str =
    r#"}},{"id":3,"terminal":{"k":"Goto","variant":"Break","block":4,"id":5}},
{"id":4,"terminal":{"k":"Goto","variant":"Try","block":6,"id":6}},
{"id":5,"terminal":{"k":"Goto","variant":"Break","block":6,"id":7}},
{"id":6,"terminal":{"k":"Return","value":0,"id":8}}]},
"instructions":[{"id":3,"lvalue":1,"value":{"k":"CallExpression","callee":0,"args":[]}}]},
"env":{"identifiers":[{"declaration_id":0,"type_":0},{"declaration_id":1,"type_":0},{"declaration_id":2,"type_":0},
{"declaration_id":3,"type_":0}],"types":["Other"],"config":{},"next_block":7}"#;

/// A scope that returns in both arms of an `If`.
const RETURNS: &str =
    r#"{"hir":{"params":[{"k":"Place","v":0},{"k":"Place","v":1}],"body":{"entry":0,"blocks":[
{"id":0,"terminal":{"k":"Scope","fallthrough":5,"block":1,"scope":0,"id":1}},
{"id":1,"instructions":[0],"terminal":{"k":"If","test":0,"consequent":2,"alternate":3,"fallthrough":4,"id":3}},
{"id":2,"terminal":{"k":"Return","value":2,"id":4}},{"id":3,"terminal":{"k":"Return","value":1,"id":5}},
{"id":4,"terminal":{"k":"Unreachable","id":6}},{"id":5,"terminal":{"k":"Unreachable","id":7}}]},
"instructions":[{"id":2,"lvalue":2,"value":{"k":"ArrayExpression","elements":[]}}]},
"env":{"identifiers":[{"declaration_id":0,"type_":0},{"declaration_id":1,"type_":0},
{"declaration_id":2,"type_":0,"scope":0}],"types":["Other"],"scopes":[{"range":{"start":1,"end":7}}],
"config":{},"next_block":6}"#;

/// The text of these parts.
pub fn joined(alloc: Global, parts: &[&str]) -> Result<String, AllocError> {
    let mut text = String::new(alloc);
    for part in parts {
        text.push_str(part)?;
    }
    Ok(text)
}

/// Whether a replay ends with that status for a document without its last bracket and a run, and writes that text.
fn replays(
    alloc: Global,
    document: &str,
    run: &str,
    due: Status,
    text: &str,
) -> Result<bool, AllocError> {
    let document = joined(alloc, &[document, r#","run":"#, run, "}"])?;
    ends(alloc, &["replay"], Some(document.as_str()), due, text)
}

#[test]
fn an_arm_is_taken_or_not(rt: HostRuntime) -> Result<(), Fail> {
    let alloc = rt.alloc();
    let runs = [
        (
            r#"{"events":[{"k":"Arm","v":true},{"k":"Did","v":{"k":"Debugger"}}],"end":{"k":"Returned","v":1}}"#,
            BOTH,
        ),
        (
            r#"{"events":[{"k":"Arm","v":false}],"end":{"k":"Returned","v":1}}"#,
            BOTH,
        ),
        (
            r#"{"events":[{"k":"Did","v":{"k":"Debugger"}}],"end":{"k":"Returned","v":1}}"#,
            NEITHER,
        ),
        (r#"{"end":"Open"}"#, BOTH),
        (
            r#"{"events":[{"k":"Arm"}],"end":{"k":"Returned","v":1}}"#,
            BOTH,
        ),
        (
            r#"{"events":[{"k":"Arm"}],"end":{"k":"Thrown","v":1}}"#,
            NEITHER,
        ),
        (
            r#"{"events":[{"k":"Chose"}],"end":{"k":"Returned","v":1}}"#,
            NEITHER,
        ),
    ];
    for (run, text) in runs {
        assert!(rt; replays(alloc, IF, run, Status::Done, text)?, "{run}");
    }
    Ok(())
}

#[test]
fn a_body_is_not_asked_of_a_run_with_a_throw(rt: HostRuntime) -> Result<(), Fail> {
    let alloc = rt.alloc();
    let run = r#"{"events":[{"k":"Did","v":{"k":"CallExpression","callee":0,"args":[]}},"Threw"],
"end":{"k":"Returned","v":0}}"#;
    let handlers = [
        ("5", "graph yes\nbody skipped\n"),
        ("null", "graph no\nbody skipped\n"),
    ];
    for (handler, text) in handlers {
        let document = joined(alloc, &[TRY, handler, AFTER_HANDLER])?;
        assert!(rt;
            replays(alloc, document.as_str(), run, Status::Done, text)?,
            "the handler {handler}"
        );
    }
    Ok(())
}

#[test]
fn an_early_return_ends_a_run_with_its_place(rt: HostRuntime) -> Result<(), Fail> {
    let alloc = rt.alloc();
    for (place, text) in [("2", BOTH), ("1", NEITHER)] {
        let run = joined(
            alloc,
            &[
                r#"{"events":[{"k":"Did","v":{"k":"ArrayExpression","elements":[]}},{"k":"Arm","v":true}],
"end":{"k":"Returned","v":"#,
                place,
                "}}",
            ],
        )?;
        assert!(rt;
            replays(alloc, RETURNS, run.as_str(), Status::Done, text)?,
            "the place {place}"
        );
    }
    Ok(())
}

#[test]
fn a_replay_needs_a_document_with_a_run(rt: HostRuntime) -> Result<(), Fail> {
    let alloc = rt.alloc();
    let runs = [
        "null",
        "{}",
        "[]",
        r#"{"end":"Open","start":0}"#,
        r#"{"end":"Returned"}"#,
        r#"{"end":{"k":"Open"}}"#,
        r#"{"end":{"k":"Returned"}}"#,
        r#"{"events":{},"end":"Open"}"#,
        r#"{"events":["Arm"],"end":"Open"}"#,
        r#"{"events":[{"k":"Threw"}],"end":"Open"}"#,
        r#"{"events":[{"k":"Did"}],"end":"Open"}"#,
        r#"{"events":[{"k":"Arm","v":1}],"end":"Open"}"#,
        r#"{"events":[{"k":"Arm","v":null}],"end":"Open"}"#,
        r#"{"events":[{"k":"Chose","v":true}],"end":"Open"}"#,
        r#"{"events":[{"k":"Arm","v":true,"w":0}],"end":"Open"}"#,
    ];
    for run in runs {
        assert!(rt; replays(alloc, IF, run, Status::NotDoc, "")?, "{run}");
    }
    assert!(rt;
        ends(alloc, &["replay"], Some(DOCUMENT), Status::NotDoc, "")?,
        "a document without a run"
    );
    assert!(rt;
        ends(alloc, &["replay"], None, Status::ReadFault, "")?,
        "a read that fails"
    );
    Ok(())
}
