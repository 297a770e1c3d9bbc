//! Why each scope of a document has its fate.

use super::commands::ends;
use super::replays::joined;
use rc_program::Status;
use std::alloc::{AllocError, Global};
use std::test::Fail;

/// A scope with a `Debugger` alone, around one that returns the array that it makes.
const OUTER: &str = r#"{"hir":{"params":[],"body":{"entry":0,"blocks":[
{"id":0,"terminal":{"k":"Scope","block":1,"fallthrough":4,"scope":0,"id":1}},
{"id":1,"instructions":[0],"terminal":{"k":"Scope","block":2,"fallthrough":3,"scope":1,"id":3}},
{"id":2,"instructions":[1],"terminal":{"k":"Return","value":1,"id":5}},
{"id":3,"terminal":{"k":"Unreachable","id":6}},{"id":4,"terminal":{"k":"Unreachable","id":7}}]},
"instructions":[{"id":2,"lvalue":2,"value":{"k":"Debugger"}},
{"id":4,"lvalue":1,"value":{"k":"ArrayExpression","elements":[]}}]},
"env":{"identifiers":[{"declaration_id":0,"type_":0},{"declaration_id":1,"type_":0,"scope":1},
{"declaration_id":2,"type_":0,"scope":0}],"types":["Other"],
"scopes":[{"range":{"start":1,"end":8}},{"range":{"start":3,"end":7}}],"config":{},"next_block":5}}"#;

/// A scope in another one, up to the place that is returned.
const NESTED: &str = r#"{"hir":{"params":[{"k":"Place","v":0}],"body":{"entry":0,"blocks":[
{"id":0,"terminal":{"k":"Scope","block":1,"fallthrough":4,"scope":0,"id":1}},
{"id":1,"instructions":[0],"terminal":{"k":"Scope","block":2,"fallthrough":3,"scope":1,"id":3}},
{"id":2,"instructions":[1],"terminal":{"k":"Goto","variant":"Break","block":3,"id":5}},
{"id":3,"instructions":[2],"terminal":{"k":"Goto","variant":"Break","block":4,"id":7}},
{"id":4,"terminal":{"k":"Return","id":8,"value":"#;

/// From there up to the dependencies of the outer scope.
const AFTER_RETURNED: &str = r#"}}]},"instructions":[
{"id":2,"lvalue":1,"value":{"k":"ArrayExpression","elements":[{"k":"Place","v":[0,"Read",true]}]}},
{"id":4,"lvalue":2,"value":{"k":"ArrayExpression","elements":[{"k":"Place","v":[0,"Read",true]}]}},
{"id":6,"lvalue":3,"value":{"k":"ArrayExpression","elements":[{"k":"Place","v":1},{"k":"Place","v":2}]}}]},
"env":{"identifiers":[{"declaration_id":0,"type_":0},{"declaration_id":1,"type_":0},
{"declaration_id":2,"type_":0,"scope":1},{"declaration_id":3,"type_":0,"scope":0}],"types":["Other"],
"scopes":[{"range":{"start":1,"end":8},"declarations":[{"key":3,"value":{"identifier":3,"scope":0}}],
"dependencies":["#;

/// From there up to those of the inner one.
const AFTER_OUTER: &str = r#"]},
{"range":{"start":3,"end":6},"declarations":[{"key":2,"value":{"identifier":2,"scope":1}}],
"dependencies":["#;

/// The rest of it.
const AFTER_INNER: &str = r#"]}],"config":{},"next_block":5}}"#;

/// A scope whose array holds one that is new each time.
const NEW_EACH_TIME: &str = r#"{"hir":{"params":[{"k":"Place","v":0}],"body":{"entry":0,"blocks":[
{"id":0,"instructions":[0],"terminal":{"k":"Scope","block":1,"fallthrough":2,"scope":0,"id":2}},
{"id":1,"instructions":[1],"terminal":{"k":"Goto","variant":"Break","block":2,"id":4}},
{"id":2,"terminal":{"k":"Return","value":2,"id":5}}]},"instructions":[
{"id":1,"lvalue":1,"value":{"k":"ArrayExpression","elements":[{"k":"Place","v":[0,"Read",true]}]}},
{"id":3,"lvalue":2,"value":{"k":"ArrayExpression","elements":[{"k":"Place","v":[1,"Read",true]}]}}]},
"env":{"identifiers":[{"declaration_id":0,"type_":0},{"declaration_id":1,"type_":1},
{"declaration_id":2,"type_":1,"scope":0}],"types":["Other",{"k":"Object","shape":"Array"}],
"scopes":[{"range":{"start":2,"end":5},"dependencies":[{"identifier":1}],
"declarations":[{"key":2,"value":{"identifier":2,"scope":0}}]}],"config":{},"next_block":3}}"#;

/// A dependency on the parameter.
const WHOLE: &str = r#"{"identifier":0}"#;

/// That one, and one on a part of the parameter.
const WHOLE_AND_PART: &str = r#"{"identifier":0},{"identifier":0,"path":[
{"property":{"k":"String","v":"a\"b"}},{"property":{"k":"Number","v":"1"},"optional":true}]}"#;

/// The document with a scope in another one, which returns that place and whose scopes have these dependencies.
fn nested(alloc: Global, returned: &str, dependencies: &str) -> Result<String, AllocError> {
    joined(
        alloc,
        &[
            NESTED,
            returned,
            AFTER_RETURNED,
            dependencies,
            AFTER_OUTER,
            dependencies,
            AFTER_INNER,
        ],
    )
}

/// Whether the reasons for a document are these lines.
fn explains(alloc: Global, document: &str, lines: &str) -> Result<bool, AllocError> {
    ends(alloc, &["why"], Some(document), Status::Done, lines)
}

#[test]
fn an_unused_scope_has_no_values(rt: HostRuntime) -> Result<(), Fail> {
    let lines =
        "scope 0 unused declared-by none reassignments 0 returns 0\nscope 1 kept output none\n";
    assert!(rt; explains(rt.alloc(), OUTER, lines)?);
    Ok(())
}

#[test]
fn an_inner_scope_has_the_dependencies_of_the_outer(rt: HostRuntime) -> Result<(), Fail> {
    let alloc = rt.alloc();
    let whole = nested(alloc, "3", WHOLE)?;
    let lines = "scope 0 kept output 3\nscope 1 dissolved into 0 own 0 parent 0\n";
    assert!(rt; explains(alloc, &whole, lines)?, "one dependency");
    let part = nested(alloc, "3", WHOLE_AND_PART)?;
    let lines = r#"scope 0 kept output 3
scope 1 dissolved into 0 own 0,0."a\"b"?."1" parent 0,0."a\"b"?."1"
"#;
    assert!(rt; explains(alloc, &part, lines)?, "a path");
    Ok(())
}

#[test]
fn scopes_whose_values_are_not_returned_do_not_escape(rt: HostRuntime) -> Result<(), Fail> {
    let alloc = rt.alloc();
    let document = nested(alloc, "0", WHOLE)?;
    let lines = "scope 0 not-escaping outputs 3 memoized none
scope 1 not-escaping outputs 2 memoized none
";
    assert!(rt; explains(alloc, &document, lines)?);
    Ok(())
}

#[test]
fn a_dependency_that_is_new_each_time_is_named(rt: HostRuntime) -> Result<(), Fail> {
    let lines = "scope 0 always-invalidating dependency 1\n";
    assert!(rt; explains(rt.alloc(), NEW_EACH_TIME, lines)?);
    Ok(())
}
