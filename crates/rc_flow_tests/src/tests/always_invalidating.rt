//! Which scope blocks become pruned ones, with a tree for each rule on values that are new each time.

use super::rows::{Row, statements};
use super::tables::{Known, ZERO_AGAIN, environment};
use super::trees::{function, pruned_around, scope_around};
use rc_flow::{decide_always_invalidating_scopes, prune_always_invalidating_scopes};
use rc_hir::Fault;
use rc_names::{List, ScopeId};
use rc_tree::{Fate, ReactiveBlock, ReactiveStatement, ScopeFate};
use std::alloc::{AllocError, Global};
use std::test::Fail;

/// The scope 0, which depends on the name 0 and has the outputs 1 and 2, and a scope for each of these outputs.
const SCOPES: [Known<'static>; 3] = [
    Known {
        dependencies: &[0],
        declarations: &[(5, 1)],
        reassignments: &[2],
    },
    Known {
        dependencies: &[1],
        declarations: &[],
        reassignments: &[],
    },
    Known {
        dependencies: &[2],
        declarations: &[],
        reassignments: &[],
    },
];

/// Whether the statement is a pruned scope block; none if it is no block of a scope.
fn is_pruned(statement: &ReactiveStatement) -> Option<bool> {
    match statement {
        ReactiveStatement::Scope(_) => Some(false),
        ReactiveStatement::PrunedScope(_) => Some(true),
        _ => None,
    }
}

/// Of each scope block of a list, in order, whether it is pruned.
fn are_pruned(alloc: Global, block: &ReactiveBlock) -> Result<List<bool>, AllocError> {
    let mut list = List::new(alloc);
    for statement in block.statements.as_slice() {
        if let Some(pruned) = is_pruned(statement) {
            list.push(pruned)?;
        }
    }
    Ok(list)
}

/// Of each scope block of the body's list, in order, whether it is pruned by the pass.
fn pruned_in(alloc: Global, statements: List<ReactiveStatement>) -> Result<List<bool>, Fault> {
    let env = environment(alloc, SCOPES.as_slice())?;
    let mut func = function(alloc, statements);
    prune_always_invalidating_scopes(alloc, &mut func, &env)?;
    Ok(are_pruned(alloc, &func.body)?)
}

/// Rows, a block of scope 0 around rows, rows, and a block each of the scopes 1 and 2.
fn three_scopes(
    alloc: Global,
    before: &[Row],
    inside: &[Row],
    behind: &[Row],
) -> Result<List<ReactiveStatement>, AllocError> {
    let inside = statements(alloc, inside)?;
    let mut list = statements(alloc, before)?;
    list.push(scope_around(0, inside))?;
    list.append(statements(alloc, behind)?)?;
    list.push(scope_around(1, List::new(alloc)))?;
    list.push(scope_around(2, List::new(alloc)))?;
    Ok(list)
}

/// Whether exactly the expected ones of the three scope blocks around and after these rows become pruned ones.
fn become_pruned(alloc: Global, rows: &[&[Row]; 3], expected: &[bool; 3]) -> Result<bool, Fault> {
    let statements = three_scopes(alloc, rows[0], rows[1], rows[2])?;
    let pruned = pruned_in(alloc, statements)?;
    Ok(pruned.as_slice() == expected.as_slice())
}

/// None of the three blocks becomes a pruned one.
const NONE: [bool; 3] = [false, false, false];

/// That of scope 0 alone does.
const FIRST: [bool; 3] = [true, false, false];

#[test]
fn a_scope_that_depends_on_a_new_value_is_pruned(rt: HostRuntime) -> Result<(), Fail> {
    // Rows before the block of scope 0, in it, and after it; and which of the three blocks become pruned ones.
    let table: [([&[Row]; 3], [bool; 3]); 18] = [
        ([&[], &[], &[]], NONE),
        // Five kinds of values are new each time, and no other.
        ([&[Row::Array(0)], &[], &[]], FIRST),
        ([&[Row::Object(0)], &[], &[]], FIRST),
        ([&[Row::Element(0)], &[], &[]], FIRST),
        ([&[Row::Fragment(0)], &[], &[]], FIRST),
        ([&[Row::New(0)], &[], &[]], FIRST),
        ([&[Row::Calls(0)], &[], &[]], NONE),
        // A store carries to the stored name alone, a load to its target, and no other row.
        ([&[Row::Array(3), Row::Stores(3, 0, 4)], &[], &[]], FIRST),
        ([&[Row::Array(3), Row::Stores(3, 4, 0)], &[], &[]], NONE),
        ([&[Row::Array(3), Row::Loads(3, 0)], &[], &[]], FIRST),
        ([&[Row::Array(3), Row::Awaits(3, 0)], &[], &[]], NONE),
        ([&[Row::Array(3), Row::LoadsProperty(3, 0)], &[], &[]], NONE),
        // Statements go in order.
        ([&[Row::Loads(3, 0), Row::Array(3)], &[], &[]], NONE),
        ([&[], &[], &[Row::Array(0)]], NONE),
        // A scope keeps what is made in it, unless it becomes pruned.
        ([&[], &[Row::Array(1), Row::New(2)], &[]], NONE),
        (
            [&[Row::Array(0)], &[Row::Array(1)], &[]],
            [true, true, false],
        ),
        ([&[Row::Array(0)], &[Row::New(2)], &[]], [true, false, true]),
        // Another name of the same declaration is another name.
        ([&[Row::Array(ZERO_AGAIN)], &[], &[]], NONE),
    ];
    for (i, (rows, expected)) in table.iter().enumerate() {
        assert!(rt;
            become_pruned(rt.alloc(), rows, expected)?,
            "row {i} of the table"
        );
    }
    Ok(())
}

/// A new value in a pruned block of scope 2, and a block of scope 0, which depends on it.
fn made_in_pruned(alloc: Global) -> Result<List<ReactiveStatement>, AllocError> {
    let inside = statements(alloc, &[Row::Array(0)])?;
    let mut list = List::new(alloc);
    list.push(pruned_around(2, inside))?;
    list.push(scope_around(0, List::new(alloc)))?;
    Ok(list)
}

/// Whether both blocks are pruned then.
fn is_made_outside(alloc: Global) -> Result<bool, Fault> {
    let pruned = pruned_in(alloc, made_in_pruned(alloc)?)?;
    Ok(pruned.as_slice() == [true, true].as_slice())
}

#[test]
fn a_pruned_scope_keeps_no_value(rt: HostRuntime) -> Result<(), Fail> {
    assert!(rt; is_made_outside(rt.alloc())?);
    Ok(())
}

/// A new value, and a block of scope 0 with another one in a block of scope 1, which depends on that.
fn one_in_the_other(alloc: Global) -> Result<List<ReactiveStatement>, AllocError> {
    let inside = statements(alloc, &[Row::Array(1)])?;
    let mut outer = List::new(alloc);
    outer.push(scope_around(0, inside))?;
    let mut list = statements(alloc, &[Row::Array(0)])?;
    list.push(scope_around(1, outer))?;
    Ok(list)
}

/// Whether the outer block is pruned then, since the inner one ends before it.
fn is_pruned_from_inside(alloc: Global) -> Result<bool, Fault> {
    let pruned = pruned_in(alloc, one_in_the_other(alloc)?)?;
    Ok(pruned.as_slice() == [true].as_slice())
}

/// Whether the pass returns both scopes, the inner one first.
fn is_decided_from_inside(alloc: Global) -> Result<bool, Fault> {
    let env = environment(alloc, SCOPES.as_slice())?;
    let mut func = function(alloc, one_in_the_other(alloc)?);
    let decided = decide_always_invalidating_scopes(alloc, &mut func, &env)?;
    let fate = Fate::AlwaysInvalidating;
    let [inner, outer] = [ScopeId::new(0), ScopeId::new(1)];
    Ok(
        decided.as_slice()
            == [
                ScopeFate { scope: inner, fate },
                ScopeFate { scope: outer, fate },
            ]
            .as_slice(),
    )
}

#[test]
fn an_inner_scope_is_judged_before_the_outer_one(rt: HostRuntime) -> Result<(), Fail> {
    assert!(rt; is_pruned_from_inside(rt.alloc())?);
    assert!(rt; is_decided_from_inside(rt.alloc())?);
    Ok(())
}
