//! Two scopes, one of which depends on a copy of what the other one gives.

use super::collected::are_collected;
use super::rows::{array, marked, place, row_of, store};
use super::tables::{Known, depends_on, environment};
use super::trees::{function, scope_around, statement};
use rc_flow::{prune_always_invalidating_scopes, prune_non_reactive_dependencies};
use rc_hir::{Environment, Fault, Place};
use rc_names::{EvaluationOrder, List};
use rc_tree::{ReactiveFunction, ReactiveStatement, ReactiveTerminal};
use std::alloc::{AllocError, Global};
use std::test::Fail;

/// The first scope makes the name 1 from the name 0, the second the name 3 from the name 2.
const SCOPES: [Known<'static>; 2] = [
    Known {
        dependencies: &[0],
        declarations: &[(1, 1)],
        reassignments: &[],
    },
    Known {
        dependencies: &[2],
        declarations: &[(3, 3)],
        reassignments: &[],
    },
];

/// A block of a scope with the row of that id that makes an array of the element for a name.
fn making(
    alloc: Global,
    scope: u32,
    id: u32,
    name: u32,
    element: Place,
) -> Result<ReactiveStatement, AllocError> {
    let value = array(alloc, element)?;
    let row = row_of(id, Some(place(name)), value);
    let mut statements = List::new(alloc);
    statements.push(ReactiveStatement::Instruction(row))?;
    Ok(scope_around(scope, statements))
}

/// An array of the element in a scope, its store in the name 2, an array of that in another scope, and its return.
fn two_scopes(alloc: Global, element: Place) -> Result<ReactiveFunction, AllocError> {
    let mut statements = List::new(alloc);
    statements.push(making(alloc, 0, 2, 1, element)?)?;
    let store = row_of(4, Some(place(4)), store(2, place(1)));
    statements.push(ReactiveStatement::Instruction(store))?;
    statements.push(making(alloc, 1, 6, 3, place(2))?)?;
    let end = ReactiveTerminal::Return {
        value: place(3),
        id: EvaluationOrder::new(8),
    };
    statements.push(statement(alloc, end)?)?;
    Ok(function(alloc, statements))
}

/// Whether these names are collected where the element is that place.
fn collects(alloc: Global, element: Place, names: &[u32]) -> Result<bool, Fault> {
    let env = environment(alloc, SCOPES.as_slice())?;
    are_collected(alloc, &two_scopes(alloc, element)?, &env, names)
}

/// The environment where the element is that place, without the dependencies that go.
fn pruned(alloc: Global, element: Place) -> Result<Environment, Fault> {
    let mut env = environment(alloc, SCOPES.as_slice())?;
    let mut func = two_scopes(alloc, element)?;
    prune_non_reactive_dependencies(alloc, &mut func, &mut env)?;
    Ok(env)
}

/// Whether these dependencies of the two scopes stay where the element is that place.
fn stay(alloc: Global, element: Place, first: &[u32], second: &[u32]) -> Result<bool, Fault> {
    let env = pruned(alloc, element)?;
    Ok(depends_on(&env, 0, first) && depends_on(&env, 1, second))
}

#[test]
fn a_reactive_name_flows_from_scope_to_scope(rt: HostRuntime) -> Result<(), Fail> {
    let alloc = rt.alloc();
    assert!(rt; collects(alloc, marked(0), &[0])?);
    assert!(rt; stay(alloc, marked(0), &[0], &[2])?);
    Ok(())
}

#[test]
fn without_a_reactive_name_all_dependencies_go(rt: HostRuntime) -> Result<(), Fail> {
    let alloc = rt.alloc();
    assert!(rt; collects(alloc, place(0), &[])?);
    assert!(rt; stay(alloc, place(0), &[], &[])?);
    Ok(())
}

/// The number of scope blocks of the body that are none after the pass.
fn lost(alloc: Global) -> Result<usize, Fault> {
    let env = environment(alloc, SCOPES.as_slice())?;
    let mut func = two_scopes(alloc, marked(0))?;
    prune_always_invalidating_scopes(alloc, &mut func, &env)?;
    Ok(count_pruned(&func))
}

/// The number of pruned scope blocks in the body's list.
fn count_pruned(func: &ReactiveFunction) -> usize {
    let mut count = 0usize;
    for statement in func.body.statements.as_slice() {
        if let ReactiveStatement::PrunedScope(_) = statement {
            count = count.saturating_add(1);
        }
    }
    count
}

#[test]
fn a_copy_of_what_a_scope_keeps_is_kept(rt: HostRuntime) -> Result<(), Fail> {
    assert_eq!(rt; lost(rt.alloc())?, 0);
    Ok(())
}
