//! Which dependencies of a scope stay, with a tree for each rule by which reactivity is carried on.

use super::rows::{Row, rows, statements};
use super::tables::{Known, REF, SETTER, depends_on, environment};
use super::trees::{Part, function, parts, scope_around, statement};
use rc_flow::prune_non_reactive_dependencies;
use rc_hir::{Environment, Fault, InstructionValue, PrimitiveValue};
use rc_names::{Boxed, EvaluationOrder, List};
use rc_tree::{ReactiveBlock, ReactiveStatement, ReactiveTerminal, ReactiveValue};
use std::alloc::{AllocError, Global};
use std::test::Fail;

/// The scope 0, which depends on nine names, and the scope 1, of which two names are dependencies and two outputs.
const SCOPES: [Known<'static>; 2] = [
    Known {
        dependencies: &[8, 7, 6, 5, 4, 3, 2, 1, 0],
        declarations: &[],
        reassignments: &[],
    },
    Known {
        dependencies: &[1, 0],
        declarations: &[(2, 3)],
        reassignments: &[4],
    },
];

/// The environment of these scopes, without the dependencies that go for a tree.
fn pruned(alloc: Global, statements: List<ReactiveStatement>) -> Result<Environment, Fault> {
    let mut env = environment(alloc, SCOPES.as_slice())?;
    let mut func = function(alloc, statements);
    prune_non_reactive_dependencies(alloc, &mut func, &mut env)?;
    Ok(env)
}

/// Whether these dependencies of scope 0 stay, whose block comes after the rows.
fn stay_behind(alloc: Global, rows: &[Row], names: &[u32]) -> Result<bool, Fault> {
    let statements = parts(alloc, &[Part::Rows(rows), Part::Scope(0)])?;
    let env = pruned(alloc, statements)?;
    Ok(depends_on(&env, 0, names))
}

#[test]
fn a_row_carries_by_its_rule(rt: HostRuntime) -> Result<(), Fail> {
    // Rows, and the names that are reactive after them, in the order of the scope's list.
    let table: [(&[Row], &[u32]); 15] = [
        (&[], &[]),
        (&[Row::Reads(0)], &[0]),
        (&[Row::Calls(0)], &[0]),
        (&[Row::Reads(0), Row::Loads(0, 1)], &[1, 0]),
        (&[Row::Reads(1), Row::Loads(0, 1)], &[1]),
        (&[Row::Reads(0), Row::Loads(0, REF)], &[REF, 0]),
        (&[Row::Reads(0), Row::Stores(0, 1, 2)], &[2, 1, 0]),
        (&[Row::Reads(0), Row::TakesApart(0, 1, 2, 3)], &[3, 2, 1, 0]),
        (
            &[Row::Reads(0), Row::TakesApart(0, SETTER, 1, REF)],
            &[REF, 1, 0],
        ),
        (&[Row::Reads(0), Row::LoadsProperty(0, 1)], &[1, 0]),
        (&[Row::Reads(0), Row::LoadsProperty(0, SETTER)], &[0]),
        (&[Row::Reads(0), Row::LoadsComputed(0, 1, REF)], &[REF, 0]),
        (&[Row::Reads(1), Row::LoadsComputed(0, 1, 2)], &[2, 1]),
        (&[Row::Reads(0), Row::Awaits(0, 1)], &[0]),
        // What is marked counts from the start; a load carries only what was reactive before it.
        (
            &[
                Row::Loads(1, 2),
                Row::Loads(0, 1),
                Row::Loads(1, 3),
                Row::Reads(0),
            ],
            &[3, 1, 0],
        ),
    ];
    for (i, (rows, names)) in table.iter().enumerate() {
        assert!(rt;
            stay_behind(rt.alloc(), rows, names)?,
            "row {i} of the table"
        );
    }
    Ok(())
}

/// Whether these dependencies of the scopes 0 and 1 stay, whose blocks come after the rows, that of scope 1 first.
fn stay_in_both(alloc: Global, rows: &[Row], first: &[u32], second: &[u32]) -> Result<bool, Fault> {
    let statements = parts(alloc, &[Part::Rows(rows), Part::Scope(1), Part::Scope(0)])?;
    let env = pruned(alloc, statements)?;
    Ok(depends_on(&env, 1, first) && depends_on(&env, 0, second))
}

#[test]
fn a_scope_carries_from_its_dependencies_to_its_outputs(rt: HostRuntime) -> Result<(), Fail> {
    // Rows, the dependencies of the scope that stay, and the names that are reactive after its block.
    let table: [(&[Row], &[u32], &[u32]); 3] = [
        (&[Row::Reads(0)], &[0], &[4, 3, 0]),
        (&[Row::Reads(5)], &[], &[5]),
        (&[Row::Reads(0), Row::Loads(0, 1)], &[1, 0], &[4, 3, 1, 0]),
    ];
    for (i, (rows, first, second)) in table.iter().enumerate() {
        assert!(rt;
            stay_in_both(rt.alloc(), rows, first, second)?,
            "row {i} of the table"
        );
    }
    Ok(())
}

/// Whether a name that becomes reactive after the block of scope 1 isn't kept there.
fn is_judged_at_its_end(alloc: Global) -> Result<bool, Fault> {
    let before: &[Row] = &[Row::Reads(0)];
    let behind: &[Row] = &[Row::Loads(0, 1)];
    let statements = parts(
        alloc,
        &[
            Part::Rows(before),
            Part::Scope(1),
            Part::Rows(behind),
            Part::Scope(0),
        ],
    )?;
    let env = pruned(alloc, statements)?;
    Ok(depends_on(&env, 1, &[0]) && depends_on(&env, 0, &[4, 3, 1, 0]))
}

#[test]
fn a_dependency_is_judged_where_its_block_ends(rt: HostRuntime) -> Result<(), Fail> {
    assert!(rt; is_judged_at_its_end(rt.alloc())?);
    Ok(())
}

/// The value that is undefined.
fn undefined() -> ReactiveValue {
    ReactiveValue::Instruction(InstructionValue::Primitive {
        value: PrimitiveValue::Undefined,
        span: None,
    })
}

/// These rows, and then undefined.
fn sequence(alloc: Global, entries: &[Row]) -> Result<ReactiveValue, AllocError> {
    let instructions = rows(alloc, entries)?;
    Ok(ReactiveValue::SequenceExpression {
        instructions,
        id: EvaluationOrder::new(1),
        value: Boxed::new(alloc, undefined())?,
    })
}

/// A `for` without rows but those of its update and of its body, in which the block of scope 0 is.
fn for_loop(alloc: Global, update: &[Row], body: &[Row]) -> Result<ReactiveStatement, AllocError> {
    let update = Boxed::new(alloc, sequence(alloc, update)?)?;
    let mut statements = statements(alloc, body)?;
    statements.push(scope_around(0, List::new(alloc)))?;
    let terminal = ReactiveTerminal::For {
        init: Boxed::new(alloc, undefined())?,
        test: Boxed::new(alloc, undefined())?,
        update: Some(update),
        loop_block: ReactiveBlock { statements },
        id: EvaluationOrder::new(1),
    };
    statement(alloc, terminal)
}

/// Whether these dependencies of scope 0 stay, whose block ends the body of a `for`.
fn stay_in_loop(alloc: Global, update: &[Row], body: &[Row], names: &[u32]) -> Result<bool, Fault> {
    let mut statements = List::new(alloc);
    statements.push(for_loop(alloc, update, body)?)?;
    let env = pruned(alloc, statements)?;
    Ok(depends_on(&env, 0, names))
}

#[test]
fn the_update_of_a_for_carries_before_its_body(rt: HostRuntime) -> Result<(), Fail> {
    let alloc = rt.alloc();
    // What the update carries is reactive in the body, and what the body carries isn't in the update.
    let first = stay_in_loop(
        alloc,
        &[Row::Reads(0), Row::Loads(0, 1)],
        &[Row::Loads(1, 2)],
        &[2, 1, 0],
    )?;
    let second = stay_in_loop(
        alloc,
        &[Row::Loads(1, 2)],
        &[Row::Reads(0), Row::Loads(0, 1)],
        &[1, 0],
    )?;
    assert!(rt; first);
    assert!(rt; second);
    Ok(())
}
