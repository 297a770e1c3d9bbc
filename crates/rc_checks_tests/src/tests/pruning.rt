//! Label pruning as a transform of the rewriting walk.

use crate::tests::labels::label_in_label;
use crate::tests::outline::{Line, outline};
use crate::tests::trees::{block, both, break_to, function, label_around, row};
use rc_checks::{BlockSet, UnusedLabels};
use rc_hir::{Environment, Fault};
use rc_names::List;
use rc_tree::ReactiveTerminalTargetKind::{Implicit, Labeled};
use rc_tree::{ReactiveFunction, ReactiveStatement, Transformed};
use rc_walk::rewrite::transform_stmt;
use rc_walk::{OverStatements, transform_reactive_function};
use std::alloc::Global;
use std::test::Fail;

#[test]
fn an_unnamed_label_is_replaced_by_many(rt: HostRuntime) -> Result<(), Fail> {
    let alloc = rt.alloc();
    let env = Environment::empty(alloc);
    let mut transform = OverStatements {
        env: &env,
        pass: UnusedLabels,
    };
    let mut targets = BlockSet::new(alloc);
    let inside = both(alloc, row(2), break_to(alloc, 3, 2, Implicit)?)?;
    let mut stmt = label_around(alloc, 1, Some(2), inside)?;
    let Transformed::ReplaceMany(statements) = transform_stmt(
        alloc,
        &mut transform,
        &mut stmt,
        &mut targets,
    )?
    else {
        return Err(Fail::new("the label isn't replaced"));
    };
    let expected = [Line::Row(2), Line::Break(2, Implicit)];
    assert_eq!(rt;
        outline(alloc, &block(statements))?.as_slice(),
        expected.as_slice()
    );
    Ok(())
}

/// Takes out the unused labels by the walk.
fn prune_by_walk(
    alloc: Global,
    func: &mut ReactiveFunction,
    env: &Environment,
) -> Result<(), Fault> {
    let mut transform = OverStatements {
        env,
        pass: UnusedLabels,
    };
    let mut targets = BlockSet::new(alloc);
    transform_reactive_function(alloc, func, &mut transform, &mut targets)
}

/// The lines of a body that the walk has pruned.
fn walked(alloc: Global, statements: List<ReactiveStatement>) -> Result<List<Line>, Fault> {
    let mut func = function(alloc, statements);
    prune_by_walk(alloc, &mut func, &Environment::empty(alloc))?;
    Ok(outline(alloc, &func.body)?)
}

#[test]
fn the_walk_of_a_body_takes_out_its_unused_labels(rt: HostRuntime) -> Result<(), Fail> {
    let alloc = rt.alloc();
    let expected = [
        Line::Label(1, Some((2, false))),
        Line::Row(3),
        Line::Break(2, Labeled),
        Line::End,
    ];
    assert_eq!(rt;
        walked(alloc, label_in_label(alloc)?)?.as_slice(),
        expected.as_slice()
    );
    Ok(())
}
