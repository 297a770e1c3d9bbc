//! Unused labels, on small trees.

use crate::tests::outline::{Line, outline};
use crate::tests::trees::{
    behind, both, break_to, continue_to, function, if_then, label_around, only, return_at, row,
    scope_around, switch_around, while_around,
};
use rc_checks::prune_unused_labels;
use rc_hir::{Environment, Fault};
use rc_names::List;
use rc_tree::ReactiveTerminalTargetKind::{Implicit, Labeled};
use rc_tree::{ReactiveStatement, ReactiveTerminalTargetKind};
use std::alloc::{AllocError, Global};
use std::test::Fail;

/// The lines of a body without its unused labels.
fn pruned(alloc: Global, statements: List<ReactiveStatement>) -> Result<List<Line>, Fault> {
    let mut func = function(alloc, statements);
    prune_unused_labels(alloc, &mut func, &Environment::empty(alloc))?;
    Ok(outline(alloc, &func.body)?)
}

/// Whether a body without its unused labels has these lines.
fn is_pruned_to(
    alloc: Global,
    statements: List<ReactiveStatement>,
    expected: &[Line],
) -> Result<bool, Fault> {
    let lines = pruned(alloc, statements)?;
    Ok(lines.as_slice() == expected)
}

/// A row, and a break after it.
fn row_and_break(
    alloc: Global,
    id: u32,
    break_id: u32,
    target: u32,
    target_kind: ReactiveTerminalTargetKind,
) -> Result<List<ReactiveStatement>, AllocError> {
    let leave = break_to(alloc, break_id, target, target_kind)?;
    both(alloc, row(id), leave)
}

/// A `Label` whose inside is an if with a labeled break to it, a row and an implicit break.
fn labeled_break(alloc: Global) -> Result<List<ReactiveStatement>, AllocError> {
    let inside = only(alloc, break_to(alloc, 3, 2, Labeled)?)?;
    let branch = if_then(alloc, 2, Some(4), inside)?;
    let labeled = both(alloc, branch, row(4))?;
    let labeled = behind(labeled, break_to(alloc, 5, 2, Implicit)?)?;
    let body = only(alloc, label_around(alloc, 1, Some(2), labeled)?)?;
    behind(body, return_at(alloc, 6)?)
}

#[test]
fn a_labeled_break_names_its_label(rt: HostRuntime) -> Result<(), Fail> {
    let alloc = rt.alloc();
    let expected = [
        Line::Label(1, Some((2, false))),
        Line::If(2, Some((4, true))),
        Line::Break(2, Labeled),
        Line::End,
        Line::Row(4),
        Line::Break(2, Implicit),
        Line::End,
        Line::Return(6),
    ];
    assert!(rt; is_pruned_to(alloc, labeled_break(alloc)?, &expected)?);
    Ok(())
}

/// A `Label` that only an implicit break leaves.
fn unnamed_label(alloc: Global) -> Result<List<ReactiveStatement>, AllocError> {
    let inside = row_and_break(alloc, 2, 3, 2, Implicit)?;
    let body = only(alloc, label_around(alloc, 1, Some(2), inside)?)?;
    behind(body, return_at(alloc, 4)?)
}

#[test]
fn an_unnamed_label_gives_way_to_its_statements(rt: HostRuntime) -> Result<(), Fail> {
    let alloc = rt.alloc();
    // The trailing implicit break stays.
    let expected = [Line::Row(2), Line::Break(2, Implicit), Line::Return(4)];
    assert!(rt; is_pruned_to(alloc, unnamed_label(alloc)?, &expected)?);
    Ok(())
}

/// A `Label` without a label.
fn no_label(alloc: Global) -> Result<List<ReactiveStatement>, AllocError> {
    only(alloc, label_around(alloc, 1, None, only(alloc, row(2))?)?)
}

#[test]
fn a_label_statement_without_a_label_gives_way_too(rt: HostRuntime) -> Result<(), Fail> {
    let alloc = rt.alloc();
    assert!(rt; is_pruned_to(alloc, no_label(alloc)?, &[Line::Row(2)])?);
    Ok(())
}

/// An if that only an implicit break leaves.
fn unnamed_if(alloc: Global) -> Result<List<ReactiveStatement>, AllocError> {
    let inside = row_and_break(alloc, 2, 3, 2, Implicit)?;
    let body = only(alloc, if_then(alloc, 1, Some(2), inside)?)?;
    behind(body, return_at(alloc, 4)?)
}

#[test]
fn the_label_of_an_if_becomes_implicit(rt: HostRuntime) -> Result<(), Fail> {
    let alloc = rt.alloc();
    let expected = [
        Line::If(1, Some((2, true))),
        Line::Row(2),
        Line::Break(2, Implicit),
        Line::End,
        Line::Return(4),
    ];
    assert!(rt; is_pruned_to(alloc, unnamed_if(alloc)?, &expected)?);
    Ok(())
}

/// A loop in a loop, with a labeled continue of the outer one.
fn labeled_continue(alloc: Global) -> Result<List<ReactiveStatement>, AllocError> {
    let inner = while_around(alloc, 2, 5, only(alloc, continue_to(alloc, 3, 4)?)?)?;
    only(alloc, while_around(alloc, 1, 4, only(alloc, inner)?)?)
}

#[test]
fn a_labeled_continue_names_its_loop(rt: HostRuntime) -> Result<(), Fail> {
    let alloc = rt.alloc();
    let expected = [
        Line::While(1, Some((4, false))),
        Line::While(2, Some((5, true))),
        Line::Continue(4, Labeled),
        Line::End,
        Line::End,
    ];
    assert!(rt; is_pruned_to(alloc, labeled_continue(alloc)?, &expected)?);
    Ok(())
}

/// A switch in a loop in a switch in a loop: each switch has a labeled break to the loop around it.
fn breaks_past_switches(alloc: Global) -> Result<List<ReactiveStatement>, AllocError> {
    let case = only(alloc, break_to(alloc, 5, 10, Labeled)?)?;
    let inner = only(alloc, switch_around(alloc, 4, 11, case)?)?;
    let inner = while_around(alloc, 3, 10, inner)?;
    let case = both(alloc, inner, break_to(alloc, 6, 8, Labeled)?)?;
    let outer = only(alloc, switch_around(alloc, 2, 9, case)?)?;
    only(alloc, while_around(alloc, 1, 8, outer)?)
}

#[test]
fn breaks_past_switches_name_their_loops(rt: HostRuntime) -> Result<(), Fail> {
    let alloc = rt.alloc();
    let expected = [
        Line::While(1, Some((8, false))),
        Line::Switch(2, Some((9, true))),
        Line::While(3, Some((10, false))),
        Line::Switch(4, Some((11, true))),
        Line::Break(10, Labeled),
        Line::End,
        Line::End,
        Line::Break(8, Labeled),
        Line::End,
        Line::End,
    ];
    assert!(rt; is_pruned_to(alloc, breaks_past_switches(alloc)?, &expected)?);
    Ok(())
}

/// A `Label` in a scope block, and one in a case beside a labeled break out of the switch.
fn labels_inside(alloc: Global) -> Result<List<ReactiveStatement>, AllocError> {
    let first = only(
        alloc,
        label_around(alloc, 1, Some(2), only(alloc, row(3))?)?,
    )?;
    let body = only(alloc, scope_around(0, first))?;
    let second = only(
        alloc,
        label_around(alloc, 5, Some(6), only(alloc, row(7))?)?,
    )?;
    let case = behind(second, break_to(alloc, 8, 9, Labeled)?)?;
    behind(body, switch_around(alloc, 4, 9, case)?)
}

#[test]
fn labels_inside_scopes_and_cases_give_way(rt: HostRuntime) -> Result<(), Fail> {
    let alloc = rt.alloc();
    let expected = [
        Line::Scope(0),
        Line::Row(3),
        Line::End,
        Line::Switch(4, Some((9, false))),
        Line::Row(7),
        Line::Break(9, Labeled),
        Line::End,
    ];
    assert!(rt; is_pruned_to(alloc, labels_inside(alloc)?, &expected)?);
    Ok(())
}

/// A `Label` in a `Label`, with a labeled break to the outer one.
pub(super) fn label_in_label(alloc: Global) -> Result<List<ReactiveStatement>, AllocError> {
    let inside = row_and_break(alloc, 3, 4, 2, Labeled)?;
    let inner = label_around(alloc, 2, Some(5), inside)?;
    only(alloc, label_around(alloc, 1, Some(2), only(alloc, inner)?)?)
}

#[test]
fn a_label_in_a_label_gives_way_alone(rt: HostRuntime) -> Result<(), Fail> {
    let alloc = rt.alloc();
    let expected = [
        Line::Label(1, Some((2, false))),
        Line::Row(3),
        Line::Break(2, Labeled),
        Line::End,
    ];
    assert!(rt; is_pruned_to(alloc, label_in_label(alloc)?, &expected)?);
    Ok(())
}

/// A row, a `Label` that nothing names, and a row.
fn label_between_rows(alloc: Global) -> Result<List<ReactiveStatement>, AllocError> {
    let inside = row_and_break(alloc, 3, 4, 6, Implicit)?;
    let label = label_around(alloc, 2, Some(6), inside)?;
    behind(both(alloc, row(1), label)?, row(5))
}

#[test]
fn the_statements_of_an_unnamed_label_stand_in_its_place(rt: HostRuntime) -> Result<(), Fail> {
    let alloc = rt.alloc();
    let expected = [
        Line::Row(1),
        Line::Row(3),
        Line::Break(6, Implicit),
        Line::Row(5),
    ];
    assert!(rt; is_pruned_to(alloc, label_between_rows(alloc)?, &expected)?);
    Ok(())
}

/// After a row, a `Label` that nothing names; in it, after a row, one with a labeled break to it; and a row.
fn named_in_unnamed(alloc: Global) -> Result<List<ReactiveStatement>, AllocError> {
    let inside = row_and_break(alloc, 5, 6, 8, Labeled)?;
    let named = label_around(alloc, 4, Some(8), inside)?;
    let around = behind(both(alloc, row(3), named)?, row(7))?;
    let unnamed = label_around(alloc, 2, Some(9), around)?;
    both(alloc, row(1), unnamed)
}

#[test]
fn a_named_label_keeps_its_own_statements(rt: HostRuntime) -> Result<(), Fail> {
    let alloc = rt.alloc();
    let expected = [
        Line::Row(1),
        Line::Row(3),
        Line::Label(4, Some((8, false))),
        Line::Row(5),
        Line::Break(8, Labeled),
        Line::End,
        Line::Row(7),
    ];
    assert!(rt; is_pruned_to(alloc, named_in_unnamed(alloc)?, &expected)?);
    Ok(())
}
