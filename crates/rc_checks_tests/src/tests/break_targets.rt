//! The check of jumps: which jumps are looked at, and which labels are met by then.

use crate::tests::trees::{
    behind, break_to, continue_to, function, if_then, label_around, only, pruned_scope_around,
    scope_around, statement,
};
use rc_checks::assert_well_formed_break_targets;
use rc_hir::{Environment, Fault};
use rc_names::{BlockId, EvaluationOrder, List};
use rc_tree::ReactiveTerminalTargetKind::Labeled;
use rc_tree::{ReactiveStatement, ReactiveTerminal};
use std::alloc::{AllocError, Global};

/// What the check answers for a body.
fn check(alloc: Global, body: List<ReactiveStatement>) -> Result<(), Fault> {
    let env = Environment::empty(alloc);
    assert_well_formed_break_targets(alloc, &function(alloc, body), &env)
}

fn bad(target: u32) -> Result<(), Fault> {
    Err(Fault::BadTarget {
        target: BlockId::new(target),
    })
}

/// A labeled break without a label of its own.
fn breaking(alloc: Global, target: u32) -> Result<ReactiveStatement, AllocError> {
    break_to(alloc, 1, target, Labeled)
}

/// An empty `Label` of that label.
fn labeling(alloc: Global, label: u32) -> Result<ReactiveStatement, AllocError> {
    label_around(alloc, 1, Some(label), List::new(alloc))
}

/// A break alone.
fn check_break(alloc: Global) -> Result<(), Fault> {
    check(alloc, only(alloc, breaking(alloc, 7)?)?)
}

/// A continue alone.
fn check_continue(alloc: Global) -> Result<(), Fault> {
    check(alloc, only(alloc, continue_to(alloc, 1, 8)?)?)
}

/// A break that has the label that it names.
fn check_own_label(alloc: Global) -> Result<(), Fault> {
    let terminal = ReactiveTerminal::Break {
        target: BlockId::new(7),
        target_kind: Labeled,
        id: EvaluationOrder::new(1),
    };
    check(alloc, only(alloc, statement(alloc, terminal, Some(7))?)?)
}

/// A break in an `If`.
fn check_in_if(alloc: Global) -> Result<(), Fault> {
    let inside = only(alloc, breaking(alloc, 7)?)?;
    check(alloc, only(alloc, if_then(alloc, 1, None, inside)?)?)
}

/// A break after the label that it names.
fn check_behind_label(alloc: Global) -> Result<(), Fault> {
    let body = only(alloc, labeling(alloc, 7)?)?;
    let body = behind(body, breaking(alloc, 7)?)?;
    check(alloc, body)
}

/// A break before the label that it names.
fn check_before_label(alloc: Global) -> Result<(), Fault> {
    let body = only(alloc, breaking(alloc, 7)?)?;
    let body = behind(body, labeling(alloc, 7)?)?;
    check(alloc, body)
}

/// A break in a scope block in a pruned one.
fn check_in_scopes(alloc: Global) -> Result<(), Fault> {
    let inner = scope_around(1, only(alloc, breaking(alloc, 8)?)?);
    let outer = pruned_scope_around(0, only(alloc, inner)?);
    check(alloc, only(alloc, outer)?)
}

/// A break after the scope block that has its label.
fn check_behind_scope(alloc: Global) -> Result<(), Fault> {
    let scope = scope_around(0, only(alloc, labeling(alloc, 7)?)?);
    let body = only(alloc, scope)?;
    check(alloc, behind(body, breaking(alloc, 7)?)?)
}

/// Two breaks to no label.
fn check_two(alloc: Global) -> Result<(), Fault> {
    let body = only(alloc, breaking(alloc, 7)?)?;
    check(alloc, behind(body, breaking(alloc, 8)?)?)
}

#[test]
fn a_jump_to_no_label_is_refused(rt: HostRuntime) {
    assert_eq!(rt; check_break(rt.alloc()), bad(7));
    assert_eq!(rt; check_continue(rt.alloc()), bad(8));
}

#[test]
fn a_jump_inside_an_if_is_not_looked_at(rt: HostRuntime) {
    assert_eq!(rt; check_in_if(rt.alloc()), Ok(()));
}

#[test]
fn a_label_is_met_before_what_follows_it(rt: HostRuntime) {
    assert_eq!(rt; check_behind_label(rt.alloc()), Ok(()));
    assert_eq!(rt; check_before_label(rt.alloc()), bad(7));
}

#[test]
fn the_own_label_of_a_jump_is_met(rt: HostRuntime) {
    assert_eq!(rt; check_own_label(rt.alloc()), Ok(()));
}

#[test]
fn scopes_and_pruned_scopes_are_entered(rt: HostRuntime) {
    assert_eq!(rt; check_in_scopes(rt.alloc()), bad(8));
    assert_eq!(rt; check_behind_scope(rt.alloc()), Ok(()));
}

#[test]
fn the_first_of_two_is_named(rt: HostRuntime) {
    assert_eq!(rt; check_two(rt.alloc()), bad(7));
}
