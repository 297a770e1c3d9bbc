//! Runs of bodies.

use super::build::{debugger, place};
use super::events::{no_events, one_event, two_events};
use rc_hir::{Environment, Place};
use rc_names::{Boxed, EvaluationOrder, List};
use rc_replay::{End, Event, GivenRun, has_throw, replay_body};
use rc_tree::{
    ReactiveBlock, ReactiveFunction, ReactiveInstruction, ReactiveStatement, ReactiveTerminal,
    ReactiveTerminalStatement, ReactiveValue,
};
use std::alloc::{AllocError, Global};
use std::test::Fail;

/// A row with the value of a `debugger` statement.
fn debugger_row() -> ReactiveStatement {
    ReactiveStatement::Instruction(ReactiveInstruction {
        id: EvaluationOrder::new(2),
        lvalue: None,
        value: ReactiveValue::Instruction(debugger()),
        span: None,
    })
}

/// A terminal without a label.
fn unlabeled(alloc: Global, terminal: ReactiveTerminal) -> Result<ReactiveStatement, AllocError> {
    Ok(ReactiveStatement::Terminal(Boxed::new(
        alloc,
        ReactiveTerminalStatement {
            terminal,
            label: None,
        },
    )?))
}

/// A block of one statement.
fn one(alloc: Global, statement: ReactiveStatement) -> Result<ReactiveBlock, AllocError> {
    let mut statements = List::new(alloc);
    statements.push(statement)?;
    Ok(ReactiveBlock { statements })
}

/// The function of a body.
fn function(alloc: Global, body: ReactiveBlock) -> ReactiveFunction {
    ReactiveFunction {
        span: None,
        id: None,
        name_hint: None,
        params: List::new(alloc),
        generator: false,
        is_async: false,
        body,
        directives: List::new(alloc),
    }
}

/// `if ($0) debugger; return $1`.
fn debugger_in_an_arm(alloc: Global) -> Result<ReactiveFunction, AllocError> {
    let choice = ReactiveTerminal::If {
        test: place(0),
        consequent: one(alloc, debugger_row())?,
        alternate: None,
        id: EvaluationOrder::new(1),
    };
    let mut body = one(alloc, unlabeled(alloc, choice)?)?;
    body.statements.push(returned(alloc, place(1))?)?;
    Ok(function(alloc, body))
}

/// The return of a place.
fn returned(alloc: Global, value: Place) -> Result<ReactiveStatement, AllocError> {
    let id = EvaluationOrder::new(3);
    unlabeled(alloc, ReactiveTerminal::Return { value, id })
}

/// Whether the run has no throw and is one of the body, where the environment has no identifiers.
fn is_run(alloc: Global, func: &ReactiveFunction, run: &GivenRun) -> Result<bool, Fail> {
    if has_throw(run) {
        return Ok(false);
    }
    Ok(replay_body(alloc, func, &Environment::empty(alloc), run)?)
}

#[test]
fn an_arm_of_a_body_is_taken_or_not(rt: HostRuntime) -> Result<(), Fail> {
    let alloc = rt.alloc();
    let func = debugger_in_an_arm(alloc)?;
    let end = End::Returned(place(1));
    let taken = two_events(alloc, Event::Arm(true), Event::Did(debugger()), end)?;
    assert!(rt; is_run(alloc, &func, &taken)?);
    let passed = one_event(alloc, Event::Arm(false), end)?;
    assert!(rt; is_run(alloc, &func, &passed)?);
    let untested = one_event(alloc, Event::Did(debugger()), end)?;
    assert!(rt; !is_run(alloc, &func, &untested)?);
    Ok(())
}

#[test]
fn the_end_of_a_body_counts(rt: HostRuntime) -> Result<(), Fail> {
    let alloc = rt.alloc();
    let func = debugger_in_an_arm(alloc)?;
    let other = one_event(alloc, Event::Arm(false), End::Returned(place(2)))?;
    assert!(rt; !is_run(alloc, &func, &other)?);
    let open = one_event(alloc, Event::Arm(true), End::Open)?;
    assert!(rt; is_run(alloc, &func, &open)?);
    let nothing = no_events(alloc, End::Open);
    assert!(rt; is_run(alloc, &func, &nothing)?);
    Ok(())
}

#[test]
fn a_throw_of_a_row_is_seen(rt: HostRuntime) -> Result<(), Fail> {
    let alloc = rt.alloc();
    let run = one_event(alloc, Event::Threw, End::Open)?;
    assert!(rt; has_throw(&run));
    assert!(rt; !is_run(alloc, &debugger_in_an_arm(alloc)?, &run)?);
    Ok(())
}
