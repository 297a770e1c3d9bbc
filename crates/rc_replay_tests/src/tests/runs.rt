//! Runs of graphs, and runs that differ from one.

use super::build::{debugger, is_run, place};
use super::events::{no_events, one_event, two_events};
use super::graphs::{
    array, call, call_in_a_try, cycle_with_a_throw, debugger_forever, debugger_in_an_arm,
    debugger_repeated, into_nowhere, returns_in_a_scope, silent_cycle, two_cases,
};
use rc_hir::InstructionValue;
use rc_names::List;
use rc_replay::{End, Event, GivenRun, has_throw};
use std::alloc::{AllocError, Global};
use std::test::Fail;

/// A run that does `count` times what a `debugger` statement does.
fn repeated(alloc: Global, count: u32, end: End) -> Result<GivenRun, AllocError> {
    let mut events = List::new(alloc);
    for _ in 0..count {
        events.push(Event::Did(debugger()))?;
    }
    Ok(GivenRun { events, end })
}

#[test]
fn an_arm_is_taken_or_not(rt: HostRuntime) -> Result<(), Fail> {
    let alloc = rt.alloc();
    let end = End::Returned(place(1));
    let taken = two_events(alloc, Event::Arm(true), Event::Did(debugger()), end)?;
    assert!(rt; is_run(alloc, debugger_in_an_arm(alloc)?, &taken)?);
    let passed = one_event(alloc, Event::Arm(false), end)?;
    assert!(rt; is_run(alloc, debugger_in_an_arm(alloc)?, &passed)?);
    let untested = one_event(alloc, Event::Did(debugger()), end)?;
    assert!(rt; !is_run(alloc, debugger_in_an_arm(alloc)?, &untested)?);
    Ok(())
}

#[test]
fn a_throw_leads_to_the_handler(rt: HostRuntime) -> Result<(), Fail> {
    let alloc = rt.alloc();
    let end = End::Returned(place(0));
    let run = two_events(alloc, Event::Did(call(alloc)), Event::Threw, end)?;
    assert!(rt; has_throw(&run));
    assert!(rt; is_run(alloc, call_in_a_try(alloc, Some(5))?, &run)?);
    assert!(rt; !is_run(alloc, call_in_a_try(alloc, None)?, &run)?);
    Ok(())
}

/// Whether this value, an arm and this end are a run of the graph with two returns.
fn returns_after(
    alloc: Global,
    value: InstructionValue,
    taken: bool,
    end: End,
) -> Result<bool, Fail> {
    let run = two_events(alloc, Event::Did(value), Event::Arm(taken), end)?;
    Ok(is_run(alloc, returns_in_a_scope(alloc)?, &run)?)
}

#[test]
fn each_event_and_the_end_count(rt: HostRuntime) -> Result<(), Fail> {
    let alloc = rt.alloc();
    let second = End::Returned(place(2));
    assert!(rt; returns_after(alloc, array(alloc), true, second)?);
    assert!(rt; returns_after(alloc, array(alloc), false, End::Returned(place(1)))?);
    assert!(rt; returns_after(alloc, array(alloc), true, End::Open)?);
    assert!(rt; !returns_after(alloc, array(alloc), true, End::Returned(place(1)))?);
    assert!(rt; !returns_after(alloc, array(alloc), true, End::Thrown(place(2)))?);
    assert!(rt; !returns_after(alloc, array(alloc), false, second)?);
    assert!(rt; !returns_after(alloc, debugger(), true, second)?);
    Ok(())
}

#[test]
fn events_after_the_end_are_no_run(rt: HostRuntime) -> Result<(), Fail> {
    let alloc = rt.alloc();
    let run = two_events(
        alloc,
        Event::Arm(false),
        Event::Arm(false),
        End::Returned(place(1)),
    )?;
    assert!(rt; !is_run(alloc, debugger_in_an_arm(alloc)?, &run)?);
    Ok(())
}

#[test]
fn a_cycle_without_events_comes_to_an_end(rt: HostRuntime) -> Result<(), Fail> {
    let alloc = rt.alloc();
    let stopped = no_events(alloc, End::Open);
    assert!(rt; is_run(alloc, silent_cycle(alloc)?, &stopped)?);
    let returned = no_events(alloc, End::Returned(place(0)));
    assert!(rt; !is_run(alloc, silent_cycle(alloc)?, &returned)?);
    let threw = one_event(alloc, Event::Threw, End::Open)?;
    assert!(rt; !is_run(alloc, silent_cycle(alloc)?, &threw)?);
    assert!(rt; is_run(alloc, cycle_with_a_throw(alloc)?, &threw)?);
    Ok(())
}

#[test]
fn each_of_two_cases_with_one_test_is_followed(rt: HostRuntime) -> Result<(), Fail> {
    let alloc = rt.alloc();
    let test = Some(place(1));
    let end = End::Returned(place(0));
    let first = one_event(alloc, Event::Chose(test), end)?;
    assert!(rt; is_run(alloc, two_cases(alloc, test, test)?, &first)?);
    let second = two_events(alloc, Event::Chose(test), Event::Did(debugger()), end)?;
    assert!(rt; is_run(alloc, two_cases(alloc, test, test)?, &second)?);
    Ok(())
}

#[test]
fn all_cases_are_passed_without_a_default_alone(rt: HostRuntime) -> Result<(), Fail> {
    let alloc = rt.alloc();
    let end = End::Returned(place(0));
    let run = one_event(alloc, Event::Chose(None), end)?;
    let test = Some(place(1));
    assert!(rt; is_run(alloc, two_cases(alloc, test, test)?, &run)?);
    assert!(rt; !is_run(alloc, two_cases(alloc, test, None)?, &run)?);
    Ok(())
}

#[test]
fn a_number_that_is_no_key_ends_a_run(rt: HostRuntime) -> Result<(), Fail> {
    let alloc = rt.alloc();
    let stopped = one_event(alloc, Event::Arm(true), End::Open)?;
    assert!(rt; is_run(alloc, into_nowhere(alloc)?, &stopped)?);
    let returned = one_event(alloc, Event::Arm(true), End::Returned(place(0)))?;
    assert!(rt; !is_run(alloc, into_nowhere(alloc)?, &returned)?);
    Ok(())
}

#[test]
fn a_long_run_is_followed_through_a_cycle(rt: HostRuntime) -> Result<(), Fail> {
    let alloc = rt.alloc();
    let run = repeated(alloc, 100_000, End::Open)?;
    assert!(rt; !has_throw(&run));
    assert!(rt; is_run(alloc, debugger_forever(alloc)?, &run)?);
    assert!(rt; !is_run(alloc, silent_cycle(alloc)?, &run)?);
    Ok(())
}

#[test]
fn a_long_run_is_followed_through_many_rows(rt: HostRuntime) -> Result<(), Fail> {
    let alloc = rt.alloc();
    let run = repeated(alloc, 100_000, End::Returned(place(0)))?;
    assert!(rt; is_run(alloc, debugger_repeated(alloc, 100_000)?, &run)?);
    assert!(rt; !is_run(alloc, debugger_repeated(alloc, 99_999)?, &run)?);
    Ok(())
}
