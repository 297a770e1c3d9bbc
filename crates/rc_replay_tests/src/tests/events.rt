//! Runs of few events.

use rc_names::List;
use rc_replay::{End, Event, GivenRun};
use std::alloc::{AllocError, Global};

/// A run without events.
pub fn no_events(alloc: Global, end: End) -> GivenRun {
    GivenRun {
        events: List::new(alloc),
        end,
    }
}

/// A run with one event.
pub fn one_event(alloc: Global, event: Event, end: End) -> Result<GivenRun, AllocError> {
    let mut events = List::new(alloc);
    events.push(event)?;
    Ok(GivenRun { events, end })
}

/// A run with two events.
pub fn two_events(
    alloc: Global,
    first: Event,
    second: Event,
    end: End,
) -> Result<GivenRun, AllocError> {
    let mut events = List::new(alloc);
    events.push(first)?;
    events.push(second)?;
    Ok(GivenRun { events, end })
}
