//! A run that is given as a list of events with an end.

ghost use Rattle.std.specs.Prelude.{◌≡◌};
ghost use Rattle.std.specs.List.{list_any};
ghost use Rattle.rc_replay.specs.GivenRun.{event_of, events_of};
ghost use Rattle.rc_runs.specs.Event as runs;

use rc_hir::{InstructionValue, Place};
use rc_names::List;

/// A step of a run that can be seen. Its value or place need not be one of a graph or of a body.
#[derive(Drop)]
pub enum Event {
    /// A row computed its value.
    Did(InstructionValue),
    /// An arm was taken, or the other one.
    Arm(bool),
    /// A case with this test was chosen, or the default, or the way past all cases.
    Chose(Option<Place>),
    /// A row threw.
    Threw,
}

/// How a run ends.
#[derive(Clone, Copy, Debug, PartialEq, Eq)]
pub enum End {
    /// The run is stopped at some point.
    Open,
    Returned(Place),
    Thrown(Place),
}

/// The events of a run, first to last, and its end.
#[derive(Drop)]
pub struct GivenRun {
    pub events: List<Event>,
    pub end: End,
}

/// Returns whether an event of the run is a throw of a row. This takes no memory.
pub fn has_throw(run: &GivenRun) -> bool
    ensures { result ≡ runs.has_throw (events_of run.now) }
{
    any_throw(run.events.as_slice())
}

/// Returns whether one of the events is a throw of a row.
fn any_throw(events: &[Event]) -> bool
    ensures { result ≡ list_any (λ event. runs.is_throw (event_of event)) events.now }
{
    events.iter().any(is_throw)
}

/// Returns whether the event is a throw of a row.
fn is_throw(event: &Event) -> bool
    ensures { result ≡ runs.is_throw (event_of event.now) }
{
    matches!(event, Event::Threw)
}
