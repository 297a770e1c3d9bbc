//! The positions of a graph or of a body, and where a run goes on from each.

ghost use Rattle.std.specs.Prelude.{◌≡◌, ◌↔◌, ◌∷◌, [], IsTrue};
ghost use Rattle.rc_replay.specs.GivenRun.{event_of, run_end};
ghost use Rattle.rc_replay.specs.inside.Paths as spec;
ghost use Rattle.rc_replay.specs.inside.Positions.{position_of};

use crate::given::{End, Event};
use rc_equality::Equals;
use rc_hir::{InstructionValue, Place};
use rc_names::List;

/// A choice of a switch: a test, and the number of the position where the run goes on.
pub(crate) type Choice = (Option<Place>, usize);

/// What a run does at a position, with the numbers of the positions where it goes on. A value is that of the graph or
/// of the tree.
#[derive(Drop)]
pub(crate) enum Position<'t> {
    /// The run goes on without an event.
    Passes(usize),
    Computes(&'t InstructionValue, usize),
    Tests { holds: usize, fails: usize },
    Chooses(List<Choice>),
    /// A row has run. The run goes on without an event, or the row throws.
    Attempts { next: usize, handler: usize },
    Ends(End),
    /// Nothing follows.
    Stops,
}

/// What a move from a position shows: nothing, or an event.
#[derive(Clone, Copy)]
pub(crate) enum Shown<'t> {
    Nothing,
    Did(&'t InstructionValue),
    Arm(bool),
    Chose(Option<Place>),
    Threw,
}

impl<'t> Shown<'t> {
    /// Returns what a move with this event shows.
    pub fn of(event: &'t Event) -> Shown<'t>
        ensures { spec.shown result ≡ event_of event.now ∷ [] }
    {
        match event {
            Event::Did(value) => Shown::Did(value),
            Event::Arm(taken) => Shown::Arm(*taken),
            Event::Chose(test) => Shown::Chose(*test),
            Event::Threw => Shown::Threw,
        }
    }

    /// Returns whether the two show the same.
    pub fn equals(&self, other: &Shown<'_>) -> bool
        ensures { IsTrue result ↔ (spec.shown self.now ≡ spec.shown other.now) }
    {
        match (self, other) {
            (Shown::Nothing, Shown::Nothing) => true,
            (Shown::Did(value), Shown::Did(its)) => value.equals(its),
            (Shown::Arm(taken), Shown::Arm(its)) => taken == its,
            (Shown::Chose(test), Shown::Chose(its)) => test.equals(its),
            (Shown::Threw, Shown::Threw) => true,
            _ => false,
        }
    }
}

impl<'t> Position<'t> {
    /// Returns whether a run with this end may end at the position. The open end is allowed at each.
    pub fn may_end(&self, end: End) -> bool
        ensures { IsTrue result ↔ spec.MayEnd (position_of self.now) (run_end end) }
    {
        match (end, self) {
            (End::Open, _) => true,
            (End::Returned(place), Position::Ends(End::Returned(its))) => place.equals(its),
            (End::Thrown(place), Position::Ends(End::Thrown(its))) => place.equals(its),
            _ => false,
        }
    }
}
