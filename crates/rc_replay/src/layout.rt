//! The table of a body's positions, while it is laid out from the body's end.

ghost use Rattle.std.specs.Prelude.{◌≡◌, IfOk, slice_set};
ghost use Rattle.rc_replay.specs.declared.positions.Position.TheVariants as laid;
ghost use Rattle.rc_replay.specs.inside.Layout as spec;
ghost use Rattle.rc_replay.specs.inside.Positions.{position_of};

use crate::exits::LabelExit;
use crate::positions::Position;
use rc_names::List;
use std::alloc::{AllocError, Global};

/// The positions that are laid out so far, and the labels around the part that is next, the innermost last.
#[derive(Drop)]
pub(crate) struct Layout<'t> {
    pub alloc: Global,
    pub positions: List<Position<'t>>,
    pub labels: List<LabelExit>,
}

/// Where a run goes on after a value, and where after its short end.
#[derive(Clone, Copy, Debug, PartialEq, Eq)]
pub(crate) struct After {
    pub done: usize,
    pub short: usize,
}

/// Where a loop's turns begin, its test, and its body.
#[derive(Clone, Copy, Debug, PartialEq, Eq)]
pub(crate) struct Turns {
    pub turn: usize,
    pub test: usize,
    pub body: usize,
}

impl After {
    /// After a value whose ends lead to one position.
    pub fn at(next: usize) -> After
        ensures { result ≡ spec.both next }
    {
        After {
            done: next,
            short: next,
        }
    }
}

impl After {
    /// After a row with another one, or the value, after it: the short end of a row that ends an optional's test is the
    /// test's.
    pub fn row(self, next: usize, of_test: bool) -> After
        ensures { result ≡ spec.after_row self next of_test }
    {
        After {
            done: next,
            short: if of_test { self.short } else { next },
        }
    }
}

impl<'t> Layout<'t> {
    /// Adds a position, and returns its number. Fails only when out of memory.
    pub fn add(&mut self, position: Position<'t>) -> Result<usize, AllocError>
        ensures { IfOk result (λ number. spec.Lays self.old self.new (spec.Has number (position_of position.entry))) }
    {
        let number = self.positions.len();
        self.positions.push(position)?;
        Ok(number)
    }

    /// Adds a position that is filled in later, and returns its number. Fails only when out of memory.
    pub fn reserve(&mut self) -> Result<usize, AllocError>
        ensures { IfOk result (spec.Reserves self.old self.new) }
    {
        let number = self.positions.len();
        self.positions.push(Position::Stops)?;
        Ok(number)
    }

    /// Lets the position with that number pass on to another one.
    pub fn fill(&mut self, number: usize, next: usize)
        ensures labels { self.new.labels ≡ self.old.labels }
        ensures positions { self.new.positions ≡ slice_set self.old.positions number (laid.Passes next) }
    {
        if let Some(position) = self.positions.get_mut(number) {
            *position = Position::Passes(next);
        }
    }
}
