//! Whether a path through a table of positions has the events of a given run.
//!
//! The positions that the events so far lead to are closed under moves without an event, and the next event then leads
//! on from them. Each is looked at once for each event, so cycles of moves without an event do no harm.

ghost use Rattle.std.specs.Prelude.{◌≡◌, ◌↔◌, ◌∷◌, [], IsTrue, IfOk, OnOk};
ghost use Rattle.rc_replay.specs.GivenRun.{event_of, events_of, end_of, run_end};
ghost use Rattle.rc_replay.specs.inside.Closing as closing;
ghost use Rattle.rc_replay.specs.inside.Paths as paths;
ghost use Rattle.rc_replay.specs.inside.Positions as spec;

use crate::given::{End, Event, GivenRun};
use crate::positions::{Choice, Position, Shown};
use indexmap::IndexSet;
use rc_names::List;
use std::alloc::{AllocError, Global};

/// Returns whether a run from the position with this number on has the given events and the given end. A number
/// without a position leads no further. Fails only when out of memory.
pub(crate) fn follows(
    alloc: Global,
    table: &List<Position<'_>>,
    start: usize,
    run: &GivenRun,
) -> Result<bool, AllocError>
    ensures { IfOk result (λ found.
        IsTrue found ↔ spec.FollowsAt (spec.table_of table.now) start (events_of run.now) (end_of run.now)) }
{
    let mut here = IndexSet::new(alloc);
    here.insert(start.min(table.len()))?;
    for event in run.events.as_slice() {
        close(table, &mut here)?;
        here = after(alloc, table, &here, event)?;
    }
    close(table, &mut here)?;
    Ok(may_end(table, &here, run.end))
}

/// Adds the positions to which moves without an event lead from those that are there. Fails only when out of memory.
fn close(table: &List<Position<'_>>, here: &mut IndexSet<usize>) -> Result<(), AllocError>
    requires { closing.AreWithin table.now here.old.keys }
    ensures { OnOk result (closing.Closes table.now here.old.keys here.new.keys) }
{
    let mut looked = 0;
    'looking: while looked < here.len() {
        let at = here.as_slice()[looked];
        add_next(table, at, Shown::Nothing, here)?;
        looked += 1;
    }
    Ok(())
}

/// Returns the positions to which the event leads from these. Fails only when out of memory.
fn after(
    alloc: Global,
    table: &List<Position<'_>>,
    here: &IndexSet<usize>,
    event: &Event,
) -> Result<IndexSet<usize>, AllocError>
    ensures { IfOk result (λ next.
        closing.Adds (closing.IsNextOf table.now here.now.keys (event_of event.now ∷ [])) [] next.keys) }
{
    let mut next = IndexSet::new(alloc);
    for at in here.as_slice() {
        add_next(table, *at, Shown::of(event), &mut next)?;
    }
    Ok(next)
}

/// Adds the positions to which a move from this one leads that shows this. Fails only when out of memory.
fn add_next(
    table: &List<Position<'_>>,
    at: usize,
    wanted: Shown<'_>,
    next: &mut IndexSet<usize>,
) -> Result<(), AllocError>
    ensures { OnOk result
        (closing.Adds (paths.Steps table.now at (paths.shown wanted.entry)) next.old.keys next.new.keys) }
{
    let last = table.len();
    match table.get(at) {
        None => Ok(()),
        Some(position) => add_moves(position, last, wanted, next),
    }
}

/// Adds the positions to which the moves lead that show this. All numbers from `last` on count as that one. Fails
/// only when out of memory.
fn add_moves(
    position: &Position<'_>,
    last: usize,
    wanted: Shown<'_>,
    next: &mut IndexSet<usize>,
) -> Result<(), AllocError>
    ensures { OnOk result (closing.Adds
        (paths.LeadsWithin (spec.position_of position.now) last (paths.shown wanted.entry)) next.old.keys next.new.keys) }
{
    match position {
        Position::Passes(to) => add_move(Shown::Nothing, *to, last, wanted, next),
        Position::Computes(value, to) => add_move(Shown::Did(value), *to, last, wanted, next),
        Position::Tests { holds, fails } => {
            add_move(Shown::Arm(true), *holds, last, wanted, next)?;
            add_move(Shown::Arm(false), *fails, last, wanted, next)
        }
        Position::Chooses(choices) => add_choices(choices.as_slice(), last, wanted, next),
        Position::Attempts { next: on, handler } => {
            add_move(Shown::Nothing, *on, last, wanted, next)?;
            add_move(Shown::Threw, *handler, last, wanted, next)
        }
        Position::Ends(_) | Position::Stops => Ok(()),
    }
}

/// Adds the positions to which the choices of a switch lead that show this, as for all moves. Fails only when out of
/// memory.
fn add_choices(
    choices: &[Choice],
    last: usize,
    wanted: Shown<'_>,
    next: &mut IndexSet<usize>,
) -> Result<(), AllocError>
    ensures { OnOk result (closing.Adds
        (paths.LeadsWithin (spec.Chooses choices.now) last (paths.shown wanted.entry)) next.old.keys next.new.keys) }
{
    for (test, to) in choices {
        add_move(Shown::Chose(*test), *to, last, wanted, next)?;
    }
    Ok(())
}

/// Adds the position to which a move leads, if the move shows this, as for all moves. Fails only when out of memory.
fn add_move(
    shown: Shown<'_>,
    to: usize,
    last: usize,
    wanted: Shown<'_>,
    next: &mut IndexSet<usize>,
) -> Result<(), AllocError>
    ensures { OnOk result (closing.Adds
        (paths.ShowsWithin (paths.shown shown.entry) to last (paths.shown wanted.entry)) next.old.keys next.new.keys) }
{
    if shown.equals(&wanted) {
        next.insert(to.min(last))?;
    }
    Ok(())
}

/// Returns whether a run with this end may end at one of these positions.
fn may_end(table: &List<Position<'_>>, here: &IndexSet<usize>, end: End) -> bool
    ensures { IsTrue result ↔ closing.MayEndAmong table.now here.now.keys (run_end end) }
{
    for at in here.as_slice() {
        if ends_at(table, *at, end) {
            return true;
        }
    }
    false
}

/// Returns whether a run with this end may end at the position with a number.
fn ends_at(table: &List<Position<'_>>, at: usize, end: End) -> bool
    ensures { IsTrue result ↔ paths.EndsAt table.now at (run_end end) }
{
    match table.get(at) {
        Some(position) => position.may_end(end),
        None => end == End::Open,
    }
}
