//! Replay of a run of a function's body.
//!
//! The table begins with the position that nothing follows. The statements come after it, from the last one to the
//! first.

ghost use Rattle.std.specs.Prelude.{◌≡◌, ◌↔◌, false, IsTrue, IfErr, IfOk};
ghost use Rattle.rc_hir.specs.declared.fault.Fault.TheVariants.{NoMemory};
ghost use Rattle.rc_replay.specs.GivenRun.{events_of, end_of};
ghost use Rattle.rc_runs.specs.BodyRun.{IsBodyRun};
ghost use Rattle.rc_runs.specs.Event as runs;

use crate::exits::Exits;
use crate::given::GivenRun;
use crate::layout::Layout;
use crate::paths::follows;
use crate::positions::Position;
use rc_hir::{Environment, Fault};
use rc_names::List;
use rc_tree::ReactiveFunction;
use std::alloc::Global;

/// Returns whether the run, which has no throw of a row, is one of the function's body: whether its events are those of
/// rows, arms and cases on a way through the statements, and the way ends as the run does.
///
/// A run with an open end may stop anywhere. The only fault is `NoMemory`.
pub fn replay_body(
    alloc: Global,
    func: &ReactiveFunction,
    env: &Environment,
    run: &GivenRun,
) -> Result<bool, Fault>
    requires no_throw { runs.has_throw (events_of run.now) ≡ false }
    ensures found { IfOk result (λ found.
        IsTrue found ↔ IsBodyRun func.now env.now (events_of run.now) (end_of run.now)) }
    ensures no_memory { IfErr result (λ fault. fault ≡ NoMemory) }
{
    let mut positions = List::new(alloc);
    positions.push(Position::Stops)?;
    let mut layout = Layout {
        alloc,
        positions,
        labels: List::new(alloc),
    };
    let start = layout.block(env, Exits::outermost(), &func.body)?;
    Ok(follows(alloc, &layout.positions, start, run)?)
}
