//! Early returns of a body: a labeled break to the label of a scope's early return, directly after the row that stores
//! what is returned.

ghost use Rattle.std.specs.Prelude.{◌≡◌};
ghost use Rattle.rc_replay.specs.inside.EarlyReturn as spec;
ghost use Rattle.rc_runs.specs.Returning as returning;
ghost use Rattle.rc_tree.specs.declared.statement.ReactiveStatement.{out-ReactiveStatement};

use rc_hir::{Environment, InstructionKind, InstructionValue, Place, ReactiveScope};
use rc_names::BlockId;
use rc_tree::{ReactiveStatement, ReactiveTerminalTargetKind, ReactiveValue};

/// Returns the place that the statement stores, if it is a row that reassigns a variable.
pub(crate) fn stored_by(statement: &ReactiveStatement) -> Option<Place>
    ensures { result ≡ spec.stored_in (out-ReactiveStatement statement.now) }
{
    let ReactiveStatement::Instruction(row) = statement else {
        return None;
    };
    let ReactiveValue::Instruction(InstructionValue::StoreLocal { lvalue, value, .. }) = &row.value
    else {
        return None;
    };
    match lvalue.kind {
        InstructionKind::Reassign => Some(*value),
        _ => None,
    }
}

/// Returns the place that such a break returns, if it is an early return.
pub(crate) fn returned_by(
    env: &Environment,
    stored: Option<Place>,
    target: BlockId,
    kind: ReactiveTerminalTargetKind,
) -> Option<Place>
    ensures { result ≡ spec.returned_by env.now stored target kind }
{
    match (stored, kind) {
        (Some(place), ReactiveTerminalTargetKind::Labeled) if is_early_label(env, target) => {
            Some(place)
        }
        _ => None,
    }
}

/// Returns whether the block is the label of an early return.
fn is_early_label(env: &Environment, block: BlockId) -> bool
    ensures { result ≡ returning.is_early_label env.now block }
{
    for scope in env.scopes.as_slice() {
        if is_label_of(block, scope) {
            return true;
        }
    }
    false
}

/// Returns whether the block is the label of the scope's early return.
fn is_label_of(block: BlockId, scope: &ReactiveScope) -> bool
    ensures { result ≡ returning.is_label_of block scope.now }
{
    match &scope.early_return_value {
        Some(early) => early.label == block,
        None => false,
    }
}
