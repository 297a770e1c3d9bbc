//! The rows that the pass looks at: those that store a name, and `FinishMemoize`.

ghost use Rattle.std.specs.Prelude.{◌≡◌, None, if◌then◌else◌};
ghost use Rattle.rc_escape.specs.Flags as spec;

use crate::not_escaping::met::{Met, Store};
use crate::not_escaping::outputs::{declaration_of, scope_of};
use rc_hir::{Environment, InstructionKind, InstructionValue, LValue, Place};
use rc_names::IdentifierId;
use rc_tree::{ReactiveInstruction, ReactiveValue};

/// Returns the store of a name, where that has a scope.
fn store_of(env: &Environment, into: IdentifierId, name: IdentifierId) -> Option<Store>
    ensures { result ≡ spec.store_of env.now into name }
{
    let scope = scope_of(env, name)?;
    Some(Store {
        declaration: declaration_of(env, into),
        scope,
    })
}

/// Returns the store of a `StoreLocal`, where that is a reassignment.
fn reassigned(env: &Environment, lvalue: LValue, value: Place) -> Option<Store>
    ensures { result ≡ spec.reassigned env.now lvalue value }
{
    match lvalue.kind {
        InstructionKind::Reassign => store_of(env, lvalue.place.identifier, value.identifier),
        _ => None,
    }
}

/// Returns the store of a `LoadLocal`, where its target has no scope.
fn loaded(env: &Environment, target: Option<Place>, place: Place) -> Option<Store>
    ensures { result ≡ spec.loaded env.now target place }
{
    let target = target?;
    if scope_of(env, target.identifier).is_some() {
        return None;
    }
    store_of(env, target.identifier, place.identifier)
}

/// Returns the name that an instruction with this target stores.
#[tactic(auto, unfolding(crate::specs::Flags::stored_by))]
fn stored_by(
    env: &Environment,
    target: Option<Place>,
    instruction: &InstructionValue,
) -> Option<Store>
    ensures { result ≡ spec.stored_by env.now target instruction.now }
{
    match instruction {
        InstructionValue::StoreLocal { lvalue, value, .. } => reassigned(env, *lvalue, *value),
        InstructionValue::LoadLocal { place, .. } => loaded(env, target, *place),
        _ => None,
    }
}

/// Returns the name that a row stores.
pub fn stored_by_row(env: &Environment, row: &ReactiveInstruction) -> Option<Store>
    ensures { result ≡ spec.stored_by_value env.now row.now.lvalue row.now.value }
{
    match &row.value {
        ReactiveValue::Instruction(instruction) => stored_by(env, row.lvalue, instruction),
        _ => None,
    }
}

/// Returns whether a `FinishMemoize` of this name is pruned.
fn is_pruned(env: &Environment, met: &Met, name: IdentifierId) -> bool
    ensures { result ≡ spec.is_pruned env.now met.now name }
{
    match scope_of(env, name) {
        Some(scope) => met.has_dissolved(scope),
        None => met.has_dissolved_stored(declaration_of(env, name)),
    }
}

/// Sets the flag of a `FinishMemoize` that is pruned.
#[tactic(auto, unfolding(crate::specs::Flags::flagged))]
fn set_flag(env: &Environment, met: &Met, instruction: &mut InstructionValue)
    ensures { instruction.new ≡ spec.flagged env.now met.now instruction.old }
{
    match instruction {
        InstructionValue::FinishMemoize { decl, pruned, .. } => {
            if is_pruned(env, met, decl.identifier) {
                *pruned = true;
            }
        }
        _ => {}
    }
}

/// Sets the flag of a row that is a `FinishMemoize` and pruned.
pub fn set_flag_of_row(env: &Environment, met: &Met, row: &mut ReactiveInstruction)
    ensures { row.new ≡ spec.flagged_row env.now met.now row.old }
{
    match &mut row.value {
        ReactiveValue::Instruction(instruction) => set_flag(env, met, instruction),
        _ => {}
    }
}
