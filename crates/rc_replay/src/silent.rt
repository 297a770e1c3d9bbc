//! Which rows make no event.

ghost use Rattle.std.specs.Prelude.{◌≡◌};
ghost use Rattle.rc_runs.specs.Silent as spec;

use rc_hir::{Environment, InstructionValue, Place, PrimitiveValue};
use rc_names::EvaluationOrder;

/// Whether a row with this id and this value makes no event.
pub(crate) fn is_silent(env: &Environment, id: EvaluationOrder, value: &InstructionValue) -> bool
    ensures { result ≡ spec.is_silent env.now id value.now }
{
    id.0 == 0 || is_silent_value(env, value)
}

/// Whether a value makes no event.
#[tactic(auto, unfolding(rc_runs::specs::Silent::is_silent_value))]
pub(crate) fn is_silent_value(env: &Environment, value: &InstructionValue) -> bool
    ensures { result ≡ spec.is_silent_value env.now value.now }
{
    match value {
        InstructionValue::LoadLocal { .. }
        | InstructionValue::StartMemoize { .. }
        | InstructionValue::FinishMemoize { .. } => true,
        InstructionValue::StoreLocal { lvalue, .. } => is_unnamed(env, lvalue.place),
        InstructionValue::Primitive { value, .. } => matches!(value, PrimitiveValue::Undefined),
        _ => false,
    }
}

/// Whether the place's identifier is in the table and has no name.
fn is_unnamed(env: &Environment, place: Place) -> bool
    ensures { result ≡ spec.is_unnamed env.now place }
{
    match env.identifiers.get(place.identifier) {
        Some(identifier) => identifier.name.is_none(),
        None => false,
    }
}
