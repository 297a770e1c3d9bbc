//! Whether a value answers the test before it: it only loads a place of the declaration that the row before it writes.

ghost use Rattle.std.specs.Prelude.{◌≡◌, option_map, slice_get};
ghost use Rattle.rc_runs.specs.AnsweredTest as spec;
ghost use Rattle.rc_runs.specs.PlainTree.{Base, Value};
ghost use Rattle.rc_runs.specs.TreeOf.{value_of};

use rc_hir::{Environment, InstructionValue, Place};
use rc_names::DeclarationId;
use rc_tree::ReactiveValue;

/// Whether a row that writes the place, before this value, answers for the whole sequence: the value only loads the
/// place.
pub fn answers_test(env: &Environment, place: Place, value: &ReactiveValue) -> bool
    ensures { (plain : Value) → value.now ≡ value_of plain → result ≡ spec.answers_test env.now place plain }
{
    match value {
        ReactiveValue::Instruction(value) => loads_alike(env, place, value),
        _ => false,
    }
}

/// Whether the instruction loads a place of the same declaration.
fn loads_alike(env: &Environment, place: Place, value: &InstructionValue) -> bool
    ensures { result ≡ spec.answers_test env.now place (Base value.now) }
{
    match value {
        InstructionValue::LoadLocal { place: loaded, .. } => same_declaration(env, place, *loaded),
        _ => false,
    }
}

/// Whether the identifiers of two places have one declaration.
pub fn same_declaration(env: &Environment, a: Place, b: Place) -> bool
    ensures { result ≡ spec.same_declaration env.now a b }
{
    match declaration_of(env, a) {
        Some(declaration) => declaration_of(env, b) == Some(declaration),
        None => false,
    }
}

/// The declaration of a place's identifier, where that is in its table.
fn declaration_of(env: &Environment, place: Place) -> Option<DeclarationId>
    ensures { result ≡
        option_map (λ identifier. identifier.declaration_id) (slice_get env.now.identifiers place.identifier.0) }
{
    match env.identifiers.get(place.identifier) {
        Some(identifier) => Some(identifier.declaration_id),
        None => None,
    }
}
