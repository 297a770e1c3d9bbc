//! What the rules ask of an identifier's type.

ghost use Rattle.std.specs.Prelude.{◌≡◌};
ghost use Rattle.rc_flow.specs.Collected.{is_primitive};
ghost use Rattle.rc_flow.specs.Flows.Values.{is_stable};
ghost use Rattle.rc_hir.specs.Environment as known;
ghost use Rattle.rc_hir.specs.Types as spec;

use rc_hir::{Environment, HirType, Shape};
use rc_names::IdentifierId;

/// The type of an identifier; none if a number is outside its table.
pub fn type_of(env: &Environment, id: IdentifierId) -> Option<HirType>
    ensures { result ≡ known.type_of env.now id }
{
    let identifier = env.identifiers.get(id)?;
    env.types.get(identifier.type_).copied()
}

/// Whether the value is a primitive one, which never changes by itself.
pub fn is_primitive(type_: HirType) -> bool
    ensures { result ≡ is_primitive type_ }
{
    match type_ {
        HirType::Primitive => true,
        _ => false,
    }
}

/// Whether the value is a ref.
pub fn is_ref(type_: HirType) -> bool
    ensures { result ≡ spec.is_ref_type type_ }
{
    match type_ {
        HirType::Object { shape } => match shape {
            Some(Shape::UseRef) => true,
            _ => false,
        },
        _ => false,
    }
}

/// Whether the value is the same in every render.
pub fn is_stable_type(type_: HirType) -> bool
    ensures { result ≡ spec.is_stable_type type_ }
{
    match type_ {
        HirType::Object { shape } => match shape {
            Some(Shape::UseRef) => true,
            _ => false,
        },
        HirType::Function { shape } => match shape {
            Some(
                Shape::SetState
                | Shape::SetActionState
                | Shape::Dispatch
                | Shape::StartTransition
                | Shape::SetOptimistic,
            ) => true,
            _ => false,
        },
        _ => false,
    }
}

/// Whether the identifier is of a stable type; false if a number is outside its table.
pub fn is_stable(env: &Environment, id: IdentifierId) -> bool
    ensures { result ≡ is_stable env.now id }
{
    match type_of(env, id) {
        Some(type_) => is_stable_type(type_),
        None => false,
    }
}
