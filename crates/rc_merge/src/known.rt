//! What the pass reads: the environment, and the last use of each declaration.

ghost use Rattle.std.specs.Prelude.{◌≡◌};
ghost use Rattle.rc_hir.specs.Types as types;
ghost use Rattle.rc_merge.specs.Joining as spec;
ghost use Rattle.rc_merge.specs.inside.LastUsesMet.{uses_of};

use rc_hir::{Environment, HirType, Shape};
use rc_names::{DeclarationId, EvaluationOrder, IdentifierId, Keyed};
use std::alloc::Global;

/// What the pass reads. Its environment is as it was at the start, but for the scopes.
#[derive(Clone, Copy)]
pub(crate) struct Known<'a> {
    pub alloc: Global,
    pub env: &'a Environment,
    pub uses: &'a Keyed<DeclarationId, EvaluationOrder>,
}

impl<'a> Known<'a> {
    /// Returns the last use of a name, if it has one.
    pub fn last_use(&self, name: DeclarationId) -> Option<EvaluationOrder>
        ensures { result ≡ uses_of self.now.uses.now name }
    {
        self.uses.get(name).copied()
    }

    /// Returns whether the last use of a name is below an id, or it has none.
    pub fn is_used_below(&self, end: EvaluationOrder, name: DeclarationId) -> bool
        ensures { result ≡ spec.is_used_below end (uses_of self.now.uses.now name) }
    {
        match self.last_use(name) {
            Some(last) => last.0 < end.0,
            None => true,
        }
    }

    /// Returns whether the last use of a name is at an id or after it, or it has none.
    pub fn is_used_from(&self, end: EvaluationOrder, name: DeclarationId) -> bool
        ensures { result ≡ spec.is_used_from end (uses_of self.now.uses.now name) }
    {
        match self.last_use(name) {
            Some(last) => last.0 >= end.0,
            None => true,
        }
    }
}

/// Returns whether the value of an identifier is a new one each time that it is computed; false if a number is outside
/// its table.
pub(crate) fn always_invalidates(env: &Environment, id: IdentifierId) -> bool
    ensures { result ≡ spec.always_invalidates env.now id }
{
    let Some(identifier) = env.identifiers.get(id) else {
        return false;
    };
    match env.types.get(identifier.type_) {
        Some(type_) => is_always_invalidating_type(*type_),
        None => false,
    }
}

fn is_always_invalidating_type(type_: HirType) -> bool
    ensures { result ≡ types.is_always_invalidating_type type_ }
{
    match type_ {
        HirType::Function { .. } => true,
        HirType::Object { shape } => match shape {
            Some(Shape::Array | Shape::Object | Shape::Function | Shape::Jsx) => true,
            _ => false,
        },
        _ => false,
    }
}
