//! One input of a scope, and an order of inputs.

ghost use Rattle.std.specs.Prelude.{◌≡◌};
ghost use Rattle.std.specs.Cmp.{partial_equiv_from_equiv, partial_order_from_agreeing_total};
ghost use Rattle.std.specs.Cmp.Lexicographic.{slice_cmp};
ghost use Rattle.std.specs.Ordering.{as_partial_cmp};
ghost use Rattle.std.proofs.Common.{refl};
ghost use Rattle.rc_hir.specs.Environment as environment;
ghost use Rattle.rc_merge.specs.Inputs as spec;
ghost use Rattle.rc_merge.specs.inside.InputOrder.{
  property_order,
  step_order,
  input_order,
  input_order_total,
  input_ties,
  same_input_equivalence,
};

use rc_hir::{DependencyPathEntry, Environment, PropertyLiteral, ReactiveScopeDependency};
use rc_names::{DeclarationId, IdentifierId};
use std::cmp::Ordering;
use std::marker::Model;

/// A declaration, with the path from its value to a part of it.
#[derive(Drop)]
pub(crate) struct InputRef<'a> {
    declaration: DeclarationId,
    path: &'a [DependencyPathEntry],
}

impl<'a> Model for InputRef<'a> {
    ghost use Rattle.rc_merge.specs.Inputs.{Input};

    ghost Value = { Input };

    ghost view = { λ it. record { declaration = it.declaration; path = it.path.now } };
}

impl<'a> InputRef<'a> {
    /// Returns the input of a dependency.
    pub fn of_dependency(dependency: &'a ReactiveScopeDependency, env: &Environment) -> InputRef<'a>
        ensures { result ≡ spec.input_of env.now dependency.now }
    {
        InputRef {
            declaration: declaration_of(env, dependency.identifier),
            path: dependency.path.as_slice(),
        }
    }

    /// Returns the whole value of a declaration.
    pub fn whole(declaration: DeclarationId) -> InputRef<'a>
        ensures { result ≡ spec.whole declaration }
    {
        InputRef {
            declaration,
            path: &[],
        }
    }
}

impl<'a> PartialEq for InputRef<'a> {
    ghost eq = { spec.same_input };

    ghost laws = { partial_equiv_from_equiv same_input_equivalence };

    fn eq(&self, other: &InputRef<'a>) -> bool {
        self.cmp(other).is_eq()
    }
}

impl<'a> Eq for InputRef<'a> {
    ghost laws = { same_input_equivalence };
}

impl<'a> PartialOrd for InputRef<'a> {
    ghost partial_cmp = { as_partial_cmp input_order };

    ghost laws = { partial_order_from_agreeing_total input_order input_order_total (λ a b. refl) input_ties };

    fn partial_cmp(&self, other: &InputRef<'a>) -> Option<Ordering> {
        Some(self.cmp(other))
    }
}

impl<'a> Ord for InputRef<'a> {
    ghost cmp = { input_order };

    ghost total = { input_order_total };

    ghost matches_partial_cmp = { λ a b. refl };

    ghost matches_eq = { input_ties };

    fn cmp(&self, other: &InputRef<'a>) -> Ordering {
        match self.declaration.0.cmp(&other.declaration.0) {
            Ordering::Equal => compare_paths(self.path, other.path),
            order => order,
        }
    }
}

/// Returns the declaration of an identifier; for a number outside the table, that is the declaration of the same
/// number.
pub(crate) fn declaration_of(env: &Environment, number: IdentifierId) -> DeclarationId
    ensures { result ≡ environment.declaration_of env.now number }
{
    match env.identifiers.get(number) {
        Some(identifier) => identifier.declaration_id,
        None => DeclarationId::new(number.0),
    }
}

fn compare_paths(a: &[DependencyPathEntry], b: &[DependencyPathEntry]) -> Ordering
    ensures { result ≡ slice_cmp step_order a.now b.now }
{
    for i in 0..a.len() {
        if i >= b.len() {
            return Ordering::Greater;
        }
        let order = compare_steps(&a[i], &b[i]);
        if order.is_ne() {
            return order;
        }
    }
    if a.len() < b.len() {
        Ordering::Less
    } else {
        Ordering::Equal
    }
}

fn compare_steps(a: &DependencyPathEntry, b: &DependencyPathEntry) -> Ordering
    ensures { result ≡ step_order a.now b.now }
{
    match compare_properties(&a.property, &b.property) {
        Ordering::Equal => a.optional.cmp(&b.optional),
        order => order,
    }
}

fn compare_properties(a: &PropertyLiteral, b: &PropertyLiteral) -> Ordering
    ensures { result ≡ property_order a.now b.now }
{
    match (a, b) {
        (PropertyLiteral::String(a), PropertyLiteral::String(b)) => a.as_str().cmp(b.as_str()),
        (PropertyLiteral::String(_), PropertyLiteral::Number(_)) => Ordering::Less,
        (PropertyLiteral::Number(_), PropertyLiteral::String(_)) => Ordering::Greater,
        (PropertyLiteral::Number(a), PropertyLiteral::Number(b)) => a.as_str().cmp(b.as_str()),
    }
}
