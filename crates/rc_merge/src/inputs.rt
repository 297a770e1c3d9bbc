//! Which lists of dependencies have the same inputs.

ghost use Rattle.std.specs.Prelude.{◌≡◌, List as Entries, IsTrue};
ghost use Rattle.std.specs.List.{list_any};
ghost use Rattle.rc_merge.specs.Inputs as spec;

use crate::input::InputRef;
use rc_hir::{Environment, ReactiveScopeDependency};
use rc_names::List;

/// Returns whether two lists of dependencies have the same inputs: they are equally long, and each entry of either list
/// has one of the other with its declaration and its path. This takes no memory, and may compare each entry of one list
/// with each of the other.
pub fn are_equal_dependencies(
    a: &List<ReactiveScopeDependency>,
    b: &List<ReactiveScopeDependency>,
    env: &Environment,
) -> bool
    ensures same { result ≡ spec.same_inputs (spec.inputs_of env.now a.now) (spec.inputs_of env.now b.now) }

    // The comparison is an equivalence.
    ensures reflexive { a.now ≡ b.now → IsTrue result }
    ensures symmetric { result ≡ spec.same_inputs (spec.inputs_of env.now b.now) (spec.inputs_of env.now a.now) }
    ensures transitive { (c : Entries ReactiveScopeDependency) → IsTrue result
        → IsTrue (spec.same_inputs (spec.inputs_of env.now b.now) (spec.inputs_of env.now c))
        → IsTrue (spec.same_inputs (spec.inputs_of env.now a.now) (spec.inputs_of env.now c)) }
{
    have_same_inputs(a, b, env)
}

/// Returns whether two lists of dependencies have the same inputs, without memory and in the product of their lengths.
fn have_same_inputs(
    a: &List<ReactiveScopeDependency>,
    b: &List<ReactiveScopeDependency>,
    env: &Environment,
) -> bool
    ensures { result ≡ spec.same_inputs (spec.inputs_of env.now a.now) (spec.inputs_of env.now b.now) }
{
    a.len() == b.len()
        && are_among(a.as_slice(), b.as_slice(), env)
        && are_among(b.as_slice(), a.as_slice(), env)
}

/// Returns whether the input of each of the dependencies is among those of the others.
fn are_among(
    dependencies: &[ReactiveScopeDependency],
    others: &[ReactiveScopeDependency],
    env: &Environment,
) -> bool
    ensures { result ≡ spec.are_inputs_of (spec.inputs_of env.now dependencies.now) (spec.inputs_of env.now others.now) }
{
    for dependency in dependencies {
        if !is_among(&InputRef::of_dependency(dependency, env), others, env) {
            return false;
        }
    }
    true
}

fn is_among(input: &InputRef<'_>, others: &[ReactiveScopeDependency], env: &Environment) -> bool
    ensures { result ≡ list_any (spec.same_input input.now) (spec.inputs_of env.now others.now) }
{
    for other in others {
        if *input == InputRef::of_dependency(other, env) {
            return true;
        }
    }
    false
}
