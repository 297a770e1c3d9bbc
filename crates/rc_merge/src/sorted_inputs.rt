//! Inputs in order, so that long lists of them are compared in the time that sorting takes.

ghost use Rattle.std.specs.Prelude.{◌≡◌, List as Entries, map, IfOk};
ghost use Rattle.rc_merge.specs.Inputs as spec;
ghost use Rattle.rc_merge.specs.inside.SortedInputs.{HoldsInputs};

use crate::input::InputRef;
use crate::inputs::are_equal_dependencies;
use rc_hir::{Environment, ReactiveScopeDependency};
use rc_names::{DeclarationId, List};
use std::alloc::{AllocError, Global};

/// The inputs of a list, in order and each once, with the length of that list.
#[derive(Drop)]
pub(crate) struct SortedInputs<'a> {
    count: usize,
    distinct: Vec<InputRef<'a>>,
}

impl<'a> SortedInputs<'a> {
    /// Returns the inputs of dependencies. Fails only when out of memory.
    pub fn of_dependencies(
        alloc: Global,
        dependencies: &'a [ReactiveScopeDependency],
        env: &Environment,
    ) -> Result<SortedInputs<'a>, AllocError>
        ensures { IfOk result (λ sorted. HoldsInputs sorted (spec.inputs_of env.now dependencies.now)) }
    {
        let mut inputs = Vec::with_capacity(alloc, dependencies.len())?;
        for dependency in dependencies {
            inputs.push(InputRef::of_dependency(dependency, env))?;
        }
        Ok(SortedInputs::sort(inputs))
    }

    /// Returns the whole values of declarations. Fails only when out of memory.
    pub fn of_declarations(
        alloc: Global,
        declarations: &[DeclarationId],
    ) -> Result<SortedInputs<'a>, AllocError>
        ensures { IfOk result (λ sorted. HoldsInputs sorted (map spec.whole declarations.now)) }
    {
        let mut inputs = Vec::with_capacity(alloc, declarations.len())?;
        for declaration in declarations {
            inputs.push(InputRef::whole(*declaration))?;
        }
        Ok(SortedInputs::sort(inputs))
    }

    fn sort(inputs: Vec<InputRef<'a>>) -> SortedInputs<'a>
        ensures { HoldsInputs result inputs.entry.items }
    {
        let count = inputs.len();
        let mut distinct = inputs;
        distinct.sort_unstable();
        distinct.dedup();
        SortedInputs { count, distinct }
    }

    /// Returns whether the lists of both have the same inputs.
    pub fn is_same(&self, other: &SortedInputs<'_>) -> bool
        ensures { (a b : Entries spec.Input) → HoldsInputs self.now a → HoldsInputs other.now b
            → result ≡ spec.same_inputs a b }
    {
        self.count == other.count && self.distinct == other.distinct
    }
}

/// The length up to which lists are compared without sorting.
const SHORT: usize = 8;

/// Returns whether two lists of dependencies have the same inputs, by sorting both if they are equally long; lists of
/// different lengths are told apart at once. Fails only when out of memory.
pub(crate) fn have_equal_inputs(
    alloc: Global,
    a: &List<ReactiveScopeDependency>,
    b: &List<ReactiveScopeDependency>,
    env: &Environment,
) -> Result<bool, AllocError>
    ensures { IfOk result (λ same. same
        ≡ spec.same_inputs (spec.inputs_of env.now a.now) (spec.inputs_of env.now b.now)) }
{
    if a.len() <= SHORT || a.len() != b.len() {
        return Ok(are_equal_dependencies(a, b, env));
    }
    let first = SortedInputs::of_dependencies(alloc, a.as_slice(), env)?;
    let second = SortedInputs::of_dependencies(alloc, b.as_slice(), env)?;
    let same = first.is_same(&second);
    Ok(same)
}

/// Returns whether the whole values of declarations are the inputs of a list of dependencies, in the time that sorting
/// them takes where the two lists are equally long, and else at once. Fails only when out of memory.
pub(crate) fn are_declared_inputs(
    alloc: Global,
    declarations: &[DeclarationId],
    dependencies: &List<ReactiveScopeDependency>,
    env: &Environment,
) -> Result<bool, AllocError>
    ensures { IfOk result (λ same. same
        ≡ spec.same_inputs (map spec.whole declarations.now) (spec.inputs_of env.now dependencies.now)) }
{
    if declarations.len() != dependencies.len() {
        return Ok(false);
    }
    let first = SortedInputs::of_declarations(alloc, declarations)?;
    let second = SortedInputs::of_dependencies(alloc, dependencies.as_slice(), env)?;
    let same = first.is_same(&second);
    Ok(same)
}
