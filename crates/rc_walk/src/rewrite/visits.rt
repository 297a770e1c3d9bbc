//! The visits of a rewriting walk: operands and targets, in order.
#![tactic(auto, using(rc_tree::proofs::FuelLemmas::visiting))]

ghost use Rattle.rc_tree.specs.Step.{IsStep, each, perhaps};
ghost use Rattle.rc_tree.specs.Rewrite.Values.{inside_base};
ghost use Rattle.rc_tree.specs.ReadSteps.{targets_of};

use crate::transform::ReactiveFunctionTransform;
use rc_hir::{
    Fault, InstructionValue, Place, Places, borrowed_lvalues, each_instruction_value_operand,
};
use rc_names::{EvaluationOrder, List};
use rc_tree::ReactiveValue;
use std::alloc::Global;

/// Visits the operands of an instruction. They are listed, since the transform, which its hooks change, lends those of
/// a nested function.
pub(crate) fn visit_operands<T: ReactiveFunctionTransform>(
    alloc: Global,
    transform: &mut T,
    id: EvaluationOrder,
    value: &InstructionValue,
    state: &mut T::State,
) -> Result<(), Fault>
    ensures { IsStep (inside_base T.steps T.functions id value.now (transform.old, state.old)) result
        (transform.new, state.new) }
{
    let places = each_instruction_value_operand(alloc, value, transform.env())?;
    visit_places(transform, id, &places, state)
}

/// Visits a row's target, if it has one.
pub(crate) fn visit_target<T: ReactiveFunctionTransform>(
    transform: &mut T,
    id: EvaluationOrder,
    target: &Option<Place>,
    state: &mut T::State,
) -> Result<(), Fault>
    ensures { IsStep (perhaps (T.steps.visit_lvalue id) target.now (transform.old, state.old)) result
        (transform.new, state.new) }
{
    match target {
        Some(target) => transform.visit_lvalue(id, target, state),
        None => Ok(()),
    }
}

/// Visits the places that a row writes besides its target.
pub(crate) fn visit_value_targets<T: ReactiveFunctionTransform>(
    alloc: Global,
    transform: &mut T,
    id: EvaluationOrder,
    value: &ReactiveValue,
    state: &mut T::State,
) -> Result<(), Fault>
    ensures { IsStep (each (T.steps.visit_lvalue id) (targets_of value.now) (transform.old, state.old)) result
        (transform.new, state.new) }
{
    match value {
        ReactiveValue::Instruction(value) => {
            let targets = borrowed_lvalues(alloc, value)?;
            visit_lvalues(transform, id, &targets, state)
        }
        ReactiveValue::LogicalExpression { .. }
        | ReactiveValue::ConditionalExpression { .. }
        | ReactiveValue::SequenceExpression { .. }
        | ReactiveValue::OptionalExpression { .. } => Ok(()),
    }
}

/// Visits an optional place.
pub(crate) fn visit_place_if<T: ReactiveFunctionTransform>(
    transform: &mut T,
    id: EvaluationOrder,
    place: &Option<Place>,
    state: &mut T::State,
) -> Result<(), Fault>
    ensures { IsStep (perhaps (T.steps.visit_place id) place.now (transform.old, state.old)) result
        (transform.new, state.new) }
{
    match place {
        Some(place) => transform.visit_place(id, place, state),
        None => Ok(()),
    }
}

/// Visits places as operands, in order.
fn visit_places<T: ReactiveFunctionTransform>(
    transform: &mut T,
    id: EvaluationOrder,
    places: &List<Place>,
    state: &mut T::State,
) -> Result<(), Fault>
    ensures { IsStep (each (T.steps.visit_place id) places.now (transform.old, state.old)) result
        (transform.new, state.new) }
{
    for place in places.as_slice() {
        transform.visit_place(id, place, state)?;
    }
    Ok(())
}

/// Visits places as targets, in order.
fn visit_lvalues<T: ReactiveFunctionTransform>(
    transform: &mut T,
    id: EvaluationOrder,
    places: &Places<'_>,
    state: &mut T::State,
) -> Result<(), Fault>
    ensures { IsStep (each (T.steps.visit_lvalue id) places.now (transform.old, state.old)) result
        (transform.new, state.new) }
{
    for place in places.as_slice() {
        transform.visit_lvalue(id, place, state)?;
    }
    Ok(())
}
