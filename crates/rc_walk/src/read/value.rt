//! The read walk of rows and values.
#![tactic(auto, using(rc_tree::proofs::ReadLemmas::reading))]

ghost use Rattle.rc_tree.specs.Step.{IsStep, each, perhaps};
ghost use Rattle.rc_tree.specs.Read.Values.{inside_base, inside_instruction, inside_value, read_instruction};
ghost use Rattle.rc_tree.specs.Read.Values.{read_value};
ghost use Rattle.rc_tree.specs.ReadSteps.{targets_of};
ghost use Rattle.rc_walk.specs.inside.HeldContext.{inside_held};

use crate::read::held::function_held;
use crate::visitor::ReactiveFunctionVisitor;
use rc_hir::{
    Fault, InstructionValue, Place, Places, TableName, borrowed_lvalues, borrowed_operands,
};
use rc_names::{EvaluationOrder, FunctionId, List};
use rc_tree::{Enter, ReactiveInstruction, ReactiveValue};
use std::alloc::Global;

/// Walks the inside of a value. Returns the fault of a hook, `BadName` if a nested function is outside its table, and
/// `NoMemory` when out of memory.
#[cycle(read_value)]
pub fn traverse_value<V: ReactiveFunctionVisitor>(
    alloc: Global,
    visitor: &V,
    id: EvaluationOrder,
    value: &ReactiveValue,
    state: &mut V::State,
) -> Result<(), Fault>
    ensures { IsStep (inside_value (V.steps visitor.now) (V.functions visitor.now) value.now id
        (V.view visitor.now state.old)) result (V.view visitor.now state.new) }
{
    match value {
        ReactiveValue::Instruction(value) => visit_operands(alloc, visitor, id, value, state),
        ReactiveValue::LogicalExpression {
            operator: _,
            left,
            right,
        } => {
            walk_value(alloc, visitor, id, left.get(), state)?;
            walk_value(alloc, visitor, id, right.get(), state)
        }
        ReactiveValue::ConditionalExpression {
            test,
            consequent,
            alternate,
        } => {
            walk_value(alloc, visitor, id, test.get(), state)?;
            walk_value(alloc, visitor, id, consequent.get(), state)?;
            walk_value(alloc, visitor, id, alternate.get(), state)
        }
        ReactiveValue::SequenceExpression {
            instructions,
            id: own,
            value,
        } => {
            walk_rows(alloc, visitor, instructions, state)?;
            walk_value(alloc, visitor, *own, value.get(), state)
        }
        ReactiveValue::OptionalExpression { value, optional: _ } => {
            walk_value(alloc, visitor, id, value.get(), state)
        }
    }
}

/// Walks the inside of a row. Returns the fault of a hook, `BadName` if a nested function is outside its table, and
/// `NoMemory` when out of memory.
#[cycle(read_value)]
pub fn traverse_instruction<V: ReactiveFunctionVisitor>(
    alloc: Global,
    visitor: &V,
    instruction: &ReactiveInstruction,
    state: &mut V::State,
) -> Result<(), Fault>
    ensures { IsStep (inside_instruction (V.steps visitor.now) (V.functions visitor.now) instruction.now
        (V.view visitor.now state.old)) result (V.view visitor.now state.new) }
{
    visitor.visit_id(instruction.id, state)?;
    visit_target(visitor, instruction.id, &instruction.lvalue, state)?;
    visit_value_targets(alloc, visitor, instruction.id, &instruction.value, state)?;
    walk_value(alloc, visitor, instruction.id, &instruction.value, state)
}

/// Walks a value.
#[cycle(read_value)]
pub(crate) fn walk_value<V: ReactiveFunctionVisitor>(
    alloc: Global,
    visitor: &V,
    id: EvaluationOrder,
    value: &ReactiveValue,
    state: &mut V::State,
) -> Result<(), Fault>
    ensures { IsStep (read_value (V.steps visitor.now) (V.functions visitor.now) value.now id
        (V.view visitor.now state.old)) result (V.view visitor.now state.new) }
{
    match visitor.enter_value(id, value, state)? {
        Enter::Inside => {
            traverse_value(alloc, visitor, id, value, state)?;
            visitor.leave_value(id, value, state)
        }
        Enter::Skip => Ok(()),
    }
}

/// Walks a row.
#[cycle(read_value)]
pub(crate) fn walk_instruction<V: ReactiveFunctionVisitor>(
    alloc: Global,
    visitor: &V,
    instruction: &ReactiveInstruction,
    state: &mut V::State,
) -> Result<(), Fault>
    ensures { IsStep (read_instruction (V.steps visitor.now) (V.functions visitor.now) instruction.now
        (V.view visitor.now state.old)) result (V.view visitor.now state.new) }
{
    match visitor.enter_instruction(instruction, state)? {
        Enter::Inside => {
            traverse_instruction(alloc, visitor, instruction, state)?;
            visitor.leave_instruction(instruction, state)
        }
        Enter::Skip => Ok(()),
    }
}

/// Walks the rows of a sequence.
#[cycle(read_value)]
fn walk_rows<V: ReactiveFunctionVisitor>(
    alloc: Global,
    visitor: &V,
    rows: &List<ReactiveInstruction>,
    state: &mut V::State,
) -> Result<(), Fault>
    ensures { IsStep (each (read_instruction (V.steps visitor.now) (V.functions visitor.now)) rows.now
        (V.view visitor.now state.old)) result (V.view visitor.now state.new) }
{
    for row in rows.as_slice() {
        walk_instruction(alloc, visitor, row, state)?;
    }
    Ok(())
}

/// Visits the operands of an instruction; those of a nested function are its context.
#[inline(never)]
#[tactic(auto, using(rc_tree::proofs::ReadLemmas::reading, crate::proofs::HeldContexts::operands_of_held))]
fn visit_operands<V: ReactiveFunctionVisitor>(
    alloc: Global,
    visitor: &V,
    id: EvaluationOrder,
    value: &InstructionValue,
    state: &mut V::State,
) -> Result<(), Fault>
    ensures { IsStep (inside_base (V.steps visitor.now) (V.functions visitor.now) value.now id
        (V.view visitor.now state.old)) result (V.view visitor.now state.new) }
{
    match function_held(value) {
        Some(function) => visit_held(visitor, id, function, state),
        None => {
            let places = borrowed_operands(alloc, value, visitor.env())?;
            visit_each_place(visitor, id, places.as_slice(), state)
        }
    }
}

/// Visits the context of a nested function.
fn visit_held<V: ReactiveFunctionVisitor>(
    visitor: &V,
    id: EvaluationOrder,
    function: FunctionId,
    state: &mut V::State,
) -> Result<(), Fault>
    ensures { IsStep (inside_held (V.steps visitor.now) (V.functions visitor.now) function id
        (V.view visitor.now state.old)) result (V.view visitor.now state.new) }
{
    match visitor.env().functions.get(function) {
        Some(found) => visitor.visit_context(id, function, found.context.as_slice(), state),
        None => Err(Fault::BadName {
            table: TableName::Functions,
            index: function.0,
        }),
    }
}

/// Visits a row's target, if it has one.
#[inline(never)]
fn visit_target<V: ReactiveFunctionVisitor>(
    visitor: &V,
    id: EvaluationOrder,
    target: &Option<Place>,
    state: &mut V::State,
) -> Result<(), Fault>
    ensures { IsStep (perhaps ((V.steps visitor.now).visit_lvalue id) target.now (V.view visitor.now state.old))
        result (V.view visitor.now state.new) }
{
    match target {
        Some(target) => visitor.visit_lvalue(id, target, state),
        None => Ok(()),
    }
}

/// Visits the places that a row writes besides its target.
#[inline(never)]
fn visit_value_targets<V: ReactiveFunctionVisitor>(
    alloc: Global,
    visitor: &V,
    id: EvaluationOrder,
    value: &ReactiveValue,
    state: &mut V::State,
) -> Result<(), Fault>
    ensures { IsStep (each ((V.steps visitor.now).visit_lvalue id) (targets_of value.now)
        (V.view visitor.now state.old)) result (V.view visitor.now state.new) }
{
    match value {
        ReactiveValue::Instruction(value) => {
            let targets = borrowed_lvalues(alloc, value)?;
            visit_lvalues(visitor, id, &targets, state)
        }
        ReactiveValue::LogicalExpression { .. }
        | ReactiveValue::ConditionalExpression { .. }
        | ReactiveValue::SequenceExpression { .. }
        | ReactiveValue::OptionalExpression { .. } => Ok(()),
    }
}

/// Visits places as operands, in order.
pub(crate) fn visit_each_place<V: ReactiveFunctionVisitor>(
    visitor: &V,
    id: EvaluationOrder,
    places: &[Place],
    state: &mut V::State,
) -> Result<(), Fault>
    ensures { IsStep (each ((V.steps visitor.now).visit_place id) places.now (V.view visitor.now state.old))
        result (V.view visitor.now state.new) }
{
    for place in places {
        visitor.visit_place(id, place, state)?;
    }
    Ok(())
}

/// Visits places as targets, in order.
fn visit_lvalues<V: ReactiveFunctionVisitor>(
    visitor: &V,
    id: EvaluationOrder,
    places: &Places<'_>,
    state: &mut V::State,
) -> Result<(), Fault>
    ensures { IsStep (each ((V.steps visitor.now).visit_lvalue id) places.now (V.view visitor.now state.old))
        result (V.view visitor.now state.new) }
{
    for place in places.as_slice() {
        visitor.visit_lvalue(id, place, state)?;
    }
    Ok(())
}
