//! The rewriting walk of rows and values.
#![tactic(auto, using(rc_tree::proofs::FuelLemmas::rewriting, rc_tree::proofs::RewriteValueLemmas::rewriting_values))]

ghost use Rattle.std.specs.Prelude.{ℕ};
ghost use Rattle.rc_tree.specs.Step.{IsStep};
ghost use Rattle.rc_tree.specs.Fuel.{kept_into};
ghost use Rattle.rc_tree.specs.inside.EnoughFuel.{IsFueled};
ghost use Rattle.rc_tree.specs.Rewrite.Values.{inside_instruction, inside_value, instruction_at, instruction_inside};
ghost use Rattle.rc_tree.specs.Rewrite.Values.{rewrite_instruction, rewrite_value, rows_at, value_inside, value_to};

use crate::rewrite::visits::{visit_operands, visit_target, visit_value_targets};
use crate::transform::ReactiveFunctionTransform;
use rc_hir::Fault;
use rc_names::{EvaluationOrder, List};
use rc_tree::{Enter, ReactiveInstruction, ReactiveValue};
use std::alloc::Global;

/// Walks the inside of a value. Returns the fault of a hook, `BadName` if a nested function is outside its table, and
/// `NoMemory` when out of memory.
pub fn traverse_value<T: ReactiveFunctionTransform>(
    alloc: Global,
    transform: &mut T,
    id: EvaluationOrder,
    value: &mut ReactiveValue,
    state: &mut T::State,
) -> Result<(), Fault>
    ensures { IsStep (inside_value T.steps T.functions id (transform.old, state.old) value.old) result
        ((transform.new, state.new), value.new) }
{
    walk_inside_value(alloc, transform, id, value, state)
}

/// Walks the inside of a row. Returns the fault of a hook, `BadName` if a nested function is outside its table, and
/// `NoMemory` when out of memory.
pub fn traverse_instruction<T: ReactiveFunctionTransform>(
    alloc: Global,
    transform: &mut T,
    instruction: &mut ReactiveInstruction,
    state: &mut T::State,
) -> Result<(), Fault>
    ensures { IsStep (inside_instruction T.steps T.functions (transform.old, state.old) instruction.old) result
        ((transform.new, state.new), instruction.new) }
{
    walk_inside_row(alloc, transform, instruction, state)
}

/// Walks a value.
pub(crate) fn walk_value<T: ReactiveFunctionTransform>(
    alloc: Global,
    transform: &mut T,
    id: EvaluationOrder,
    value: &mut ReactiveValue,
    state: &mut T::State,
) -> Result<(), Fault>
    ensures { IsStep (rewrite_value T.steps T.functions id (transform.old, state.old) value.old) result
        ((transform.new, state.new), value.new) }
{
    walk_value_to(alloc, transform, id, value, state)
}

/// Walks a row.
pub(crate) fn walk_instruction<T: ReactiveFunctionTransform>(
    alloc: Global,
    transform: &mut T,
    instruction: &mut ReactiveInstruction,
    state: &mut T::State,
) -> Result<(), Fault>
    ensures { IsStep (rewrite_instruction T.steps T.functions (transform.old, state.old) instruction.old) result
        ((transform.new, state.new), instruction.new) }
{
    walk_row(alloc, transform, instruction, state)
}

/// Walks a value; the clause holds for any fuel.
#[cycle(rewrite_value)]
fn walk_value_to<T: ReactiveFunctionTransform>(
    alloc: Global,
    transform: &mut T,
    id: EvaluationOrder,
    value: &mut ReactiveValue,
    state: &mut T::State,
) -> Result<(), Fault>
    ensures { (n : ℕ)
        → IsFueled (value_to T.steps T.functions n id (transform.old, state.old) value.old) result
        ((transform.new, state.new), value.new) }
{
    match transform.enter_value(id, value, state)? {
        Enter::Inside => {
            walk_inside_value(alloc, transform, id, value, state)?;
            transform.leave_value(id, value, state)
        }
        Enter::Skip => Ok(()),
    }
}

/// Walks the inside of a value; the clause holds for any fuel.
#[cycle(rewrite_value)]
fn walk_inside_value<T: ReactiveFunctionTransform>(
    alloc: Global,
    transform: &mut T,
    id: EvaluationOrder,
    value: &mut ReactiveValue,
    state: &mut T::State,
) -> Result<(), Fault>
    ensures { (n : ℕ)
        → IsFueled (value_inside T.steps T.functions (value_to T.steps T.functions n) id (transform.old, state.old)
        value.old) result ((transform.new, state.new), value.new) }
{
    match value {
        ReactiveValue::Instruction(value) => visit_operands(alloc, transform, id, value, state),
        ReactiveValue::LogicalExpression {
            operator: _,
            left,
            right,
        } => {
            walk_value_to(alloc, transform, id, left.get_mut(), state)?;
            walk_value_to(alloc, transform, id, right.get_mut(), state)
        }
        ReactiveValue::ConditionalExpression {
            test,
            consequent,
            alternate,
        } => {
            walk_value_to(alloc, transform, id, test.get_mut(), state)?;
            walk_value_to(alloc, transform, id, consequent.get_mut(), state)?;
            walk_value_to(alloc, transform, id, alternate.get_mut(), state)
        }
        ReactiveValue::SequenceExpression {
            instructions,
            id: own,
            value,
        } => {
            walk_rows(alloc, transform, instructions, state)?;
            walk_value_to(alloc, transform, *own, value.get_mut(), state)
        }
        ReactiveValue::OptionalExpression { value, optional: _ } => {
            walk_value_to(alloc, transform, id, value.get_mut(), state)
        }
    }
}

/// Walks the rows of a sequence. Each is moved and none is copied.
#[cycle(rewrite_value)]
#[tactic(auto, using(rc_tree::proofs::FuelLemmas::rewriting_lists))]
fn walk_rows<T: ReactiveFunctionTransform>(
    alloc: Global,
    transform: &mut T,
    rows: &mut List<ReactiveInstruction>,
    state: &mut T::State,
) -> Result<(), Fault>
    ensures { (n : ℕ)
        → IsFueled (rows_at T.steps T.functions (value_to T.steps T.functions n) (transform.old, state.old) rows.old)
        result ((transform.new, state.new), rows.new) }
{
    let mut left = rows.take();
    left.reverse();
    while let Some(row) = left.pop() {
        walk_row_into(alloc, transform, row, rows, state)?;
    }
    Ok(())
}

/// Walks a row and appends it to those that are done.
#[cycle(rewrite_value)]
fn walk_row_into<T: ReactiveFunctionTransform>(
    alloc: Global,
    transform: &mut T,
    mut row: ReactiveInstruction,
    done: &mut List<ReactiveInstruction>,
    state: &mut T::State,
) -> Result<(), Fault>
    ensures { (n : ℕ)
        → IsFueled (kept_into (instruction_at T.steps T.functions (value_to T.steps T.functions n))
        (transform.old, state.old) done.old row) result ((transform.new, state.new), done.new) }
{
    walk_row(alloc, transform, &mut row, state)?;
    done.push(row)?;
    Ok(())
}

/// Walks a row; the clause holds for any fuel.
#[cycle(rewrite_value)]
fn walk_row<T: ReactiveFunctionTransform>(
    alloc: Global,
    transform: &mut T,
    row: &mut ReactiveInstruction,
    state: &mut T::State,
) -> Result<(), Fault>
    ensures { (n : ℕ)
        → IsFueled (instruction_at T.steps T.functions (value_to T.steps T.functions n)
        (transform.old, state.old) row.old)
        result ((transform.new, state.new), row.new) }
{
    match transform.enter_instruction(row, state)? {
        Enter::Inside => {
            walk_inside_row(alloc, transform, row, state)?;
            transform.leave_instruction(row, state)
        }
        Enter::Skip => Ok(()),
    }
}

/// Walks the inside of a row; the clause holds for any fuel.
#[cycle(rewrite_value)]
fn walk_inside_row<T: ReactiveFunctionTransform>(
    alloc: Global,
    transform: &mut T,
    row: &mut ReactiveInstruction,
    state: &mut T::State,
) -> Result<(), Fault>
    ensures { (n : ℕ)
        → IsFueled (instruction_inside T.steps T.functions (value_to T.steps T.functions n) (transform.old, state.old)
        row.old) result ((transform.new, state.new), row.new) }
{
    transform.visit_id(row.id, state)?;
    visit_target(transform, row.id, &row.lvalue, state)?;
    visit_value_targets(alloc, transform, row.id, &row.value, state)?;
    walk_value_to(alloc, transform, row.id, &mut row.value, state)
}
