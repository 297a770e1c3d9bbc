//! Rows and values.

ghost use Rattle.rc_doc.specs.Reading.{IsRead};
ghost use Rattle.rc_flat.specs.inside.Assembly.{nested_from, row_from, value_from};

use crate::assembly::Assemble;
use crate::found::Found;
use crate::value::{FlatInstruction, FlatValue, NestedValue};
use rc_doc::Refusal;
use rc_hir::LogicalOperator;
use rc_names::{Boxed, EvaluationOrder, List};
use rc_tree::{ReactiveInstruction, ReactiveValue};
use std::alloc::Global;

impl Assemble for FlatValue {
    type Tree = ReactiveValue;

    ghost takes = { value_from };

    fn assemble(self, _alloc: Global, found: Found) -> Result<(ReactiveValue, Found), Refusal> {
        match self {
            FlatValue::Instruction(instruction) => Ok((
                ReactiveValue::Instruction(instruction.into_inner()),
                found,
            )),
            FlatValue::Nested(number) => found.take_value(number),
        }
    }
}

/// A value on the heap.
pub(super) fn boxed(
    alloc: Global,
    value: FlatValue,
    found: Found,
) -> Result<(Boxed<ReactiveValue>, Found), Refusal>
    ensures { IsRead result (value_from value found) }
{
    let (value, found) = value.assemble(alloc, found)?;
    Ok((Boxed::new(alloc, value)?, found))
}

impl Assemble for FlatInstruction {
    type Tree = ReactiveInstruction;

    ghost takes = { row_from };

    fn assemble(
        self,
        alloc: Global,
        found: Found,
    ) -> Result<(ReactiveInstruction, Found), Refusal> {
        let FlatInstruction {
            id,
            lvalue,
            value,
            span,
        } = self;
        let (value, found) = value.assemble(alloc, found)?;
        Ok((
            ReactiveInstruction {
                id,
                lvalue,
                value,
                span,
            },
            found,
        ))
    }
}

fn logical(
    alloc: Global,
    operator: LogicalOperator,
    left: FlatValue,
    right: FlatValue,
    found: Found,
) -> Result<(ReactiveValue, Found), Refusal>
    ensures { IsRead result (nested_from (NestedValue.LogicalExpression operator left right) found) }
{
    let (right, found) = boxed(alloc, right, found)?;
    let (left, found) = boxed(alloc, left, found)?;
    Ok((
        ReactiveValue::LogicalExpression {
            operator,
            left,
            right,
        },
        found,
    ))
}

fn conditional(
    alloc: Global,
    test: FlatValue,
    consequent: FlatValue,
    alternate: FlatValue,
    found: Found,
) -> Result<(ReactiveValue, Found), Refusal>
    ensures { IsRead result (nested_from (NestedValue.ConditionalExpression test consequent alternate) found) }
{
    let (test, found) = boxed(alloc, test, found)?;
    let (consequent, found) = boxed(alloc, consequent, found)?;
    let (alternate, found) = boxed(alloc, alternate, found)?;
    Ok((
        ReactiveValue::ConditionalExpression {
            test,
            consequent,
            alternate,
        },
        found,
    ))
}

fn sequence(
    alloc: Global,
    instructions: List<FlatInstruction>,
    id: EvaluationOrder,
    value: FlatValue,
    found: Found,
) -> Result<(ReactiveValue, Found), Refusal>
    ensures { IsRead result (nested_from (NestedValue.SequenceExpression instructions id value) found) }
{
    let (value, found) = boxed(alloc, value, found)?;
    let (instructions, found) = instructions.assemble(alloc, found)?;
    Ok((
        ReactiveValue::SequenceExpression {
            instructions,
            id,
            value,
        },
        found,
    ))
}

fn optional(
    alloc: Global,
    value: FlatValue,
    is_optional: bool,
    found: Found,
) -> Result<(ReactiveValue, Found), Refusal>
    ensures { IsRead result (nested_from (NestedValue.OptionalExpression value is_optional) found) }
{
    let (value, found) = boxed(alloc, value, found)?;
    Ok((
        ReactiveValue::OptionalExpression {
            value,
            optional: is_optional,
        },
        found,
    ))
}

impl Assemble for NestedValue {
    type Tree = ReactiveValue;

    ghost takes = { nested_from };

    fn assemble(self, alloc: Global, found: Found) -> Result<(ReactiveValue, Found), Refusal> {
        match self {
            NestedValue::LogicalExpression {
                operator,
                left,
                right,
            } => logical(alloc, operator, left, right, found),
            NestedValue::ConditionalExpression {
                test,
                consequent,
                alternate,
            } => conditional(alloc, test, consequent, alternate, found),
            NestedValue::SequenceExpression {
                instructions,
                id,
                value,
            } => sequence(alloc, instructions, id, value, found),
            NestedValue::OptionalExpression {
                value,
                optional: is_optional,
            } => optional(alloc, value, is_optional, found),
        }
    }
}
