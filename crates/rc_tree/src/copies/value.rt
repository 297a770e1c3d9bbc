//! Copies of rows and values.

ghost use Rattle.std.specs.Prelude.{◌≡◌, IfOk};

use crate::value::{ReactiveInstruction, ReactiveValue};
use rc_names::{Boxed, CloneIn, List};
use std::alloc::{AllocError, Global};

impl CloneIn for ReactiveInstruction {
    #[cycle(copy_value)]
    fn clone_in(&self, alloc: Global) -> Result<ReactiveInstruction, AllocError> {
        Ok(ReactiveInstruction {
            id: self.id,
            lvalue: self.lvalue,
            value: self.value.clone_in(alloc)?,
            span: self.span,
        })
    }
}

impl CloneIn for ReactiveValue {
    #[cycle(copy_value)]
    fn clone_in(&self, alloc: Global) -> Result<ReactiveValue, AllocError> {
        match self {
            ReactiveValue::Instruction(value) => {
                Ok(ReactiveValue::Instruction(value.clone_in(alloc)?))
            }
            ReactiveValue::LogicalExpression {
                operator,
                left,
                right,
            } => Ok(ReactiveValue::LogicalExpression {
                operator: *operator,
                left: boxed_copy(alloc, left.get())?,
                right: boxed_copy(alloc, right.get())?,
            }),
            ReactiveValue::ConditionalExpression {
                test,
                consequent,
                alternate,
            } => Ok(ReactiveValue::ConditionalExpression {
                test: boxed_copy(alloc, test.get())?,
                consequent: boxed_copy(alloc, consequent.get())?,
                alternate: boxed_copy(alloc, alternate.get())?,
            }),
            ReactiveValue::SequenceExpression {
                instructions,
                id,
                value,
            } => Ok(ReactiveValue::SequenceExpression {
                instructions: copied_rows(alloc, instructions)?,
                id: *id,
                value: boxed_copy(alloc, value.get())?,
            }),
            ReactiveValue::OptionalExpression { value, optional } => {
                Ok(ReactiveValue::OptionalExpression {
                    value: boxed_copy(alloc, value.get())?,
                    optional: *optional,
                })
            }
        }
    }
}

/// A copy of a value, in its own box.
#[cycle(copy_value)]
pub(super) fn boxed_copy(
    alloc: Global,
    value: &ReactiveValue,
) -> Result<Boxed<ReactiveValue>, AllocError>
    ensures { IfOk result (λ copy. copy ≡ value.now) }
{
    Ok(Boxed::new(alloc, value.clone_in(alloc)?)?)
}

/// A copy of each row of a sequence.
#[cycle(copy_value)]
fn copied_rows(
    alloc: Global,
    rows: &List<ReactiveInstruction>,
) -> Result<List<ReactiveInstruction>, AllocError>
    ensures { IfOk result (λ copies. copies ≡ rows.now) }
{
    let mut copies = List::new(alloc);
    for row in rows.as_slice() {
        copies.push(row.clone_in(alloc)?)?;
    }
    Ok(copies)
}
