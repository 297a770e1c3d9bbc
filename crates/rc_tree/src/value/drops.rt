//! Dropping a value level by level.
//!
//! A level is a list of rows. The values inside its values go, as rows, to the next level before what is left of the
//! level is dropped. A nested call for each level would take stack. The next level takes memory for its rows; a value
//! for which there is none is dropped by a nested call.

ghost use Rattle.std.specs.Prelude.{◌≡◌, ◌≤◌, ◌<◌, ℕ, suc, IfErr};
ghost use denote.Param.Weighed.{most};
ghost use Rattle.rc_tree.specs.declared.value.ReactiveInstruction.{size-ReactiveInstruction};
ghost use Rattle.rc_tree.specs.declared.value.ReactiveValue.{size-ReactiveValue};

use super::{ReactiveInstruction, ReactiveValue};
use rc_names::{EvaluationOrder, List};

/// Drops the rows of a level and those of the levels inside it.
// Both loops are in one function: a call for each level would have no measure between those of a value and of its part.
#[cycle(value)]
pub(super) fn drop_levels(mut inside: List<ReactiveInstruction>) {
    while !inside.is_empty() {
        let mut level = inside.take();
        while let Some(row) = level.pop() {
            let ReactiveInstruction { value, .. } = row;
            value.drop_parts(&mut inside);
        }
        drop(level);
    }
    drop(inside);
}

impl ReactiveValue {
    /// Drops what is left of a value, and puts what is inside it into the next level.
    #[cycle(value)]
    pub(super) fn drop_parts(self, inside: &mut List<ReactiveInstruction>)
        ensures { (n : ℕ) → size-ReactiveValue self < n → most size-ReactiveInstruction inside.old < n
            → most size-ReactiveInstruction inside.new < n }
    {
        match self {
            ReactiveValue::Instruction(value) => drop(value),
            ReactiveValue::LogicalExpression {
                operator: _operator,
                left,
                right,
            } => {
                if let Err(left) = put(left.into_inner(), inside) {
                    drop(left);
                }
                if let Err(right) = put(right.into_inner(), inside) {
                    drop(right);
                }
            }
            ReactiveValue::ConditionalExpression {
                test,
                consequent,
                alternate,
            } => {
                if let Err(test) = put(test.into_inner(), inside) {
                    drop(test);
                }
                if let Err(consequent) = put(consequent.into_inner(), inside) {
                    drop(consequent);
                }
                if let Err(alternate) = put(alternate.into_inner(), inside) {
                    drop(alternate);
                }
            }
            ReactiveValue::SequenceExpression {
                mut instructions,
                id: _id,
                value,
            } => {
                let _ = inside.take_from(&mut instructions);
                drop(instructions);
                if let Err(value) = put(value.into_inner(), inside) {
                    drop(value);
                }
            }
            ReactiveValue::OptionalExpression {
                value,
                optional: _optional,
            } => {
                if let Err(value) = put(value.into_inner(), inside) {
                    drop(value);
                }
            }
        }
    }
}

/// Puts a value into the next level, as the value of a row. Hands it back if it is an instruction, which has nothing
/// inside, or when out of memory.
fn put(value: ReactiveValue, inside: &mut List<ReactiveInstruction>) -> Result<(), ReactiveValue>
    ensures put { (n : ℕ) → suc (size-ReactiveValue value) < n → most size-ReactiveInstruction inside.old < n
        → most size-ReactiveInstruction inside.new < n }
    ensures back { IfErr result (λ back. back ≡ value) }
{
    if let ReactiveValue::Instruction(_) = &value {
        return Err(value);
    }
    let row = ReactiveInstruction {
        id: EvaluationOrder::UNSET,
        lvalue: None,
        value,
        span: None,
    };
    match inside.try_push(row) {
        Ok(()) => Ok(()),
        Err(row) => Err(row.value),
    }
}
