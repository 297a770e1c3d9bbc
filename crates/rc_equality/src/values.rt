//! Equality of rows and values.

ghost use Rattle.std.specs.Prelude.{◌≡◌, ◌↔◌, IsTrue};

use crate::Equals;
use rc_names::List;
use rc_tree::{ReactiveInstruction, ReactiveValue};

impl Equals for ReactiveInstruction {
    #[cycle(equal_value)]
    fn equals(&self, other: &ReactiveInstruction) -> bool {
        self.id.equals(&other.id)
            && self.lvalue.equals(&other.lvalue)
            && self.span == other.span
            && self.value.equals(&other.value)
    }
}

impl Equals for ReactiveValue {
    #[cycle(equal_value)]
    fn equals(&self, other: &ReactiveValue) -> bool {
        match self {
            ReactiveValue::Instruction(value) => match other {
                ReactiveValue::Instruction(its_value) => value.equals(its_value),
                _ => false,
            },
            ReactiveValue::LogicalExpression {
                operator,
                left,
                right,
            } => match other {
                ReactiveValue::LogicalExpression {
                    operator: its_operator,
                    left: its_left,
                    right: its_right,
                } => {
                    operator == its_operator
                        && left.get().equals(its_left.get())
                        && right.get().equals(its_right.get())
                }
                _ => false,
            },
            ReactiveValue::ConditionalExpression {
                test,
                consequent,
                alternate,
            } => match other {
                ReactiveValue::ConditionalExpression {
                    test: its_test,
                    consequent: its_consequent,
                    alternate: its_alternate,
                } => {
                    test.get().equals(its_test.get())
                        && consequent.get().equals(its_consequent.get())
                        && alternate.get().equals(its_alternate.get())
                }
                _ => false,
            },
            ReactiveValue::SequenceExpression {
                instructions,
                id,
                value,
            } => match other {
                ReactiveValue::SequenceExpression {
                    instructions: its_instructions,
                    id: its_id,
                    value: its_value,
                } => {
                    id.equals(its_id)
                        && are_equal_rows(instructions, its_instructions)
                        && value.get().equals(its_value.get())
                }
                _ => false,
            },
            ReactiveValue::OptionalExpression { value, optional } => match other {
                ReactiveValue::OptionalExpression {
                    value: its_value,
                    optional: its_optional,
                } => optional == its_optional && value.get().equals(its_value.get()),
                _ => false,
            },
        }
    }
}

/// Whether the rows of two sequences are equal.
#[cycle(equal_value)]
fn are_equal_rows(rows: &List<ReactiveInstruction>, others: &List<ReactiveInstruction>) -> bool
    ensures { IsTrue result ↔ (rows.now ≡ others.now) }
{
    let others = others.as_slice();
    if rows.len() != others.len() {
        return false;
    }
    for (i, row) in rows.as_slice().iter().enumerate() {
        if !row.equals(&others[i]) {
            return false;
        }
    }
    true
}
