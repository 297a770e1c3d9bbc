//! The entries of the table of nested values.

ghost use Rattle.std.specs.Prelude.{◌≡◌};
ghost use Rattle.rc_flat.specs.ReadingFlat.Values.{nested_value_of};
ghost use Rattle.rc_flat.specs.ShownFlat.{nested_value_data};
ghost use Rattle.rc_answer.specs.inside.NestedViews.{nested_seen};
ghost use Rattle.rc_answer.specs.NotNull.{no_null_nested_value};

use crate::parts::PartFields;
use crate::view::value::{RowView, ValueView};
use rc_hir::LogicalOperator;
use rc_names::{EvaluationOrder, List};
use rc_show::{Fields, NoFields, Show};
use serde::Serializer;
use std::marker::Model;

/// A nested value.
#[derive(Drop)]
pub struct NestedView<'a> {
    form: NestedForm<'a>,
}

/// A nested value by its variant.
#[derive(Drop)]
pub enum NestedForm<'a> {
    LogicalExpression {
        operator: &'a LogicalOperator,
        left: ValueView<'a>,
        right: ValueView<'a>,
    },
    ConditionalExpression {
        test: ValueView<'a>,
        consequent: ValueView<'a>,
        alternate: ValueView<'a>,
    },
    SequenceExpression {
        instructions: List<RowView<'a>>,
        id: EvaluationOrder,
        value: ValueView<'a>,
    },
    OptionalExpression {
        value: ValueView<'a>,
        optional: bool,
    },
}

impl<'a> Model for NestedView<'a> {
    ghost use Rattle.rc_flat.specs.Model.{NestedValue};
    ghost use Rattle.rc_answer.specs.inside.NestedViews.{nested_seen};

    ghost Value = { NestedValue };

    ghost view = { λ it. nested_seen it.form };
}

impl<'a> NestedView<'a> {
    /// A nested value of that form.
    pub fn new(form: NestedForm<'a>) -> NestedView<'a>
        ensures { result ≡ nested_seen form.entry }
    {
        NestedView { form }
    }
}

impl Show for NestedView<'_> {
    ghost reads = { nested_value_of };

    ghost shows = { nested_value_data };

    #[tactic(auto, using(crate::proofs::Cited::nested_value_again), unfolding(crate::specs::inside::Cited::nested_value_data))]
    fn send<S: Serializer>(&self, out: &mut S) -> Result<(), S::Error> {
        match &self.form {
            NestedForm::LogicalExpression {
                operator,
                left,
                right,
            } => {
                NoFields
                    .tagged("LogicalExpression")
                    .with("left", left)
                    .with_part("operator", *operator)
                    .with("right", right)
                    .send(out)
            }
            NestedForm::ConditionalExpression {
                test,
                consequent,
                alternate,
            } => {
                NoFields
                    .with("alternate", alternate)
                    .with("consequent", consequent)
                    .tagged("ConditionalExpression")
                    .with("test", test)
                    .send(out)
            }
            NestedForm::SequenceExpression {
                instructions,
                id,
                value,
            } => {
                NoFields
                    .with("id", id)
                    .with("instructions", instructions)
                    .tagged("SequenceExpression")
                    .with("value", value)
                    .send(out)
            }
            NestedForm::OptionalExpression { value, optional } => {
                NoFields
                    .tagged("OptionalExpression")
                    .with("optional", optional)
                    .with("value", value)
                    .send(out)
            }
        }
    }

    ghost not_null = { no_null_nested_value };
}
