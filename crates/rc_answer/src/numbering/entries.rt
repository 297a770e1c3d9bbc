//! The entries of the table of nested values.

ghost use Rattle.std.specs.Prelude.{◌≡◌, IfOk, OnOk, Some};
ghost use Rattle.rc_flat.specs.Values.{entry_of, inside_value};
ghost use Rattle.rc_tree.specs.declared.value.ReactiveValue.TheOpen as layer;
ghost use Rattle.rc_flat.specs.Values.{entry_layer, inside_layer};
ghost use Rattle.rc_answer.specs.inside.NestedViews.{nested_seen};
ghost use Rattle.rc_answer.specs.inside.Numbering.{Grows};

use crate::numbering::Numbered;
use crate::view::nested::{NestedForm, NestedView};
use rc_hir::LogicalOperator;
use rc_names::{Boxed, EvaluationOrder};
use rc_tree::{ReactiveInstruction, ReactiveValue};
use std::alloc::{AllocError, Global};

impl<'a> Numbered<'a, ReactiveValue> {
    /// Returns the entry of a nested value. An instruction has none, and fails as what is out of memory.
    #[tactic(auto, unfolding(crate::specs::inside::Cited::entry_of, crate::specs::inside::Cited::inside_value))]
    pub fn entry(
        &mut self,
        alloc: Global,
        value: &'a ReactiveValue,
    ) -> Result<NestedView<'a>, AllocError>
        ensures entry { IfOk result (λ view. entry_of self.old.next value.now ≡ Some view) }
        ensures grows { OnOk result (Grows (inside_value value.now) self.old self.new) }
    {
        match value {
            ReactiveValue::Instruction(_) => Err(AllocError),
            ReactiveValue::LogicalExpression {
                operator,
                left,
                right,
            } => self.logical_entry(operator, left, right),
            ReactiveValue::ConditionalExpression {
                test,
                consequent,
                alternate,
            } => self.conditional_entry(test, consequent, alternate),
            ReactiveValue::SequenceExpression {
                instructions,
                id,
                value,
            } => self.sequence_entry(alloc, instructions.as_slice(), *id, value),
            ReactiveValue::OptionalExpression { value, optional } => {
                let value = self.value(value.get())?;
                Ok(NestedView::new(NestedForm::OptionalExpression {
                    value,
                    optional: *optional,
                }))
            }
        }
    }

    /// Returns the entry of a `LogicalExpression`.
    #[tactic(auto, using(crate::proofs::NumberingLemmas::grows_then))]
    fn logical_entry(
        &mut self,
        operator: &'a LogicalOperator,
        left: &'a Boxed<ReactiveValue>,
        right: &'a Boxed<ReactiveValue>,
    ) -> Result<NestedView<'a>, AllocError>
        ensures entry { IfOk result (λ view.
            entry_layer self.old.next (layer.LogicalExpression operator.now left.now right.now) ≡ Some view) }
        ensures grows { OnOk result
            (Grows (inside_layer (layer.LogicalExpression operator.now left.now right.now)) self.old self.new) }
    {
        Ok(NestedView::new(NestedForm::LogicalExpression {
            operator,
            left: self.value(left.get())?,
            right: self.value(right.get())?,
        }))
    }

    /// Returns the entry of a `ConditionalExpression`. The alternate comes first in the text, and the test last.
    #[tactic(auto, using(crate::proofs::NumberingLemmas::grows_then))]
    fn conditional_entry(
        &mut self,
        test: &'a Boxed<ReactiveValue>,
        consequent: &'a Boxed<ReactiveValue>,
        alternate: &'a Boxed<ReactiveValue>,
    ) -> Result<NestedView<'a>, AllocError>
        ensures entry { IfOk result (λ view. entry_layer self.old.next
            (layer.ConditionalExpression test.now consequent.now alternate.now) ≡ Some view) }
        ensures grows { OnOk result
            (Grows (inside_layer (layer.ConditionalExpression test.now consequent.now alternate.now))
            self.old self.new) }
    {
        Ok(NestedView::new(NestedForm::ConditionalExpression {
            alternate: self.value(alternate.get())?,
            consequent: self.value(consequent.get())?,
            test: self.value(test.get())?,
        }))
    }

    /// Returns the entry of a `SequenceExpression`.
    #[tactic(auto, using(crate::proofs::NumberingLemmas::grows_then))]
    fn sequence_entry(
        &mut self,
        alloc: Global,
        instructions: &'a [ReactiveInstruction],
        id: EvaluationOrder,
        value: &'a Boxed<ReactiveValue>,
    ) -> Result<NestedView<'a>, AllocError>
        ensures entry { IfOk result (λ view.
            entry_layer self.old.next (layer.SequenceExpression instructions.now id value.now) ≡ Some view) }
        ensures grows { OnOk result
            (Grows (inside_layer (layer.SequenceExpression instructions.now id value.now)) self.old self.new) }
    {
        Ok(NestedView::new(NestedForm::SequenceExpression {
            instructions: self.rows(alloc, instructions)?,
            id,
            value: self.value(value.get())?,
        }))
    }
}
