//! Values and rows of the tables, with instructions and places that stay in the tree. Contracts see them as those of a
//! flat function.

ghost use Rattle.std.specs.Prelude.{◌≡◌};
ghost use Rattle.rc_flat.specs.ReadingFlat.Values.{flat_instruction_of, flat_value_of};
ghost use Rattle.rc_flat.specs.ShownFlat.{flat_instruction_data, flat_value_data};
ghost use Rattle.rc_flat.specs.declared.value.FlatValue.TheVariants as values;
ghost use Rattle.rc_flat.proofs.NeverNull.{no_null_flat_value};
ghost use Rattle.rc_answer.specs.inside.ValueViews.{row_seen};
ghost use Rattle.rc_answer.specs.NotNull.{no_null_flat_instruction};

use rc_hir::InstructionValue;
use rc_show::{Fields, NoFields, Show, send_variant};
use rc_tree::ReactiveInstruction;
use serde::Serializer;
use std::marker::Model;

/// A value in its place.
#[derive(Drop)]
pub struct ValueView<'a> {
    form: ValueForm<'a>,
}

/// An instruction, or the number of a nested value.
#[derive(Drop)]
pub(crate) enum ValueForm<'a> {
    Instruction(&'a InstructionValue),
    Nested(u32),
}

impl<'a> Model for ValueView<'a> {
    ghost use Rattle.rc_flat.specs.Model.{FlatValue};
    ghost use Rattle.rc_answer.specs.inside.ValueViews.{value_seen};

    ghost Value = { FlatValue };

    ghost view = { λ it. value_seen it.form };
}

impl<'a> ValueView<'a> {
    /// A value that is an instruction.
    pub fn instruction(value: &'a InstructionValue) -> ValueView<'a>
        ensures { result ≡ values.Instruction value.now }
    {
        ValueView {
            form: ValueForm::Instruction(value),
        }
    }

    /// A nested value with that number.
    pub fn nested(number: u32) -> ValueView<'a>
        ensures { result ≡ values.Nested number }
    {
        ValueView {
            form: ValueForm::Nested(number),
        }
    }
}

impl Show for ValueView<'_> {
    ghost reads = { flat_value_of };

    ghost shows = { flat_value_data };

    #[tactic(auto, using(crate::proofs::Cited::flat_value_again), unfolding(crate::specs::inside::Cited::flat_value_data))]
    fn send<S: Serializer>(&self, out: &mut S) -> Result<(), S::Error> {
        match &self.form {
            ValueForm::Instruction(value) => value.send(out),
            ValueForm::Nested(number) => send_variant(out, "Nested", number),
        }
    }

    ghost not_null = { no_null_flat_value };
}

/// A row.
#[derive(Drop)]
pub struct RowView<'a> {
    row: &'a ReactiveInstruction,
    value: ValueView<'a>,
}

impl<'a> Model for RowView<'a> {
    ghost use Rattle.rc_flat.specs.Model.{FlatInstruction};
    ghost use Rattle.rc_answer.specs.inside.ValueViews.{row_seen};

    ghost Value = { FlatInstruction };

    ghost view = { λ it. row_seen it.row.now it.value };
}

impl<'a> RowView<'a> {
    /// A row whose value is that one in its place.
    pub fn new(row: &'a ReactiveInstruction, value: ValueView<'a>) -> RowView<'a>
        ensures { result ≡ row_seen row.now value.entry }
    {
        RowView { row, value }
    }
}

impl Show for RowView<'_> {
    ghost reads = { flat_instruction_of };

    ghost shows = { flat_instruction_data };

    #[tactic(auto, using(crate::proofs::Cited::flat_instruction_again), unfolding(crate::specs::inside::Cited::flat_instruction_data))]
    fn send<S: Serializer>(&self, out: &mut S) -> Result<(), S::Error> {
        NoFields
            .with("id", &self.row.id)
            .with_some("lvalue", &self.row.lvalue)
            .with_some("span", &self.row.span)
            .with("value", &self.value)
            .send(out)
    }

    ghost not_null = { no_null_flat_instruction };
}
