//! The numbers of nested values.

ghost use Rattle.std.specs.Prelude.{◌≡◌, ◌++◌, IfOk, OnOk};
ghost use Rattle.rc_tree.specs.declared.value.ReactiveValue.{out-ReactiveValue};
ghost use Rattle.rc_flat.specs.Blocks.{flat_value_if, nested_if};
ghost use Rattle.rc_flat.specs.Values.{flat_row, flat_rows, flat_value, nested, nested_in_rows};
ghost use Rattle.rc_answer.specs.inside.Numbering.{Grows};

use crate::numbering::Numbered;
use crate::view::value::{RowView, ValueView};
use rc_names::{Boxed, List};
use rc_tree::{ReactiveInstruction, ReactiveValue};
use std::alloc::{AllocError, Global};

impl<'a> Numbered<'a, ReactiveValue> {
    /// Returns a value in its place, with the next number if it isn't an instruction.
    #[tactic(auto, using(crate::proofs::NumberingLemmas::grows_none), unfolding(crate::specs::inside::Cited::flat_value, crate::specs::inside::Cited::nested))]
    pub fn value(&mut self, value: &'a ReactiveValue) -> Result<ValueView<'a>, AllocError>
        ensures value { IfOk result (λ view. view ≡ flat_value self.old.next value.now) }
        ensures grows { OnOk result (Grows (nested value.now) self.old self.new) }
    {
        match value {
            ReactiveValue::Instruction(value) => Ok(ValueView::instruction(value)),
            _ => Ok(ValueView::nested(self.number(value)?)),
        }
    }

    /// Returns a value in its place, if there is one.
    #[tactic(auto, using(crate::proofs::NumberingLemmas::grows_none))]
    pub fn value_if(
        &mut self,
        value: &'a Option<Boxed<ReactiveValue>>,
    ) -> Result<Option<ValueView<'a>>, AllocError>
        ensures value { IfOk result (λ view. view ≡ flat_value_if self.old.next value.now) }
        ensures grows { OnOk result (Grows (nested_if value.now) self.old self.new) }
    {
        match value {
            Some(value) => Ok(Some(self.value(value.get())?)),
            None => Ok(None),
        }
    }

    /// Returns a row with its value in its place.
    pub fn row(&mut self, row: &'a ReactiveInstruction) -> Result<RowView<'a>, AllocError>
        ensures row { IfOk result (λ view. view ≡ flat_row self.old.next row.now) }
        ensures grows { OnOk result (Grows (nested row.now.value) self.old self.new) }
    {
        let value = self.value(&row.value)?;
        Ok(RowView::new(row, value))
    }

    /// Returns rows with their values in their places.
    pub fn rows(
        &mut self,
        alloc: Global,
        rows: &'a [ReactiveInstruction],
    ) -> Result<List<RowView<'a>>, AllocError>
        ensures rows { IfOk result (λ views. views ≡ flat_rows self.old.next rows.now) }
        ensures grows { OnOk result (Grows (nested_in_rows rows.now) self.old self.new) }
    {
        let mut views = List::new(alloc);
        for row in rows {
            let view = self.row(row)?;
            views.push(view)?;
        }
        Ok(views)
    }
}
