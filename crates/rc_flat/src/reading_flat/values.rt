//! Readers of rows and values.

ghost use Rattle.serde_json.specs.View.{view};
ghost use Rattle.rc_doc.specs.Reading.{IsRead};
ghost use Rattle.rc_flat.specs.ReadingFlat.Values.{conditional_of, flat_instruction_of, flat_value_of, logical_of};
ghost use Rattle.rc_flat.specs.ReadingFlat.Values.{nested_number_of, nested_value_of, optional_of, sequence_of};

use crate::fields::{flag, list_or_empty, only, optional, required};
use crate::value::{FlatInstruction, FlatValue, NestedValue};
use rc_doc::{Read, Refusal, tag};
use rc_hir::InstructionValue;
use rc_names::Boxed;
use serde_json::Value;
use std::alloc::Global;

#[tactic(auto, unfolding(crate::specs::ReadingFlat::Values::nested_number_of))]
fn nested_number(alloc: Global, from: &Value) -> Result<FlatValue, Refusal>
    ensures { IsRead result (nested_number_of (view from.now)) }
{
    only(from, &["k", "v"])?;
    match tag(from) {
        Some("Nested") => Ok(FlatValue::Nested(required(alloc, from, "v")?)),
        _ => Err(Refusal::NotDoc),
    }
}

impl Read for FlatValue {
    ghost reads = { flat_value_of };

    #[tactic(auto, unfolding(crate::specs::ReadingFlat::Values::flat_value_of))]
    fn read(alloc: Global, from: &Value) -> Result<FlatValue, Refusal> {
        match InstructionValue::read(alloc, from) {
            Ok(instruction) => Ok(FlatValue::Instruction(Boxed::new(alloc, instruction)?)),
            Err(Refusal::NotDoc) => nested_number(alloc, from),
            Err(Refusal::Memory) => Err(Refusal::Memory),
        }
    }
}

impl Read for FlatInstruction {
    ghost reads = { flat_instruction_of };

    #[tactic(auto, unfolding(crate::specs::ReadingFlat::Values::flat_instruction_of))]
    fn read(alloc: Global, from: &Value) -> Result<FlatInstruction, Refusal> {
        only(from, &["id", "lvalue", "span", "value"])?;
        let id = required(alloc, from, "id")?;
        let lvalue = optional(alloc, from, "lvalue")?;
        let value = required(alloc, from, "value")?;
        let span = optional(alloc, from, "span")?;
        Ok(FlatInstruction {
            id,
            lvalue,
            value,
            span,
        })
    }
}

#[tactic(auto, unfolding(crate::specs::ReadingFlat::Values::logical_of))]
fn logical(alloc: Global, from: &Value) -> Result<NestedValue, Refusal>
    ensures { IsRead result (logical_of (view from.now)) }
{
    only(from, &["k", "left", "operator", "right"])?;
    let operator = required(alloc, from, "operator")?;
    let left = required(alloc, from, "left")?;
    let right = required(alloc, from, "right")?;
    Ok(NestedValue::LogicalExpression {
        operator,
        left,
        right,
    })
}

#[tactic(auto, unfolding(crate::specs::ReadingFlat::Values::conditional_of))]
fn conditional(alloc: Global, from: &Value) -> Result<NestedValue, Refusal>
    ensures { IsRead result (conditional_of (view from.now)) }
{
    only(from, &["alternate", "consequent", "k", "test"])?;
    let test = required(alloc, from, "test")?;
    let consequent = required(alloc, from, "consequent")?;
    let alternate = required(alloc, from, "alternate")?;
    Ok(NestedValue::ConditionalExpression {
        test,
        consequent,
        alternate,
    })
}

#[tactic(auto, unfolding(crate::specs::ReadingFlat::Values::sequence_of))]
fn sequence(alloc: Global, from: &Value) -> Result<NestedValue, Refusal>
    ensures { IsRead result (sequence_of (view from.now)) }
{
    only(from, &["id", "instructions", "k", "value"])?;
    let instructions = list_or_empty(alloc, from, "instructions")?;
    let id = required(alloc, from, "id")?;
    let value = required(alloc, from, "value")?;
    Ok(NestedValue::SequenceExpression {
        instructions,
        id,
        value,
    })
}

#[tactic(auto, unfolding(crate::specs::ReadingFlat::Values::optional_of))]
fn optional_chain(alloc: Global, from: &Value) -> Result<NestedValue, Refusal>
    ensures { IsRead result (optional_of (view from.now)) }
{
    only(from, &["k", "optional", "value"])?;
    let value = required(alloc, from, "value")?;
    let is_optional = flag(from, "optional")?;
    Ok(NestedValue::OptionalExpression {
        value,
        optional: is_optional,
    })
}

impl Read for NestedValue {
    ghost reads = { nested_value_of };

    #[tactic(auto, unfolding(crate::specs::ReadingFlat::Values::nested_value_of))]
    fn read(alloc: Global, from: &Value) -> Result<NestedValue, Refusal> {
        match tag(from) {
            Some("LogicalExpression") => logical(alloc, from),
            Some("ConditionalExpression") => conditional(alloc, from),
            Some("SequenceExpression") => sequence(alloc, from),
            Some("OptionalExpression") => optional_chain(alloc, from),
            _ => Err(Refusal::NotDoc),
        }
    }
}
