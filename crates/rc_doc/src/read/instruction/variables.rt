//! Readers of the kinds that read, declare and write variables.

ghost use Rattle.serde_json.specs.View.{view};
ghost use Rattle.rc_doc.specs.Kinds.{value_named};
ghost use Rattle.rc_doc.specs.Kinds.Variables.{declare_context_of, declare_local_of, destructure_of, load_context_of};
ghost use Rattle.rc_doc.specs.Kinds.Variables.{load_global_of, load_local_of, postfix_update_of, prefix_update_of};
ghost use Rattle.rc_doc.specs.Kinds.Variables.{store_context_of, store_global_of, store_local_of};
ghost use Rattle.rc_doc.specs.Reading.{IsRead};

use crate::fields::{optional, required};
use crate::members::{five_fields, four_fields, three_fields};
use crate::read::instruction::expressions;
use crate::refusal::Refusal;
use rc_hir::InstructionValue;
use serde_json::Value;
use std::alloc::Global;

/// The value of the kind with this name, of this family or of one after it.
pub(super) fn value_named(
    alloc: Global,
    name: &str,
    from: &Value,
) -> Result<InstructionValue, Refusal>
    ensures { IsRead result (value_named (view from.now) name.now) }
{
    match name {
        "LoadLocal" => load_local(alloc, from),
        "LoadGlobal" => load_global(alloc, from),
        "StoreLocal" => store_local(alloc, from),
        "LoadContext" => load_context(alloc, from),
        "DeclareLocal" => declare_local(alloc, from),
        "DeclareContext" => declare_context(alloc, from),
        "StoreContext" => store_context(alloc, from),
        "Destructure" => destructure(alloc, from),
        "StoreGlobal" => store_global(alloc, from),
        "PrefixUpdate" => prefix_update(alloc, from),
        "PostfixUpdate" => postfix_update(alloc, from),
        _ => expressions::value_named(alloc, name, from),
    }
}

#[tactic(auto, unfolding(crate::specs::Kinds::Variables::load_local_of))]
fn load_local(alloc: Global, from: &Value) -> Result<InstructionValue, Refusal>
    ensures { IsRead result (load_local_of (view from.now)) }
{
    let (_, place, span) = three_fields(from, "k", "place", "span")?;
    let place = required(alloc, place)?;
    let span = optional(alloc, span)?;
    Ok(InstructionValue::LoadLocal { place, span })
}

#[tactic(auto, unfolding(crate::specs::Kinds::Variables::load_context_of))]
fn load_context(alloc: Global, from: &Value) -> Result<InstructionValue, Refusal>
    ensures { IsRead result (load_context_of (view from.now)) }
{
    let (_, place, span) = three_fields(from, "k", "place", "span")?;
    let place = required(alloc, place)?;
    let span = optional(alloc, span)?;
    Ok(InstructionValue::LoadContext { place, span })
}

#[tactic(auto, unfolding(crate::specs::Kinds::Variables::declare_local_of))]
fn declare_local(alloc: Global, from: &Value) -> Result<InstructionValue, Refusal>
    ensures { IsRead result (declare_local_of (view from.now)) }
{
    let (_, lvalue, span) = three_fields(from, "k", "lvalue", "span")?;
    let lvalue = required(alloc, lvalue)?;
    let span = optional(alloc, span)?;
    Ok(InstructionValue::DeclareLocal { lvalue, span })
}

#[tactic(auto, unfolding(crate::specs::Kinds::Variables::declare_context_of))]
fn declare_context(alloc: Global, from: &Value) -> Result<InstructionValue, Refusal>
    ensures { IsRead result (declare_context_of (view from.now)) }
{
    let (_, lvalue, span) = three_fields(from, "k", "lvalue", "span")?;
    let lvalue = required(alloc, lvalue)?;
    let span = optional(alloc, span)?;
    Ok(InstructionValue::DeclareContext { lvalue, span })
}

#[tactic(auto, unfolding(crate::specs::Kinds::Variables::store_local_of))]
fn store_local(alloc: Global, from: &Value) -> Result<InstructionValue, Refusal>
    ensures { IsRead result (store_local_of (view from.now)) }
{
    let (_, lvalue, span, value) = four_fields(from, "k", "lvalue", "span", "value")?;
    let lvalue = required(alloc, lvalue)?;
    let value = required(alloc, value)?;
    let span = optional(alloc, span)?;
    Ok(InstructionValue::StoreLocal {
        lvalue,
        value,
        span,
    })
}

#[tactic(auto, unfolding(crate::specs::Kinds::Variables::store_context_of))]
fn store_context(alloc: Global, from: &Value) -> Result<InstructionValue, Refusal>
    ensures { IsRead result (store_context_of (view from.now)) }
{
    let (_, lvalue, span, value) = four_fields(from, "k", "lvalue", "span", "value")?;
    let lvalue = required(alloc, lvalue)?;
    let value = required(alloc, value)?;
    let span = optional(alloc, span)?;
    Ok(InstructionValue::StoreContext {
        lvalue,
        value,
        span,
    })
}

#[tactic(auto, unfolding(crate::specs::Kinds::Variables::destructure_of))]
fn destructure(alloc: Global, from: &Value) -> Result<InstructionValue, Refusal>
    ensures { IsRead result (destructure_of (view from.now)) }
{
    let (_, lvalue, span, value) = four_fields(from, "k", "lvalue", "span", "value")?;
    let lvalue = required(alloc, lvalue)?;
    let value = required(alloc, value)?;
    let span = optional(alloc, span)?;
    Ok(InstructionValue::Destructure {
        lvalue,
        value,
        span,
    })
}

#[tactic(auto, unfolding(crate::specs::Kinds::Variables::load_global_of))]
fn load_global(alloc: Global, from: &Value) -> Result<InstructionValue, Refusal>
    ensures { IsRead result (load_global_of (view from.now)) }
{
    let (binding, _, span) = three_fields(from, "binding", "k", "span")?;
    let binding = required(alloc, binding)?;
    let span = optional(alloc, span)?;
    Ok(InstructionValue::LoadGlobal { binding, span })
}

#[tactic(auto, unfolding(crate::specs::Kinds::Variables::store_global_of))]
fn store_global(alloc: Global, from: &Value) -> Result<InstructionValue, Refusal>
    ensures { IsRead result (store_global_of (view from.now)) }
{
    let (_, name, span, value) = four_fields(from, "k", "name", "span", "value")?;
    let name = required(alloc, name)?;
    let value = required(alloc, value)?;
    let span = optional(alloc, span)?;
    Ok(InstructionValue::StoreGlobal { name, value, span })
}

#[tactic(auto, unfolding(crate::specs::Kinds::Variables::prefix_update_of))]
fn prefix_update(alloc: Global, from: &Value) -> Result<InstructionValue, Refusal>
    ensures { IsRead result (prefix_update_of (view from.now)) }
{
    let (_, lvalue, operation, span, value) = five_fields(
        from,
        "k",
        "lvalue",
        "operation",
        "span",
        "value",
    )?;
    let lvalue = required(alloc, lvalue)?;
    let operation = required(alloc, operation)?;
    let value = required(alloc, value)?;
    let span = optional(alloc, span)?;
    Ok(InstructionValue::PrefixUpdate {
        lvalue,
        operation,
        value,
        span,
    })
}

#[tactic(auto, unfolding(crate::specs::Kinds::Variables::postfix_update_of))]
fn postfix_update(alloc: Global, from: &Value) -> Result<InstructionValue, Refusal>
    ensures { IsRead result (postfix_update_of (view from.now)) }
{
    let (_, lvalue, operation, span, value) = five_fields(
        from,
        "k",
        "lvalue",
        "operation",
        "span",
        "value",
    )?;
    let lvalue = required(alloc, lvalue)?;
    let operation = required(alloc, operation)?;
    let value = required(alloc, value)?;
    let span = optional(alloc, span)?;
    Ok(InstructionValue::PostfixUpdate {
        lvalue,
        operation,
        value,
        span,
    })
}
