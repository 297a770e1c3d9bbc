//! Readers of the kinds that call, that make functions, and that mark a place in the source.

ghost use Rattle.std.specs.Prelude.{◌++◌};
ghost use Rattle.serde_json.specs.View.{view};
ghost use Rattle.rc_doc.specs.Kinds.Calls.{call_expression_of, call_kinds, debugger_of, finish_memoize_of};
ghost use Rattle.rc_doc.specs.Kinds.Calls.{function_expression_of, method_call_of, new_expression_of, object_method_of};
ghost use Rattle.rc_doc.specs.Kinds.Calls.{start_memoize_of};
ghost use Rattle.rc_doc.specs.Kinds.Objects.{object_kinds};
ghost use Rattle.rc_doc.specs.Reading.{IsRead, variant};

use crate::fields::{flag, list_or_empty, optional, required};
use crate::members::{five_fields, four_fields, three_fields, two_fields};
use crate::read::instruction::objects;
use crate::refusal::Refusal;
use rc_hir::InstructionValue;
use serde_json::Value;
use std::alloc::Global;

/// The value of the kind with this name, of this family or of one after it.
pub(super) fn value_named(
    alloc: Global,
    name: &str,
    from: &Value,
) -> Result<InstructionValue, Refusal>
    ensures { IsRead result (variant (call_kinds (view from.now) ++ object_kinds (view from.now)) name.now) }
{
    match name {
        "MethodCall" => method_call(alloc, from),
        "CallExpression" => call_expression(alloc, from),
        "FunctionExpression" => function_expression(alloc, from),
        "NewExpression" => new_expression(alloc, from),
        "ObjectMethod" => object_method(alloc, from),
        "Debugger" => debugger(alloc, from),
        "StartMemoize" => start_memoize(alloc, from),
        "FinishMemoize" => finish_memoize(alloc, from),
        _ => objects::value_named(alloc, name, from),
    }
}

#[tactic(auto, unfolding(crate::specs::Kinds::Calls::new_expression_of))]
fn new_expression(alloc: Global, from: &Value) -> Result<InstructionValue, Refusal>
    ensures { IsRead result (new_expression_of (view from.now)) }
{
    let (args, callee, _, span) = four_fields(from, "args", "callee", "k", "span")?;
    let callee = required(alloc, callee)?;
    let args = list_or_empty(alloc, args)?;
    let span = optional(alloc, span)?;
    Ok(InstructionValue::NewExpression { callee, args, span })
}

#[tactic(auto, unfolding(crate::specs::Kinds::Calls::call_expression_of))]
fn call_expression(alloc: Global, from: &Value) -> Result<InstructionValue, Refusal>
    ensures { IsRead result (call_expression_of (view from.now)) }
{
    let (args, callee, _, span) = four_fields(from, "args", "callee", "k", "span")?;
    let callee = required(alloc, callee)?;
    let args = list_or_empty(alloc, args)?;
    let span = optional(alloc, span)?;
    Ok(InstructionValue::CallExpression { callee, args, span })
}

#[tactic(auto, unfolding(crate::specs::Kinds::Calls::method_call_of))]
fn method_call(alloc: Global, from: &Value) -> Result<InstructionValue, Refusal>
    ensures { IsRead result (method_call_of (view from.now)) }
{
    let (args, _, property, receiver, span) = five_fields(
        from, "args", "k", "property", "receiver", "span",
    )?;
    let receiver = required(alloc, receiver)?;
    let property = required(alloc, property)?;
    let args = list_or_empty(alloc, args)?;
    let span = optional(alloc, span)?;
    Ok(InstructionValue::MethodCall {
        receiver,
        property,
        args,
        span,
    })
}

#[tactic(auto, unfolding(crate::specs::Kinds::Calls::object_method_of))]
fn object_method(alloc: Global, from: &Value) -> Result<InstructionValue, Refusal>
    ensures { IsRead result (object_method_of (view from.now)) }
{
    let (_, lowered_func, span) = three_fields(from, "k", "lowered_func", "span")?;
    let lowered_func = required(alloc, lowered_func)?;
    let span = optional(alloc, span)?;
    Ok(InstructionValue::ObjectMethod { lowered_func, span })
}

#[tactic(auto, unfolding(crate::specs::Kinds::Calls::function_expression_of))]
fn function_expression(alloc: Global, from: &Value) -> Result<InstructionValue, Refusal>
    ensures { IsRead result (function_expression_of (view from.now)) }
{
    let (_, lowered_func, name, span) = four_fields(from, "k", "lowered_func", "name", "span")?;
    let name = optional(alloc, name)?;
    let lowered_func = required(alloc, lowered_func)?;
    let span = optional(alloc, span)?;
    Ok(InstructionValue::FunctionExpression {
        name,
        lowered_func,
        span,
    })
}

#[tactic(auto, unfolding(crate::specs::Kinds::Calls::debugger_of))]
fn debugger(alloc: Global, from: &Value) -> Result<InstructionValue, Refusal>
    ensures { IsRead result (debugger_of (view from.now)) }
{
    let (_, span) = two_fields(from, "k", "span")?;
    let span = optional(alloc, span)?;
    Ok(InstructionValue::Debugger { span })
}

#[tactic(auto, unfolding(crate::specs::Kinds::Calls::start_memoize_of))]
fn start_memoize(alloc: Global, from: &Value) -> Result<InstructionValue, Refusal>
    ensures { IsRead result (start_memoize_of (view from.now)) }
{
    let (deps, _, manual_memo_id, span) = four_fields(from, "deps", "k", "manual_memo_id", "span")?;
    let manual_memo_id = required(alloc, manual_memo_id)?;
    let deps = list_or_empty(alloc, deps)?;
    let span = optional(alloc, span)?;
    Ok(InstructionValue::StartMemoize {
        manual_memo_id,
        deps,
        span,
    })
}

#[tactic(auto, unfolding(crate::specs::Kinds::Calls::finish_memoize_of))]
fn finish_memoize(alloc: Global, from: &Value) -> Result<InstructionValue, Refusal>
    ensures { IsRead result (finish_memoize_of (view from.now)) }
{
    let (decl, _, manual_memo_id, pruned, span) = five_fields(
        from,
        "decl",
        "k",
        "manual_memo_id",
        "pruned",
        "span",
    )?;
    let manual_memo_id = required(alloc, manual_memo_id)?;
    let decl = required(alloc, decl)?;
    let pruned = flag(pruned)?;
    let span = optional(alloc, span)?;
    Ok(InstructionValue::FinishMemoize {
        manual_memo_id,
        decl,
        pruned,
        span,
    })
}
