//! Readers of the kinds that compute a value from texts and operands.

ghost use Rattle.std.specs.Prelude.{◌++◌};
ghost use Rattle.serde_json.specs.View.{view};
ghost use Rattle.rc_doc.specs.Kinds.Calls.{call_kinds};
ghost use Rattle.rc_doc.specs.Kinds.Expressions.{await_of, binary_expression_of, expression_kinds, get_iterator_of};
ghost use Rattle.rc_doc.specs.Kinds.Expressions.{iterator_next_of, jsx_text_of, meta_property_of, next_property_of_of};
ghost use Rattle.rc_doc.specs.Kinds.Expressions.{primitive_of, regexp_literal_of, tagged_template_expression_of};
ghost use Rattle.rc_doc.specs.Kinds.Expressions.{template_literal_of, type_cast_expression_of, unary_expression_of};
ghost use Rattle.rc_doc.specs.Kinds.Objects.{object_kinds};
ghost use Rattle.rc_doc.specs.Reading.{IsRead, variant};

use crate::fields::{list_or_empty, optional, required};
use crate::members::{five_fields, four_fields, three_fields};
use crate::read::instruction::calls;
use crate::refusal::Refusal;
use rc_hir::InstructionValue;
use serde_json::Value;
use std::alloc::Global;

/// The value of the kind with this name, of this family or of one after it.
pub(super) fn value_named(
    alloc: Global,
    name: &str,
    from: &Value,
) -> Result<InstructionValue, Refusal>
    ensures { IsRead result (variant (expression_kinds (view from.now) ++ call_kinds (view from.now) ++ object_kinds (view from.now)) name.now) }
{
    match name {
        "Primitive" => primitive(alloc, from),
        "JSXText" => jsx_text(alloc, from),
        "BinaryExpression" => binary_expression(alloc, from),
        "UnaryExpression" => unary_expression(alloc, from),
        "TypeCastExpression" => type_cast_expression(alloc, from),
        "Await" => await_value(alloc, from),
        "RegExpLiteral" => regexp_literal(alloc, from),
        "MetaProperty" => meta_property(alloc, from),
        "TaggedTemplateExpression" => tagged_template_expression(alloc, from),
        "TemplateLiteral" => template_literal(alloc, from),
        "GetIterator" => get_iterator(alloc, from),
        "IteratorNext" => iterator_next(alloc, from),
        "NextPropertyOf" => next_property_of(alloc, from),
        _ => calls::value_named(alloc, name, from),
    }
}

#[tactic(auto, unfolding(crate::specs::Kinds::Expressions::primitive_of))]
fn primitive(alloc: Global, from: &Value) -> Result<InstructionValue, Refusal>
    ensures { IsRead result (primitive_of (view from.now)) }
{
    let (_, span, value) = three_fields(from, "k", "span", "value")?;
    let value = required(alloc, value)?;
    let span = optional(alloc, span)?;
    Ok(InstructionValue::Primitive { value, span })
}

#[tactic(auto, unfolding(crate::specs::Kinds::Expressions::jsx_text_of))]
fn jsx_text(alloc: Global, from: &Value) -> Result<InstructionValue, Refusal>
    ensures { IsRead result (jsx_text_of (view from.now)) }
{
    let (_, span, value) = three_fields(from, "k", "span", "value")?;
    let value = required(alloc, value)?;
    let span = optional(alloc, span)?;
    Ok(InstructionValue::JSXText { value, span })
}

#[tactic(auto, unfolding(crate::specs::Kinds::Expressions::binary_expression_of))]
fn binary_expression(alloc: Global, from: &Value) -> Result<InstructionValue, Refusal>
    ensures { IsRead result (binary_expression_of (view from.now)) }
{
    let (_, left, operator, right, span) = five_fields(
        from, "k", "left", "operator", "right", "span",
    )?;
    let operator = required(alloc, operator)?;
    let left = required(alloc, left)?;
    let right = required(alloc, right)?;
    let span = optional(alloc, span)?;
    Ok(InstructionValue::BinaryExpression {
        operator,
        left,
        right,
        span,
    })
}

#[tactic(auto, unfolding(crate::specs::Kinds::Expressions::unary_expression_of))]
fn unary_expression(alloc: Global, from: &Value) -> Result<InstructionValue, Refusal>
    ensures { IsRead result (unary_expression_of (view from.now)) }
{
    let (_, operator, span, value) = four_fields(from, "k", "operator", "span", "value")?;
    let operator = required(alloc, operator)?;
    let value = required(alloc, value)?;
    let span = optional(alloc, span)?;
    Ok(InstructionValue::UnaryExpression {
        operator,
        value,
        span,
    })
}

#[tactic(auto, unfolding(crate::specs::Kinds::Expressions::type_cast_expression_of))]
fn type_cast_expression(alloc: Global, from: &Value) -> Result<InstructionValue, Refusal>
    ensures { IsRead result (type_cast_expression_of (view from.now)) }
{
    let (annotation, _, span, value) = four_fields(from, "annotation", "k", "span", "value")?;
    let value = required(alloc, value)?;
    let annotation = required(alloc, annotation)?;
    let span = optional(alloc, span)?;
    Ok(InstructionValue::TypeCastExpression {
        value,
        annotation,
        span,
    })
}

#[tactic(auto, unfolding(crate::specs::Kinds::Expressions::await_of))]
fn await_value(alloc: Global, from: &Value) -> Result<InstructionValue, Refusal>
    ensures { IsRead result (await_of (view from.now)) }
{
    let (_, span, value) = three_fields(from, "k", "span", "value")?;
    let value = required(alloc, value)?;
    let span = optional(alloc, span)?;
    Ok(InstructionValue::Await { value, span })
}

#[tactic(auto, unfolding(crate::specs::Kinds::Expressions::regexp_literal_of))]
fn regexp_literal(alloc: Global, from: &Value) -> Result<InstructionValue, Refusal>
    ensures { IsRead result (regexp_literal_of (view from.now)) }
{
    let (flags, _, pattern, span) = four_fields(from, "flags", "k", "pattern", "span")?;
    let pattern = required(alloc, pattern)?;
    let flags = required(alloc, flags)?;
    let span = optional(alloc, span)?;
    Ok(InstructionValue::RegExpLiteral {
        pattern,
        flags,
        span,
    })
}

#[tactic(auto, unfolding(crate::specs::Kinds::Expressions::meta_property_of))]
fn meta_property(alloc: Global, from: &Value) -> Result<InstructionValue, Refusal>
    ensures { IsRead result (meta_property_of (view from.now)) }
{
    let (_, meta, property, span) = four_fields(from, "k", "meta", "property", "span")?;
    let meta = required(alloc, meta)?;
    let property = required(alloc, property)?;
    let span = optional(alloc, span)?;
    Ok(InstructionValue::MetaProperty {
        meta,
        property,
        span,
    })
}

#[tactic(auto, unfolding(crate::specs::Kinds::Expressions::tagged_template_expression_of))]
fn tagged_template_expression(alloc: Global, from: &Value) -> Result<InstructionValue, Refusal>
    ensures { IsRead result (tagged_template_expression_of (view from.now)) }
{
    let (_, quasi, span, tag) = four_fields(from, "k", "quasi", "span", "tag")?;
    let tag = required(alloc, tag)?;
    let quasi = required(alloc, quasi)?;
    let span = optional(alloc, span)?;
    Ok(InstructionValue::TaggedTemplateExpression { tag, quasi, span })
}

#[tactic(auto, unfolding(crate::specs::Kinds::Expressions::template_literal_of))]
fn template_literal(alloc: Global, from: &Value) -> Result<InstructionValue, Refusal>
    ensures { IsRead result (template_literal_of (view from.now)) }
{
    let (_, quasis, span, subexprs) = four_fields(from, "k", "quasis", "span", "subexprs")?;
    let subexprs = list_or_empty(alloc, subexprs)?;
    let quasis = list_or_empty(alloc, quasis)?;
    let span = optional(alloc, span)?;
    Ok(InstructionValue::TemplateLiteral {
        subexprs,
        quasis,
        span,
    })
}

#[tactic(auto, unfolding(crate::specs::Kinds::Expressions::get_iterator_of))]
fn get_iterator(alloc: Global, from: &Value) -> Result<InstructionValue, Refusal>
    ensures { IsRead result (get_iterator_of (view from.now)) }
{
    let (collection, _, span) = three_fields(from, "collection", "k", "span")?;
    let collection = required(alloc, collection)?;
    let span = optional(alloc, span)?;
    Ok(InstructionValue::GetIterator { collection, span })
}

#[tactic(auto, unfolding(crate::specs::Kinds::Expressions::iterator_next_of))]
fn iterator_next(alloc: Global, from: &Value) -> Result<InstructionValue, Refusal>
    ensures { IsRead result (iterator_next_of (view from.now)) }
{
    let (collection, iterator, _, span) = four_fields(from, "collection", "iterator", "k", "span")?;
    let iterator = required(alloc, iterator)?;
    let collection = required(alloc, collection)?;
    let span = optional(alloc, span)?;
    Ok(InstructionValue::IteratorNext {
        iterator,
        collection,
        span,
    })
}

#[tactic(auto, unfolding(crate::specs::Kinds::Expressions::next_property_of_of))]
fn next_property_of(alloc: Global, from: &Value) -> Result<InstructionValue, Refusal>
    ensures { IsRead result (next_property_of_of (view from.now)) }
{
    let (_, span, value) = three_fields(from, "k", "span", "value")?;
    let value = required(alloc, value)?;
    let span = optional(alloc, span)?;
    Ok(InstructionValue::NextPropertyOf { value, span })
}
