//! Readers of the kinds that make objects, arrays and JSX, and that reach into them.

ghost use Rattle.serde_json.specs.View.{view};
ghost use Rattle.rc_doc.specs.Kinds.Objects.{array_expression_of, computed_delete_of, computed_load_of};
ghost use Rattle.rc_doc.specs.Kinds.Objects.{computed_store_of, jsx_expression_of, jsx_fragment_of};
ghost use Rattle.rc_doc.specs.Kinds.Objects.{object_expression_of, object_kinds, property_delete_of, property_load_of};
ghost use Rattle.rc_doc.specs.Kinds.Objects.{property_store_of};
ghost use Rattle.rc_doc.specs.Reading.{IsRead, variant};

use crate::fields::{list_or_empty, optional, required};
use crate::members::{five_fields, four_fields, three_fields};
use crate::refusal::Refusal;
use rc_hir::InstructionValue;
use serde_json::Value;
use std::alloc::Global;

/// The value of the kind of this family with this name.
pub(super) fn value_named(
    alloc: Global,
    name: &str,
    from: &Value,
) -> Result<InstructionValue, Refusal>
    ensures { IsRead result (variant (object_kinds (view from.now)) name.now) }
{
    match name {
        "PropertyLoad" => property_load(alloc, from),
        "PropertyStore" => property_store(alloc, from),
        "ComputedLoad" => computed_load(alloc, from),
        "ObjectExpression" => object_expression(alloc, from),
        "ArrayExpression" => array_expression(alloc, from),
        "JsxExpression" => jsx_expression(alloc, from),
        "JsxFragment" => jsx_fragment(alloc, from),
        "PropertyDelete" => property_delete(alloc, from),
        "ComputedDelete" => computed_delete(alloc, from),
        "ComputedStore" => computed_store(alloc, from),
        _ => Err(Refusal::NotDoc),
    }
}

#[tactic(auto, unfolding(crate::specs::Kinds::Objects::object_expression_of))]
fn object_expression(alloc: Global, from: &Value) -> Result<InstructionValue, Refusal>
    ensures { IsRead result (object_expression_of (view from.now)) }
{
    let (_, properties, span) = three_fields(from, "k", "properties", "span")?;
    let properties = list_or_empty(alloc, properties)?;
    let span = optional(alloc, span)?;
    Ok(InstructionValue::ObjectExpression { properties, span })
}

#[tactic(auto, unfolding(crate::specs::Kinds::Objects::array_expression_of))]
fn array_expression(alloc: Global, from: &Value) -> Result<InstructionValue, Refusal>
    ensures { IsRead result (array_expression_of (view from.now)) }
{
    let (elements, _, span) = three_fields(from, "elements", "k", "span")?;
    let elements = list_or_empty(alloc, elements)?;
    let span = optional(alloc, span)?;
    Ok(InstructionValue::ArrayExpression { elements, span })
}

#[tactic(auto, unfolding(crate::specs::Kinds::Objects::jsx_expression_of))]
fn jsx_expression(alloc: Global, from: &Value) -> Result<InstructionValue, Refusal>
    ensures { IsRead result (jsx_expression_of (view from.now)) }
{
    let (children, _, props, span, tag) = five_fields(
        from, "children", "k", "props", "span", "tag",
    )?;
    let tag = required(alloc, tag)?;
    let props = list_or_empty(alloc, props)?;
    let children = optional(alloc, children)?;
    let span = optional(alloc, span)?;
    Ok(InstructionValue::JsxExpression {
        tag,
        props,
        children,
        span,
    })
}

#[tactic(auto, unfolding(crate::specs::Kinds::Objects::jsx_fragment_of))]
fn jsx_fragment(alloc: Global, from: &Value) -> Result<InstructionValue, Refusal>
    ensures { IsRead result (jsx_fragment_of (view from.now)) }
{
    let (children, _, span) = three_fields(from, "children", "k", "span")?;
    let children = list_or_empty(alloc, children)?;
    let span = optional(alloc, span)?;
    Ok(InstructionValue::JsxFragment { children, span })
}

#[tactic(auto, unfolding(crate::specs::Kinds::Objects::property_load_of))]
fn property_load(alloc: Global, from: &Value) -> Result<InstructionValue, Refusal>
    ensures { IsRead result (property_load_of (view from.now)) }
{
    let (_, object, property, span) = four_fields(from, "k", "object", "property", "span")?;
    let object = required(alloc, object)?;
    let property = required(alloc, property)?;
    let span = optional(alloc, span)?;
    Ok(InstructionValue::PropertyLoad {
        object,
        property,
        span,
    })
}

#[tactic(auto, unfolding(crate::specs::Kinds::Objects::property_delete_of))]
fn property_delete(alloc: Global, from: &Value) -> Result<InstructionValue, Refusal>
    ensures { IsRead result (property_delete_of (view from.now)) }
{
    let (_, object, property, span) = four_fields(from, "k", "object", "property", "span")?;
    let object = required(alloc, object)?;
    let property = required(alloc, property)?;
    let span = optional(alloc, span)?;
    Ok(InstructionValue::PropertyDelete {
        object,
        property,
        span,
    })
}

#[tactic(auto, unfolding(crate::specs::Kinds::Objects::property_store_of))]
fn property_store(alloc: Global, from: &Value) -> Result<InstructionValue, Refusal>
    ensures { IsRead result (property_store_of (view from.now)) }
{
    let (_, object, property, span, value) = five_fields(
        from, "k", "object", "property", "span", "value",
    )?;
    let object = required(alloc, object)?;
    let property = required(alloc, property)?;
    let value = required(alloc, value)?;
    let span = optional(alloc, span)?;
    Ok(InstructionValue::PropertyStore {
        object,
        property,
        value,
        span,
    })
}

#[tactic(auto, unfolding(crate::specs::Kinds::Objects::computed_load_of))]
fn computed_load(alloc: Global, from: &Value) -> Result<InstructionValue, Refusal>
    ensures { IsRead result (computed_load_of (view from.now)) }
{
    let (_, object, property, span) = four_fields(from, "k", "object", "property", "span")?;
    let object = required(alloc, object)?;
    let property = required(alloc, property)?;
    let span = optional(alloc, span)?;
    Ok(InstructionValue::ComputedLoad {
        object,
        property,
        span,
    })
}

#[tactic(auto, unfolding(crate::specs::Kinds::Objects::computed_delete_of))]
fn computed_delete(alloc: Global, from: &Value) -> Result<InstructionValue, Refusal>
    ensures { IsRead result (computed_delete_of (view from.now)) }
{
    let (_, object, property, span) = four_fields(from, "k", "object", "property", "span")?;
    let object = required(alloc, object)?;
    let property = required(alloc, property)?;
    let span = optional(alloc, span)?;
    Ok(InstructionValue::ComputedDelete {
        object,
        property,
        span,
    })
}

#[tactic(auto, unfolding(crate::specs::Kinds::Objects::computed_store_of))]
fn computed_store(alloc: Global, from: &Value) -> Result<InstructionValue, Refusal>
    ensures { IsRead result (computed_store_of (view from.now)) }
{
    let (_, object, property, span, value) = five_fields(
        from, "k", "object", "property", "span", "value",
    )?;
    let object = required(alloc, object)?;
    let property = required(alloc, property)?;
    let value = required(alloc, value)?;
    let span = optional(alloc, span)?;
    Ok(InstructionValue::ComputedStore {
        object,
        property,
        value,
        span,
    })
}
