//! Readers of the parts of instruction values besides places, patterns and texts.

ghost use Rattle.serde_json.specs.View.{view};
ghost use Rattle.rc_doc.specs.Parts.{binding_of, global_of, jsx_attribute_of, jsx_tag_of, lowered_function_of};
ghost use Rattle.rc_doc.specs.Parts.{module_name_of, named_attribute_of, primitive_content_of, primitive_value_of};
ghost use Rattle.rc_doc.specs.Parts.{spread_attribute_of};
ghost use Rattle.rc_doc.specs.Reading.{IsRead};

use crate::fields::{Read, flag, required, tag, variant_name};
use crate::members::{one_field, three_fields, two_fields};
use crate::refusal::Refusal;
use rc_hir::{JsxAttribute, JsxTag, LoweredFunction, NonLocalBinding, PrimitiveValue};
use serde_json::Value;
use std::alloc::Global;

#[tactic(auto, unfolding(crate::specs::Parts::primitive_content_of))]
fn primitive_content(alloc: Global, value: &Value) -> Result<PrimitiveValue, Refusal>
    ensures { IsRead result (primitive_content_of (view value.now)) }
{
    let (k, v) = two_fields(value, "k", "v")?;
    match variant_name(k) {
        Some("Boolean") => Ok(PrimitiveValue::Boolean(flag(v)?)),
        Some("Number") => Ok(PrimitiveValue::Number(required(alloc, v)?)),
        Some("String") => Ok(PrimitiveValue::String(required(alloc, v)?)),
        _ => Err(Refusal::NotDoc),
    }
}

impl Read for PrimitiveValue {
    ghost reads = { primitive_value_of };

    fn read(alloc: Global, value: &Value) -> Result<PrimitiveValue, Refusal> {
        match value.as_str() {
            Some("Null") => Ok(PrimitiveValue::Null),
            Some("Undefined") => Ok(PrimitiveValue::Undefined),
            Some(_) => Err(Refusal::NotDoc),
            None => primitive_content(alloc, value),
        }
    }
}

#[tactic(auto, unfolding(crate::specs::Parts::global_of))]
fn global(alloc: Global, value: &Value) -> Result<NonLocalBinding, Refusal>
    ensures { IsRead result (global_of (view value.now)) }
{
    let (_, name) = two_fields(value, "k", "name")?;
    let name = required(alloc, name)?;
    Ok(NonLocalBinding::Global { name })
}

#[tactic(auto, unfolding(crate::specs::Parts::module_name_of))]
fn module_name(alloc: Global, value: &Value) -> Result<NonLocalBinding, Refusal>
    ensures { IsRead result (module_name_of (view value.now)) }
{
    let (_, module, name) = three_fields(value, "k", "module", "name")?;
    let name = required(alloc, name)?;
    let module = required(alloc, module)?;
    Ok(NonLocalBinding::Module { name, module })
}

impl Read for NonLocalBinding {
    ghost reads = { binding_of };

    #[tactic(auto, unfolding(crate::specs::Parts::binding_of))]
    fn read(alloc: Global, value: &Value) -> Result<NonLocalBinding, Refusal> {
        match tag(value) {
            Some("Global") => global(alloc, value),
            Some("Module") => module_name(alloc, value),
            _ => Err(Refusal::NotDoc),
        }
    }
}

impl Read for JsxTag {
    ghost reads = { jsx_tag_of };

    #[tactic(auto, unfolding(crate::specs::Parts::jsx_tag_of))]
    fn read(alloc: Global, value: &Value) -> Result<JsxTag, Refusal> {
        let (k, v) = two_fields(value, "k", "v")?;
        match variant_name(k) {
            Some("Place") => Ok(JsxTag::Place(required(alloc, v)?)),
            Some("Builtin") => Ok(JsxTag::Builtin(required(alloc, v)?)),
            _ => Err(Refusal::NotDoc),
        }
    }
}

#[tactic(auto, unfolding(crate::specs::Parts::named_attribute_of))]
fn named_attribute(alloc: Global, value: &Value) -> Result<JsxAttribute, Refusal>
    ensures { IsRead result (named_attribute_of (view value.now)) }
{
    let (_, name, place) = three_fields(value, "k", "name", "place")?;
    let name = required(alloc, name)?;
    let place = required(alloc, place)?;
    Ok(JsxAttribute::Attribute { name, place })
}

#[tactic(auto, unfolding(crate::specs::Parts::spread_attribute_of))]
fn spread_attribute(alloc: Global, value: &Value) -> Result<JsxAttribute, Refusal>
    ensures { IsRead result (spread_attribute_of (view value.now)) }
{
    let (argument, _) = two_fields(value, "argument", "k")?;
    let argument = required(alloc, argument)?;
    Ok(JsxAttribute::SpreadAttribute { argument })
}

impl Read for JsxAttribute {
    ghost reads = { jsx_attribute_of };

    #[tactic(auto, unfolding(crate::specs::Parts::jsx_attribute_of))]
    fn read(alloc: Global, value: &Value) -> Result<JsxAttribute, Refusal> {
        match tag(value) {
            Some("Attribute") => named_attribute(alloc, value),
            Some("SpreadAttribute") => spread_attribute(alloc, value),
            _ => Err(Refusal::NotDoc),
        }
    }
}

impl Read for LoweredFunction {
    ghost reads = { lowered_function_of };

    #[tactic(auto, unfolding(crate::specs::Parts::lowered_function_of))]
    fn read(alloc: Global, value: &Value) -> Result<LoweredFunction, Refusal> {
        let func = one_field(value, "func")?;
        let func = required(alloc, func)?;
        Ok(LoweredFunction { func })
    }
}
