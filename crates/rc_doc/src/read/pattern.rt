//! Readers of patterns, and of the parts that they share with literals.

ghost use Rattle.std.specs.Prelude.{◌≡◌};
ghost use Rattle.serde_json.specs.View.{view};
ghost use Rattle.rc_doc.specs.Patterns.{array_pattern_of, element_of, pattern_element_of, filled_element_of};
ghost use Rattle.rc_doc.specs.Patterns.{filled_pattern_element_of, kind_named, kind_of, lvalue_of, lvalue_pattern_of};
ghost use Rattle.rc_doc.specs.Patterns.{object_pattern_of, object_property_of, pattern_of, property_key_of};
ghost use Rattle.rc_doc.specs.Patterns.{property_literal_of, property_of};
ghost use Rattle.rc_doc.specs.Reading.{IsRead};

use crate::fields::{Read, list_or_empty, or_refuse, required, tag, variant_name};
use crate::members::two_fields;
use crate::refusal::Refusal;
use rc_hir::{
    ArrayElement, ArrayPatternElement, InstructionKind, LValue, LValuePattern, ObjectProperty,
    ObjectPropertyKey, ObjectPropertyOrSpread, Pattern, PropertyLiteral,
};
use serde_json::Value;
use std::alloc::Global;

fn kind_named(name: &str) -> Option<InstructionKind>
    ensures { result ≡ kind_named name.now }
{
    match name {
        "Const" => Some(InstructionKind::Const),
        "Let" => Some(InstructionKind::Let),
        "Reassign" => Some(InstructionKind::Reassign),
        "Catch" => Some(InstructionKind::Catch),
        "Function" => Some(InstructionKind::Function),
        "HoistedConst" => Some(InstructionKind::HoistedConst),
        "HoistedLet" => Some(InstructionKind::HoistedLet),
        "HoistedFunction" => Some(InstructionKind::HoistedFunction),
        _ => None,
    }
}

impl Read for InstructionKind {
    ghost reads = { kind_of };

    fn read(_alloc: Global, value: &Value) -> Result<InstructionKind, Refusal> {
        let name = or_refuse(value.as_str())?;
        or_refuse(kind_named(name))
    }
}

impl Read for LValue {
    ghost reads = { lvalue_of };

    #[tactic(auto, unfolding(crate::specs::Patterns::lvalue_of))]
    fn read(alloc: Global, value: &Value) -> Result<LValue, Refusal> {
        let (kind, place) = two_fields(value, "kind", "place")?;
        let kind = required(alloc, kind)?;
        let place = required(alloc, place)?;
        Ok(LValue { kind, place })
    }
}

impl Read for PropertyLiteral {
    ghost reads = { property_literal_of };

    #[tactic(auto, unfolding(crate::specs::Patterns::property_literal_of))]
    fn read(alloc: Global, value: &Value) -> Result<PropertyLiteral, Refusal> {
        let (k, v) = two_fields(value, "k", "v")?;
        match variant_name(k) {
            Some("String") => Ok(PropertyLiteral::String(required(alloc, v)?)),
            Some("Number") => Ok(PropertyLiteral::Number(required(alloc, v)?)),
            _ => Err(Refusal::NotDoc),
        }
    }
}

impl Read for ObjectPropertyKey {
    ghost reads = { property_key_of };

    #[tactic(auto, unfolding(crate::specs::Patterns::property_key_of))]
    fn read(alloc: Global, value: &Value) -> Result<ObjectPropertyKey, Refusal> {
        let (k, v) = two_fields(value, "k", "v")?;
        match variant_name(k) {
            Some("Identifier") => Ok(ObjectPropertyKey::Identifier(required(alloc, v)?)),
            Some("String") => Ok(ObjectPropertyKey::String(required(alloc, v)?)),
            Some("Number") => Ok(ObjectPropertyKey::Number(required(alloc, v)?)),
            Some("Computed") => Ok(ObjectPropertyKey::Computed(required(alloc, v)?)),
            _ => Err(Refusal::NotDoc),
        }
    }
}

impl Read for ObjectProperty {
    ghost reads = { object_property_of };

    #[tactic(auto, unfolding(crate::specs::Patterns::object_property_of))]
    fn read(alloc: Global, value: &Value) -> Result<ObjectProperty, Refusal> {
        let (key, place) = two_fields(value, "key", "place")?;
        let key = required(alloc, key)?;
        let place = required(alloc, place)?;
        Ok(ObjectProperty { key, place })
    }
}

impl Read for ObjectPropertyOrSpread {
    ghost reads = { property_of };

    #[tactic(auto, unfolding(crate::specs::Patterns::property_of))]
    fn read(alloc: Global, value: &Value) -> Result<ObjectPropertyOrSpread, Refusal> {
        let (k, v) = two_fields(value, "k", "v")?;
        match variant_name(k) {
            Some("Property") => { Ok(ObjectPropertyOrSpread::Property(required(alloc, v)?)) }
            Some("Spread") => Ok(ObjectPropertyOrSpread::Spread(required(alloc, v)?)),
            _ => Err(Refusal::NotDoc),
        }
    }
}

#[tactic(auto, unfolding(crate::specs::Patterns::filled_pattern_element_of))]
fn filled_pattern_element(alloc: Global, value: &Value) -> Result<ArrayPatternElement, Refusal>
    ensures { IsRead result (filled_pattern_element_of (view value.now)) }
{
    let (k, v) = two_fields(value, "k", "v")?;
    match variant_name(k) {
        Some("Place") => Ok(ArrayPatternElement::Place(required(alloc, v)?)),
        Some("Spread") => Ok(ArrayPatternElement::Spread(required(alloc, v)?)),
        _ => Err(Refusal::NotDoc),
    }
}

impl Read for ArrayPatternElement {
    ghost reads = { pattern_element_of };

    fn read(alloc: Global, value: &Value) -> Result<ArrayPatternElement, Refusal> {
        match value.as_str() {
            Some("Hole") => Ok(ArrayPatternElement::Hole),
            Some(_) => Err(Refusal::NotDoc),
            None => filled_pattern_element(alloc, value),
        }
    }
}

#[tactic(auto, unfolding(crate::specs::Patterns::filled_element_of))]
fn filled_element(alloc: Global, value: &Value) -> Result<ArrayElement, Refusal>
    ensures { IsRead result (filled_element_of (view value.now)) }
{
    let (k, v) = two_fields(value, "k", "v")?;
    match variant_name(k) {
        Some("Place") => Ok(ArrayElement::Place(required(alloc, v)?)),
        Some("Spread") => Ok(ArrayElement::Spread(required(alloc, v)?)),
        _ => Err(Refusal::NotDoc),
    }
}

impl Read for ArrayElement {
    ghost reads = { element_of };

    fn read(alloc: Global, value: &Value) -> Result<ArrayElement, Refusal> {
        match value.as_str() {
            Some("Hole") => Ok(ArrayElement::Hole),
            Some(_) => Err(Refusal::NotDoc),
            None => filled_element(alloc, value),
        }
    }
}

#[tactic(auto, unfolding(crate::specs::Patterns::array_pattern_of))]
fn array_pattern(alloc: Global, value: &Value) -> Result<Pattern, Refusal>
    ensures { IsRead result (array_pattern_of (view value.now)) }
{
    let (items, _) = two_fields(value, "items", "k")?;
    let items = list_or_empty(alloc, items)?;
    Ok(Pattern::Array { items })
}

#[tactic(auto, unfolding(crate::specs::Patterns::object_pattern_of))]
fn object_pattern(alloc: Global, value: &Value) -> Result<Pattern, Refusal>
    ensures { IsRead result (object_pattern_of (view value.now)) }
{
    let (_, properties) = two_fields(value, "k", "properties")?;
    let properties = list_or_empty(alloc, properties)?;
    Ok(Pattern::Object { properties })
}

impl Read for Pattern {
    ghost reads = { pattern_of };

    #[tactic(auto, unfolding(crate::specs::Patterns::pattern_of))]
    fn read(alloc: Global, value: &Value) -> Result<Pattern, Refusal> {
        match tag(value) {
            Some("Array") => array_pattern(alloc, value),
            Some("Object") => object_pattern(alloc, value),
            _ => Err(Refusal::NotDoc),
        }
    }
}

impl Read for LValuePattern {
    ghost reads = { lvalue_pattern_of };

    #[tactic(auto, unfolding(crate::specs::Patterns::lvalue_pattern_of))]
    fn read(alloc: Global, value: &Value) -> Result<LValuePattern, Refusal> {
        let (kind, pattern) = two_fields(value, "kind", "pattern")?;
        let kind = required(alloc, kind)?;
        let pattern = required(alloc, pattern)?;
        Ok(LValuePattern { kind, pattern })
    }
}
