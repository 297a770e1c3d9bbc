//! Readers of types and shapes.

ghost use Rattle.std.specs.Prelude.{◌≡◌};
ghost use Rattle.serde_json.specs.View.{view};
ghost use Rattle.rc_doc.specs.Environment.Types.{shape_named, shape_of, shape_row_number_of, shape_row_of};
ghost use Rattle.rc_doc.specs.Environment.Types.{shaped_type_of, type_of};
ghost use Rattle.rc_doc.specs.Reading.{IsRead};

use crate::fields::{Read, flag, optional, or_refuse, required, variant_name};
use crate::members::two_fields;
use crate::refusal::Refusal;
use rc_hir::{HirType, Shape, ShapeRow};
use serde_json::Value;
use std::alloc::Global;

fn shape_named(name: &str) -> Option<Shape>
    ensures { result ≡ shape_named name.now }
{
    match name {
        "Array" => Some(Shape::Array),
        "Object" => Some(Shape::Object),
        "Function" => Some(Shape::Function),
        "Jsx" => Some(Shape::Jsx),
        "UseRef" => Some(Shape::UseRef),
        "SetState" => Some(Shape::SetState),
        "SetActionState" => Some(Shape::SetActionState),
        "Dispatch" => Some(Shape::Dispatch),
        "StartTransition" => Some(Shape::StartTransition),
        "SetOptimistic" => Some(Shape::SetOptimistic),
        _ => None,
    }
}

#[tactic(auto, unfolding(crate::specs::Environment::Types::shape_row_number_of))]
fn shape_row_number(alloc: Global, value: &Value) -> Result<Shape, Refusal>
    ensures { IsRead result (shape_row_number_of (view value.now)) }
{
    let (k, v) = two_fields(value, "k", "v")?;
    match variant_name(k) {
        Some("Row") => Ok(Shape::Row(required(alloc, v)?)),
        _ => Err(Refusal::NotDoc),
    }
}

impl Read for Shape {
    ghost reads = { shape_of };

    fn read(alloc: Global, value: &Value) -> Result<Shape, Refusal> {
        match value.as_str() {
            Some(name) => or_refuse(shape_named(name)),
            None => shape_row_number(alloc, value),
        }
    }
}

#[tactic(auto, unfolding(crate::specs::Environment::Types::shaped_type_of))]
fn shaped_type(alloc: Global, value: &Value) -> Result<HirType, Refusal>
    ensures { IsRead result (shaped_type_of (view value.now)) }
{
    let (k, shape) = two_fields(value, "k", "shape")?;
    let name = or_refuse(variant_name(k))?;
    let shape = optional(alloc, shape)?;
    match name {
        "Object" => Ok(HirType::Object { shape }),
        "Function" => Ok(HirType::Function { shape }),
        _ => Err(Refusal::NotDoc),
    }
}

impl Read for HirType {
    ghost reads = { type_of };

    fn read(alloc: Global, value: &Value) -> Result<HirType, Refusal> {
        match value.as_str() {
            Some("Primitive") => Ok(HirType::Primitive),
            Some("Other") => Ok(HirType::Other),
            Some(_) => Err(Refusal::NotDoc),
            None => shaped_type(alloc, value),
        }
    }
}

impl Read for ShapeRow {
    ghost reads = { shape_row_of };

    #[tactic(auto, unfolding(crate::specs::Environment::Types::shape_row_of))]
    fn read(_alloc: Global, value: &Value) -> Result<ShapeRow, Refusal> {
        let (hook, no_alias) = two_fields(value, "hook", "no_alias")?;
        let hook = flag(hook)?;
        let no_alias = flag(no_alias)?;
        Ok(ShapeRow { hook, no_alias })
    }
}
