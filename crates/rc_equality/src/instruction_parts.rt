//! Equality of the parts of the 42 kinds.

use crate::Equals;
use rc_hir::{JsxAttribute, JsxTag, NonLocalBinding, PrimitiveValue};

impl Equals for PrimitiveValue {
    fn equals(&self, other: &PrimitiveValue) -> bool {
        match (self, other) {
            (PrimitiveValue::Null, PrimitiveValue::Null) => true,
            (PrimitiveValue::Undefined, PrimitiveValue::Undefined) => true,
            (PrimitiveValue::Boolean(value), PrimitiveValue::Boolean(its)) => value == its,
            (PrimitiveValue::Number(text), PrimitiveValue::Number(its)) => text.equals(its),
            (PrimitiveValue::String(text), PrimitiveValue::String(its)) => text.equals(its),
            _ => false,
        }
    }
}

impl Equals for NonLocalBinding {
    fn equals(&self, other: &NonLocalBinding) -> bool {
        match (self, other) {
            (NonLocalBinding::Global { name }, NonLocalBinding::Global { name: its_name }) => {
                name.equals(its_name)
            }
            (
                NonLocalBinding::Module { name, module },
                NonLocalBinding::Module {
                    name: its_name,
                    module: its_module,
                },
            ) => name.equals(its_name) && module.equals(its_module),
            _ => false,
        }
    }
}

impl Equals for JsxTag {
    fn equals(&self, other: &JsxTag) -> bool {
        match (self, other) {
            (JsxTag::Place(place), JsxTag::Place(its)) => place == its,
            (JsxTag::Builtin(name), JsxTag::Builtin(its)) => name.equals(its),
            _ => false,
        }
    }
}

impl Equals for JsxAttribute {
    fn equals(&self, other: &JsxAttribute) -> bool {
        match (self, other) {
            (
                JsxAttribute::Attribute { name, place },
                JsxAttribute::Attribute {
                    name: its_name,
                    place: its_place,
                },
            ) => name.equals(its_name) && place == its_place,
            (
                JsxAttribute::SpreadAttribute { argument },
                JsxAttribute::SpreadAttribute {
                    argument: its_argument,
                },
            ) => argument == its_argument,
            _ => false,
        }
    }
}
