//! The printing form of the parts of instruction values besides places, patterns and texts.

ghost use Rattle.rc_doc.specs.Parts.{binding_of, jsx_attribute_of, jsx_tag_of, lowered_function_of, primitive_value_of};
ghost use Rattle.rc_show.specs.ShownParts.{binding_data, jsx_attribute_data, jsx_tag_data, lowered_function_data};
ghost use Rattle.rc_show.specs.ShownParts.{primitive_value_data};
ghost use Rattle.rc_show.specs.NotNull.{no_null_binding, no_null_jsx_attribute, no_null_jsx_tag};
ghost use Rattle.rc_show.specs.NotNull.{no_null_lowered_function, no_null_primitive_value};

use crate::fields::{Fields, NoFields, Show, send_variant};
use rc_hir::{JsxAttribute, JsxTag, LoweredFunction, NonLocalBinding, PrimitiveValue};
use serde::Serializer;

impl Show for PrimitiveValue {
    ghost reads = { primitive_value_of };

    ghost shows = { primitive_value_data };

    #[tactic(auto, using(crate::proofs::PartsReadBack::primitive_value_again, crate::proofs::SendingLemmas::text_sent), unfolding(crate::specs::ShownParts::primitive_value_data))]
    fn send<S: Serializer>(&self, out: &mut S) -> Result<(), S::Error> {
        match self {
            PrimitiveValue::Null => out.str("Null"),
            PrimitiveValue::Undefined => out.str("Undefined"),
            PrimitiveValue::Boolean(value) => send_variant(out, "Boolean", value),
            PrimitiveValue::Number(text) => send_variant(out, "Number", text),
            PrimitiveValue::String(text) => send_variant(out, "String", text),
        }
    }

    ghost not_null = { no_null_primitive_value };
}

impl Show for NonLocalBinding {
    ghost reads = { binding_of };

    ghost shows = { binding_data };

    #[tactic(auto, using(crate::proofs::PartsReadBack::binding_again), unfolding(crate::specs::ShownParts::binding_data))]
    fn send<S: Serializer>(&self, out: &mut S) -> Result<(), S::Error> {
        match self {
            NonLocalBinding::Global { name } => NoFields
                .tagged("Global")
                .with("name", name)
                .send(out),
            NonLocalBinding::Module { name, module } => {
                NoFields
                    .tagged("Module")
                    .with("module", module)
                    .with("name", name)
                    .send(out)
            }
        }
    }

    ghost not_null = { no_null_binding };
}

impl Show for JsxTag {
    ghost reads = { jsx_tag_of };

    ghost shows = { jsx_tag_data };

    #[tactic(auto, using(crate::proofs::PartsReadBack::jsx_tag_again), unfolding(crate::specs::ShownParts::jsx_tag_data))]
    fn send<S: Serializer>(&self, out: &mut S) -> Result<(), S::Error> {
        match self {
            JsxTag::Place(place) => send_variant(out, "Place", place),
            JsxTag::Builtin(name) => send_variant(out, "Builtin", name),
        }
    }

    ghost not_null = { no_null_jsx_tag };
}

impl Show for JsxAttribute {
    ghost reads = { jsx_attribute_of };

    ghost shows = { jsx_attribute_data };

    #[tactic(auto, using(crate::proofs::PartsReadBack::jsx_attribute_again), unfolding(crate::specs::ShownParts::jsx_attribute_data))]
    fn send<S: Serializer>(&self, out: &mut S) -> Result<(), S::Error> {
        match self {
            JsxAttribute::Attribute { name, place } => {
                NoFields
                    .tagged("Attribute")
                    .with("name", name)
                    .with("place", place)
                    .send(out)
            }
            JsxAttribute::SpreadAttribute { argument } => {
                NoFields
                    .with("argument", argument)
                    .tagged("SpreadAttribute")
                    .send(out)
            }
        }
    }

    ghost not_null = { no_null_jsx_attribute };
}

impl Show for LoweredFunction {
    ghost reads = { lowered_function_of };

    ghost shows = { lowered_function_data };

    #[tactic(auto, using(crate::proofs::PartsReadBack::lowered_function_again), unfolding(crate::specs::ShownParts::lowered_function_data))]
    fn send<S: Serializer>(&self, out: &mut S) -> Result<(), S::Error> {
        NoFields.with("func", &self.func.0).send(out)
    }

    ghost not_null = { no_null_lowered_function };
}
