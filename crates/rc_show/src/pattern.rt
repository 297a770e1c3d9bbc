//! The printing form of patterns, and of the parts that they share with literals.

ghost use Rattle.std.specs.Prelude.{◌≡◌, refl};
ghost use Rattle.rc_doc.specs.Patterns.{element_of, kind_of, lvalue_of, lvalue_pattern_of, object_property_of};
ghost use Rattle.rc_doc.specs.Patterns.{pattern_element_of, pattern_of, property_key_of, property_literal_of};
ghost use Rattle.rc_doc.specs.Patterns.{property_of};
ghost use Rattle.rc_show.specs.ShownParts.Patterns.{element_data, kind_data, kind_name, lvalue_data};
ghost use Rattle.rc_show.specs.ShownParts.Patterns.{lvalue_pattern_data, object_property_data, pattern_data};
ghost use Rattle.rc_show.specs.ShownParts.Patterns.{pattern_element_data, property_data, property_key_data};
ghost use Rattle.rc_show.specs.ShownParts.Patterns.{property_literal_data};
ghost use Rattle.rc_show.specs.NotNull.{no_null_element, no_null_lvalue, no_null_lvalue_pattern};
ghost use Rattle.rc_show.specs.NotNull.{no_null_object_property, no_null_pattern, no_null_pattern_element};
ghost use Rattle.rc_show.specs.NotNull.{no_null_property, no_null_property_key, no_null_property_literal};

use crate::fields::{Fields, NoFields, Show, send_variant};
use rc_hir::{
    ArrayElement, ArrayPatternElement, InstructionKind, LValue, LValuePattern, ObjectProperty,
    ObjectPropertyKey, ObjectPropertyOrSpread, Pattern, PropertyLiteral,
};
use serde::Serializer;

fn kind_name(kind: InstructionKind) -> &'static str
    ensures { result.now ≡ kind_name kind }
{
    match kind {
        InstructionKind::Const => "Const",
        InstructionKind::Let => "Let",
        InstructionKind::Reassign => "Reassign",
        InstructionKind::Catch => "Catch",
        InstructionKind::Function => "Function",
        InstructionKind::HoistedConst => "HoistedConst",
        InstructionKind::HoistedLet => "HoistedLet",
        InstructionKind::HoistedFunction => "HoistedFunction",
    }
}

impl Show for InstructionKind {
    ghost reads = { kind_of };

    ghost shows = { kind_data };

    #[tactic(auto, using(crate::proofs::PartsReadBack::kind_again, crate::proofs::SendingLemmas::text_sent))]
    fn send<S: Serializer>(&self, out: &mut S) -> Result<(), S::Error> {
        out.str(kind_name(*self))
    }

    ghost not_null = { λ x. refl };
}

impl Show for LValue {
    ghost reads = { lvalue_of };

    ghost shows = { lvalue_data };

    #[tactic(auto, using(crate::proofs::PartsReadBack::lvalue_again), unfolding(crate::specs::ShownParts::Patterns::lvalue_data))]
    fn send<S: Serializer>(&self, out: &mut S) -> Result<(), S::Error> {
        NoFields
            .with("kind", &self.kind)
            .with("place", &self.place)
            .send(out)
    }

    ghost not_null = { no_null_lvalue };
}

impl Show for PropertyLiteral {
    ghost reads = { property_literal_of };

    ghost shows = { property_literal_data };

    #[tactic(auto, using(crate::proofs::PartsReadBack::property_literal_again), unfolding(crate::specs::ShownParts::Patterns::property_literal_data))]
    fn send<S: Serializer>(&self, out: &mut S) -> Result<(), S::Error> {
        match self {
            PropertyLiteral::String(name) => send_variant(out, "String", name),
            PropertyLiteral::Number(name) => send_variant(out, "Number", name),
        }
    }

    ghost not_null = { no_null_property_literal };
}

impl Show for ObjectPropertyKey {
    ghost reads = { property_key_of };

    ghost shows = { property_key_data };

    #[tactic(auto, using(crate::proofs::PartsReadBack::property_key_again), unfolding(crate::specs::ShownParts::Patterns::property_key_data))]
    fn send<S: Serializer>(&self, out: &mut S) -> Result<(), S::Error> {
        match self {
            ObjectPropertyKey::Identifier(name) => send_variant(out, "Identifier", name),
            ObjectPropertyKey::String(name) => send_variant(out, "String", name),
            ObjectPropertyKey::Number(name) => send_variant(out, "Number", name),
            ObjectPropertyKey::Computed(place) => send_variant(out, "Computed", place),
        }
    }

    ghost not_null = { no_null_property_key };
}

impl Show for ObjectProperty {
    ghost reads = { object_property_of };

    ghost shows = { object_property_data };

    #[tactic(auto, using(crate::proofs::PartsReadBack::object_property_again), unfolding(crate::specs::ShownParts::Patterns::object_property_data))]
    fn send<S: Serializer>(&self, out: &mut S) -> Result<(), S::Error> {
        NoFields
            .with("key", &self.key)
            .with("place", &self.place)
            .send(out)
    }

    ghost not_null = { no_null_object_property };
}

impl Show for ObjectPropertyOrSpread {
    ghost reads = { property_of };

    ghost shows = { property_data };

    #[tactic(auto, using(crate::proofs::PartsReadBack::property_again), unfolding(crate::specs::ShownParts::Patterns::property_data))]
    fn send<S: Serializer>(&self, out: &mut S) -> Result<(), S::Error> {
        match self {
            ObjectPropertyOrSpread::Property(property) => send_variant(out, "Property", property),
            ObjectPropertyOrSpread::Spread(spread) => send_variant(out, "Spread", spread),
        }
    }

    ghost not_null = { no_null_property };
}

impl Show for ArrayPatternElement {
    ghost reads = { pattern_element_of };

    ghost shows = { pattern_element_data };

    #[tactic(auto, using(crate::proofs::PartsReadBack::pattern_element_again, crate::proofs::SendingLemmas::text_sent), unfolding(crate::specs::ShownParts::Patterns::pattern_element_data))]
    fn send<S: Serializer>(&self, out: &mut S) -> Result<(), S::Error> {
        match self {
            ArrayPatternElement::Place(place) => send_variant(out, "Place", place),
            ArrayPatternElement::Spread(spread) => send_variant(out, "Spread", spread),
            ArrayPatternElement::Hole => out.str("Hole"),
        }
    }

    ghost not_null = { no_null_pattern_element };
}

impl Show for ArrayElement {
    ghost reads = { element_of };

    ghost shows = { element_data };

    #[tactic(auto, using(crate::proofs::PartsReadBack::element_again, crate::proofs::SendingLemmas::text_sent), unfolding(crate::specs::ShownParts::Patterns::element_data))]
    fn send<S: Serializer>(&self, out: &mut S) -> Result<(), S::Error> {
        match self {
            ArrayElement::Place(place) => send_variant(out, "Place", place),
            ArrayElement::Spread(spread) => send_variant(out, "Spread", spread),
            ArrayElement::Hole => out.str("Hole"),
        }
    }

    ghost not_null = { no_null_element };
}

impl Show for Pattern {
    ghost reads = { pattern_of };

    ghost shows = { pattern_data };

    #[tactic(auto, using(crate::proofs::PartsReadBack::pattern_again), unfolding(crate::specs::ShownParts::Patterns::pattern_data))]
    fn send<S: Serializer>(&self, out: &mut S) -> Result<(), S::Error> {
        match self {
            Pattern::Array { items } => NoFields.with("items", items).tagged("Array").send(out),
            Pattern::Object { properties } => {
                NoFields
                    .tagged("Object")
                    .with("properties", properties)
                    .send(out)
            }
        }
    }

    ghost not_null = { no_null_pattern };
}

impl Show for LValuePattern {
    ghost reads = { lvalue_pattern_of };

    ghost shows = { lvalue_pattern_data };

    #[tactic(auto, using(crate::proofs::PartsReadBack::lvalue_pattern_again), unfolding(crate::specs::ShownParts::Patterns::lvalue_pattern_data))]
    fn send<S: Serializer>(&self, out: &mut S) -> Result<(), S::Error> {
        NoFields
            .with("kind", &self.kind)
            .with("pattern", &self.pattern)
            .send(out)
    }

    ghost not_null = { no_null_lvalue_pattern };
}
