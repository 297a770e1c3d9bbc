//! The printing form of an environment.

ghost use Rattle.rc_doc.specs.Environment.{config_of, environment_of, identifier_name_of, identifier_of};
ghost use Rattle.rc_doc.specs.Environment.Types.{shape_of, shape_row_of, type_of};
ghost use Rattle.rc_flat.specs.ShownEnvironment.{config_data, environment_data, identifier_data, identifier_name_data};
ghost use Rattle.rc_flat.specs.ShownEnvironment.{shape_data, shape_row_data, type_data};

use crate::parts::{Part, PartFields};
use rc_hir::{Config, Environment, HirType, Identifier, IdentifierName, Shape, ShapeRow};
use rc_show::{Fields, NoFields, send_variant};
use serde::Serializer;

impl Part for IdentifierName {
    ghost reads = { identifier_name_of };

    ghost shows = { identifier_name_data };

    #[tactic(auto, using(crate::proofs::Cited::identifier_name_again), unfolding(crate::specs::inside::Cited::identifier_name_data))]
    fn send<S: Serializer>(&self, out: &mut S) -> Result<(), S::Error> {
        match self {
            IdentifierName::Named(name) => send_variant(out, "Named", name),
            IdentifierName::Promoted(name) => send_variant(out, "Promoted", name),
        }
    }
}

impl Part for Identifier {
    ghost reads = { identifier_of };

    ghost shows = { identifier_data };

    #[tactic(auto, using(crate::proofs::Cited::identifier_again), unfolding(crate::specs::inside::Cited::identifier_data))]
    fn send<S: Serializer>(&self, out: &mut S) -> Result<(), S::Error> {
        NoFields
            .with("declaration_id", &self.declaration_id)
            .with_some_part("name", &self.name)
            .with_some("scope", &self.scope)
            .with_some("span", &self.span)
            .with("type_", &self.type_)
            .send(out)
    }
}

impl Part for Shape {
    ghost reads = { shape_of };

    ghost shows = { shape_data };

    #[tactic(auto, using(crate::proofs::Cited::shape_again, crate::proofs::Cited::text_sent), unfolding(crate::specs::inside::Cited::shape_data))]
    fn send<S: Serializer>(&self, out: &mut S) -> Result<(), S::Error> {
        match self {
            Shape::Array => out.str("Array"),
            Shape::Object => out.str("Object"),
            Shape::Function => out.str("Function"),
            Shape::Jsx => out.str("Jsx"),
            Shape::UseRef => out.str("UseRef"),
            Shape::SetState => out.str("SetState"),
            Shape::SetActionState => out.str("SetActionState"),
            Shape::Dispatch => out.str("Dispatch"),
            Shape::StartTransition => out.str("StartTransition"),
            Shape::SetOptimistic => out.str("SetOptimistic"),
            Shape::Row(row) => send_variant(out, "Row", row),
        }
    }
}

impl Part for HirType {
    ghost reads = { type_of };

    ghost shows = { type_data };

    #[tactic(auto, using(crate::proofs::Cited::type_again, crate::proofs::Cited::text_sent), unfolding(crate::specs::inside::Cited::type_data))]
    fn send<S: Serializer>(&self, out: &mut S) -> Result<(), S::Error> {
        match self {
            HirType::Primitive => out.str("Primitive"),
            HirType::Object { shape } => NoFields
                .tagged("Object")
                .with_some_part("shape", shape)
                .send(out),
            HirType::Function { shape } => NoFields
                .tagged("Function")
                .with_some_part("shape", shape)
                .send(out),
            HirType::Other => out.str("Other"),
        }
    }
}

impl Part for ShapeRow {
    ghost reads = { shape_row_of };

    ghost shows = { shape_row_data };

    #[tactic(auto, using(crate::proofs::Cited::shape_row_again), unfolding(crate::specs::inside::Cited::shape_row_data))]
    fn send<S: Serializer>(&self, out: &mut S) -> Result<(), S::Error> {
        NoFields
            .with("hook", &self.hook)
            .with("no_alias", &self.no_alias)
            .send(out)
    }
}

impl Part for Config {
    ghost reads = { config_of };

    ghost shows = { config_data };

    #[tactic(auto, using(crate::proofs::Cited::config_again), unfolding(crate::specs::inside::Cited::config_data))]
    fn send<S: Serializer>(&self, out: &mut S) -> Result<(), S::Error> {
        NoFields
            .with("enable_forest", &self.enable_forest)
            .with(
                "enable_preserve_existing_memoization_guarantees",
                &self.enable_preserve_existing_memoization_guarantees,
            )
            .send(out)
    }
}

impl Part for Environment {
    ghost reads = { environment_of };

    ghost shows = { environment_data };

    #[tactic(auto, using(crate::proofs::Cited::environment_again), unfolding(crate::specs::inside::Cited::environment_data))]
    fn send<S: Serializer>(&self, out: &mut S) -> Result<(), S::Error> {
        NoFields
            .with_part("config", &self.config)
            .with_part("functions", &self.functions)
            .with_part("identifiers", &self.identifiers)
            .with("next_block", &self.next_block)
            .with_part("scopes", &self.scopes)
            .with_part("shapes", &self.shapes)
            .with_part("types", &self.types)
            .send(out)
    }
}
