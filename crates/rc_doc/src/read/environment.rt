//! Readers of the environment.

ghost use Rattle.rc_doc.specs.Environment.{config_of, environment_of, identifier_name_of, identifier_of};

use crate::fields::{Read, flag, list_or_empty, optional, required, table_or_empty, variant_name};
use crate::members::{five_fields, seven_fields, two_fields};
use crate::refusal::Refusal;
use rc_hir::{Config, Environment, Identifier, IdentifierName};
use serde_json::Value;
use std::alloc::Global;

impl Read for IdentifierName {
    ghost reads = { identifier_name_of };

    #[tactic(auto, unfolding(crate::specs::Environment::identifier_name_of))]
    fn read(alloc: Global, value: &Value) -> Result<IdentifierName, Refusal> {
        let (k, v) = two_fields(value, "k", "v")?;
        match variant_name(k) {
            Some("Named") => Ok(IdentifierName::Named(required(alloc, v)?)),
            Some("Promoted") => Ok(IdentifierName::Promoted(required(alloc, v)?)),
            _ => Err(Refusal::NotDoc),
        }
    }
}

impl Read for Identifier {
    ghost reads = { identifier_of };

    #[tactic(auto, unfolding(crate::specs::Environment::identifier_of))]
    fn read(alloc: Global, value: &Value) -> Result<Identifier, Refusal> {
        let (declaration_id, name, scope, span, type_) = five_fields(
            value,
            "declaration_id",
            "name",
            "scope",
            "span",
            "type_",
        )?;
        let declaration_id = required(alloc, declaration_id)?;
        let name = optional(alloc, name)?;
        let scope = optional(alloc, scope)?;
        let type_ = required(alloc, type_)?;
        let span = optional(alloc, span)?;
        Ok(Identifier {
            declaration_id,
            name,
            scope,
            type_,
            span,
        })
    }
}

impl Read for Config {
    ghost reads = { config_of };

    #[tactic(auto, unfolding(crate::specs::Environment::config_of))]
    fn read(_alloc: Global, value: &Value) -> Result<Config, Refusal> {
        let (enable_forest, enable_preserve_existing_memoization_guarantees) = two_fields(
            value,
            "enable_forest",
            "enable_preserve_existing_memoization_guarantees",
        )?;
        let forest = flag(enable_forest)?;
        let preserve = flag(enable_preserve_existing_memoization_guarantees)?;
        Ok(Config {
            enable_forest: forest,
            enable_preserve_existing_memoization_guarantees: preserve,
        })
    }
}

impl Read for Environment {
    ghost reads = { environment_of };

    #[tactic(auto, unfolding(crate::specs::Environment::environment_of))]
    fn read(alloc: Global, value: &Value) -> Result<Environment, Refusal> {
        let (config, functions, identifiers, next_block, scopes, shapes, types) = seven_fields(
            value,
            "config",
            "functions",
            "identifiers",
            "next_block",
            "scopes",
            "shapes",
            "types",
        )?;
        let identifiers = table_or_empty(alloc, identifiers)?;
        let types = table_or_empty(alloc, types)?;
        let scopes = table_or_empty(alloc, scopes)?;
        let functions = table_or_empty(alloc, functions)?;
        let shapes = list_or_empty(alloc, shapes)?;
        let config = required(alloc, config)?;
        let next_block = required(alloc, next_block)?;
        Ok(Environment {
            identifiers,
            types,
            scopes,
            functions,
            shapes,
            config,
            next_block,
        })
    }
}
