//! Readers of reactive scopes.

ghost use Rattle.rc_doc.specs.Environment.Scopes.{declaration_entry_of, declaration_of, dependency_of, early_return_of};
ghost use Rattle.rc_doc.specs.Environment.Scopes.{path_entry_of, range_of, scope_of};

use crate::fields::{Read, flag, list_or_empty, optional, required};
use crate::members::{four_fields, six_fields, three_fields, two_fields};
use crate::refusal::Refusal;
use rc_hir::{
    DeclarationEntry, DependencyPathEntry, MutableRange, ReactiveScope, ReactiveScopeDeclaration,
    ReactiveScopeDependency, ReactiveScopeEarlyReturn,
};
use serde_json::Value;
use std::alloc::Global;

impl Read for MutableRange {
    ghost reads = { range_of };

    #[tactic(auto, unfolding(crate::specs::Environment::Scopes::range_of))]
    fn read(alloc: Global, from: &Value) -> Result<MutableRange, Refusal> {
        let (end, start) = two_fields(from, "end", "start")?;
        let start = required(alloc, start)?;
        let end = required(alloc, end)?;
        Ok(MutableRange { start, end })
    }
}

impl Read for DependencyPathEntry {
    ghost reads = { path_entry_of };

    #[tactic(auto, unfolding(crate::specs::Environment::Scopes::path_entry_of))]
    fn read(alloc: Global, from: &Value) -> Result<DependencyPathEntry, Refusal> {
        let (optional, property) = two_fields(from, "optional", "property")?;
        let property = required(alloc, property)?;
        let optional = flag(optional)?;
        Ok(DependencyPathEntry { property, optional })
    }
}

impl Read for ReactiveScopeDependency {
    ghost reads = { dependency_of };

    #[tactic(auto, unfolding(crate::specs::Environment::Scopes::dependency_of))]
    fn read(alloc: Global, from: &Value) -> Result<ReactiveScopeDependency, Refusal> {
        let (identifier, path, reactive, span) = four_fields(
            from,
            "identifier",
            "path",
            "reactive",
            "span",
        )?;
        let identifier = required(alloc, identifier)?;
        let reactive = flag(reactive)?;
        let path = list_or_empty(alloc, path)?;
        let span = optional(alloc, span)?;
        Ok(ReactiveScopeDependency {
            identifier,
            reactive,
            path,
            span,
        })
    }
}

impl Read for ReactiveScopeDeclaration {
    ghost reads = { declaration_of };

    #[tactic(auto, unfolding(crate::specs::Environment::Scopes::declaration_of))]
    fn read(alloc: Global, from: &Value) -> Result<ReactiveScopeDeclaration, Refusal> {
        let (identifier, scope) = two_fields(from, "identifier", "scope")?;
        let identifier = required(alloc, identifier)?;
        let scope = required(alloc, scope)?;
        Ok(ReactiveScopeDeclaration { identifier, scope })
    }
}

impl Read for DeclarationEntry {
    ghost reads = { declaration_entry_of };

    #[tactic(auto, unfolding(crate::specs::Environment::Scopes::declaration_entry_of))]
    fn read(alloc: Global, from: &Value) -> Result<DeclarationEntry, Refusal> {
        let (key, value) = two_fields(from, "key", "value")?;
        let key = required(alloc, key)?;
        let value = required(alloc, value)?;
        Ok(DeclarationEntry { key, value })
    }
}

impl Read for ReactiveScopeEarlyReturn {
    ghost reads = { early_return_of };

    #[tactic(auto, unfolding(crate::specs::Environment::Scopes::early_return_of))]
    fn read(alloc: Global, from: &Value) -> Result<ReactiveScopeEarlyReturn, Refusal> {
        let (label, span, value) = three_fields(from, "label", "span", "value")?;
        let value = required(alloc, value)?;
        let span = optional(alloc, span)?;
        let label = required(alloc, label)?;
        Ok(ReactiveScopeEarlyReturn { value, span, label })
    }
}

impl Read for ReactiveScope {
    ghost reads = { scope_of };

    #[tactic(auto, unfolding(crate::specs::Environment::Scopes::scope_of))]
    fn read(alloc: Global, from: &Value) -> Result<ReactiveScope, Refusal> {
        let (declarations, dependencies, early_return_value, merged, range, reassignments) =
            six_fields(
                from,
                "declarations",
                "dependencies",
                "early_return_value",
                "merged",
                "range",
                "reassignments",
            )?;
        let range = required(alloc, range)?;
        let dependencies = list_or_empty(alloc, dependencies)?;
        let declarations = list_or_empty(alloc, declarations)?;
        let reassignments = list_or_empty(alloc, reassignments)?;
        let early_return_value = optional(alloc, early_return_value)?;
        let merged = list_or_empty(alloc, merged)?;
        Ok(ReactiveScope {
            range,
            dependencies,
            declarations,
            reassignments,
            early_return_value,
            merged,
        })
    }
}
