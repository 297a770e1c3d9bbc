//! The printing form of reactive scopes.

ghost use Rattle.rc_doc.specs.Environment.Scopes.{declaration_entry_of, declaration_of, dependency_of, early_return_of};
ghost use Rattle.rc_doc.specs.Environment.Scopes.{path_entry_of, range_of, scope_of};
ghost use Rattle.rc_flat.specs.ShownEnvironment.{declaration_data, declaration_entry_data, dependency_data};
ghost use Rattle.rc_flat.specs.ShownEnvironment.{early_return_data, path_entry_data, range_data, scope_data};

use crate::parts::{Part, PartFields};
use rc_hir::{
    DeclarationEntry, DependencyPathEntry, MutableRange, ReactiveScope, ReactiveScopeDeclaration,
    ReactiveScopeDependency, ReactiveScopeEarlyReturn,
};
use rc_show::{Fields, NoFields};
use serde::Serializer;

impl Part for MutableRange {
    ghost reads = { range_of };

    ghost shows = { range_data };

    #[tactic(auto, using(crate::proofs::Cited::range_again), unfolding(crate::specs::inside::Cited::range_data))]
    fn send<S: Serializer>(&self, out: &mut S) -> Result<(), S::Error> {
        NoFields
            .with("end", &self.end)
            .with("start", &self.start)
            .send(out)
    }
}

impl Part for DependencyPathEntry {
    ghost reads = { path_entry_of };

    ghost shows = { path_entry_data };

    #[tactic(auto, using(crate::proofs::Cited::path_entry_again), unfolding(crate::specs::inside::Cited::path_entry_data))]
    fn send<S: Serializer>(&self, out: &mut S) -> Result<(), S::Error> {
        NoFields
            .with("optional", &self.optional)
            .with("property", &self.property)
            .send(out)
    }
}

impl Part for ReactiveScopeDependency {
    ghost reads = { dependency_of };

    ghost shows = { dependency_data };

    #[tactic(auto, using(crate::proofs::Cited::dependency_again), unfolding(crate::specs::inside::Cited::dependency_data))]
    fn send<S: Serializer>(&self, out: &mut S) -> Result<(), S::Error> {
        NoFields
            .with("identifier", &self.identifier)
            .with_part("path", &self.path)
            .with("reactive", &self.reactive)
            .with_some("span", &self.span)
            .send(out)
    }
}

impl Part for ReactiveScopeDeclaration {
    ghost reads = { declaration_of };

    ghost shows = { declaration_data };

    #[tactic(auto, using(crate::proofs::Cited::declaration_again), unfolding(crate::specs::inside::Cited::declaration_data))]
    fn send<S: Serializer>(&self, out: &mut S) -> Result<(), S::Error> {
        NoFields
            .with("identifier", &self.identifier)
            .with("scope", &self.scope)
            .send(out)
    }
}

impl Part for DeclarationEntry {
    ghost reads = { declaration_entry_of };

    ghost shows = { declaration_entry_data };

    #[tactic(auto, using(crate::proofs::Cited::declaration_entry_again), unfolding(crate::specs::inside::Cited::declaration_entry_data))]
    fn send<S: Serializer>(&self, out: &mut S) -> Result<(), S::Error> {
        NoFields
            .with("key", &self.key)
            .with_part("value", &self.value)
            .send(out)
    }
}

impl Part for ReactiveScopeEarlyReturn {
    ghost reads = { early_return_of };

    ghost shows = { early_return_data };

    #[tactic(auto, using(crate::proofs::Cited::early_return_again), unfolding(crate::specs::inside::Cited::early_return_data))]
    fn send<S: Serializer>(&self, out: &mut S) -> Result<(), S::Error> {
        NoFields
            .with("label", &self.label)
            .with_some("span", &self.span)
            .with("value", &self.value)
            .send(out)
    }
}

impl Part for ReactiveScope {
    ghost reads = { scope_of };

    ghost shows = { scope_data };

    #[tactic(auto, using(crate::proofs::Cited::scope_again), unfolding(crate::specs::inside::Cited::scope_data))]
    fn send<S: Serializer>(&self, out: &mut S) -> Result<(), S::Error> {
        NoFields
            .with_part("declarations", &self.declarations)
            .with_part("dependencies", &self.dependencies)
            .with_some_part("early_return_value", &self.early_return_value)
            .with("merged", &self.merged)
            .with_part("range", &self.range)
            .with("reassignments", &self.reassignments)
            .send(out)
    }
}
