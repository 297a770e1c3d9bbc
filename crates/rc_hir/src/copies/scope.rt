//! Copies of reactive scopes and of their parts.

use crate::scope::{DependencyPathEntry, ReactiveScope, ReactiveScopeDependency};
use rc_names::CloneIn;
use std::alloc::{AllocError, Global};

impl CloneIn for DependencyPathEntry {
    fn clone_in(&self, alloc: Global) -> Result<DependencyPathEntry, AllocError> {
        Ok(DependencyPathEntry {
            property: self.property.clone_in(alloc)?,
            optional: self.optional,
        })
    }
}

impl CloneIn for ReactiveScopeDependency {
    fn clone_in(&self, alloc: Global) -> Result<ReactiveScopeDependency, AllocError> {
        Ok(ReactiveScopeDependency {
            identifier: self.identifier,
            reactive: self.reactive,
            path: self.path.clone_in(alloc)?,
            span: self.span,
        })
    }
}

impl CloneIn for ReactiveScope {
    fn clone_in(&self, alloc: Global) -> Result<ReactiveScope, AllocError> {
        Ok(ReactiveScope {
            range: self.range,
            dependencies: self.dependencies.clone_in(alloc)?,
            declarations: self.declarations.copy_in(alloc)?,
            reassignments: self.reassignments.copy_in(alloc)?,
            early_return_value: self.early_return_value,
            merged: self.merged.copy_in(alloc)?,
        })
    }
}
