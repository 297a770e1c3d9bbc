//! Copies of the environment and of its entries.

use crate::environment::{Environment, Identifier, IdentifierName};
use rc_names::CloneIn;
use std::alloc::{AllocError, Global};

impl CloneIn for IdentifierName {
    fn clone_in(&self, alloc: Global) -> Result<IdentifierName, AllocError> {
        match self {
            IdentifierName::Named(name) => Ok(IdentifierName::Named(name.clone_in(alloc)?)),
            IdentifierName::Promoted(name) => Ok(IdentifierName::Promoted(name.clone_in(alloc)?)),
        }
    }
}

impl CloneIn for Identifier {
    fn clone_in(&self, alloc: Global) -> Result<Identifier, AllocError> {
        Ok(Identifier {
            declaration_id: self.declaration_id,
            name: self.name.clone_in(alloc)?,
            scope: self.scope,
            type_: self.type_,
            span: self.span,
        })
    }
}

impl CloneIn for Environment {
    fn clone_in(&self, alloc: Global) -> Result<Environment, AllocError> {
        Ok(Environment {
            identifiers: self.identifiers.clone_in(alloc)?,
            types: self.types.copy_in(alloc)?,
            scopes: self.scopes.clone_in(alloc)?,
            functions: self.functions.clone_in(alloc)?,
            shapes: self.shapes.copy_in(alloc)?,
            config: self.config,
            next_block: self.next_block,
        })
    }
}
