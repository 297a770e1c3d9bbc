//! The numbers of a document: of its function, of the nested functions, and of the other tables.

use crate::names::parts::{Seeks, seek_both, seek_in, seek_three};
use crate::names::seeker::{Seeker, Step};
use rc_hir::{
    DeclarationEntry, Environment, HirFunction, HirType, Identifier, ReactiveScope,
    ReactiveScopeDeclaration, ReactiveScopeDependency, ReactiveScopeEarlyReturn, Shape, TableName,
};
use rc_names::{DeclarationId, TypeId};
use std::alloc::AllocError;

impl Seeks for DeclarationId {
    fn seek(&self, seeker: &mut Seeker) -> Result<bool, AllocError> {
        Ok(seeker.is(TableName::Declarations, self.0))
    }
}

impl Seeks for TypeId {
    fn seek(&self, seeker: &mut Seeker) -> Result<bool, AllocError> {
        Ok(seeker.is(TableName::Types, self.0))
    }
}

impl Seeks for Identifier {
    fn seek(&self, seeker: &mut Seeker) -> Result<bool, AllocError> {
        let names = ("declaration_id", "scope", "type_");
        seek_three(
            names,
            &self.declaration_id,
            &self.scope,
            &self.type_,
            seeker,
        )
    }
}

/// The number of a row of shapes.
#[derive(Clone, Copy, Debug, PartialEq, Eq)]
struct ShapeNumber(u32);

impl Seeks for ShapeNumber {
    fn seek(&self, seeker: &mut Seeker) -> Result<bool, AllocError> {
        Ok(seeker.is(TableName::Shapes, self.0))
    }
}

impl Seeks for Shape {
    fn seek(&self, seeker: &mut Seeker) -> Result<bool, AllocError> {
        match self {
            Shape::Row(row) => seek_in("v", &ShapeNumber(*row), seeker),
            _ => Ok(false),
        }
    }
}

impl Seeks for HirType {
    fn seek(&self, seeker: &mut Seeker) -> Result<bool, AllocError> {
        match self {
            HirType::Object { shape } | HirType::Function { shape } => {
                seek_in("shape", shape, seeker)
            }
            HirType::Primitive | HirType::Other => Ok(false),
        }
    }
}

impl Seeks for ReactiveScopeDependency {
    fn seek(&self, seeker: &mut Seeker) -> Result<bool, AllocError> {
        seek_in("identifier", &self.identifier, seeker)
    }
}

impl Seeks for ReactiveScopeDeclaration {
    fn seek(&self, seeker: &mut Seeker) -> Result<bool, AllocError> {
        seek_both(
            ("identifier", "scope"),
            &self.identifier,
            &self.scope,
            seeker,
        )
    }
}

impl Seeks for DeclarationEntry {
    fn seek(&self, seeker: &mut Seeker) -> Result<bool, AllocError> {
        seek_both(("key", "value"), &self.key, &self.value, seeker)
    }
}

impl Seeks for ReactiveScopeEarlyReturn {
    fn seek(&self, seeker: &mut Seeker) -> Result<bool, AllocError> {
        seek_in("value", &self.value, seeker)
    }
}

impl Seeks for ReactiveScope {
    fn seek(&self, seeker: &mut Seeker) -> Result<bool, AllocError> {
        let names = ("dependencies", "declarations");
        if seek_both(names, &self.dependencies, &self.declarations, seeker)? {
            return Ok(true);
        }
        let names = ("reassignments", "early_return_value", "merged");
        seek_three(
            names,
            &self.reassignments,
            &self.early_return_value,
            &self.merged,
            seeker,
        )
    }
}

/// Looks for a number in a document, in the order in which its numbers are checked. Fails only when out of memory.
pub fn seek_document(
    hir: &HirFunction,
    env: &Environment,
    seeker: &mut Seeker,
) -> Result<bool, AllocError> {
    if seek_in("hir", hir, seeker)? {
        return Ok(true);
    }
    seeker.step(Step::Field("env"))?;
    if seek_in("functions", &env.functions, seeker)? {
        return Ok(true);
    }
    let names = ("identifiers", "types", "scopes");
    seek_three(names, &env.identifiers, &env.types, &env.scopes, seeker)
}
