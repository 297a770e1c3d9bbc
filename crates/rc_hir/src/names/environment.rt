//! The check of the numbers of the environment, those of its functions left out.

#![tactic(auto, using(crate::proofs::NamesLemmas::judging))]

ghost use Rattle.std.specs.Prelude.{◌≡◌};
ghost use Rattle.rc_hir.specs.EnvironmentNames as spec;
ghost use Rattle.rc_hir.specs.Names.{IsCheckOf};

use super::Lengths;
use super::parts::{HoldsNames, check_both, check_three};
use crate::environment::{Environment, Identifier};
use crate::fault::{Fault, TableName};
use crate::scope::{
    DeclarationEntry, ReactiveScope, ReactiveScopeDependency, ReactiveScopeEarlyReturn,
};
use crate::types::{HirType, Shape};
use rc_names::{DeclarationId, TypeId};

impl HoldsNames for DeclarationId {
    ghost names = { spec.declaration_name };

    fn check(&self, tables: Lengths) -> Result<(), Fault> {
        tables.check(TableName::Declarations, self.0)
    }
}

impl HoldsNames for TypeId {
    ghost names = { spec.type_name };

    fn check(&self, tables: Lengths) -> Result<(), Fault> {
        tables.check(TableName::Types, self.0)
    }
}

impl HoldsNames for Identifier {
    ghost names = { spec.identifier_names };

    fn check(&self, tables: Lengths) -> Result<(), Fault> {
        check_three(&self.declaration_id, &self.scope, &self.type_, tables)
    }
}

impl HoldsNames for Shape {
    ghost names = { spec.shape_names };

    fn check(&self, tables: Lengths) -> Result<(), Fault> {
        match self {
            Shape::Row(row) => tables.check(TableName::Shapes, *row),
            Shape::Array
            | Shape::Object
            | Shape::Function
            | Shape::Jsx
            | Shape::UseRef
            | Shape::SetState
            | Shape::SetActionState
            | Shape::Dispatch
            | Shape::StartTransition
            | Shape::SetOptimistic => Ok(()),
        }
    }
}

impl HoldsNames for HirType {
    ghost names = { spec.type_names };

    fn check(&self, tables: Lengths) -> Result<(), Fault> {
        match self {
            HirType::Object { shape } | HirType::Function { shape } => shape.check(tables),
            HirType::Primitive | HirType::Other => Ok(()),
        }
    }
}

impl HoldsNames for ReactiveScopeDependency {
    ghost names = { spec.dependency_names };

    fn check(&self, tables: Lengths) -> Result<(), Fault> {
        self.identifier.check(tables)
    }
}

impl HoldsNames for DeclarationEntry {
    ghost names = { spec.declaration_names };

    fn check(&self, tables: Lengths) -> Result<(), Fault> {
        check_three(&self.key, &self.value.identifier, &self.value.scope, tables)
    }
}

impl HoldsNames for ReactiveScopeEarlyReturn {
    ghost names = { spec.early_return_names };

    fn check(&self, tables: Lengths) -> Result<(), Fault> {
        self.value.check(tables)
    }
}

impl HoldsNames for ReactiveScope {
    ghost names = { spec.scope_names };

    fn check(&self, tables: Lengths) -> Result<(), Fault> {
        check_both(&self.dependencies, &self.declarations, tables)?;
        check_three(
            &self.reassignments,
            &self.early_return_value,
            &self.merged,
            tables,
        )
    }
}

/// Checks the numbers in the tables of identifiers, types and scopes.
pub fn check_parts(env: &Environment, tables: Lengths) -> Result<(), Fault>
    ensures { IsCheckOf tables (spec.environment_names env.now) result }
{
    check_three(&env.identifiers, &env.types, &env.scopes, tables)
}
