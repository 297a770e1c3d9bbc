//! The check of the numbers of the parts of a graph.

#![tactic(auto, using(crate::proofs::NamesLemmas::judging))]

ghost use Rattle.std.specs.Prelude.{◌≡◌};
ghost use Rattle.rc_hir.specs.GraphNames as graph;
ghost use Rattle.rc_hir.specs.Names.{IsCheckOf};
ghost use Rattle.rc_hir.specs.PartNames as part;

use super::Lengths;
use super::parts::{HoldsNames, check_both, check_three};
use crate::fault::{Fault, TableName};
use crate::function::{BasicBlock, HirFunction, Instruction};
use crate::instruction::{JsxAttribute, JsxTag, LoweredFunction};
use crate::pattern::{
    ArrayElement, ArrayPatternElement, LValue, ObjectPropertyKey, ObjectPropertyOrSpread, Pattern,
};
use crate::place::{ParamPattern, Place, PlaceOrSpread};
use crate::terminal::{Case, Terminal};
use rc_names::{FunctionId, IdentifierId, InstructionId, ScopeId};

impl HoldsNames for IdentifierId {
    ghost names = { part.identifier_name };

    fn check(&self, tables: Lengths) -> Result<(), Fault> {
        tables.check(TableName::Identifiers, self.0)
    }
}

impl HoldsNames for ScopeId {
    ghost names = { part.scope_name };

    fn check(&self, tables: Lengths) -> Result<(), Fault> {
        tables.check(TableName::Scopes, self.0)
    }
}

impl HoldsNames for FunctionId {
    ghost names = { part.function_name };

    fn check(&self, tables: Lengths) -> Result<(), Fault> {
        tables.check(TableName::Functions, self.0)
    }
}

impl HoldsNames for InstructionId {
    ghost names = { part.row_name };

    fn check(&self, tables: Lengths) -> Result<(), Fault> {
        tables.check(TableName::Instructions, self.0)
    }
}

impl HoldsNames for Place {
    ghost names = { part.place_names };

    fn check(&self, tables: Lengths) -> Result<(), Fault> {
        self.identifier.check(tables)
    }
}

impl HoldsNames for LValue {
    ghost names = { part.target_names };

    fn check(&self, tables: Lengths) -> Result<(), Fault> {
        self.place.check(tables)
    }
}

impl HoldsNames for LoweredFunction {
    ghost names = { part.lowered_names };

    fn check(&self, tables: Lengths) -> Result<(), Fault> {
        self.func.check(tables)
    }
}

impl HoldsNames for ParamPattern {
    ghost names = { part.parameter_names };

    fn check(&self, tables: Lengths) -> Result<(), Fault> {
        match self {
            ParamPattern::Place(place) => place.check(tables),
            ParamPattern::Spread(spread) => spread.place.check(tables),
        }
    }
}

impl HoldsNames for PlaceOrSpread {
    ghost names = { part.argument_names };

    fn check(&self, tables: Lengths) -> Result<(), Fault> {
        match self {
            PlaceOrSpread::Place(place) => place.check(tables),
            PlaceOrSpread::Spread(spread) => spread.place.check(tables),
        }
    }
}

impl HoldsNames for ArrayElement {
    ghost names = { part.element_names };

    fn check(&self, tables: Lengths) -> Result<(), Fault> {
        match self {
            ArrayElement::Place(place) => place.check(tables),
            ArrayElement::Spread(spread) => spread.place.check(tables),
            ArrayElement::Hole => Ok(()),
        }
    }
}

impl HoldsNames for ArrayPatternElement {
    ghost names = { part.item_names };

    fn check(&self, tables: Lengths) -> Result<(), Fault> {
        match self {
            ArrayPatternElement::Place(place) => place.check(tables),
            ArrayPatternElement::Spread(spread) => spread.place.check(tables),
            ArrayPatternElement::Hole => Ok(()),
        }
    }
}

impl HoldsNames for ObjectPropertyKey {
    ghost names = { part.key_names };

    fn check(&self, tables: Lengths) -> Result<(), Fault> {
        match self {
            ObjectPropertyKey::Identifier(_)
            | ObjectPropertyKey::String(_)
            | ObjectPropertyKey::Number(_) => Ok(()),
            ObjectPropertyKey::Computed(place) => place.check(tables),
        }
    }
}

impl HoldsNames for ObjectPropertyOrSpread {
    ghost names = { part.entry_names };

    fn check(&self, tables: Lengths) -> Result<(), Fault> {
        match self {
            ObjectPropertyOrSpread::Property(property) => check_both(
                &property.key,
                &property.place,
                tables,
            ),
            ObjectPropertyOrSpread::Spread(spread) => spread.place.check(tables),
        }
    }
}

impl HoldsNames for Pattern {
    ghost names = { part.pattern_names };

    fn check(&self, tables: Lengths) -> Result<(), Fault> {
        match self {
            Pattern::Array { items } => items.check(tables),
            Pattern::Object { properties } => properties.check(tables),
        }
    }
}

impl HoldsNames for JsxTag {
    ghost names = { part.tag_names };

    fn check(&self, tables: Lengths) -> Result<(), Fault> {
        match self {
            JsxTag::Place(place) => place.check(tables),
            JsxTag::Builtin(_) => Ok(()),
        }
    }
}

impl HoldsNames for JsxAttribute {
    ghost names = { part.attribute_names };

    fn check(&self, tables: Lengths) -> Result<(), Fault> {
        match self {
            JsxAttribute::Attribute { place, .. } => place.check(tables),
            JsxAttribute::SpreadAttribute { argument } => argument.check(tables),
        }
    }
}

impl HoldsNames for Instruction {
    ghost names = { graph.instruction_names };

    fn check(&self, tables: Lengths) -> Result<(), Fault> {
        check_both(&self.lvalue, &self.value, tables)
    }
}

impl HoldsNames for Case {
    ghost names = { graph.case_names };

    fn check(&self, tables: Lengths) -> Result<(), Fault> {
        self.test.check(tables)
    }
}

impl HoldsNames for Terminal {
    ghost names = { graph.terminal_names };

    fn check(&self, tables: Lengths) -> Result<(), Fault> {
        match self {
            Terminal::If { test, .. } | Terminal::Branch { test, .. } => test.check(tables),
            Terminal::Throw { value, .. } | Terminal::Return { value, .. } => value.check(tables),
            Terminal::Switch { test, cases, .. } => check_both(test, cases, tables),
            Terminal::Scope { scope, .. } | Terminal::PrunedScope { scope, .. } => scope.check(
                tables,
            ),
            Terminal::Try {
                handler_binding,
                ..
            } => handler_binding.check(tables),
            Terminal::Logical { .. }
            | Terminal::Ternary { .. }
            | Terminal::Optional { .. }
            | Terminal::Sequence { .. }
            | Terminal::Goto { .. }
            | Terminal::DoWhile { .. }
            | Terminal::While { .. }
            | Terminal::For { .. }
            | Terminal::ForOf { .. }
            | Terminal::ForIn { .. }
            | Terminal::Label { .. }
            | Terminal::Unreachable { .. }
            | Terminal::MaybeThrow { .. } => Ok(()),
        }
    }
}

impl HoldsNames for BasicBlock {
    ghost names = { graph.block_names };

    fn check(&self, tables: Lengths) -> Result<(), Fault> {
        check_both(&self.instructions, &self.terminal, tables)
    }
}

/// Checks the numbers of a function, given the number of its rows.
pub fn check_parts(function: &HirFunction, tables: Lengths) -> Result<(), Fault>
    ensures { IsCheckOf tables (graph.function_names function.now) result }
{
    function.params.check(tables)?;
    check_three(
        &function.context,
        &function.body.blocks,
        &function.instructions,
        tables,
    )
}
