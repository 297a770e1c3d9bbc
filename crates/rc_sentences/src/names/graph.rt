//! The numbers of the parts of a graph.

use crate::names::parts::{Seeks, seek_both, seek_in, seek_three};
use crate::names::seeker::Seeker;
use rc_hir::{
    ArrayElement, ArrayPatternElement, BasicBlock, Case, Hir, HirFunction, Instruction,
    JsxAttribute, JsxTag, LValue, LValuePattern, LoweredFunction, ObjectProperty,
    ObjectPropertyKey, ObjectPropertyOrSpread, ParamPattern, Pattern, Place, PlaceOrSpread,
    SpreadPattern, TableName, Terminal,
};
use rc_names::{FunctionId, IdentifierId, InstructionId, ScopeId};
use std::alloc::AllocError;

impl Seeks for IdentifierId {
    fn seek(&self, seeker: &mut Seeker) -> Result<bool, AllocError> {
        Ok(seeker.is(TableName::Identifiers, self.0))
    }
}

impl Seeks for ScopeId {
    fn seek(&self, seeker: &mut Seeker) -> Result<bool, AllocError> {
        Ok(seeker.is(TableName::Scopes, self.0))
    }
}

impl Seeks for FunctionId {
    fn seek(&self, seeker: &mut Seeker) -> Result<bool, AllocError> {
        Ok(seeker.is(TableName::Functions, self.0))
    }
}

impl Seeks for InstructionId {
    fn seek(&self, seeker: &mut Seeker) -> Result<bool, AllocError> {
        Ok(seeker.is(TableName::Instructions, self.0))
    }
}

impl Seeks for Place {
    fn seek(&self, seeker: &mut Seeker) -> Result<bool, AllocError> {
        self.identifier.seek(seeker)
    }
}

impl Seeks for SpreadPattern {
    fn seek(&self, seeker: &mut Seeker) -> Result<bool, AllocError> {
        seek_in("place", &self.place, seeker)
    }
}

impl Seeks for LValue {
    fn seek(&self, seeker: &mut Seeker) -> Result<bool, AllocError> {
        seek_in("place", &self.place, seeker)
    }
}

impl Seeks for LValuePattern {
    fn seek(&self, seeker: &mut Seeker) -> Result<bool, AllocError> {
        seek_in("pattern", &self.pattern, seeker)
    }
}

impl Seeks for LoweredFunction {
    fn seek(&self, seeker: &mut Seeker) -> Result<bool, AllocError> {
        seek_in("func", &self.func, seeker)
    }
}

impl Seeks for ParamPattern {
    fn seek(&self, seeker: &mut Seeker) -> Result<bool, AllocError> {
        match self {
            ParamPattern::Place(place) => seek_in("v", place, seeker),
            ParamPattern::Spread(spread) => seek_in("v", spread, seeker),
        }
    }
}

impl Seeks for PlaceOrSpread {
    fn seek(&self, seeker: &mut Seeker) -> Result<bool, AllocError> {
        match self {
            PlaceOrSpread::Place(place) => seek_in("v", place, seeker),
            PlaceOrSpread::Spread(spread) => seek_in("v", spread, seeker),
        }
    }
}

impl Seeks for ArrayElement {
    fn seek(&self, seeker: &mut Seeker) -> Result<bool, AllocError> {
        match self {
            ArrayElement::Place(place) => seek_in("v", place, seeker),
            ArrayElement::Spread(spread) => seek_in("v", spread, seeker),
            ArrayElement::Hole => Ok(false),
        }
    }
}

impl Seeks for ArrayPatternElement {
    fn seek(&self, seeker: &mut Seeker) -> Result<bool, AllocError> {
        match self {
            ArrayPatternElement::Place(place) => seek_in("v", place, seeker),
            ArrayPatternElement::Spread(spread) => seek_in("v", spread, seeker),
            ArrayPatternElement::Hole => Ok(false),
        }
    }
}

impl Seeks for ObjectPropertyKey {
    fn seek(&self, seeker: &mut Seeker) -> Result<bool, AllocError> {
        match self {
            ObjectPropertyKey::Identifier(_)
            | ObjectPropertyKey::String(_)
            | ObjectPropertyKey::Number(_) => Ok(false),
            ObjectPropertyKey::Computed(place) => seek_in("v", place, seeker),
        }
    }
}

impl Seeks for ObjectProperty {
    fn seek(&self, seeker: &mut Seeker) -> Result<bool, AllocError> {
        seek_both(("key", "place"), &self.key, &self.place, seeker)
    }
}

impl Seeks for ObjectPropertyOrSpread {
    fn seek(&self, seeker: &mut Seeker) -> Result<bool, AllocError> {
        match self {
            ObjectPropertyOrSpread::Property(property) => seek_in("v", property, seeker),
            ObjectPropertyOrSpread::Spread(spread) => seek_in("v", spread, seeker),
        }
    }
}

impl Seeks for Pattern {
    fn seek(&self, seeker: &mut Seeker) -> Result<bool, AllocError> {
        match self {
            Pattern::Array { items } => seek_in("items", items, seeker),
            Pattern::Object { properties } => seek_in("properties", properties, seeker),
        }
    }
}

impl Seeks for JsxTag {
    fn seek(&self, seeker: &mut Seeker) -> Result<bool, AllocError> {
        match self {
            JsxTag::Place(place) => seek_in("v", place, seeker),
            JsxTag::Builtin(_) => Ok(false),
        }
    }
}

impl Seeks for JsxAttribute {
    fn seek(&self, seeker: &mut Seeker) -> Result<bool, AllocError> {
        match self {
            JsxAttribute::Attribute { place, .. } => seek_in("place", place, seeker),
            JsxAttribute::SpreadAttribute { argument } => seek_in("argument", argument, seeker),
        }
    }
}

impl Seeks for Instruction {
    fn seek(&self, seeker: &mut Seeker) -> Result<bool, AllocError> {
        seek_both(("lvalue", "value"), &self.lvalue, &self.value, seeker)
    }
}

impl Seeks for Case {
    fn seek(&self, seeker: &mut Seeker) -> Result<bool, AllocError> {
        seek_in("test", &self.test, seeker)
    }
}

impl Seeks for Terminal {
    fn seek(&self, seeker: &mut Seeker) -> Result<bool, AllocError> {
        match self {
            Terminal::If { test, .. } | Terminal::Branch { test, .. } => {
                seek_in("test", test, seeker)
            }
            Terminal::Throw { value, .. } | Terminal::Return { value, .. } => {
                seek_in("value", value, seeker)
            }
            Terminal::Switch { test, cases, .. } => {
                seek_both(("test", "cases"), test, cases, seeker)
            }
            Terminal::Scope { scope, .. } | Terminal::PrunedScope { scope, .. } => {
                seek_in("scope", scope, seeker)
            }
            Terminal::Try {
                handler_binding,
                ..
            } => seek_in("handler_binding", handler_binding, seeker),
            _ => Ok(false),
        }
    }
}

impl Seeks for BasicBlock {
    fn seek(&self, seeker: &mut Seeker) -> Result<bool, AllocError> {
        let names = ("instructions", "terminal");
        seek_both(names, &self.instructions, &self.terminal, seeker)
    }
}

impl Seeks for Hir {
    fn seek(&self, seeker: &mut Seeker) -> Result<bool, AllocError> {
        seek_in("blocks", &self.blocks, seeker)
    }
}

impl Seeks for HirFunction {
    fn seek(&self, seeker: &mut Seeker) -> Result<bool, AllocError> {
        seeker.enter_function(self.instructions.len());
        if seek_in("params", &self.params, seeker)? {
            return Ok(true);
        }
        let names = ("context", "body", "instructions");
        seek_three(names, &self.context, &self.body, &self.instructions, seeker)
    }
}
