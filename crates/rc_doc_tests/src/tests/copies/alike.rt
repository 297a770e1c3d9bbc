//! Whether two graphs, or two environments, are alike in each of their parts.

use rc_hir::{
    BasicBlock, DependencyPathEntry, Environment, Hir, HirFunction, Identifier, IdentifierName,
    Instruction, InstructionValue, PropertyLiteral, ReactiveScope, ReactiveScopeDependency,
    Terminal,
};
use rc_names::Text;
use rc_show::value_json;
use std::alloc::{AllocError, Global};

/// A type whose values are compared part by part.
pub trait Alike {
    /// Whether the other one has the same parts.
    fn is_like(&self, other: &Self, alloc: Global) -> Result<bool, AllocError>;
}

/// Whether two lists are alike entry by entry.
fn are_alike<T: Alike>(ones: &[T], others: &[T], alloc: Global) -> Result<bool, AllocError> {
    let mut are_alike = ones.len() == others.len();
    for (one, other) in ones.iter().zip(others) {
        are_alike &= one.is_like(other, alloc)?;
    }
    Ok(are_alike)
}

impl<T: Alike> Alike for Option<T> {
    fn is_like(&self, other: &Option<T>, alloc: Global) -> Result<bool, AllocError> {
        match (self, other) {
            (Some(one), Some(other)) => one.is_like(other, alloc),
            (None, None) => Ok(true),
            _ => Ok(false),
        }
    }
}

impl Alike for Text {
    fn is_like(&self, other: &Text, _: Global) -> Result<bool, AllocError> {
        Ok(self.as_str() == other.as_str())
    }
}

impl Alike for InstructionValue {
    fn is_like(&self, other: &InstructionValue, alloc: Global) -> Result<bool, AllocError> {
        let one = value_json(alloc, self)?.to_string(alloc)?;
        let other = value_json(alloc, other)?.to_string(alloc)?;
        Ok(one == other)
    }
}

impl Alike for Instruction {
    fn is_like(&self, other: &Instruction, alloc: Global) -> Result<bool, AllocError> {
        let is_alike = self.id == other.id
            && self.lvalue == other.lvalue
            && self.span == other.span;
        Ok(is_alike && self.value.is_like(&other.value, alloc)?)
    }
}

/// A terminal's kind and each of its fields; empty for the kinds that the component doesn't have.
fn terminal_text(alloc: Global, terminal: &Terminal) -> Result<String, AllocError> {
    match terminal {
        Terminal::If {
            test,
            consequent,
            alternate,
            fallthrough,
            id,
            span,
        } => {
            format!(in alloc;
                "If {test:?} {consequent:?} {alternate:?} {fallthrough:?} {id:?} {span:?}"
            )
        }
        Terminal::Branch {
            test,
            consequent,
            alternate,
            id,
            span,
        } => format!(in alloc; "Branch {test:?} {consequent:?} {alternate:?} {id:?} {span:?}"),
        Terminal::Ternary {
            test,
            fallthrough,
            id,
            span,
        } => format!(in alloc; "Ternary {test:?} {fallthrough:?} {id:?} {span:?}"),
        Terminal::Optional {
            optional,
            test,
            fallthrough,
            id,
            span,
        } => format!(in alloc; "Optional {optional} {test:?} {fallthrough:?} {id:?} {span:?}"),
        Terminal::Return { value, id, span } => {
            format!(in alloc; "Return {value:?} {id:?} {span:?}")
        }
        Terminal::Goto {
            block,
            variant,
            id,
            span,
        } => format!(in alloc; "Goto {block:?} {variant:?} {id:?} {span:?}"),
        Terminal::ForOf {
            init,
            test,
            loop_block,
            fallthrough,
            id,
            span,
        } => {
            format!(in alloc;
                "ForOf {init:?} {test:?} {loop_block:?} {fallthrough:?} {id:?} {span:?}"
            )
        }
        Terminal::Scope {
            fallthrough,
            block,
            scope,
            id,
            span,
        } => format!(in alloc; "Scope {fallthrough:?} {block:?} {scope:?} {id:?} {span:?}"),
        _ => Ok(String::new(alloc)),
    }
}

impl Alike for Terminal {
    fn is_like(&self, other: &Terminal, alloc: Global) -> Result<bool, AllocError> {
        Ok(terminal_text(alloc, self)? == terminal_text(alloc, other)?)
    }
}

impl Alike for BasicBlock {
    fn is_like(&self, other: &BasicBlock, alloc: Global) -> Result<bool, AllocError> {
        let is_alike = self.id == other.id
            && self.instructions.as_slice() == other.instructions.as_slice();
        Ok(is_alike && self.terminal.is_like(&other.terminal, alloc)?)
    }
}

impl Alike for Hir {
    fn is_like(&self, other: &Hir, alloc: Global) -> Result<bool, AllocError> {
        let mut is_alike = self.entry == other.entry && self.blocks.keys() == other.blocks.keys();
        for (block, other) in self.blocks.values().iter().zip(other.blocks.values()) {
            is_alike &= block.is_like(other, alloc)?;
        }
        Ok(is_alike)
    }
}

impl Alike for HirFunction {
    fn is_like(&self, other: &HirFunction, alloc: Global) -> Result<bool, AllocError> {
        let is_alike = self.span == other.span
            && self.params.as_slice() == other.params.as_slice()
            && self.generator == other.generator
            && self.is_async == other.is_async
            && self.context.as_slice() == other.context.as_slice();
        let (rows, others) = (self.instructions.as_slice(), other.instructions.as_slice());
        let (texts, other_texts) = (self.directives.as_slice(), other.directives.as_slice());
        Ok(
            is_alike
                && self.id.is_like(&other.id, alloc)?
                && self.name_hint.is_like(&other.name_hint, alloc)?
                && self.body.is_like(&other.body, alloc)?
                && are_alike(rows, others, alloc)?
                && are_alike(texts, other_texts, alloc)?,
        )
    }
}

impl Alike for IdentifierName {
    fn is_like(&self, other: &IdentifierName, alloc: Global) -> Result<bool, AllocError> {
        match (self, other) {
            (IdentifierName::Named(one), IdentifierName::Named(other)) => one.is_like(other, alloc),
            (IdentifierName::Promoted(one), IdentifierName::Promoted(other)) => {
                one.is_like(other, alloc)
            }
            _ => Ok(false),
        }
    }
}

impl Alike for Identifier {
    fn is_like(&self, other: &Identifier, alloc: Global) -> Result<bool, AllocError> {
        let is_alike = self.declaration_id == other.declaration_id
            && self.scope == other.scope
            && self.type_ == other.type_
            && self.span == other.span;
        Ok(is_alike && self.name.is_like(&other.name, alloc)?)
    }
}

impl Alike for PropertyLiteral {
    fn is_like(&self, other: &PropertyLiteral, alloc: Global) -> Result<bool, AllocError> {
        match (self, other) {
            (PropertyLiteral::String(one), PropertyLiteral::String(other)) => {
                one.is_like(other, alloc)
            }
            (PropertyLiteral::Number(one), PropertyLiteral::Number(other)) => {
                one.is_like(other, alloc)
            }
            _ => Ok(false),
        }
    }
}

impl Alike for DependencyPathEntry {
    fn is_like(&self, other: &DependencyPathEntry, alloc: Global) -> Result<bool, AllocError> {
        let is_alike = self.optional == other.optional;
        Ok(is_alike && self.property.is_like(&other.property, alloc)?)
    }
}

impl Alike for ReactiveScopeDependency {
    fn is_like(&self, other: &ReactiveScopeDependency, alloc: Global) -> Result<bool, AllocError> {
        let is_alike = self.identifier == other.identifier
            && self.reactive == other.reactive
            && self.span == other.span;
        Ok(is_alike && are_alike(self.path.as_slice(), other.path.as_slice(), alloc)?)
    }
}

impl Alike for ReactiveScope {
    fn is_like(&self, other: &ReactiveScope, alloc: Global) -> Result<bool, AllocError> {
        let is_alike = self.range == other.range
            && self.declarations.as_slice() == other.declarations.as_slice()
            && self.reassignments.as_slice() == other.reassignments.as_slice()
            && self.early_return_value == other.early_return_value
            && self.merged.as_slice() == other.merged.as_slice();
        let (ones, others) = (self.dependencies.as_slice(), other.dependencies.as_slice());
        Ok(is_alike && are_alike(ones, others, alloc)?)
    }
}

impl Alike for Environment {
    fn is_like(&self, other: &Environment, alloc: Global) -> Result<bool, AllocError> {
        let is_alike = self.types.as_slice() == other.types.as_slice()
            && self.shapes.as_slice() == other.shapes.as_slice()
            && self.config == other.config
            && self.next_block == other.next_block;
        Ok(
            is_alike
                && are_alike(
                    self.identifiers.as_slice(),
                    other.identifiers.as_slice(),
                    alloc,
                )?
                && are_alike(self.scopes.as_slice(), other.scopes.as_slice(), alloc)?
                && are_alike(self.functions.as_slice(), other.functions.as_slice(), alloc)?,
        )
    }
}
