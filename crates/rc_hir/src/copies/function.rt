//! Copies of functions and of their blocks and rows.

use crate::function::{BasicBlock, Hir, HirFunction, Instruction};
use rc_names::CloneIn;
use std::alloc::{AllocError, Global};

impl CloneIn for Instruction {
    fn clone_in(&self, alloc: Global) -> Result<Instruction, AllocError> {
        Ok(Instruction {
            id: self.id,
            lvalue: self.lvalue,
            value: self.value.clone_in(alloc)?,
            span: self.span,
        })
    }
}

impl CloneIn for BasicBlock {
    fn clone_in(&self, alloc: Global) -> Result<BasicBlock, AllocError> {
        Ok(BasicBlock {
            id: self.id,
            instructions: self.instructions.copy_in(alloc)?,
            terminal: self.terminal.clone_in(alloc)?,
        })
    }
}

impl CloneIn for Hir {
    fn clone_in(&self, alloc: Global) -> Result<Hir, AllocError> {
        Ok(Hir {
            entry: self.entry,
            blocks: self.blocks.clone_in(alloc)?,
        })
    }
}

impl CloneIn for HirFunction {
    fn clone_in(&self, alloc: Global) -> Result<HirFunction, AllocError> {
        Ok(HirFunction {
            span: self.span,
            id: self.id.clone_in(alloc)?,
            name_hint: self.name_hint.clone_in(alloc)?,
            params: self.params.copy_in(alloc)?,
            generator: self.generator,
            is_async: self.is_async,
            context: self.context.copy_in(alloc)?,
            body: self.body.clone_in(alloc)?,
            instructions: self.instructions.clone_in(alloc)?,
            directives: self.directives.clone_in(alloc)?,
        })
    }
}
