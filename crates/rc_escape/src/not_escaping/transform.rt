//! The pass as a transform of the rewriting walk. It looks at rows that are statements and at scope blocks.

ghost use Rattle.rc_escape.specs.inside.NotEscapingSteps.{enters_no_deeper, not_escaping_steps};

use crate::DeclSet;
use crate::not_escaping::met::Met;
use crate::not_escaping::outputs::is_dissolved;
use crate::not_escaping::rows::{set_flag_of_row, stored_by_row};
use rc_hir::{Environment, Fault, Place};
use rc_names::EvaluationOrder;
use rc_tree::{
    Enter, PrunedReactiveScopeBlock, ReactiveBlock, ReactiveInstruction, ReactiveScopeBlock,
    ReactiveStatement, ReactiveTerminalStatement, ReactiveValue, Transformed,
};
use rc_walk::ReactiveFunctionTransform;
use std::alloc::Global;

/// The pass, with the memoized names; its state is what it has met so far.
#[derive(Clone, Copy)]
pub struct PruneScopesTransform<'a> {
    pub alloc: Global,
    pub env: &'a Environment,
    pub set: &'a DeclSet,
}

impl<'a> ReactiveFunctionTransform for PruneScopesTransform<'a> {
    type State = Met;

    ghost steps = { not_escaping_steps (λ it. it.env.now) (λ it. it.set.now) };

    ghost functions = { λ it. it.env.now.functions };

    ghost enters = { enters_no_deeper (λ it. it.env.now) (λ it. it.set.now) };

    fn env(&self) -> &Environment {
        self.env
    }

    fn visit_id(&mut self, _id: EvaluationOrder, _met: &mut Met) -> Result<(), Fault> {
        Ok(())
    }

    fn visit_place(
        &mut self,
        _id: EvaluationOrder,
        _place: &Place,
        _met: &mut Met,
    ) -> Result<(), Fault> {
        Ok(())
    }

    fn visit_lvalue(
        &mut self,
        _id: EvaluationOrder,
        _place: &Place,
        _met: &mut Met,
    ) -> Result<(), Fault> {
        Ok(())
    }

    fn enter_instruction(
        &mut self,
        _instruction: &mut ReactiveInstruction,
        _met: &mut Met,
    ) -> Result<Enter, Fault> {
        Ok(Enter::Skip)
    }

    fn leave_instruction(
        &mut self,
        _instruction: &mut ReactiveInstruction,
        _met: &mut Met,
    ) -> Result<(), Fault> {
        Ok(())
    }

    fn enter_value(
        &mut self,
        _id: EvaluationOrder,
        _value: &mut ReactiveValue,
        _met: &mut Met,
    ) -> Result<Enter, Fault> {
        Ok(Enter::Skip)
    }

    fn leave_value(
        &mut self,
        _id: EvaluationOrder,
        _value: &mut ReactiveValue,
        _met: &mut Met,
    ) -> Result<(), Fault> {
        Ok(())
    }

    fn enter_terminal(
        &mut self,
        _stmt: &mut ReactiveTerminalStatement,
        _met: &mut Met,
    ) -> Result<Enter, Fault> {
        Ok(Enter::Inside)
    }

    fn leave_terminal(
        &mut self,
        _stmt: &mut ReactiveTerminalStatement,
        _met: &mut Met,
    ) -> Result<(), Fault> {
        Ok(())
    }

    fn enter_scope(
        &mut self,
        _scope: &mut ReactiveScopeBlock,
        _met: &mut Met,
    ) -> Result<Enter, Fault> {
        Ok(Enter::Inside)
    }

    fn leave_scope(
        &mut self,
        _scope: &mut ReactiveScopeBlock,
        _met: &mut Met,
    ) -> Result<(), Fault> {
        Ok(())
    }

    fn enter_pruned_scope(
        &mut self,
        _scope: &mut PrunedReactiveScopeBlock,
        _met: &mut Met,
    ) -> Result<Enter, Fault> {
        Ok(Enter::Inside)
    }

    fn leave_pruned_scope(
        &mut self,
        _scope: &mut PrunedReactiveScopeBlock,
        _met: &mut Met,
    ) -> Result<(), Fault> {
        Ok(())
    }

    fn enter_block(&mut self, _block: &mut ReactiveBlock, _met: &mut Met) -> Result<Enter, Fault> {
        Ok(Enter::Inside)
    }

    fn leave_block(&mut self, _block: &mut ReactiveBlock, _met: &mut Met) -> Result<(), Fault> {
        Ok(())
    }

    fn transform_instruction(
        &mut self,
        instruction: &mut ReactiveInstruction,
        met: &mut Met,
    ) -> Result<Transformed<ReactiveStatement>, Fault> {
        let stored = stored_by_row(self.env, instruction);
        set_flag_of_row(self.env, met, instruction);
        if let Some(store) = stored {
            met.store(self.alloc, store)?;
        }
        Ok(Transformed::Keep)
    }

    fn transform_terminal(
        &mut self,
        _stmt: &mut ReactiveTerminalStatement,
        _met: &mut Met,
    ) -> Result<Transformed<ReactiveStatement>, Fault> {
        Ok(Transformed::Keep)
    }

    fn transform_scope(
        &mut self,
        scope: &mut ReactiveScopeBlock,
        met: &mut Met,
    ) -> Result<Transformed<ReactiveStatement>, Fault> {
        if !is_dissolved(self.env, self.set, scope.scope) {
            return Ok(Transformed::Keep);
        }
        met.dissolve(scope.scope)?;
        Ok(Transformed::ReplaceMany(scope.instructions.statements.take()))
    }

    fn transform_pruned_scope(
        &mut self,
        _scope: &mut PrunedReactiveScopeBlock,
        _met: &mut Met,
    ) -> Result<Transformed<ReactiveStatement>, Fault> {
        Ok(Transformed::Keep)
    }
}
