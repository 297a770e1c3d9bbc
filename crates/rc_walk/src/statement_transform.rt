//! Passes over statements: the hooks of such a pass, and the rewriting walk with them.
//!
//! Most hooks of a rewriting walk do nothing in a pass that looks at no row and no value. They are written once, in
//! `OverStatements`.

ghost use Rattle.rc_tree.specs.Step.{IsStep};
ghost use Rattle.rc_tree.specs.StatementSteps.{StatementSteps, over_statements};
ghost use Rattle.rc_tree.proofs.StatementsNoDeeper.{over_statements_no_deeper};

use crate::transform::ReactiveFunctionTransform;
use rc_hir::{Environment, Fault, Place};
use rc_names::EvaluationOrder;
use rc_tree::{
    Enter, PrunedReactiveScopeBlock, ReactiveBlock, ReactiveInstruction, ReactiveScopeBlock,
    ReactiveStatement, ReactiveTerminalStatement, ReactiveValue, Transformed,
};

/// The hooks of a pass over statements.
pub trait StatementTransform {
    /// The state that the hooks share.
    type State;

    /// The step of each hook.
    ghost steps: { Self → StatementSteps Self.State };

    /// Called before the inside of a scope block.
    fn enter_scope(&self, scope: &ReactiveScopeBlock, state: &mut Self::State) -> Result<(), Fault>
        ensures { IsStep ((steps self.now).enter_scope scope.now state.old) result state.new };

    /// Called after the inside of a terminal; returns how the terminal is replaced.
    fn transform_terminal(
        &self,
        stmt: &mut ReactiveTerminalStatement,
        state: &mut Self::State,
    ) -> Result<Transformed<ReactiveStatement>, Fault>
        ensures { IsStep ((steps self.now).transform_terminal state.old stmt.old) result (state.new, stmt.new) };

    /// Called after the inside of a scope block; returns how the scope block is replaced.
    fn transform_scope(
        &self,
        scope: &mut ReactiveScopeBlock,
        state: &mut Self::State,
    ) -> Result<Transformed<ReactiveStatement>, Fault>
        ensures { IsStep ((steps self.now).transform_scope state.old scope.old) result (state.new, scope.new) };

    /// Called after the statements of a block, which have their replacements; may give the block others.
    fn leave_block(&self, block: &mut ReactiveBlock, state: &mut Self::State) -> Result<(), Fault>
        ensures { IsStep ((steps self.now).leave_block state.old block.old) result (state.new, block.new) };
}

/// A pass over statements as a transform: rows and values are skipped, and every other part is entered.
#[derive(Drop)]
pub struct OverStatements<'a, P> {
    pub env: &'a Environment,
    pub pass: P,
}

impl<'a, P: StatementTransform> ReactiveFunctionTransform for OverStatements<'a, P> {
    type State = P::State;

    ghost steps = { over_statements (λ it. P.steps it.pass) };

    ghost functions = { λ it. it.env.now.functions };

    ghost enters = { over_statements_no_deeper (λ it. P.steps it.pass) };

    fn env(&self) -> &Environment {
        self.env
    }

    fn visit_id(&mut self, _id: EvaluationOrder, _state: &mut P::State) -> Result<(), Fault> {
        Ok(())
    }

    fn visit_place(
        &mut self,
        _id: EvaluationOrder,
        _place: &Place,
        _state: &mut P::State,
    ) -> Result<(), Fault> {
        Ok(())
    }

    fn visit_lvalue(
        &mut self,
        _id: EvaluationOrder,
        _place: &Place,
        _state: &mut P::State,
    ) -> Result<(), Fault> {
        Ok(())
    }

    fn enter_instruction(
        &mut self,
        _instruction: &mut ReactiveInstruction,
        _state: &mut P::State,
    ) -> Result<Enter, Fault> {
        Ok(Enter::Skip)
    }

    fn leave_instruction(
        &mut self,
        _instruction: &mut ReactiveInstruction,
        _state: &mut P::State,
    ) -> Result<(), Fault> {
        Ok(())
    }

    fn enter_value(
        &mut self,
        _id: EvaluationOrder,
        _value: &mut ReactiveValue,
        _state: &mut P::State,
    ) -> Result<Enter, Fault> {
        Ok(Enter::Skip)
    }

    fn leave_value(
        &mut self,
        _id: EvaluationOrder,
        _value: &mut ReactiveValue,
        _state: &mut P::State,
    ) -> Result<(), Fault> {
        Ok(())
    }

    fn enter_terminal(
        &mut self,
        _stmt: &mut ReactiveTerminalStatement,
        _state: &mut P::State,
    ) -> Result<Enter, Fault> {
        Ok(Enter::Inside)
    }

    fn leave_terminal(
        &mut self,
        _stmt: &mut ReactiveTerminalStatement,
        _state: &mut P::State,
    ) -> Result<(), Fault> {
        Ok(())
    }

    fn enter_scope(
        &mut self,
        scope: &mut ReactiveScopeBlock,
        state: &mut P::State,
    ) -> Result<Enter, Fault> {
        self.pass.enter_scope(scope, state)?;
        Ok(Enter::Inside)
    }

    fn leave_scope(
        &mut self,
        _scope: &mut ReactiveScopeBlock,
        _state: &mut P::State,
    ) -> Result<(), Fault> {
        Ok(())
    }

    fn enter_pruned_scope(
        &mut self,
        _scope: &mut PrunedReactiveScopeBlock,
        _state: &mut P::State,
    ) -> Result<Enter, Fault> {
        Ok(Enter::Inside)
    }

    fn leave_pruned_scope(
        &mut self,
        _scope: &mut PrunedReactiveScopeBlock,
        _state: &mut P::State,
    ) -> Result<(), Fault> {
        Ok(())
    }

    fn enter_block(
        &mut self,
        _block: &mut ReactiveBlock,
        _state: &mut P::State,
    ) -> Result<Enter, Fault> {
        Ok(Enter::Inside)
    }

    fn leave_block(
        &mut self,
        block: &mut ReactiveBlock,
        state: &mut P::State,
    ) -> Result<(), Fault> {
        self.pass.leave_block(block, state)
    }

    fn transform_instruction(
        &mut self,
        _instruction: &mut ReactiveInstruction,
        _state: &mut P::State,
    ) -> Result<Transformed<ReactiveStatement>, Fault> {
        Ok(Transformed::Keep)
    }

    fn transform_terminal(
        &mut self,
        stmt: &mut ReactiveTerminalStatement,
        state: &mut P::State,
    ) -> Result<Transformed<ReactiveStatement>, Fault> {
        self.pass.transform_terminal(stmt, state)
    }

    fn transform_scope(
        &mut self,
        scope: &mut ReactiveScopeBlock,
        state: &mut P::State,
    ) -> Result<Transformed<ReactiveStatement>, Fault> {
        self.pass.transform_scope(scope, state)
    }

    fn transform_pruned_scope(
        &mut self,
        _scope: &mut PrunedReactiveScopeBlock,
        _state: &mut P::State,
    ) -> Result<Transformed<ReactiveStatement>, Fault> {
        Ok(Transformed::Keep)
    }
}
