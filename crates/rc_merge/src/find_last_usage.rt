//! The walk that finds the last use of each declaration.

ghost use Rattle.rc_merge.specs.LastUses.{LastUses};
ghost use Rattle.rc_merge.specs.inside.LastUsesMet.{use_steps};
ghost use Rattle.rc_merge.specs.inside.MetUses.{with_all};

use crate::last_uses::MetUses;
use rc_hir::{Environment, Fault, Place};
use rc_names::{EvaluationOrder, FunctionId};
use rc_tree::{
    Enter, PrunedReactiveScopeBlock, ReactiveBlock, ReactiveInstruction, ReactiveScopeBlock,
    ReactiveTerminalStatement, ReactiveValue,
};
use rc_walk::ReactiveFunctionVisitor;

/// Notes each operand with its id.
#[derive(Clone, Copy)]
pub(crate) struct FindLastUsageVisitor<'a> {
    pub env: &'a Environment,
}

impl<'a> ReactiveFunctionVisitor for FindLastUsageVisitor<'a> {
    type State = MetUses;

    ghost Value = { LastUses };

    ghost view = { λ it met. with_all it.env.now met };

    ghost steps = { λ it. use_steps it.env.now };

    ghost functions = { λ it. it.env.now.functions };

    fn env(&self) -> &Environment {
        self.env
    }

    fn visit_id(&self, _id: EvaluationOrder, _met: &mut MetUses) -> Result<(), Fault> {
        Ok(())
    }

    fn visit_place(
        &self,
        id: EvaluationOrder,
        place: &Place,
        met: &mut MetUses,
    ) -> Result<(), Fault> {
        met.add_place(self.env, id, place)?;
        Ok(())
    }

    fn visit_context(
        &self,
        id: EvaluationOrder,
        function: FunctionId,
        _places: &[Place],
        met: &mut MetUses,
    ) -> Result<(), Fault> {
        met.add_context(id, function)?;
        Ok(())
    }

    fn visit_lvalue(
        &self,
        _id: EvaluationOrder,
        _place: &Place,
        _met: &mut MetUses,
    ) -> Result<(), Fault> {
        Ok(())
    }

    fn visit_param(&self, _place: &Place, _met: &mut MetUses) -> Result<(), Fault> {
        Ok(())
    }

    fn enter_instruction(
        &self,
        _instruction: &ReactiveInstruction,
        _met: &mut MetUses,
    ) -> Result<Enter, Fault> {
        Ok(Enter::Inside)
    }

    fn leave_instruction(
        &self,
        _instruction: &ReactiveInstruction,
        _met: &mut MetUses,
    ) -> Result<(), Fault> {
        Ok(())
    }

    fn enter_value(
        &self,
        _id: EvaluationOrder,
        _value: &ReactiveValue,
        _met: &mut MetUses,
    ) -> Result<Enter, Fault> {
        Ok(Enter::Inside)
    }

    fn leave_value(
        &self,
        _id: EvaluationOrder,
        _value: &ReactiveValue,
        _met: &mut MetUses,
    ) -> Result<(), Fault> {
        Ok(())
    }

    fn enter_terminal(
        &self,
        _stmt: &ReactiveTerminalStatement,
        _met: &mut MetUses,
    ) -> Result<Enter, Fault> {
        Ok(Enter::Inside)
    }

    fn leave_terminal(
        &self,
        _stmt: &ReactiveTerminalStatement,
        _met: &mut MetUses,
    ) -> Result<(), Fault> {
        Ok(())
    }

    fn enter_scope(&self, _scope: &ReactiveScopeBlock, _met: &mut MetUses) -> Result<Enter, Fault> {
        Ok(Enter::Inside)
    }

    fn leave_scope(&self, _scope: &ReactiveScopeBlock, _met: &mut MetUses) -> Result<(), Fault> {
        Ok(())
    }

    fn enter_pruned_scope(
        &self,
        _scope: &PrunedReactiveScopeBlock,
        _met: &mut MetUses,
    ) -> Result<Enter, Fault> {
        Ok(Enter::Inside)
    }

    fn leave_pruned_scope(
        &self,
        _scope: &PrunedReactiveScopeBlock,
        _met: &mut MetUses,
    ) -> Result<(), Fault> {
        Ok(())
    }

    fn enter_block(&self, _block: &ReactiveBlock, _met: &mut MetUses) -> Result<Enter, Fault> {
        Ok(Enter::Inside)
    }

    fn leave_block(&self, _block: &ReactiveBlock, _met: &mut MetUses) -> Result<(), Fault> {
        Ok(())
    }
}
