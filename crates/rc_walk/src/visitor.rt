//! The hooks of a read walk.
//!
//! An implementation states its hooks as one record of steps, and each hook's contract is its step. The walks in
//! `read` are proved once for all steps: the result of a walk is that of `rc_tree/specs/Read.antt` with the visitor's
//! steps.
//!
//! After oxc's visitors.rs.

ghost use Rattle.std.specs.Prelude.{◌≡◌, List as Entries, Ok, slice_get};
ghost use Rattle.rc_hir.specs.Model.{HirFunction};
ghost use Rattle.rc_hir.specs.Operands.{context_found};
ghost use Rattle.rc_tree.specs.Step.{IsStep, each};
ghost use Rattle.rc_tree.specs.ReadSteps.{ReadSteps};

use rc_hir::{Environment, Fault, Place};
use rc_names::{EvaluationOrder, FunctionId};
use rc_tree::{
    Enter, PrunedReactiveScopeBlock, ReactiveBlock, ReactiveInstruction, ReactiveScopeBlock,
    ReactiveTerminalStatement, ReactiveValue,
};

/// The hooks of a read walk. A hook that has nothing to do changes nothing and returns `()` or `Inside`.
pub trait ReactiveFunctionVisitor {
    /// The state that the hooks share.
    type State;

    /// What the steps take a state for.
    ghost Value: { Type 0 };

    /// The value of a state, which may depend on what the visitor knows.
    ghost view: { Self → Self.State → Value };

    /// The step of each hook.
    ghost steps: { Self → ReadSteps Value };

    /// The functions of `env`, whose contexts are operands.
    ghost functions: { Self → Entries HirFunction };

    /// Returns the environment, whose tables the tree's numbers index.
    fn env(&self) -> &Environment
        ensures { result.now.functions ≡ functions self.now };

    /// Called at the id of each row and of each terminal.
    fn visit_id(&self, id: EvaluationOrder, state: &mut Self::State) -> Result<(), Fault>
        ensures { IsStep ((steps self.now).visit_id id (view self.now state.old)) result (view self.now state.new) };

    /// Called at each operand that isn't of a context.
    fn visit_place(
        &self,
        id: EvaluationOrder,
        place: &Place,
        state: &mut Self::State,
    ) -> Result<(), Fault>
        ensures { IsStep ((steps self.now).visit_place id place.now (view self.now state.old))
            result (view self.now state.new) };

    /// Called at the context of a nested function, whose places are the operands of a row that names it. It does what a
    /// call at each of the places does, and a visitor that knows the context may do so in fewer steps.
    #[tactic(auto, using(rc_tree::proofs::ReadLemmas::reading))]
    fn visit_context(
        &self,
        id: EvaluationOrder,
        function: FunctionId,
        places: &[Place],
        state: &mut Self::State,
    ) -> Result<(), Fault>
        requires context { context_found function (slice_get (functions self.now) function.0) ≡ Ok places.now }
        ensures { IsStep (each ((steps self.now).visit_place id) places.now (view self.now state.old))
            result (view self.now state.new) }
    {
        for place in places {
            self.visit_place(id, place, state)?;
        }
        Ok(())
    }

    /// Called at each target.
    fn visit_lvalue(
        &self,
        id: EvaluationOrder,
        place: &Place,
        state: &mut Self::State,
    ) -> Result<(), Fault>
        ensures { IsStep ((steps self.now).visit_lvalue id place.now (view self.now state.old))
            result (view self.now state.new) };

    /// Called at each parameter of a graph's function.
    fn visit_param(&self, place: &Place, state: &mut Self::State) -> Result<(), Fault>
        ensures { IsStep ((steps self.now).visit_param place.now (view self.now state.old))
            result (view self.now state.new) };

    /// Called before a row.
    fn enter_instruction(
        &self,
        instruction: &ReactiveInstruction,
        state: &mut Self::State,
    ) -> Result<Enter, Fault>
        ensures { IsStep ((steps self.now).enter_instruction instruction.now (view self.now state.old))
            result (view self.now state.new) };

    /// Called after a row that was entered.
    fn leave_instruction(
        &self,
        instruction: &ReactiveInstruction,
        state: &mut Self::State,
    ) -> Result<(), Fault>
        ensures { IsStep ((steps self.now).leave_instruction instruction.now (view self.now state.old))
            result (view self.now state.new) };

    /// Called before a value.
    fn enter_value(
        &self,
        id: EvaluationOrder,
        value: &ReactiveValue,
        state: &mut Self::State,
    ) -> Result<Enter, Fault>
        ensures { IsStep ((steps self.now).enter_value id value.now (view self.now state.old))
            result (view self.now state.new) };

    /// Called after a value that was entered.
    fn leave_value(
        &self,
        id: EvaluationOrder,
        value: &ReactiveValue,
        state: &mut Self::State,
    ) -> Result<(), Fault>
        ensures { IsStep ((steps self.now).leave_value id value.now (view self.now state.old))
            result (view self.now state.new) };

    /// Called before a terminal.
    fn enter_terminal(
        &self,
        stmt: &ReactiveTerminalStatement,
        state: &mut Self::State,
    ) -> Result<Enter, Fault>
        ensures { IsStep ((steps self.now).enter_terminal stmt.now (view self.now state.old))
            result (view self.now state.new) };

    /// Called after a terminal that was entered.
    fn leave_terminal(
        &self,
        stmt: &ReactiveTerminalStatement,
        state: &mut Self::State,
    ) -> Result<(), Fault>
        ensures { IsStep ((steps self.now).leave_terminal stmt.now (view self.now state.old))
            result (view self.now state.new) };

    /// Called before a scope block.
    fn enter_scope(
        &self,
        scope: &ReactiveScopeBlock,
        state: &mut Self::State,
    ) -> Result<Enter, Fault>
        ensures { IsStep ((steps self.now).enter_scope scope.now (view self.now state.old))
            result (view self.now state.new) };

    /// Called after a scope block that was entered.
    fn leave_scope(&self, scope: &ReactiveScopeBlock, state: &mut Self::State) -> Result<(), Fault>
        ensures { IsStep ((steps self.now).leave_scope scope.now (view self.now state.old))
            result (view self.now state.new) };

    /// Called before a pruned scope block.
    fn enter_pruned_scope(
        &self,
        scope: &PrunedReactiveScopeBlock,
        state: &mut Self::State,
    ) -> Result<Enter, Fault>
        ensures { IsStep ((steps self.now).enter_pruned_scope scope.now (view self.now state.old))
            result (view self.now state.new) };

    /// Called after a pruned scope block that was entered.
    fn leave_pruned_scope(
        &self,
        scope: &PrunedReactiveScopeBlock,
        state: &mut Self::State,
    ) -> Result<(), Fault>
        ensures { IsStep ((steps self.now).leave_pruned_scope scope.now (view self.now state.old))
            result (view self.now state.new) };

    /// Called before a block.
    fn enter_block(&self, block: &ReactiveBlock, state: &mut Self::State) -> Result<Enter, Fault>
        ensures { IsStep ((steps self.now).enter_block block.now (view self.now state.old))
            result (view self.now state.new) };

    /// Called after a block that was entered.
    fn leave_block(&self, block: &ReactiveBlock, state: &mut Self::State) -> Result<(), Fault>
        ensures { IsStep ((steps self.now).leave_block block.now (view self.now state.old))
            result (view self.now state.new) };
}
