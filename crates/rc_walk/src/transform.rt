//! The hooks of a rewriting walk.
//!
//! An implementation states its hooks as one record of steps, which take the transform, the state and the part to the
//! new ones. Each hook's contract is its step. The walks in `rewrite` are proved once for all steps: the result of a
//! walk is that of `rc_tree/specs/Rewrite.antt` with the transform's steps.
//!
//! After oxc's visitors.rs.

ghost use Rattle.std.specs.Prelude.{◌≡◌, ◌≤◌, List as Entries};
ghost use Rattle.rc_hir.specs.Model.{HirFunction};
ghost use Rattle.rc_tree.specs.Step.{IsStep};
ghost use Rattle.rc_tree.specs.RewriteSteps.{EntersNoDeeper, RewriteSteps};
ghost use Rattle.rc_tree.specs.declared.scope.PrunedReactiveScopeBlock.{size-PrunedReactiveScopeBlock};
ghost use Rattle.rc_tree.specs.declared.scope.ReactiveScopeBlock.{size-ReactiveScopeBlock};
ghost use Rattle.rc_tree.specs.declared.statement.ReactiveBlock.{size-ReactiveBlock};
ghost use Rattle.rc_tree.specs.declared.terminal.ReactiveTerminalStatement.{size-ReactiveTerminalStatement};
ghost use Rattle.rc_tree.specs.declared.value.ReactiveInstruction.{size-ReactiveInstruction};
ghost use Rattle.rc_tree.specs.declared.value.ReactiveValue.{size-ReactiveValue};

use rc_hir::{Environment, Fault, Place};
use rc_names::EvaluationOrder;
use rc_tree::{
    Enter, PrunedReactiveScopeBlock, ReactiveBlock, ReactiveInstruction, ReactiveScopeBlock,
    ReactiveStatement, ReactiveTerminalStatement, ReactiveValue, Transformed,
};

/// The hooks of a rewriting walk. A hook that has nothing to do changes nothing and returns `()`, `Inside` or `Keep`.
///
/// No hook changes the functions of `env`, so operands are the same during the whole walk. No enter hook makes its
/// part deeper, so the walk ends.
pub trait ReactiveFunctionTransform {
    /// The state that the hooks share.
    type State;

    /// The step of each hook.
    ghost steps: { RewriteSteps (Self × Self.State) };

    /// The functions of `env`, whose contexts are operands.
    ghost functions: { Self → Entries HirFunction };

    /// Returns the environment, whose tables the tree's numbers index.
    fn env(&self) -> &Environment
        ensures { result.now.functions ≡ functions self.now };

    /// Called at the id of each row and of each terminal.
    fn visit_id(&mut self, id: EvaluationOrder, state: &mut Self::State) -> Result<(), Fault>
        ensures step { IsStep (steps.visit_id id (self.old, state.old)) result (self.new, state.new) }
        ensures functions { functions self.new ≡ functions self.old };

    /// Called at each operand.
    fn visit_place(
        &mut self,
        id: EvaluationOrder,
        place: &Place,
        state: &mut Self::State,
    ) -> Result<(), Fault>
        ensures step { IsStep (steps.visit_place id place.now (self.old, state.old)) result (self.new, state.new) }
        ensures functions { functions self.new ≡ functions self.old };

    /// Called at each target.
    fn visit_lvalue(
        &mut self,
        id: EvaluationOrder,
        place: &Place,
        state: &mut Self::State,
    ) -> Result<(), Fault>
        ensures step { IsStep (steps.visit_lvalue id place.now (self.old, state.old)) result (self.new, state.new) }
        ensures functions { functions self.new ≡ functions self.old };

    /// Called before a row, which it may change, but not make deeper.
    fn enter_instruction(
        &mut self,
        instruction: &mut ReactiveInstruction,
        state: &mut Self::State,
    ) -> Result<Enter, Fault>
        ensures step { IsStep (steps.enter_instruction (self.old, state.old) instruction.old) result
            ((self.new, state.new), instruction.new) }
        ensures functions { functions self.new ≡ functions self.old }
        ensures no_deeper { size-ReactiveInstruction instruction.new ≤ size-ReactiveInstruction instruction.old };

    /// Called after a row that was entered.
    fn leave_instruction(
        &mut self,
        instruction: &mut ReactiveInstruction,
        state: &mut Self::State,
    ) -> Result<(), Fault>
        ensures step { IsStep (steps.leave_instruction (self.old, state.old) instruction.old) result
            ((self.new, state.new), instruction.new) }
        ensures functions { functions self.new ≡ functions self.old };

    /// Called before a value, which it may change, but not make deeper.
    fn enter_value(
        &mut self,
        id: EvaluationOrder,
        value: &mut ReactiveValue,
        state: &mut Self::State,
    ) -> Result<Enter, Fault>
        ensures step { IsStep (steps.enter_value id (self.old, state.old) value.old) result
            ((self.new, state.new), value.new) }
        ensures functions { functions self.new ≡ functions self.old }
        ensures no_deeper { size-ReactiveValue value.new ≤ size-ReactiveValue value.old };

    /// Called after a value that was entered.
    fn leave_value(
        &mut self,
        id: EvaluationOrder,
        value: &mut ReactiveValue,
        state: &mut Self::State,
    ) -> Result<(), Fault>
        ensures step { IsStep (steps.leave_value id (self.old, state.old) value.old) result
            ((self.new, state.new), value.new) }
        ensures functions { functions self.new ≡ functions self.old };

    /// Called before a terminal, which it may change, but not make deeper.
    fn enter_terminal(
        &mut self,
        stmt: &mut ReactiveTerminalStatement,
        state: &mut Self::State,
    ) -> Result<Enter, Fault>
        ensures step { IsStep (steps.enter_terminal (self.old, state.old) stmt.old) result
            ((self.new, state.new), stmt.new) }
        ensures functions { functions self.new ≡ functions self.old }
        ensures no_deeper { size-ReactiveTerminalStatement stmt.new ≤ size-ReactiveTerminalStatement stmt.old };

    /// Called after a terminal that was entered.
    fn leave_terminal(
        &mut self,
        stmt: &mut ReactiveTerminalStatement,
        state: &mut Self::State,
    ) -> Result<(), Fault>
        ensures step { IsStep (steps.leave_terminal (self.old, state.old) stmt.old) result
            ((self.new, state.new), stmt.new) }
        ensures functions { functions self.new ≡ functions self.old };

    /// Called before a scope block, which it may change, but not make deeper.
    fn enter_scope(
        &mut self,
        scope: &mut ReactiveScopeBlock,
        state: &mut Self::State,
    ) -> Result<Enter, Fault>
        ensures step { IsStep (steps.enter_scope (self.old, state.old) scope.old) result
            ((self.new, state.new), scope.new) }
        ensures functions { functions self.new ≡ functions self.old }
        ensures no_deeper { size-ReactiveScopeBlock scope.new ≤ size-ReactiveScopeBlock scope.old };

    /// Called after a scope block that was entered.
    fn leave_scope(
        &mut self,
        scope: &mut ReactiveScopeBlock,
        state: &mut Self::State,
    ) -> Result<(), Fault>
        ensures step { IsStep (steps.leave_scope (self.old, state.old) scope.old) result
            ((self.new, state.new), scope.new) }
        ensures functions { functions self.new ≡ functions self.old };

    /// Called before a pruned scope block, which it may change, but not make deeper.
    fn enter_pruned_scope(
        &mut self,
        scope: &mut PrunedReactiveScopeBlock,
        state: &mut Self::State,
    ) -> Result<Enter, Fault>
        ensures step { IsStep (steps.enter_pruned_scope (self.old, state.old) scope.old) result
            ((self.new, state.new), scope.new) }
        ensures functions { functions self.new ≡ functions self.old }
        ensures no_deeper { size-PrunedReactiveScopeBlock scope.new ≤ size-PrunedReactiveScopeBlock scope.old };

    /// Called after a pruned scope block that was entered.
    fn leave_pruned_scope(
        &mut self,
        scope: &mut PrunedReactiveScopeBlock,
        state: &mut Self::State,
    ) -> Result<(), Fault>
        ensures step { IsStep (steps.leave_pruned_scope (self.old, state.old) scope.old) result
            ((self.new, state.new), scope.new) }
        ensures functions { functions self.new ≡ functions self.old };

    /// Called before a block, which it may change, but not make deeper.
    fn enter_block(
        &mut self,
        block: &mut ReactiveBlock,
        state: &mut Self::State,
    ) -> Result<Enter, Fault>
        ensures step { IsStep (steps.enter_block (self.old, state.old) block.old) result
            ((self.new, state.new), block.new) }
        ensures functions { functions self.new ≡ functions self.old }
        ensures no_deeper { size-ReactiveBlock block.new ≤ size-ReactiveBlock block.old };

    /// Called after a block that was entered.
    fn leave_block(
        &mut self,
        block: &mut ReactiveBlock,
        state: &mut Self::State,
    ) -> Result<(), Fault>
        ensures step { IsStep (steps.leave_block (self.old, state.old) block.old) result
            ((self.new, state.new), block.new) }
        ensures functions { functions self.new ≡ functions self.old };

    /// Called last at a row that is a statement, entered or not; returns how the statement is replaced.
    fn transform_instruction(
        &mut self,
        instruction: &mut ReactiveInstruction,
        state: &mut Self::State,
    ) -> Result<Transformed<ReactiveStatement>, Fault>
        ensures step { IsStep (steps.transform_instruction (self.old, state.old) instruction.old) result
            ((self.new, state.new), instruction.new) }
        ensures functions { functions self.new ≡ functions self.old };

    /// Called last at a terminal that is a statement, entered or not; returns how the statement is replaced.
    fn transform_terminal(
        &mut self,
        stmt: &mut ReactiveTerminalStatement,
        state: &mut Self::State,
    ) -> Result<Transformed<ReactiveStatement>, Fault>
        ensures step { IsStep (steps.transform_terminal (self.old, state.old) stmt.old) result
            ((self.new, state.new), stmt.new) }
        ensures functions { functions self.new ≡ functions self.old };

    /// Called last at a scope block that is a statement, entered or not; returns how the statement is replaced.
    fn transform_scope(
        &mut self,
        scope: &mut ReactiveScopeBlock,
        state: &mut Self::State,
    ) -> Result<Transformed<ReactiveStatement>, Fault>
        ensures step { IsStep (steps.transform_scope (self.old, state.old) scope.old) result
            ((self.new, state.new), scope.new) }
        ensures functions { functions self.new ≡ functions self.old };

    /// Called last at a pruned scope block that is a statement, entered or not; returns how the statement is replaced.
    fn transform_pruned_scope(
        &mut self,
        scope: &mut PrunedReactiveScopeBlock,
        state: &mut Self::State,
    ) -> Result<Transformed<ReactiveStatement>, Fault>
        ensures step { IsStep (steps.transform_pruned_scope (self.old, state.old) scope.old) result
            ((self.new, state.new), scope.new) }
        ensures functions { functions self.new ≡ functions self.old };

    /// No enter step makes its part deeper.
    ghost enters: { EntersNoDeeper steps };
}
