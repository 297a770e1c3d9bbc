//! A visitor that writes its visits down, and the visits of a walk by it.

ghost use Rattle.std.specs.Prelude.{◌≡◌, [], ◌∷◌, ◌++◌, List as Entries, Ok, IfOk};
ghost use Rattle.rc_tree.specs.Read.{read_block};
ghost use Rattle.rc_tree.specs.declared.hooks.Enter.TheVariants as enter;
ghost use Rattle.rc_tree_tests.specs.declared.tests.recorder.Part.TheVariants as part;
ghost use Rattle.rc_tree_tests.specs.declared.tests.recorder.Visit.{Visit};
ghost use Rattle.rc_tree_tests.specs.declared.tests.recorder.Visit.TheVariants as visit;

use rc_hir::{Environment, Fault, Place};
use rc_names::{EvaluationOrder, List};
use rc_tree::{
    Enter, PrunedReactiveScopeBlock, ReactiveBlock, ReactiveFunction, ReactiveInstruction,
    ReactiveScopeBlock, ReactiveTerminalStatement, ReactiveValue,
};
use rc_walk::{ReactiveFunctionVisitor, visit_reactive_function};
use std::alloc::Global;

/// A part that is entered and left, by its number.
#[derive(Clone, Copy, Debug, PartialEq, Eq)]
pub enum Part {
    Row(u32),
    Value(u32),
    Terminal,
    Scope(u32),
    PrunedScope(u32),
    Block,
}

/// A visit: an operand or a target, with the id at which it is visited and its identifier.
#[derive(Clone, Copy, Debug, PartialEq, Eq)]
pub enum Visit {
    Id(u32),
    Operand(u32, u32),
    Target(u32, u32),
    Param(u32),
    Enter(Part),
    Leave(Part),
}

/// Writes each visit down, in order, and enters every part.
#[derive(Drop)]
pub struct Recorder {
    pub env: Environment,
}

impl ReactiveFunctionVisitor for Recorder {
    type State = List<Visit>;

    ghost Value = { Entries Visit };

    ghost view = { λ it visits. visits };

    ghost steps = { λ it. record {
      visit_id = λ id s. Ok (tt, s ++ visit.Id id.0 ∷ []);
      visit_place = λ id place s. Ok (tt, s ++ visit.Operand id.0 place.identifier.0 ∷ []);
      visit_lvalue = λ id place s. Ok (tt, s ++ visit.Target id.0 place.identifier.0 ∷ []);
      visit_param = λ place s. Ok (tt, s ++ visit.Param place.identifier.0 ∷ []);
      enter_instruction = λ x s. Ok (enter.Inside, s ++ visit.Enter (part.Row x.id.0) ∷ []);
      leave_instruction = λ x s. Ok (tt, s ++ visit.Leave (part.Row x.id.0) ∷ []);
      enter_value = λ id x s. Ok (enter.Inside, s ++ visit.Enter (part.Value id.0) ∷ []);
      leave_value = λ id x s. Ok (tt, s ++ visit.Leave (part.Value id.0) ∷ []);
      enter_terminal = λ x s. Ok (enter.Inside, s ++ visit.Enter part.Terminal ∷ []);
      leave_terminal = λ x s. Ok (tt, s ++ visit.Leave part.Terminal ∷ []);
      enter_scope = λ x s. Ok (enter.Inside, s ++ visit.Enter (part.Scope x.scope.0) ∷ []);
      leave_scope = λ x s. Ok (tt, s ++ visit.Leave (part.Scope x.scope.0) ∷ []);
      enter_pruned_scope = λ x s. Ok (enter.Inside, s ++ visit.Enter (part.PrunedScope x.scope.0) ∷ []);
      leave_pruned_scope = λ x s. Ok (tt, s ++ visit.Leave (part.PrunedScope x.scope.0) ∷ []);
      enter_block = λ x s. Ok (enter.Inside, s ++ visit.Enter part.Block ∷ []);
      leave_block = λ x s. Ok (tt, s ++ visit.Leave part.Block ∷ []);
    } };

    ghost functions = { λ it. it.env.functions };

    fn env(&self) -> &Environment {
        &self.env
    }

    fn visit_id(&self, id: EvaluationOrder, state: &mut List<Visit>) -> Result<(), Fault> {
        state.push(Visit::Id(id.0))?;
        Ok(())
    }

    fn visit_place(
        &self,
        id: EvaluationOrder,
        place: &Place,
        state: &mut List<Visit>,
    ) -> Result<(), Fault> {
        state.push(Visit::Operand(id.0, place.identifier.0))?;
        Ok(())
    }

    fn visit_lvalue(
        &self,
        id: EvaluationOrder,
        place: &Place,
        state: &mut List<Visit>,
    ) -> Result<(), Fault> {
        state.push(Visit::Target(id.0, place.identifier.0))?;
        Ok(())
    }

    fn visit_param(&self, place: &Place, state: &mut List<Visit>) -> Result<(), Fault> {
        state.push(Visit::Param(place.identifier.0))?;
        Ok(())
    }

    fn enter_instruction(
        &self,
        instruction: &ReactiveInstruction,
        state: &mut List<Visit>,
    ) -> Result<Enter, Fault> {
        state.push(Visit::Enter(Part::Row(instruction.id.0)))?;
        Ok(Enter::Inside)
    }

    fn leave_instruction(
        &self,
        instruction: &ReactiveInstruction,
        state: &mut List<Visit>,
    ) -> Result<(), Fault> {
        state.push(Visit::Leave(Part::Row(instruction.id.0)))?;
        Ok(())
    }

    fn enter_value(
        &self,
        id: EvaluationOrder,
        value: &ReactiveValue,
        state: &mut List<Visit>,
    ) -> Result<Enter, Fault> {
        state.push(Visit::Enter(Part::Value(id.0)))?;
        Ok(Enter::Inside)
    }

    fn leave_value(
        &self,
        id: EvaluationOrder,
        value: &ReactiveValue,
        state: &mut List<Visit>,
    ) -> Result<(), Fault> {
        state.push(Visit::Leave(Part::Value(id.0)))?;
        Ok(())
    }

    fn enter_terminal(
        &self,
        stmt: &ReactiveTerminalStatement,
        state: &mut List<Visit>,
    ) -> Result<Enter, Fault> {
        state.push(Visit::Enter(Part::Terminal))?;
        Ok(Enter::Inside)
    }

    fn leave_terminal(
        &self,
        stmt: &ReactiveTerminalStatement,
        state: &mut List<Visit>,
    ) -> Result<(), Fault> {
        state.push(Visit::Leave(Part::Terminal))?;
        Ok(())
    }

    fn enter_scope(
        &self,
        scope: &ReactiveScopeBlock,
        state: &mut List<Visit>,
    ) -> Result<Enter, Fault> {
        state.push(Visit::Enter(Part::Scope(scope.scope.0)))?;
        Ok(Enter::Inside)
    }

    fn leave_scope(
        &self,
        scope: &ReactiveScopeBlock,
        state: &mut List<Visit>,
    ) -> Result<(), Fault> {
        state.push(Visit::Leave(Part::Scope(scope.scope.0)))?;
        Ok(())
    }

    fn enter_pruned_scope(
        &self,
        scope: &PrunedReactiveScopeBlock,
        state: &mut List<Visit>,
    ) -> Result<Enter, Fault> {
        state.push(Visit::Enter(Part::PrunedScope(scope.scope.0)))?;
        Ok(Enter::Inside)
    }

    fn leave_pruned_scope(
        &self,
        scope: &PrunedReactiveScopeBlock,
        state: &mut List<Visit>,
    ) -> Result<(), Fault> {
        state.push(Visit::Leave(Part::PrunedScope(scope.scope.0)))?;
        Ok(())
    }

    fn enter_block(&self, block: &ReactiveBlock, state: &mut List<Visit>) -> Result<Enter, Fault> {
        state.push(Visit::Enter(Part::Block))?;
        Ok(Enter::Inside)
    }

    fn leave_block(&self, block: &ReactiveBlock, state: &mut List<Visit>) -> Result<(), Fault> {
        state.push(Visit::Leave(Part::Block))?;
        Ok(())
    }
}

/// The visits of a function's walk.
pub fn visits(
    alloc: Global,
    recorder: &Recorder,
    func: &ReactiveFunction,
) -> Result<List<Visit>, Fault>
    ensures { IfOk result
        (λ visits. read_block (⟦<Recorder as ReactiveFunctionVisitor>⟧.steps recorder.now) recorder.now.env.functions
        func.now.body [] ≡ Ok (tt, visits)) }
{
    let mut visits = List::new(alloc);
    visit_reactive_function(alloc, func, recorder, &mut visits)?;
    Ok(visits)
}
