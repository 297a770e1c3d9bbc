//! A transform that writes its visits down and returns each kind of replacement, and the result of its walk.

ghost use Rattle.std.specs.Prelude.{◌≡◌, ◌==◌, [], ◌∷◌, ◌++◌, Ok, Err, IfOk, if◌then◌else◌, is_none, refl};
ghost use Rattle.rc_hir.specs.declared.fault.Fault.TheVariants as faults;
ghost use Rattle.rc_hir.specs.declared.fault.TableName.TheVariants as table_names;
ghost use Rattle.rc_tree_tests.specs.Looks.{looks_no_deeper};
ghost use Rattle.rc_tree.specs.Rewrite.{rewrite_block};
ghost use Rattle.rc_tree.specs.RewriteSteps.{keeps_it};
ghost use Rattle.rc_tree_tests.specs.Unnamed.{GivesWay, without_name};
ghost use Rattle.rc_tree.specs.declared.statement.ReactiveStatement.TheVariants as reactive;
ghost use Rattle.rc_tree_tests.specs.declared.tests.recorder.Part.TheVariants as part;
ghost use Rattle.rc_tree_tests.specs.declared.tests.recorder.Visit.TheVariants as visit;
ghost use Rattle.rc_tree.specs.declared.hooks.Transformed.TheVariants as answer;
ghost use Rattle.rc_tree.specs.declared.hooks.Enter.TheVariants as enter;

use crate::tests::recorder::{Part, Visit};
use rc_hir::{Environment, Fault, Place, TableName};
use rc_names::{EvaluationOrder, List};
use rc_tree::{
    Enter, PrunedReactiveScopeBlock, ReactiveBlock, ReactiveFunction, ReactiveInstruction,
    ReactiveScopeBlock, ReactiveStatement, ReactiveTerminal, ReactiveTerminalStatement,
    ReactiveValue, Transformed,
};
use rc_walk::ReactiveFunctionTransform;
use rc_walk::rewrite::{transform_reactive_function, transform_stmt};
use std::alloc::Global;

/// Writes each visit down, in order. It replaces a `Label` without a name by its statements and a scope block by a
/// pruned one, and removes a row without a target.
#[derive(Drop)]
pub struct Rewriter {
    pub env: Environment,
    /// The number of a scope that isn't entered.
    pub skipped: u32,
    /// The number of an identifier that no operand may name.
    pub refused: u32,
}

impl ReactiveFunctionTransform for Rewriter {
    type State = List<Visit>;

    ghost steps = { record {
      visit_id = λ id w. Ok (tt, (w.0, w.1 ++ visit.Id id.0 ∷ []));
      visit_place = λ id place w. if place.identifier.0 == w.0.refused
          then Err (faults.BadName table_names.Identifiers place.identifier.0)
          else Ok (tt, (w.0, w.1 ++ visit.Operand id.0 place.identifier.0 ∷ []));
      visit_lvalue = λ id place w. Ok (tt, (w.0, w.1 ++ visit.Target id.0 place.identifier.0 ∷ []));
      enter_instruction = λ w x. Ok (enter.Inside, ((w.0, w.1 ++ visit.Enter (part.Row x.id.0) ∷ []), x));
      leave_instruction = λ w x. Ok (tt, ((w.0, w.1 ++ visit.Leave (part.Row x.id.0) ∷ []), x));
      enter_value = λ id w x. Ok (enter.Inside, ((w.0, w.1 ++ visit.Enter (part.Value id.0) ∷ []), x));
      leave_value = λ id w x. Ok (tt, ((w.0, w.1 ++ visit.Leave (part.Value id.0) ∷ []), x));
      enter_terminal = λ w x. Ok (enter.Inside, ((w.0, w.1 ++ visit.Enter part.Terminal ∷ []), x));
      leave_terminal = λ w x. Ok (tt, ((w.0, w.1 ++ visit.Leave part.Terminal ∷ []), x));
      enter_scope = λ w x. Ok (
        if x.scope.0 == w.0.skipped then enter.Skip else enter.Inside,
        ((w.0, w.1 ++ visit.Enter (part.Scope x.scope.0) ∷ []), x),
      );
      leave_scope = λ w x. Ok (tt, ((w.0, w.1 ++ visit.Leave (part.Scope x.scope.0) ∷ []), x));
      enter_pruned_scope = λ w x. Ok (enter.Inside, ((w.0, w.1 ++ visit.Enter (part.PrunedScope x.scope.0) ∷ []), x));
      leave_pruned_scope = λ w x. Ok (tt, ((w.0, w.1 ++ visit.Leave (part.PrunedScope x.scope.0) ∷ []), x));
      enter_block = λ w x. Ok (enter.Inside, ((w.0, w.1 ++ visit.Enter part.Block ∷ []), x));
      leave_block = λ w x. Ok (tt, ((w.0, w.1 ++ visit.Leave part.Block ∷ []), x));
      transform_instruction = λ w x. Ok (if is_none x.lvalue then answer.Remove else answer.Keep, (w, x));
      transform_terminal = λ w x. Ok ((without_name x).0, (w, (without_name x).1));
      transform_scope = λ w x. Ok (
        answer.Replace (reactive.PrunedScope (record { scope = x.scope; instructions = x.instructions })),
        (w, record { scope = x.scope; instructions = record { statements = [] } }),
      );
      transform_pruned_scope = keeps_it;
    } };

    ghost functions = { λ it. it.env.functions };

    fn env(&self) -> &Environment {
        &self.env
    }

    fn visit_id(&mut self, id: EvaluationOrder, state: &mut List<Visit>) -> Result<(), Fault> {
        state.push(Visit::Id(id.0))?;
        Ok(())
    }

    fn visit_place(
        &mut self,
        id: EvaluationOrder,
        place: &Place,
        state: &mut List<Visit>,
    ) -> Result<(), Fault> {
        if place.identifier.0 == self.refused {
            return Err(Fault::BadName {
                table: TableName::Identifiers,
                index: place.identifier.0,
            });
        }
        state.push(Visit::Operand(id.0, place.identifier.0))?;
        Ok(())
    }

    fn visit_lvalue(
        &mut self,
        id: EvaluationOrder,
        place: &Place,
        state: &mut List<Visit>,
    ) -> Result<(), Fault> {
        state.push(Visit::Target(id.0, place.identifier.0))?;
        Ok(())
    }

    fn enter_instruction(
        &mut self,
        instruction: &mut ReactiveInstruction,
        state: &mut List<Visit>,
    ) -> Result<Enter, Fault> {
        state.push(Visit::Enter(Part::Row(instruction.id.0)))?;
        Ok(Enter::Inside)
    }

    fn leave_instruction(
        &mut self,
        instruction: &mut ReactiveInstruction,
        state: &mut List<Visit>,
    ) -> Result<(), Fault> {
        state.push(Visit::Leave(Part::Row(instruction.id.0)))?;
        Ok(())
    }

    fn enter_value(
        &mut self,
        id: EvaluationOrder,
        _value: &mut ReactiveValue,
        state: &mut List<Visit>,
    ) -> Result<Enter, Fault> {
        state.push(Visit::Enter(Part::Value(id.0)))?;
        Ok(Enter::Inside)
    }

    fn leave_value(
        &mut self,
        id: EvaluationOrder,
        _value: &mut ReactiveValue,
        state: &mut List<Visit>,
    ) -> Result<(), Fault> {
        state.push(Visit::Leave(Part::Value(id.0)))?;
        Ok(())
    }

    fn enter_terminal(
        &mut self,
        _stmt: &mut ReactiveTerminalStatement,
        state: &mut List<Visit>,
    ) -> Result<Enter, Fault> {
        state.push(Visit::Enter(Part::Terminal))?;
        Ok(Enter::Inside)
    }

    fn leave_terminal(
        &mut self,
        _stmt: &mut ReactiveTerminalStatement,
        state: &mut List<Visit>,
    ) -> Result<(), Fault> {
        state.push(Visit::Leave(Part::Terminal))?;
        Ok(())
    }

    fn enter_scope(
        &mut self,
        scope: &mut ReactiveScopeBlock,
        state: &mut List<Visit>,
    ) -> Result<Enter, Fault> {
        state.push(Visit::Enter(Part::Scope(scope.scope.0)))?;
        if scope.scope.0 == self.skipped {
            return Ok(Enter::Skip);
        }
        Ok(Enter::Inside)
    }

    fn leave_scope(
        &mut self,
        scope: &mut ReactiveScopeBlock,
        state: &mut List<Visit>,
    ) -> Result<(), Fault> {
        state.push(Visit::Leave(Part::Scope(scope.scope.0)))?;
        Ok(())
    }

    fn enter_pruned_scope(
        &mut self,
        scope: &mut PrunedReactiveScopeBlock,
        state: &mut List<Visit>,
    ) -> Result<Enter, Fault> {
        state.push(Visit::Enter(Part::PrunedScope(scope.scope.0)))?;
        Ok(Enter::Inside)
    }

    fn leave_pruned_scope(
        &mut self,
        scope: &mut PrunedReactiveScopeBlock,
        state: &mut List<Visit>,
    ) -> Result<(), Fault> {
        state.push(Visit::Leave(Part::PrunedScope(scope.scope.0)))?;
        Ok(())
    }

    fn enter_block(
        &mut self,
        _block: &mut ReactiveBlock,
        state: &mut List<Visit>,
    ) -> Result<Enter, Fault> {
        state.push(Visit::Enter(Part::Block))?;
        Ok(Enter::Inside)
    }

    fn leave_block(
        &mut self,
        _block: &mut ReactiveBlock,
        state: &mut List<Visit>,
    ) -> Result<(), Fault> {
        state.push(Visit::Leave(Part::Block))?;
        Ok(())
    }

    fn transform_instruction(
        &mut self,
        instruction: &mut ReactiveInstruction,
        _state: &mut List<Visit>,
    ) -> Result<Transformed<ReactiveStatement>, Fault> {
        if instruction.lvalue.is_none() {
            return Ok(Transformed::Remove);
        }
        Ok(Transformed::Keep)
    }

    fn transform_terminal(
        &mut self,
        stmt: &mut ReactiveTerminalStatement,
        _state: &mut List<Visit>,
    ) -> Result<Transformed<ReactiveStatement>, Fault> {
        Ok(take_out(stmt))
    }

    fn transform_scope(
        &mut self,
        scope: &mut ReactiveScopeBlock,
        _state: &mut List<Visit>,
    ) -> Result<Transformed<ReactiveStatement>, Fault> {
        let pruned = PrunedReactiveScopeBlock {
            scope: scope.scope,
            instructions: ReactiveBlock {
                statements: scope.instructions.statements.take(),
            },
        };
        Ok(Transformed::Replace(ReactiveStatement::PrunedScope(pruned)))
    }

    fn transform_pruned_scope(
        &mut self,
        _scope: &mut PrunedReactiveScopeBlock,
        _state: &mut List<Visit>,
    ) -> Result<Transformed<ReactiveStatement>, Fault> {
        Ok(Transformed::Keep)
    }

    ghost enters = { record {
      instruction = looks_no_deeper _ _ (λ w x. (_, _, refl));
      value = λ id. looks_no_deeper _ _ (λ w x. (_, _, refl));
      terminal = looks_no_deeper _ _ (λ w x. (_, _, refl));
      scope = looks_no_deeper _ _ (λ w x. (_, _, refl));
      pruned_scope = looks_no_deeper _ _ (λ w x. (_, _, refl));
      block = looks_no_deeper _ _ (λ w x. (_, _, refl));
    } };
}

/// Takes the statements out of a `Label` without a name.
fn take_out(stmt: &mut ReactiveTerminalStatement) -> Transformed<ReactiveStatement>
    ensures answer { result ≡ (without_name stmt.old).0 }
    ensures left { stmt.new ≡ (without_name stmt.old).1 }
{
    if stmt.label.is_some() {
        return Transformed::Keep;
    }
    match &mut stmt.terminal {
        ReactiveTerminal::Label { block, id: _ } => Transformed::ReplaceMany(
            block.statements.take(),
        ),
        _ => Transformed::Keep,
    }
}

/// Rewrites a function's body, and returns the visits.
pub fn rewritten(
    alloc: Global,
    rewriter: &mut Rewriter,
    func: &mut ReactiveFunction,
) -> Result<List<Visit>, Fault>
    ensures { IfOk result
        (λ visits. rewrite_block ⟦<Rewriter as ReactiveFunctionTransform>⟧.steps
        ⟦<Rewriter as ReactiveFunctionTransform>⟧.functions (rewriter.old, []) func.old.body
        ≡ Ok (tt, ((rewriter.new, visits), func.new.body))) }
{
    let mut visits = List::new(alloc);
    transform_reactive_function(alloc, func, rewriter, &mut visits)?;
    Ok(visits)
}

/// Walks a statement, and returns how it is replaced.
pub fn answer(
    alloc: Global,
    rewriter: &mut Rewriter,
    stmt: &mut ReactiveStatement,
    visits: &mut List<Visit>,
) -> Result<Transformed<ReactiveStatement>, Fault>
    ensures { GivesWay stmt.old result }
{
    transform_stmt(alloc, rewriter, stmt, visits)
}
