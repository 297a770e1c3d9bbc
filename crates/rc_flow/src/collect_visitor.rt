//! The read walk that lists what marks names as reactive.

ghost use Rattle.std.specs.Prelude.{◌≡◌, [], ◌∷◌, ◌++◌, List as Entries, IfOk, OnOk};
ghost use Rattle.rc_flow.specs.Collected as spec;
ghost use Rattle.rc_flow.specs.declared.step.Step.{Step};
ghost use Rattle.rc_flow.specs.inside.Recording.{recording};
ghost use Rattle.rc_flow.specs.inside.Told.{steps_told};

use crate::step::Step;
use crate::told::Told;
use crate::types::{is_primitive, is_ref, type_of};
use rc_hir::{DeclarationEntry, Environment, Fault, Place};
use rc_names::{EvaluationOrder, FunctionId, List, ScopeId};
use rc_tree::{
    Enter, PrunedReactiveScopeBlock, ReactiveBlock, ReactiveInstruction, ReactiveScopeBlock,
    ReactiveTerminalStatement, ReactiveValue,
};
use rc_walk::ReactiveFunctionVisitor;
use std::alloc::{AllocError, Global};

/// The hooks of the walk. Its state is the list of records so far, which represents the steps that they mean.
#[derive(Clone, Copy)]
pub struct CollectVisitor<'a> {
    pub alloc: Global,
    pub env: &'a Environment,
}

/// The key of a declaration is reactive where its identifier is so by then.
fn key_follows(alloc: Global, entry: &DeclarationEntry) -> Result<Step, AllocError>
    ensures { IfOk result (λ step. step ≡ spec.key_follows entry.now) }
{
    let from = List::from_slice(alloc, &[entry.value.identifier])?;
    let to = List::from_slice(alloc, &[entry.key])?;
    Ok(Step::Carries { from, to })
}

impl<'a> CollectVisitor<'a> {
    /// Adds a step.
    #[tactic(auto, using(crate::proofs::ToldLemmas::told_step))]
    fn add_step(&self, told: &mut List<Told>, step: Step) -> Result<(), AllocError>
        ensures { OnOk result (steps_told self.now.env.now.functions told.new
            ≡ steps_told self.now.env.now.functions told.old ++ step ∷ []) }
    {
        told.push(Told::Step(step))
    }

    /// Adds a place that is marked reactive.
    fn add_place(&self, told: &mut List<Told>, place: &Place) -> Result<(), AllocError>
        ensures { OnOk result (steps_told self.now.env.now.functions told.new
            ≡ steps_told self.now.env.now.functions told.old ++ spec.place_steps place.now) }
    {
        if place.reactive {
            self.add_step(told, Step::Marks(place.identifier))?;
        }
        Ok(())
    }

    /// Adds the key of a declaration, unless its value never changes.
    fn add_declaration(
        &self,
        told: &mut List<Told>,
        entry: &DeclarationEntry,
    ) -> Result<(), AllocError>
        ensures { OnOk result (steps_told self.now.env.now.functions told.new
            ≡ steps_told self.now.env.now.functions told.old ++ spec.declaration_steps self.now.env.now entry.now) }
    {
        let Some(type_) = type_of(self.env, entry.value.identifier) else {
            return self.add_step(told, Step::Marks(entry.key));
        };
        if is_primitive(type_) {
            return Ok(());
        }
        if is_ref(type_) {
            return self.add_step(told, key_follows(self.alloc, entry)?);
        }
        self.add_step(told, Step::Marks(entry.key))
    }

    /// Adds the declarations of a scope whose pruned block ends.
    fn add_declarations(&self, told: &mut List<Told>, scope: ScopeId) -> Result<(), AllocError>
        ensures { OnOk result (steps_told self.now.env.now.functions told.new
            ≡ steps_told self.now.env.now.functions told.old ++ spec.pruned_scope_steps self.now.env.now scope) }
    {
        if let Some(known) = self.env.scopes.get(scope) {
            for entry in known.declarations.as_slice() {
                self.add_declaration(told, entry)?;
            }
        }
        Ok(())
    }
}

impl<'a> ReactiveFunctionVisitor for CollectVisitor<'a> {
    type State = List<Told>;

    ghost Value = { Entries Step };

    ghost view = { λ it told. steps_told it.env.now.functions told };

    ghost steps = { λ it. recording it.env.now };

    ghost functions = { λ it. it.env.now.functions };

    fn env(&self) -> &Environment {
        self.env
    }

    fn visit_id(&self, _id: EvaluationOrder, _told: &mut List<Told>) -> Result<(), Fault> {
        Ok(())
    }

    fn visit_place(
        &self,
        _id: EvaluationOrder,
        place: &Place,
        told: &mut List<Told>,
    ) -> Result<(), Fault> {
        self.add_place(told, place)?;
        Ok(())
    }

    fn visit_context(
        &self,
        _id: EvaluationOrder,
        function: FunctionId,
        _places: &[Place],
        told: &mut List<Told>,
    ) -> Result<(), Fault> {
        told.push(Told::Context(function))?;
        Ok(())
    }

    fn visit_lvalue(
        &self,
        _id: EvaluationOrder,
        place: &Place,
        told: &mut List<Told>,
    ) -> Result<(), Fault> {
        // A target that is marked is reactive, as the result of a hook is.
        self.add_place(told, place)?;
        Ok(())
    }

    fn visit_param(&self, _place: &Place, _told: &mut List<Told>) -> Result<(), Fault> {
        Ok(())
    }

    fn enter_instruction(
        &self,
        _instruction: &ReactiveInstruction,
        _told: &mut List<Told>,
    ) -> Result<Enter, Fault> {
        Ok(Enter::Inside)
    }

    fn leave_instruction(
        &self,
        _instruction: &ReactiveInstruction,
        _told: &mut List<Told>,
    ) -> Result<(), Fault> {
        Ok(())
    }

    fn enter_value(
        &self,
        _id: EvaluationOrder,
        _value: &ReactiveValue,
        _told: &mut List<Told>,
    ) -> Result<Enter, Fault> {
        Ok(Enter::Inside)
    }

    fn leave_value(
        &self,
        _id: EvaluationOrder,
        _value: &ReactiveValue,
        _told: &mut List<Told>,
    ) -> Result<(), Fault> {
        Ok(())
    }

    fn enter_terminal(
        &self,
        _stmt: &ReactiveTerminalStatement,
        _told: &mut List<Told>,
    ) -> Result<Enter, Fault> {
        Ok(Enter::Inside)
    }

    fn leave_terminal(
        &self,
        _stmt: &ReactiveTerminalStatement,
        _told: &mut List<Told>,
    ) -> Result<(), Fault> {
        Ok(())
    }

    fn enter_scope(
        &self,
        _scope: &ReactiveScopeBlock,
        _told: &mut List<Told>,
    ) -> Result<Enter, Fault> {
        Ok(Enter::Inside)
    }

    fn leave_scope(
        &self,
        _scope: &ReactiveScopeBlock,
        _told: &mut List<Told>,
    ) -> Result<(), Fault> {
        Ok(())
    }

    fn enter_pruned_scope(
        &self,
        _scope: &PrunedReactiveScopeBlock,
        _told: &mut List<Told>,
    ) -> Result<Enter, Fault> {
        Ok(Enter::Inside)
    }

    fn leave_pruned_scope(
        &self,
        scope: &PrunedReactiveScopeBlock,
        told: &mut List<Told>,
    ) -> Result<(), Fault> {
        self.add_declarations(told, scope.scope)?;
        Ok(())
    }

    fn enter_block(&self, _block: &ReactiveBlock, _told: &mut List<Told>) -> Result<Enter, Fault> {
        Ok(Enter::Inside)
    }

    fn leave_block(&self, _block: &ReactiveBlock, _told: &mut List<Told>) -> Result<(), Fault> {
        Ok(())
    }
}
