//! The membership check's walk: which scopes are open, and which operand outside came last.

ghost use Rattle.std.specs.Prelude.{◌≡◌};
ghost use Rattle.rc_checks.specs.Membership as spec;
ghost use Rattle.rc_checks.specs.inside.ContextVisits.{contexts_to_visit, visited_at};
ghost use Rattle.rc_checks.specs.inside.MembershipSteps.{membership_steps};
ghost use Rattle.rc_tree.specs.Step.{IsStep, each};

use crate::membership::contexts::ContextToVisit;
use crate::membership::look_ups::{range_of, scope_of};
use crate::membership::open_scopes::OpenScopes;
use rc_hir::{Environment, Fault, Place};
use rc_names::{EvaluationOrder, FunctionId, KeySet, List, Name, ScopeId};
use rc_ranges::is_in_range;
use rc_tree::{
    Enter, PrunedReactiveScopeBlock, ReactiveBlock, ReactiveInstruction, ReactiveScopeBlock,
    ReactiveTerminalStatement, ReactiveValue,
};
use rc_walk::ReactiveFunctionVisitor;
use std::alloc::Global;
use std::slice;

/// An operand outside the blocks of its scope.
#[derive(Clone, Copy)]
pub struct Outside {
    pub id: EvaluationOrder,
    pub scope: ScopeId,
}

/// The scopes of the scope blocks around, and the last operand outside so far.
#[derive(Drop)]
pub struct Seen {
    pub around: OpenScopes,
    pub outside: Option<Outside>,
}

/// The check's hooks, with the scopes that have a scope block, and what is visited of each function's context.
#[derive(Drop)]
pub struct CheckInstructionsAgainstScopesVisitor<'a> {
    pub alloc: Global,
    pub env: &'a Environment,
    pub blocks: &'a KeySet<ScopeId>,
    pub contexts: List<ContextToVisit>,
    ghost listed: { contexts ≡ contexts_to_visit env.now blocks.now },
}

impl<'a> CheckInstructionsAgainstScopesVisitor<'a> {
    /// The scope of the operand's identifier, where the operand is outside of it. `BadName` comes where the identifier
    /// or its scope is outside its table.
    fn outside(
        &self,
        id: EvaluationOrder,
        place: &Place,
        around: &OpenScopes,
    ) -> Result<Option<ScopeId>, Fault>
        ensures { result
            ≡ spec.operand_outside self.now.env.now self.now.blocks.now
            (record { id = id; place = place.now; enclosing = around.now }) }
    {
        let Some(scope) = scope_of(self.env, place.identifier)? else {
            return Ok(None);
        };
        let range = range_of(self.env, scope)?;
        if is_in_range(id, range) && self.blocks.contains(scope) && !around.contains(scope) {
            Ok(Some(scope))
        } else {
            Ok(None)
        }
    }

    /// Visits an operand.
    fn visit_operand(
        &self,
        id: EvaluationOrder,
        place: &Place,
        state: &mut Seen,
    ) -> Result<(), Fault>
        ensures { IsStep ((membership_steps self.now.env.now self.now.blocks.now).visit_place id place.now state.old)
            result state.new }
    {
        if let Some(scope) = self.outside(id, place, &state.around)? {
            state.outside = Some(Outside { id, scope });
        }
        Ok(())
    }

    /// Visits operands, in order.
    #[tactic(auto, using(rc_tree::proofs::ReadLemmas::reading))]
    fn visit_operands(
        &self,
        id: EvaluationOrder,
        places: &[Place],
        state: &mut Seen,
    ) -> Result<(), Fault>
        ensures { IsStep (each ((membership_steps self.now.env.now self.now.blocks.now).visit_place id) places.now
            state.old) result state.new }
    {
        for place in places {
            self.visit_operand(id, place, state)?;
        }
        Ok(())
    }

    /// Visits what is to be visited of a context at that id.
    fn visit_context_at(
        &self,
        id: EvaluationOrder,
        context: &ContextToVisit,
        state: &mut Seen,
    ) -> Result<(), Fault>
        ensures { IsStep (each ((membership_steps self.now.env.now self.now.blocks.now).visit_place id)
            (visited_at id context.now) state.old) result state.new }
    {
        if let Some(place) = &context.unknown {
            return self.visit_operands(id, slice::from_ref(place), state);
        }
        let places = context.known.at(self.alloc, id)?;
        self.visit_operands(id, places.as_slice(), state)
    }
}

impl<'a> ReactiveFunctionVisitor for CheckInstructionsAgainstScopesVisitor<'a> {
    ghost use Rattle.rc_checks.specs.declared.membership.visitor.Seen.{Seen};

    type State = Seen;

    ghost Value = { Seen };

    ghost view = { λ it seen. seen };

    ghost steps = { λ it. membership_steps it.env.now it.blocks.now };

    ghost functions = { λ it. it.env.now.functions };

    fn env(&self) -> &Environment {
        self.env
    }

    fn visit_id(&self, id: EvaluationOrder, state: &mut Seen) -> Result<(), Fault> {
        Ok(())
    }

    fn visit_place(
        &self,
        id: EvaluationOrder,
        place: &Place,
        state: &mut Seen,
    ) -> Result<(), Fault> {
        self.visit_operand(id, place, state)
    }

    #[tactic(auto, using(crate::proofs::MembershipCheck::ContextLemmas::context_by_rest))]
    fn visit_context(
        &self,
        id: EvaluationOrder,
        function: FunctionId,
        places: &[Place],
        state: &mut Seen,
    ) -> Result<(), Fault> {
        match self.contexts.get(function.index()) {
            Some(context) => self.visit_context_at(id, context, state),
            None => self.visit_operands(id, places, state),
        }
    }

    fn visit_lvalue(
        &self,
        id: EvaluationOrder,
        place: &Place,
        state: &mut Seen,
    ) -> Result<(), Fault> {
        Ok(())
    }

    fn visit_param(&self, place: &Place, state: &mut Seen) -> Result<(), Fault> {
        Ok(())
    }

    fn enter_instruction(
        &self,
        instruction: &ReactiveInstruction,
        state: &mut Seen,
    ) -> Result<Enter, Fault> {
        Ok(Enter::Inside)
    }

    fn leave_instruction(
        &self,
        instruction: &ReactiveInstruction,
        state: &mut Seen,
    ) -> Result<(), Fault> {
        Ok(())
    }

    fn enter_value(
        &self,
        id: EvaluationOrder,
        value: &ReactiveValue,
        state: &mut Seen,
    ) -> Result<Enter, Fault> {
        Ok(Enter::Inside)
    }

    fn leave_value(
        &self,
        id: EvaluationOrder,
        value: &ReactiveValue,
        state: &mut Seen,
    ) -> Result<(), Fault> {
        Ok(())
    }

    fn enter_terminal(
        &self,
        stmt: &ReactiveTerminalStatement,
        state: &mut Seen,
    ) -> Result<Enter, Fault> {
        Ok(Enter::Inside)
    }

    fn leave_terminal(
        &self,
        stmt: &ReactiveTerminalStatement,
        state: &mut Seen,
    ) -> Result<(), Fault> {
        Ok(())
    }

    fn enter_scope(&self, scope: &ReactiveScopeBlock, state: &mut Seen) -> Result<Enter, Fault> {
        state.around.push(scope.scope)?;
        Ok(Enter::Inside)
    }

    fn leave_scope(&self, scope: &ReactiveScopeBlock, state: &mut Seen) -> Result<(), Fault> {
        state.around.pop();
        Ok(())
    }

    fn enter_pruned_scope(
        &self,
        scope: &PrunedReactiveScopeBlock,
        state: &mut Seen,
    ) -> Result<Enter, Fault> {
        // A pruned scope block encloses no operand.
        Ok(Enter::Inside)
    }

    fn leave_pruned_scope(
        &self,
        scope: &PrunedReactiveScopeBlock,
        state: &mut Seen,
    ) -> Result<(), Fault> {
        Ok(())
    }

    fn enter_block(&self, block: &ReactiveBlock, state: &mut Seen) -> Result<Enter, Fault> {
        Ok(Enter::Inside)
    }

    fn leave_block(&self, block: &ReactiveBlock, state: &mut Seen) -> Result<(), Fault> {
        Ok(())
    }
}
