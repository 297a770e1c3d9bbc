//! The read walk that lists the scopes of scope blocks.

ghost use Rattle.std.specs.Prelude.{◌≡◌, IfErr, IfOk};
ghost use Rattle.rc_slots.specs.ScopeBlocks as spec;
ghost use Rattle.rc_slots.specs.declared.plan.SlotFault.TheVariants as faults;
ghost use Rattle.rc_slots.specs.inside.ScopeSteps.{scope_steps};

use crate::plan::SlotFault;
use rc_hir::{Environment, Fault, Place};
use rc_names::{EvaluationOrder, FunctionId, List, ScopeId};
use rc_tree::{
    Enter, PrunedReactiveScopeBlock, ReactiveBlock, ReactiveFunction, ReactiveInstruction,
    ReactiveScopeBlock, ReactiveTerminalStatement, ReactiveValue,
};
use rc_walk::{ReactiveFunctionVisitor, visit_reactive_function};
use std::alloc::Global;

/// The scope of each scope block of the function, in the order in which the read walk enters the blocks. Fails only
/// when out of memory.
#[tactic(auto, using(crate::proofs::WalkLemmas::walk_lists))]
pub(crate) fn scopes_entered(
    alloc: Global,
    func: &ReactiveFunction,
    env: &Environment,
) -> Result<List<ScopeId>, SlotFault>
    ensures scopes { IfOk result (λ scopes. scopes ≡ spec.scopes_entered func.now.body) }
    ensures no_memory { IfErr result (λ fault. fault ≡ faults.NoMemory) }
{
    let mut scopes = List::new(alloc);
    // No hook refuses, so only memory can be missing.
    match visit_reactive_function(alloc, func, &ScopeBlocks { env }, &mut scopes) {
        Ok(()) => Ok(scopes),
        Err(_) => Err(SlotFault::NoMemory),
    }
}

/// Lists the scope of each scope block. Rows and values have no scope blocks in them.
#[derive(Clone, Copy)]
struct ScopeBlocks<'a> {
    env: &'a Environment,
}

impl<'a> ReactiveFunctionVisitor for ScopeBlocks<'a> {
    ghost use Rattle.std.specs.Prelude.{List as Entries};
    ghost use Rattle.rc_names.specs.Numbers.{ScopeId};

    type State = List<ScopeId>;

    ghost Value = { Entries ScopeId };

    ghost view = { λ it scopes. scopes };

    ghost steps = { λ it. scope_steps };

    ghost functions = { λ it. it.env.now.functions };

    fn env(&self) -> &Environment {
        self.env
    }

    fn visit_id(&self, _id: EvaluationOrder, _scopes: &mut List<ScopeId>) -> Result<(), Fault> {
        Ok(())
    }

    fn visit_place(
        &self,
        _id: EvaluationOrder,
        _place: &Place,
        _scopes: &mut List<ScopeId>,
    ) -> Result<(), Fault> {
        Ok(())
    }

    fn visit_context(
        &self,
        _id: EvaluationOrder,
        _function: FunctionId,
        _places: &[Place],
        _scopes: &mut List<ScopeId>,
    ) -> Result<(), Fault> {
        Ok(())
    }

    fn visit_lvalue(
        &self,
        _id: EvaluationOrder,
        _place: &Place,
        _scopes: &mut List<ScopeId>,
    ) -> Result<(), Fault> {
        Ok(())
    }

    fn visit_param(&self, _place: &Place, _scopes: &mut List<ScopeId>) -> Result<(), Fault> {
        Ok(())
    }

    fn enter_instruction(
        &self,
        _instruction: &ReactiveInstruction,
        _scopes: &mut List<ScopeId>,
    ) -> Result<Enter, Fault> {
        Ok(Enter::Skip)
    }

    fn leave_instruction(
        &self,
        _instruction: &ReactiveInstruction,
        _scopes: &mut List<ScopeId>,
    ) -> Result<(), Fault> {
        Ok(())
    }

    fn enter_value(
        &self,
        _id: EvaluationOrder,
        _value: &ReactiveValue,
        _scopes: &mut List<ScopeId>,
    ) -> Result<Enter, Fault> {
        Ok(Enter::Skip)
    }

    fn leave_value(
        &self,
        _id: EvaluationOrder,
        _value: &ReactiveValue,
        _scopes: &mut List<ScopeId>,
    ) -> Result<(), Fault> {
        Ok(())
    }

    fn enter_terminal(
        &self,
        _stmt: &ReactiveTerminalStatement,
        _scopes: &mut List<ScopeId>,
    ) -> Result<Enter, Fault> {
        Ok(Enter::Inside)
    }

    fn leave_terminal(
        &self,
        _stmt: &ReactiveTerminalStatement,
        _scopes: &mut List<ScopeId>,
    ) -> Result<(), Fault> {
        Ok(())
    }

    fn enter_scope(
        &self,
        block: &ReactiveScopeBlock,
        scopes: &mut List<ScopeId>,
    ) -> Result<Enter, Fault> {
        scopes.push(block.scope)?;
        Ok(Enter::Inside)
    }

    fn leave_scope(
        &self,
        _block: &ReactiveScopeBlock,
        _scopes: &mut List<ScopeId>,
    ) -> Result<(), Fault> {
        Ok(())
    }

    fn enter_pruned_scope(
        &self,
        _block: &PrunedReactiveScopeBlock,
        _scopes: &mut List<ScopeId>,
    ) -> Result<Enter, Fault> {
        Ok(Enter::Inside)
    }

    fn leave_pruned_scope(
        &self,
        _block: &PrunedReactiveScopeBlock,
        _scopes: &mut List<ScopeId>,
    ) -> Result<(), Fault> {
        Ok(())
    }

    fn enter_block(
        &self,
        _block: &ReactiveBlock,
        _scopes: &mut List<ScopeId>,
    ) -> Result<Enter, Fault> {
        Ok(Enter::Inside)
    }

    fn leave_block(
        &self,
        _block: &ReactiveBlock,
        _scopes: &mut List<ScopeId>,
    ) -> Result<(), Fault> {
        Ok(())
    }
}
