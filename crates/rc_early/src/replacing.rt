//! Returns and scope blocks are replaced, in a walk over the statements of a body.

ghost use Rattle.std.specs.Prelude.{◌≡◌, ◌⊎◌, [], IfErr, IfOk, OnOk, slice_get};
ghost use Rattle.rc_early.specs.EarlyReturned as spec;
ghost use Rattle.rc_early.specs.inside.EarlyReturnSteps as steps;
ghost use Rattle.rc_hir.specs.declared.fault.Fault.TheVariants as faults;
ghost use Rattle.rc_tree.specs.Step.{IsStep};

use crate::early_return::{EarlyReturn, Sentinel, Where};
use crate::numbers::{has_room_after, next_sentinel};
use crate::statements::{after_sentinel, stored_return};
use rc_hir::{Environment, Fault, Place, TableName};
use rc_names::{KeySet, List, ScopeId};
use rc_tree::{
    ReactiveBlock, ReactiveFunction, ReactiveScopeBlock, ReactiveStatement, ReactiveTerminal,
    ReactiveTerminalStatement, Transformed,
};
use rc_walk::rewrite::transform_reactive_function;
use rc_walk::{OverStatements, StatementTransform};
use std::alloc::{AllocError, Global};

/// Replaces the returns in scope blocks, and returns the early returns that this makes, in the order in which the scope
/// blocks end.
pub(crate) fn replace_returns(
    alloc: Global,
    func: &mut ReactiveFunction,
    env: &Environment,
) -> Result<List<EarlyReturn>, Fault>
    ensures ok { IfOk result (spec.MakesEarlyReturns env.now func.old.body func.new.body) }
    ensures header { func.new ≡ record func.old { body = func.new.body } }
    ensures refused { IfErr result (λ fault. (fault ≡ faults.NoMemory)
        ⊎ spec.EndsAtFault env.now func.old.body fault) }
{
    let mut state = Replacing {
        at: Where::Outside,
        met: None,
        made: List::new(alloc),
        scopes: KeySet::new(alloc),
        around: List::new(alloc),
    };
    match walk(alloc, func, env, &mut state) {
        Ok(()) => Ok(state.into_made()),
        Err(fault) => Err(fault),
    }
}

/// Walks over the statements of a body.
fn walk(
    alloc: Global,
    func: &mut ReactiveFunction,
    env: &Environment,
    state: &mut Replacing,
) -> Result<(), Fault>
    requires { state.old ≡ steps.at [] spec.nothing_met }
    ensures ok { OnOk result (spec.MakesEarlyReturns env.now func.old.body func.new.body state.new.made) }
    ensures header { func.new ≡ record func.old { body = func.new.body } }
    ensures refused { IfErr result (λ fault. (fault ≡ faults.NoMemory)
        ⊎ spec.EndsAtFault env.now func.old.body fault) }
{
    let mut transform = OverStatements {
        env,
        pass: Transform { alloc, env },
    };
    transform_reactive_function(alloc, func, &mut transform, state)
}

/// The pass over statements, with the environment that it looks into.
#[derive(Clone, Copy)]
pub(crate) struct Transform<'a> {
    alloc: Global,
    env: &'a Environment,
}

impl<'a> StatementTransform for Transform<'a> {
    type State = Replacing;

    ghost steps = { λ pass. steps.early_return_steps pass.env.now };

    fn enter_scope(&self, scope: &ReactiveScopeBlock, state: &mut Replacing) -> Result<(), Fault> {
        let passed_over = is_set(self.env, &state.scopes, scope.scope);
        state.begin_scope(passed_over)?;
        Ok(())
    }

    fn transform_terminal(
        &self,
        stmt: &mut ReactiveTerminalStatement,
        state: &mut Replacing,
    ) -> Result<Transformed<ReactiveStatement>, Fault> {
        match (state.at, &stmt.terminal) {
            (Where::Within, ReactiveTerminal::Return { value, .. }) => {
                let statements = replace_return(self.alloc, self.env, *value, state)?;
                Ok(Transformed::ReplaceMany(statements))
            }
            _ => Ok(Transformed::Keep),
        }
    }

    fn transform_scope(
        &self,
        scope: &mut ReactiveScopeBlock,
        state: &mut Replacing,
    ) -> Result<Transformed<ReactiveStatement>, Fault> {
        if let Some(sentinel) = state.end_scope() {
            end_outermost(self.alloc, self.env, scope, sentinel, state)?;
        }
        Ok(Transformed::Keep)
    }

    fn leave_block(&self, _block: &mut ReactiveBlock, _state: &mut Replacing) -> Result<(), Fault> {
        Ok(())
    }
}

/// The state of the pass: the next statement's place; the early return of the outermost scope block around, if a
/// `Return` was met in it; the early returns of ended blocks, with their scopes; and the places of the scope blocks
/// around, outermost first.
#[derive(Drop)]
pub(crate) struct Replacing {
    at: Where,
    met: Option<Sentinel>,
    made: List<EarlyReturn>,
    scopes: KeySet<ScopeId>,
    around: List<Where>,
}

impl Replacing {
    /// A scope block begins.
    fn begin_scope(&mut self, passed_over: bool) -> Result<(), AllocError>
        ensures { OnOk result (self.new ≡ steps.inside_scope passed_over self.old) }
    {
        self.around.push(self.at)?;
        self.at = entered(passed_over, self.at);
        Ok(())
    }

    /// A scope block ends. Returns the early return that was made in it, if it is an outermost one.
    fn end_scope(&mut self) -> Option<Sentinel>
        ensures sentinel { result ≡ steps.ended_entry self.old }
        ensures outside { self.new ≡ steps.outside_scope self.old }
    {
        self.at = pop_where(&mut self.around);
        match self.at {
            Where::Outside => self.met.take(),
            _ => None,
        }
    }

    /// The early returns that were made.
    fn into_made(self) -> List<EarlyReturn>
        ensures { result ≡ self.made }
    {
        let Replacing { made, .. } = self;
        made
    }
}

/// Pops the last place; outside scope blocks if the list is empty, which no walk meets.
#[tactic(auto, using(crate::proofs::StepsLemmas::popped_others))]
fn pop_where(around: &mut List<Where>) -> Where
    ensures last { result ≡ steps.last_where around.old }
    ensures rest { around.new ≡ steps.without_last around.old }
{
    around.pop().unwrap_or(Where::Outside)
}

/// Where the inside of a scope block is, which is passed over or isn't.
fn entered(passed_over: bool, at: Where) -> Where
    ensures { result ≡ spec.entered passed_over at }
{
    if passed_over {
        return Where::PassedOver;
    }
    match at {
        Where::PassedOver => Where::PassedOver,
        Where::Outside | Where::Within => Where::Within,
    }
}

/// Whether the scope has an early return already, where one was made for these scopes.
fn is_set(env: &Environment, made: &KeySet<ScopeId>, scope: ScopeId) -> bool
    ensures { result ≡ steps.is_set_by env.now made.now scope }
{
    had_early_return(env, scope) || made.contains(scope)
}

/// Whether the scope had an early return before the pass.
fn had_early_return(env: &Environment, scope: ScopeId) -> bool
    ensures { result ≡ spec.had_early_return env.now scope }
{
    match env.scopes.get(scope) {
        Some(known) => known.early_return_value.is_some(),
        None => false,
    }
}

/// The statements in the place of a `Return` in a scope block. The first one makes the entry of the early return.
fn replace_return(
    alloc: Global,
    env: &Environment,
    place: Place,
    state: &mut Replacing,
) -> Result<List<ReactiveStatement>, Fault>
    ensures { IsStep (steps.return_step env.now state.old.met place state.old) result state.new }
{
    let count = state.made.len();
    let entry = match &state.met {
        Some(sentinel) => sentinel.entry(),
        None => {
            if !has_room_after(env, count) {
                return Err(Fault::NoIds);
            }
            let sentinel = next_sentinel(env, count, place.span);
            let entry = sentinel.entry();
            state.met = Some(sentinel);
            entry
        }
    };
    Ok(stored_return(alloc, entry, place)?)
}

/// Ends an outermost scope block in which a `Return` was met.
fn end_outermost(
    alloc: Global,
    env: &Environment,
    scope: &mut ReactiveScopeBlock,
    sentinel: Sentinel,
    state: &mut Replacing,
) -> Result<(), Fault>
    ensures { IsStep (steps.end_step (slice_get env.now.scopes scope.old.scope.0) sentinel state.old scope.old) result
        (state.new, scope.new) }
{
    let id = scope.scope;
    if env.scopes.get(id).is_none() {
        return Err(Fault::BadName {
            table: TableName::Scopes,
            index: id.0,
        });
    }
    let entry = sentinel.entry();
    put_sentinel(alloc, scope, &sentinel)?;
    state.made.push(EarlyReturn { scope: id, entry })?;
    state.scopes.insert(id)?;
    Ok(())
}

/// Puts the sentinel before the statements of a scope block, which follow under the label.
fn put_sentinel(
    alloc: Global,
    scope: &mut ReactiveScopeBlock,
    sentinel: &Sentinel,
) -> Result<(), AllocError>
    ensures { OnOk result (scope.new ≡ spec.with_sentinel sentinel.now scope.old) }
{
    let own = ReactiveBlock {
        statements: scope.instructions.statements.take(),
    };
    let mut statements = after_sentinel(alloc, sentinel, own)?;
    // The list is empty, so this takes no memory.
    scope.instructions.statements.take_from(&mut statements)
}
