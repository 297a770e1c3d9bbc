//! The scope block that depends on a value that is new in every render becomes a pruned one.
//!
//! A walk over the statements lists where such values are made, where they are copied, and where scope blocks end. Two
//! sets of names then grow over the list: the values that are new each time that they are made, and those of them that
//! no scope keeps. They answer for each scope block whether it becomes a pruned one.
//!
//! After oxc's prune_always_invalidating_scopes.

mod marks;
mod steps;

ghost use Rattle.std.specs.Prelude.{◌≡◌, map, All, Contains, IfErr, IfOk, OnOk};
ghost use Rattle.rc_hir.specs.declared.fault.Fault.TheVariants as faults;
ghost use Rattle.rc_names.specs.Numbers.{ScopeId as Scope};
ghost use Rattle.rc_runs.specs.Erase.{erased};
ghost use Rattle.rc_tree.specs.Decided.{IsDecidedBy};
ghost use Rattle.rc_tree.specs.ScopesIn.{HasScopesOnce};
ghost use Rattle.rc_tree.specs.TreeNames.{TreeInTables, names_in};
ghost use Rattle.rc_flow.specs.AlwaysInvalidating.{IsInvalidating, IsWithoutInvalidating, LeavesOthers};
ghost use Rattle.rc_flow.specs.AlwaysInvalidating.{PrunesInvalidating, invalidating_rule};
ghost use Rattle.rc_flow.specs.InvalidatingCauses.{IsInvalidatingCause};
ghost use Rattle.rc_flow.specs.ValueSteps.{value_steps_in};
ghost use Rattle.rc_flow.specs.inside.DroppingSteps as spec;
ghost use Rattle.rc_flow.specs.inside.Marks.{marks_of};

use crate::always_invalidating::marks::Marks;
use crate::always_invalidating::steps::value_steps_in;
use crate::invalidating_cause::InvalidatingCause;
use rc_hir::{Environment, Fault};
use rc_names::List;
use rc_tree::{
    ReactiveBlock, ReactiveFunction, ReactiveScopeBlock, ReactiveStatement,
    ReactiveTerminalStatement, ScopeFate, Transformed,
};
use rc_walk::rewrite::transform_reactive_function;
use rc_walk::{OverStatements, StatementTransform};
use std::alloc::{AllocError, Global};

/// Turns each scope block into a pruned one that depends on a value which is new in every render and kept by no scope.
///
/// The numbers of the tree stay, and so does everything in it outside its scopes. The only fault is out of memory,
/// after which the body has no stated content.
pub fn prune_always_invalidating_scopes(
    alloc: Global,
    func: &mut ReactiveFunction,
    env: &Environment,
) -> Result<(), Fault>
    ensures ok { OnOk result (IsWithoutInvalidating env.now func.old.body func.new.body) }
    ensures left { OnOk result (LeavesOthers env.now func.old.body func.new.body) }
    ensures header { func.new ≡ record func.old { body = func.new.body } }
    ensures kept_names { OnOk result (names_in func.new.body ≡ names_in func.old.body) }
    ensures kept_erased { OnOk result (erased func.new ≡ erased func.old) }
    ensures known { OnOk result (TreeInTables func.old env.now → TreeInTables func.new env.now) }

    ensures refused { IfErr result (λ fault. fault ≡ faults.NoMemory) }
{
    decide_always_invalidating_scopes(alloc, func, env)?;
    Ok(())
}

/// The same, and returns the scope of each block that became a pruned one, with its fate, in the order in which the
/// blocks end.
pub fn decide_always_invalidating_scopes(
    alloc: Global,
    func: &mut ReactiveFunction,
    env: &Environment,
) -> Result<List<ScopeFate>, Fault>
    ensures ok { IfOk result (PrunesInvalidating env.now func.old.body func.new.body) }
    ensures decided { HasScopesOnce func.old.body → IfOk result
        (IsDecidedBy (invalidating_rule env.now func.old.body) func.old.body func.new.body) }
    ensures left { IfOk result (λ log. LeavesOthers env.now func.old.body func.new.body) }
    ensures header { func.new ≡ record func.old { body = func.new.body } }
    ensures kept_names { IfOk result (λ log. names_in func.new.body ≡ names_in func.old.body) }
    ensures kept_erased { IfOk result (λ log. erased func.new ≡ erased func.old) }
    ensures known { IfOk result (λ log. TreeInTables func.old env.now → TreeInTables func.new env.now) }

    ensures refused { IfErr result (λ fault. fault ≡ faults.NoMemory) }
{
    let marks = marks_of(alloc, env, &func.body)?;
    let Marks {
        always: _,
        unmemoized: _,
        mut dropped,
        decided,
        causes: _,
    } = marks;
    dropped.reverse();
    let mut walk = OverStatements {
        env,
        pass: Transform,
    };
    transform_reactive_function(alloc, func, &mut walk, &mut dropped)?;
    Ok(decided)
}

/// Returns what makes scopes always invalidate: a scope of which a block ends, with the first of its dependencies whose
/// value is new in every render and kept by no scope there. Each scope that always invalidates is among them. The only
/// fault is out of memory.
pub fn invalidating_causes(
    alloc: Global,
    func: &ReactiveFunction,
    env: &Environment,
) -> Result<List<InvalidatingCause>, Fault>
    ensures told { IfOk result (All (IsInvalidatingCause env.now func.now.body)) }
    ensures each { IfOk result (λ causes. (scope : Scope) → IsInvalidating env.now func.now.body scope
        → Contains (map (λ cause. cause.scope) causes) scope) }

    ensures refused { IfErr result (λ fault. fault ≡ faults.NoMemory) }
{
    let marks = marks_of(alloc, env, &func.body)?;
    Ok(marks.causes)
}

/// The two sets after all the statements, with the answers for the scope blocks. The only error is out of memory.
fn marks_of(alloc: Global, env: &Environment, body: &ReactiveBlock) -> Result<Marks, AllocError>
    ensures { IfOk result (λ marks. marks ≡ marks_of env.now (value_steps_in body.now)) }
{
    let steps = value_steps_in(alloc, body)?;
    let mut marks = Marks::new(alloc);
    marks.take(env, steps.as_slice())?;
    Ok(marks)
}

/// The pass over statements. Its state is what is left of the answers for the scope blocks in the order in which they
/// end, with the next answer last.
#[derive(Clone, Copy)]
pub(crate) struct Transform;

impl StatementTransform for Transform {
    type State = List<bool>;

    ghost steps = { λ pass. spec.dropping_steps };

    fn enter_scope(
        &self,
        _scope: &ReactiveScopeBlock,
        _answers: &mut List<bool>,
    ) -> Result<(), Fault> {
        Ok(())
    }

    fn transform_terminal(
        &self,
        _stmt: &mut ReactiveTerminalStatement,
        _answers: &mut List<bool>,
    ) -> Result<Transformed<ReactiveStatement>, Fault> {
        Ok(Transformed::Keep)
    }

    fn transform_scope(
        &self,
        scope: &mut ReactiveScopeBlock,
        answers: &mut List<bool>,
    ) -> Result<Transformed<ReactiveStatement>, Fault> {
        if next_answer(answers) {
            let pruned = scope.take_pruned();
            return Ok(Transformed::Replace(ReactiveStatement::PrunedScope(pruned)));
        }
        Ok(Transformed::Keep)
    }

    fn leave_block(
        &self,
        _block: &mut ReactiveBlock,
        _answers: &mut List<bool>,
    ) -> Result<(), Fault> {
        Ok(())
    }
}

/// Pops the last answer; false if there is none, which no walk meets.
#[tactic(auto, using(crate::proofs::AlwaysInvalidating::RulesLemmas::popped_rest))]
fn next_answer(answers: &mut List<bool>) -> bool
    ensures answer { result ≡ spec.last_answer answers.old }
    ensures rest { answers.new ≡ spec.without_last answers.old }
{
    answers.pop().unwrap_or(false)
}
