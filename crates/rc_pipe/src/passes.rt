//! The checks and passes over a spelled function, in their order.

ghost use Rattle.std.specs.Prelude.{◌≡◌, ◌↔◌, ◌⊎◌, [], List as Items, IfErr, IfOk, IsTrue};
ghost use Rattle.rc_hir.specs.Model.{HirFunction as Graph};
ghost use Rattle.rc_hir.specs.KeptNumbers.{KeepsNumbers};
ghost use Rattle.rc_hir.specs.Names.{NamesInTables};
ghost use Rattle.rc_hir.specs.declared.fault.Fault.TheVariants as faults;
ghost use Rattle.rc_tree.specs.ScopesIn.{HasScopesOnce, scopes_in};
ghost use Rattle.rc_tree.specs.TreeNames.{TreeInTables};
ghost use Rattle.rc_tree.specs.Visits.{visits_of};
ghost use Rattle.rc_runs.specs.BodyRun.{IsBodyRun};
ghost use Rattle.rc_runs.specs.EarlyReturns.{NoEarlyReturnSet};
ghost use Rattle.rc_runs.specs.Erase.{erased};
ghost use Rattle.rc_runs.specs.Event.{Event, End};
ghost use Rattle.rc_runs.specs.Spelled.{Spells};
ghost use Rattle.rc_pipe.specs.Causes.{HasRoom};
ghost use Rattle.rc_pipe.specs.Passes.{AfterLabels, HasOthersPruned, state};
ghost use Rattle.rc_pipe.specs.inside.PassFaults.{IsPassFault};
ghost use Rattle.rc_pipe.specs.inside.PrunedParts.{AreOthersTold, HasScopesPruned, IsPrunedWith};

use crate::explaining::{Told, causes_if_asked, escape_decisions, merging_decisions};
use crate::spelled_scopes::spelled_scopes;
use rc_checks::{
    assert_known_instructions_within_scopes, assert_well_formed_break_targets,
    decide_unused_scopes, prune_unused_labels,
};
use rc_early::propagate_early_returns;
use rc_escape::flag_memoizations;
use rc_flow::{
    InvalidatingCause, decide_always_invalidating_scopes, prune_non_reactive_dependencies,
};
use rc_hir::{Environment, Fault, HirFunction, ReactiveScope};
use rc_merge::MergedFacts;
use rc_names::{List, ScopeId, Table};
use rc_tree::{ReactiveFunction, ScopeFate};
use std::alloc::Global;

/// The scopes that have a block in the spelled tree, what the passes decided of them, in the order of the passes, and
/// what they told of it.
#[derive(Drop)]
pub(crate) struct Decisions {
    pub spelled: List<ScopeId>,
    pub log: List<ScopeFate>,
    pub told: Told,
}

/// What the passes after the one on escaping scopes decided, and what they told of it.
#[derive(Drop)]
pub(crate) struct OtherDecisions {
    pub log: List<ScopeFate>,
    pub received: Table<ScopeId, ReactiveScope>,
    pub merged: List<MergedFacts>,
    pub causes: List<InvalidatingCause>,
}

/// Checks a function and prunes it: break targets, unused labels, the operands of scopes, scopes that don't escape,
/// dependencies that aren't reactive, unused scopes, scopes that invalidate together, which are merged, and scopes that
/// always invalidate; and replaces the returns in scope blocks. Returns what the passes decided and, if `explain` is
/// set, what they read to decide it.
///
/// The function's numbers are in their tables, the graph spells it, and enough numbers are left for an early return in
/// each scope block, so the only faults are `ScopeCompleted`, `Uninitialised`, `NoScopeNode` and `NoMemory`. The
/// environment is written after all that may give one of the first three.
pub(crate) fn prune(
    alloc: Global,
    hir: &HirFunction,
    func: &mut ReactiveFunction,
    env: &mut Environment,
    explain: bool,
) -> Result<Decisions, Fault>
    requires known { TreeInTables func.old env.old }
    requires spelled { Spells hir.now env.old func.old }
    requires room { HasRoom hir.now env.old }
    ensures ok { IfOk result (IsPrunedWith explain (state func.old env.old) (state func.new env.new)) }
    ensures still_known { IfOk result (λ told. TreeInTables func.new env.new) }
    ensures kept_runs { NoEarlyReturnSet env.old → IfOk result (λ told. (events : Items Event) (end : End) →
        IsBodyRun func.old env.old events end ↔ IsBodyRun func.new env.new events end) }
    ensures refused { IfErr result (IsPassFault (state func.old env.old)) }
    ensures kept_environment { IfErr result (λ fault. (fault ≡ faults.NoMemory) ⊎ (env.new ≡ env.old)) }
    ensures kept_numbers { KeepsNumbers env.old env.new }
    ensures known_names { NamesInTables hir.now env.old → NamesInTables hir.now env.new }
{
    let decisions = prune_scopes(alloc, hir, func, env, explain)?;
    if decisions.spelled.is_empty() {
        // No return is in a scope block.
        return Ok(decisions);
    }
    propagate_early_returns(alloc, func, env)?;
    Ok(decisions)
}

/// Checks a function and prunes it, up to early returns. Returns what the passes decided and, if `explain` is set, what
/// they read to decide it.
fn prune_scopes(
    alloc: Global,
    hir: &HirFunction,
    func: &mut ReactiveFunction,
    env: &mut Environment,
    explain: bool,
) -> Result<Decisions, Fault>
    requires known { TreeInTables func.old env.old }
    requires spelled { Spells hir.now env.old func.old }
    ensures ok { IfOk result (HasScopesPruned explain (state func.old env.old) (state func.new env.new)) }
    ensures still_none { IfOk result (λ told. told.spelled ≡ [] → scopes_in func.new.body ≡ []) }
    ensures still_known { IfOk result (λ told. TreeInTables func.new env.new) }
    ensures kept_runs { NoEarlyReturnSet env.old → IfOk result (λ told. (events : Items Event) (end : End) →
        IsBodyRun func.old env.old events end ↔ IsBodyRun func.new env.new events end) }
    ensures refused { IfErr result (IsPassFault (state func.old env.old)) }
    ensures kept_environment { IfErr result (λ fault. (fault ≡ faults.NoMemory) ⊎ (env.new ≡ env.old)) }
    ensures kept_numbers { KeepsNumbers env.old env.new }
    ensures known_names { NamesInTables hir.now env.old → NamesInTables hir.now env.new }
{
    let spelled = check(alloc, hir, func, env)?;
    if spelled.is_empty() {
        // No operand is outside a scope block, and no other pass finds anything to do. The record may lack something.
        flag_memoizations(alloc, func, env)?;
        return Ok(Decisions {
            spelled,
            log: List::new(alloc),
            told: Told::nothing(alloc),
        });
    }
    assert_known_instructions_within_scopes(alloc, func, env)?;
    let escape = escape_decisions(alloc, func, env, explain)?;
    let others = decide_others(alloc, func, env, explain)?;
    let mut log = escape.log;
    log.append(others.log)?;
    let told = Told {
        memoized: escape.memoized,
        received: others.received,
        merged: others.merged,
        causes: others.causes,
    };
    Ok(Decisions { spelled, log, told })
}

/// Checks break targets and prunes unused labels. Returns the scopes that have a block, which are the same with those
/// labels and without them.
fn check(
    alloc: Global,
    hir: &HirFunction,
    func: &mut ReactiveFunction,
    env: &Environment,
) -> Result<List<ScopeId>, Fault>
    requires known { TreeInTables func.old env.now }
    requires spelled { Spells hir.now env.now func.old }
    ensures ok { IfOk result (λ spelled. AfterLabels (state func.old env.now) (state func.new env.now)) }
    ensures kept_visits { IfOk result (λ spelled.
        visits_of env.now.functions func.new.body ≡ visits_of env.now.functions func.old.body) }
    ensures listed { IfOk result (λ spelled. spelled ≡ scopes_in func.new.body) }
    ensures still_known { IfOk result (λ spelled. TreeInTables func.new env.now) }
    ensures kept_runs { NoEarlyReturnSet env.now → IfOk result (λ spelled. (events : Items Event) (end : End) →
        IsBodyRun func.old env.now events end ↔ IsBodyRun func.new env.now events end) }
    ensures refused { IfErr result (λ fault. fault ≡ faults.NoMemory) }
{
    assert_well_formed_break_targets(alloc, func, env)?;
    prune_unused_labels(alloc, func, env)?;
    let spelled = spelled_scopes(alloc, hir, &func.body)?;
    Ok(spelled)
}

/// Prunes dependencies that aren't reactive and unused scopes, merges scopes that invalidate together, and prunes those
/// that always invalidate. Returns what was decided and, if `explain` is set, what was read to decide it.
#[tactic(auto, using(crate::proofs::EnvironmentStays::dependencies_keep_numbers, crate::proofs::EnvironmentStays::keeps_through))]
fn decide_others(
    alloc: Global,
    func: &mut ReactiveFunction,
    env: &mut Environment,
    explain: bool,
) -> Result<OtherDecisions, Fault>
    requires known { TreeInTables func.old env.old }
    requires once { HasScopesOnce func.old.body }
    ensures ok { IfOk result (λ it. (others : HasOthersPruned (state func.old env.old) (state func.new env.new) it.log)
        × (IsTrue explain → AreOthersTold others it.received it.merged it.causes)) }
    ensures kept_erased { IfOk result (λ it. erased func.new ≡ erased func.old) }
    ensures still_known { IfOk result (λ it. TreeInTables func.new env.new) }
    ensures refused { IfErr result (λ fault. fault ≡ faults.NoMemory) }
    ensures kept_numbers { KeepsNumbers env.old env.new }
    ensures known_names { (graph : Graph) → NamesInTables graph env.old → NamesInTables graph env.new }
{
    prune_non_reactive_dependencies(alloc, func, env)?;
    let mut log = decide_unused_scopes(alloc, func, env)?;
    let merging = merging_decisions(alloc, func, env, explain)?;
    log.append(merging.log)?;
    let causes = causes_if_asked(alloc, func, env, explain)?;
    let invalidating = decide_always_invalidating_scopes(alloc, func, env)?;
    log.append(invalidating)?;
    Ok(OtherDecisions {
        log,
        received: merging.received,
        merged: merging.merged,
        causes,
    })
}
