//! Scopes keep the dependencies that may change between renders.
//!
//! After oxc's prune_non_reactive_dependencies.

ghost use Rattle.std.specs.Prelude.{◌≡◌, ◌⊎◌, IfErr, IfOk, OnErr, OnOk};
ghost use Rattle.std.specs.List.{filter};
ghost use Rattle.rc_hir.specs.Fault.{IsExpected};
ghost use Rattle.rc_hir.specs.Model.{HirFunction};
ghost use Rattle.rc_hir.specs.Names.{NamesInTables};
ghost use Rattle.rc_hir.specs.declared.fault.Fault.TheVariants as faults;
ghost use Rattle.rc_tree.specs.TreeNames.{TreeInTables, TreeNamesOutside};
ghost use Rattle.rc_flow.specs.ReactiveDependencies.{HasReactiveDependencies};
ghost use Rattle.rc_flow.specs.inside.Pruned as spec;
ghost use Rattle.rc_flow.specs.inside.Spread.{stays};

use crate::collected::collected;
use crate::flows::flows_in;
use crate::spread::Spread;
use rc_hir::{Environment, Fault, ReactiveScope, ReactiveScopeDependency};
use rc_names::{CloneIn, List, ScopeId, Table};
use rc_tree::ReactiveFunction;
use std::alloc::{AllocError, Global};

/// Leaves each scope the dependencies whose names are reactive wherever a block of the scope ends.
///
/// Names are reactive that are collected, and those to which rows and scope blocks carry that on. The tree stays. After
/// a fault the environment is as before.
///
/// `BadName` comes where the operands of a value can't be read, and names the value's function, which is outside its
/// table. `NoMemory` means out of memory, and is the only fault where every number is in its table. Whatever comes,
/// numbers that were in their tables still are.
pub fn prune_non_reactive_dependencies(
    alloc: Global,
    func: &mut ReactiveFunction,
    env: &mut Environment,
) -> Result<(), Fault>
    ensures ok { OnOk result (HasReactiveDependencies func.old.body env.old env.new) }
    ensures tree { func.new ≡ func.old }
    ensures known { OnOk result (TreeInTables func.old env.old → TreeInTables func.new env.new) }
    ensures known_names { (hir : HirFunction) → NamesInTables hir env.old → NamesInTables hir env.new }

    ensures refused { OnErr result (env.new ≡ env.old) }
    ensures named { IfErr result (λ fault. (fault ≡ faults.NoMemory) ⊎ TreeNamesOutside func.old env.old fault) }
    ensures sound { TreeInTables func.old env.old → IfErr result (λ fault. fault ≡ faults.NoMemory) }
{
    // The new table is whole before it takes the place of the old one, so that a fault changes nothing.
    let scopes = scopes_after(alloc, func, env)?;
    env.scopes = scopes;
    Ok(())
}

/// The scopes with the dependencies that stay.
fn scopes_after(
    alloc: Global,
    func: &ReactiveFunction,
    env: &Environment,
) -> Result<Table<ScopeId, ReactiveScope>, Fault>
    ensures { IsExpected (spec.scopes_after func.now.body env.now) result }
{
    let mut spread = collected(alloc, func, env)?;
    let flows = flows_in(alloc, env, &func.body)?;
    spread.take(env, flows.as_slice())?;
    let scopes = pruned_scopes(alloc, env, &spread)?;
    Ok(scopes)
}

/// The scopes with the dependencies that stay, after all steps.
fn pruned_scopes(
    alloc: Global,
    env: &Environment,
    spread: &Spread,
) -> Result<Table<ScopeId, ReactiveScope>, AllocError>
    ensures { IfOk result (λ scopes. scopes ≡ spec.pruned_from spread.now 0 env.now.scopes) }
{
    let mut scopes = Table::new(alloc);
    let _count = env.scopes.len();
    for scope in env.scopes.as_slice() {
        let id = ScopeId::new(scopes.len() as u32);
        let dependencies = staying(alloc, id, scope, spread)?;
        let pruned = with_dependencies(alloc, scope, dependencies)?;
        scopes.push(pruned)?;
    }
    Ok(scopes)
}

/// The dependencies of a scope that stay, in their order.
fn staying(
    alloc: Global,
    id: ScopeId,
    scope: &ReactiveScope,
    spread: &Spread,
) -> Result<List<ReactiveScopeDependency>, AllocError>
    ensures { IfOk result (λ list. list ≡ filter (stays spread.now id) scope.now.dependencies) }
{
    let mut staying = List::new(alloc);
    for dependency in scope.dependencies.as_slice() {
        if spread.stays(id, dependency) {
            let copy = dependency.clone_in(alloc)?;
            staying.push(copy)?;
        }
    }
    Ok(staying)
}

/// A copy of a scope, with other dependencies.
fn with_dependencies(
    alloc: Global,
    scope: &ReactiveScope,
    dependencies: List<ReactiveScopeDependency>,
) -> Result<ReactiveScope, AllocError>
    ensures { IfOk result (λ copy. copy ≡ record scope.now { dependencies = dependencies }) }
{
    Ok(ReactiveScope {
        range: scope.range,
        dependencies,
        declarations: scope.declarations.copy_in(alloc)?,
        reassignments: scope.reassignments.copy_in(alloc)?,
        early_return_value: scope.early_return_value,
        merged: scope.merged.copy_in(alloc)?,
    })
}
