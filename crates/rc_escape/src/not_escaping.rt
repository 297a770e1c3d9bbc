//! The scope block that computes nothing memoized gives way to its statements.
//!
//! After oxc's prune_non_escaping_scopes.

ghost use Rattle.std.specs.Prelude.{◌≡◌, [], Contains, IfErr, IfOk, OnOk};
ghost use Rattle.rc_hir.specs.declared.fault.Fault.TheVariants as faults;
ghost use Rattle.rc_escape.specs.WholeRecord.{AreMemoized, HasWholeRecord, IsEscapeFault};
ghost use Rattle.rc_escape.specs.NotEscaping.{HasDecidedNotEscaping, IsNeededOutput, IsRebuiltFor};
ghost use Rattle.rc_escape.specs.NotEscaping.{IsWithoutNotEscaping};
ghost use Rattle.std.specs.List.{IsDistinct};
ghost use Rattle.rc_names.specs.Numbers.{DeclarationId as Declaration, same_id, ScopeId as Scope};
ghost use Rattle.rc_order.specs.Order.{AreInOrder};
ghost use Rattle.rc_runs.specs.Erase.{erased};
ghost use Rattle.rc_tree.specs.ScopesIn.{scopes_in};
ghost use Rattle.rc_tree.specs.TreeNames.{TreeInTables};

mod met;
pub(crate) mod outputs;
mod rows;
mod transform;

use crate::DeclSet;
use crate::memoized_names::memoized_rows;
use crate::missing_scopes::lowest_missing;
use crate::not_escaping::met::Met;
use crate::not_escaping::transform::PruneScopesTransform;
use rc_hir::{Environment, Fault};
use rc_memo::collect_rows;
use rc_names::{DeclarationId, List};
use rc_order::in_order;
use rc_tree::{ReactiveFunction, ScopeFate};
use rc_walk::rewrite::transform_reactive_function;
use std::alloc::Global;

/// What the pass decided, and which names it found memoized.
#[derive(Debug, Drop)]
pub struct ExplainedEscape {
    /// The scope of each block that gave way, with its fate, in the order in which the blocks ended.
    pub log: List<ScopeFate>,
    /// The memoized names by rising number, each once.
    pub memoized: List<DeclarationId>,
}

/// Replaces each scope block whose scope has an output, none of them memoized, and no early return, by its statements.
/// Sets the flag of each `FinishMemoize` whose name has a scope that gave way before it, or whose name has no scope and
/// no name was stored into its declaration so far whose scope hasn't given way.
///
/// A scope block stays if its scope has an output that must be memoized, and an escaping name reaches that output
/// through recorded dependencies. Numbers stay in their tables, and so does everything in the tree outside its
/// scopes.
///
/// Fails with `Uninitialised` exactly if a name of which the memo record needs a node has none yet, and names the first
/// such name; else with `NoScopeNode` exactly if a node has a scope without a record, and names the lowest such scope.
/// Fails with `NoMemory` when out of memory, and with no other fault. The body has no stated content then.
pub fn prune_non_escaping_scopes(
    alloc: Global,
    func: &mut ReactiveFunction,
    env: &Environment,
) -> Result<(), Fault>
    ensures ok { OnOk result (IsWithoutNotEscaping env.now func.old func.new.body) }
    ensures header { func.new ≡ record func.old { body = func.new.body } }
    ensures needed { OnOk result ((scope : Scope) (name : Declaration) → Contains (scopes_in func.old.body) scope
        → IsNeededOutput env.now func.old scope name → Contains (scopes_in func.new.body) scope) }
    ensures kept_erased { OnOk result (erased func.new ≡ erased func.old) }
    ensures known { OnOk result (TreeInTables func.old env.now → TreeInTables func.new env.now) }
    ensures scopes_once { OnOk result (IsDistinct same_id (scopes_in func.old.body)
        → IsDistinct same_id (scopes_in func.new.body)) }

    ensures refused { IfErr result (IsEscapeFault env.now func.old) }
{
    decide_non_escaping_scopes(alloc, func, env)?;
    Ok(())
}

/// Does what `prune_non_escaping_scopes` does, and returns what it decided: the scope of each block that gave way, with
/// its fate, in the order in which the blocks ended.
///
/// Fails as `prune_non_escaping_scopes` does.
pub fn decide_non_escaping_scopes(
    alloc: Global,
    func: &mut ReactiveFunction,
    env: &Environment,
) -> Result<List<ScopeFate>, Fault>
    ensures ok { IfOk result (HasDecidedNotEscaping env.now func.old func.new.body) }
    ensures header { func.new ≡ record func.old { body = func.new.body } }
    ensures needed { OnOk result ((scope : Scope) (name : Declaration) → Contains (scopes_in func.old.body) scope
        → IsNeededOutput env.now func.old scope name → Contains (scopes_in func.new.body) scope) }
    ensures kept_erased { OnOk result (erased func.new ≡ erased func.old) }
    ensures known { OnOk result (TreeInTables func.old env.now → TreeInTables func.new env.now) }
    ensures scopes_once { OnOk result (IsDistinct same_id (scopes_in func.old.body)
        → IsDistinct same_id (scopes_in func.new.body)) }

    ensures refused { IfErr result (IsEscapeFault env.now func.old) }
{
    let set = deciding_names(alloc, func, env)?;
    let log = rebuild(alloc, func, env, &set)?;
    Ok(log)
}

/// Does what `decide_non_escaping_scopes` does, and returns besides which names are memoized: those of the memo record
/// of the function as handed in.
///
/// Fails as `prune_non_escaping_scopes` does.
pub fn explain_non_escaping_scopes(
    alloc: Global,
    func: &mut ReactiveFunction,
    env: &Environment,
) -> Result<ExplainedEscape, Fault>
    ensures ok { IfOk result (λ it. HasDecidedNotEscaping env.now func.old func.new.body it.log) }
    ensures memoized { IfOk result (λ it. (is : HasDecidedNotEscaping env.now func.old func.new.body it.log)
        × AreInOrder is.without.set it.memoized) }
    ensures header { func.new ≡ record func.old { body = func.new.body } }
    ensures needed { OnOk result ((scope : Scope) (name : Declaration) → Contains (scopes_in func.old.body) scope
        → IsNeededOutput env.now func.old scope name → Contains (scopes_in func.new.body) scope) }
    ensures kept_erased { OnOk result (erased func.new ≡ erased func.old) }
    ensures known { OnOk result (TreeInTables func.old env.now → TreeInTables func.new env.now) }
    ensures scopes_once { OnOk result (IsDistinct same_id (scopes_in func.old.body)
        → IsDistinct same_id (scopes_in func.new.body)) }

    ensures refused { IfErr result (IsEscapeFault env.now func.old) }
{
    let set = deciding_names(alloc, func, env)?;
    let memoized = in_order(alloc, set.as_slice())?;
    let log = rebuild(alloc, func, env, &set)?;
    Ok(ExplainedEscape { log, memoized })
}

/// Does what `prune_non_escaping_scopes` does to a function in which no scope has a block: sets the flags. The memo
/// record isn't walked, since only a scope block asks which names are memoized.
///
/// Fails as `prune_non_escaping_scopes` does.
pub fn flag_memoizations(
    alloc: Global,
    func: &mut ReactiveFunction,
    env: &Environment,
) -> Result<(), Fault>
    requires none { scopes_in func.old.body ≡ [] }
    ensures ok { OnOk result (HasDecidedNotEscaping env.now func.old func.new.body []) }
    ensures header { func.new ≡ record func.old { body = func.new.body } }
    ensures needed { OnOk result ((scope : Scope) (name : Declaration) → Contains (scopes_in func.old.body) scope
        → IsNeededOutput env.now func.old scope name → Contains (scopes_in func.new.body) scope) }
    ensures kept_erased { OnOk result (erased func.new ≡ erased func.old) }
    ensures known { OnOk result (TreeInTables func.old env.now → TreeInTables func.new env.now) }

    ensures refused { IfErr result (IsEscapeFault env.now func.old) }
{
    check_record(alloc, func, env)?;
    let set = DeclSet::new(alloc);
    rebuild(alloc, func, env, &set)?;
    Ok(())
}

/// Checks that the memo record of a function lacks nothing.
///
/// Fails as `prune_non_escaping_scopes` does.
fn check_record(alloc: Global, func: &ReactiveFunction, env: &Environment) -> Result<(), Fault>
    ensures ok { OnOk result (HasWholeRecord env.now func.now) }
    ensures refused { IfErr result (IsEscapeFault env.now func.now) }
{
    let rows = collect_rows(alloc, func, env)?;
    if let Some(scope) = lowest_missing(&rows) {
        return Err(Fault::NoScopeNode { scope });
    }
    Ok(())
}

/// Rebuilds the body of a function where these names are memoized. Returns the scope of each block that gave way, with
/// its fate, in the order in which the blocks ended. Fails only when out of memory.
fn rebuild(
    alloc: Global,
    func: &mut ReactiveFunction,
    env: &Environment,
    set: &DeclSet,
) -> Result<List<ScopeFate>, Fault>
    ensures ok { IfOk result (λ log. (is : IsRebuiltFor env.now set.now func.old.body func.new.body)
        × (is.left.log ≡ log)) }
    ensures header { func.new ≡ record func.old { body = func.new.body } }
    ensures refused { IfErr result (λ fault. fault ≡ faults.NoMemory) }
{
    let mut transform = PruneScopesTransform { alloc, env, set };
    let mut met = Met::new(alloc);
    transform_reactive_function(alloc, func, &mut transform, &mut met)?;
    Ok(met.log)
}

/// Returns the memoized names of a function.
///
/// Fails as `prune_non_escaping_scopes` does.
fn deciding_names(
    alloc: Global,
    func: &ReactiveFunction,
    env: &Environment,
) -> Result<DeclSet, Fault>
    ensures ok { IfOk result (AreMemoized env.now func.now) }
    ensures refused { IfErr result (IsEscapeFault env.now func.now) }
{
    let rows = collect_rows(alloc, func, env)?;
    let set = memoized_rows(alloc, &rows)?;
    Ok(set)
}
