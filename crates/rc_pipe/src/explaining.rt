//! The passes that tell what they read, where that is asked for.
//!
//! Each call here is a pass with the contract of the pass. Where no explanation is asked for it costs one test more.

ghost use Rattle.std.specs.Prelude.{◌≡◌, ◌⊎◌, [], All, Contains, IfErr, IfOk, OnOk, IsTrue, map};
ghost use Rattle.rc_hir.specs.KeptNumbers.{KeepsNumbers};
ghost use Rattle.rc_hir.specs.Model.{HirFunction as Graph};
ghost use Rattle.rc_hir.specs.Names.{NamesInTables};
ghost use Rattle.rc_hir.specs.declared.fault.Fault.TheVariants as faults;
ghost use Rattle.rc_names.specs.Numbers.{DeclarationId as Declaration, ScopeId as Scope};
ghost use Rattle.rc_tree.specs.ScopesIn.{HasScopesOnce, scopes_in};
ghost use Rattle.rc_tree.specs.TreeNames.{TreeInTables};
ghost use Rattle.rc_runs.specs.Erase.{erased};
ghost use Rattle.rc_escape.specs.NotEscaping.{HasDecidedNotEscaping, IsNeededOutput};
ghost use Rattle.rc_escape.specs.WholeRecord.{IsEscapeFault};
ghost use Rattle.rc_flow.specs.AlwaysInvalidating.{IsInvalidating};
ghost use Rattle.rc_flow.specs.InvalidatingCauses.{IsInvalidatingCause};
ghost use Rattle.rc_merge.specs.Explained.{AreExplained};
ghost use Rattle.rc_merge.specs.Merged.{Merges};
ghost use Rattle.rc_order.specs.Order.{AreInOrder};

use rc_escape::{ExplainedEscape, decide_non_escaping_scopes, explain_non_escaping_scopes};
use rc_flow::{InvalidatingCause, invalidating_causes};
use rc_hir::{Environment, Fault, ReactiveScope};
use rc_merge::{ExplainedMerging, MergedFacts, decide_merged_scopes, explain_merged_scopes};
use rc_names::{DeclarationId, List, ScopeId, Table};
use rc_tree::ReactiveFunction;
use std::alloc::Global;

/// What the passes read where they decided of scopes.
#[derive(Drop)]
pub struct Told {
    /// The names that the pass on escaping scopes found memoized, by rising number, each once.
    pub memoized: List<DeclarationId>,
    /// The scopes of the environment that merging received.
    pub received: Table<ScopeId, ReactiveScope>,
    /// Of each scope that was merged into another, what merging compared.
    pub merged: List<MergedFacts>,
    /// Of each scope that always invalidates, the dependency that makes it do so.
    pub causes: List<InvalidatingCause>,
}

impl Told {
    /// Nothing is told. This takes no memory.
    pub(crate) fn nothing(alloc: Global) -> Told {
        Told {
            memoized: List::new(alloc),
            received: Table::new(alloc),
            merged: List::new(alloc),
            causes: List::new(alloc),
        }
    }
}

/// Prunes the scope blocks that don't escape. Returns what was decided and, if `explain` is set, the memoized names.
pub(crate) fn escape_decisions(
    alloc: Global,
    func: &mut ReactiveFunction,
    env: &Environment,
    explain: bool,
) -> Result<ExplainedEscape, Fault>
    ensures ok { IfOk result (λ it. (is : HasDecidedNotEscaping env.now func.old func.new.body it.log)
        × (IsTrue explain → AreInOrder is.without.set it.memoized)) }
    ensures header { func.new ≡ record func.old { body = func.new.body } }
    ensures needed { OnOk result ((scope : Scope) (name : Declaration) → Contains (scopes_in func.old.body) scope
        → IsNeededOutput env.now func.old scope name → Contains (scopes_in func.new.body) scope) }
    ensures kept_erased { OnOk result (erased func.new ≡ erased func.old) }
    ensures known { OnOk result (TreeInTables func.old env.now → TreeInTables func.new env.now) }
    ensures scopes_once { OnOk result (HasScopesOnce func.old.body → HasScopesOnce func.new.body) }
    ensures refused { IfErr result (IsEscapeFault env.now func.old) }
{
    if explain {
        return explain_non_escaping_scopes(alloc, func, env);
    }
    let log = decide_non_escaping_scopes(alloc, func, env)?;
    Ok(ExplainedEscape {
        log,
        memoized: List::new(alloc),
    })
}

/// Merges scopes that invalidate together. Returns what was decided and, if `explain` is set, what merging received and
/// compared.
pub(crate) fn merging_decisions(
    alloc: Global,
    func: &mut ReactiveFunction,
    env: &mut Environment,
    explain: bool,
) -> Result<ExplainedMerging, Fault>
    ensures ok { HasScopesOnce func.old.body
        → IfOk result (λ it. Merges func.old.body env.old func.new.body env.new it.log) }
    ensures received { IsTrue explain → IfOk result (λ it. it.received ≡ env.old.scopes) }
    ensures told { IsTrue explain → HasScopesOnce func.old.body
        → IfOk result (λ it. AreExplained env.old func.old.body it.log it.merged) }
    ensures header { func.new ≡ record func.old { body = func.new.body } }
    ensures kept_erased { IfOk result (λ it. erased func.new ≡ erased func.old) }
    ensures known { IfOk result (λ it. TreeInTables func.old env.old → TreeInTables func.new env.new) }
    ensures kept_numbers { KeepsNumbers env.old env.new }
    ensures known_names { TreeInTables func.old env.old
        → (graph : Graph) → NamesInTables graph env.old → NamesInTables graph env.new }
    ensures sound { TreeInTables func.old env.old → IfErr result (λ fault. fault ≡ faults.NoMemory) }
{
    if explain {
        return explain_merged_scopes(alloc, func, env);
    }
    let log = decide_merged_scopes(alloc, func, env)?;
    Ok(ExplainedMerging {
        log,
        merged: List::new(alloc),
        received: Table::new(alloc),
    })
}

/// What makes each scope invalidate that always does, if `explain` is set.
pub(crate) fn causes_if_asked(
    alloc: Global,
    func: &ReactiveFunction,
    env: &Environment,
    explain: bool,
) -> Result<List<InvalidatingCause>, Fault>
    ensures told { IsTrue explain → IfOk result (All (IsInvalidatingCause env.now func.now.body)) }
    ensures each { IsTrue explain → IfOk result (λ causes.
        (scope : Scope) → IsInvalidating env.now func.now.body scope
        → Contains (map (λ cause. cause.scope) causes) scope) }
    ensures refused { IfErr result (λ fault. fault ≡ faults.NoMemory) }
{
    if explain {
        return invalidating_causes(alloc, func, env);
    }
    Ok(List::new(alloc))
}
