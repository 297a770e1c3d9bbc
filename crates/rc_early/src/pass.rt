//! The pass on early returns.
//!
//! After oxc's propagate_early_returns.

ghost use Rattle.std.specs.Prelude.{◌≡◌, ◌⊎◌, ◌↔◌, Err, IsTrue, IfErr, List as Items, OnOk, length};
ghost use Rattle.rc_early.specs.EarlyReturned.{EndsAtFault, HasEarlyReturns};
ghost use Rattle.rc_early.specs.Entries.{has_room};
ghost use Rattle.rc_early.specs.NewBlocks.{HasNewBlocks};
ghost use Rattle.rc_hir.specs.KeptNumbers.{KeepsNumbers};
ghost use Rattle.rc_hir.specs.Model.{HirFunction as Graph};
ghost use Rattle.rc_hir.specs.Names.{NamesInTables};
ghost use Rattle.rc_hir.specs.declared.fault.Fault.TheVariants as faults;
ghost use Rattle.rc_runs.specs.BodyRun.{IsBodyRun};
ghost use Rattle.rc_runs.specs.Event.{End, Event};
ghost use Rattle.rc_tree.specs.ScopesIn.{scopes_in};
ghost use Rattle.rc_tree.specs.TreeNames.{TreeInTables, TreeNamesOutside};

use crate::entries::add_early_returns;
use crate::replacing::replace_returns;
use rc_hir::{Environment, Fault};
use rc_tree::ReactiveFunction;
use std::alloc::Global;

/// Makes each `Return` in a scope block a store to a new variable and a jump to a new label, at which the outermost
/// scope block around it ends. A scope block whose scope has an early return already is passed over with all that it
/// holds.
///
/// The runs of the body are the same, where its numbers are in their tables, and the next block of the environment is
/// above its labels, the targets of its jumps, and the labels of early returns.
///
/// `NoIds` comes where the first `Return` of an outermost scope block finds no room for five identifiers, five types
/// and a block, and `BadName` where the scope of such a block is outside its table. After both the environment is as
/// before. `NoMemory` means out of memory; numbers that were in their tables still are.
pub fn propagate_early_returns(
    alloc: Global,
    func: &mut ReactiveFunction,
    env: &mut Environment,
) -> Result<(), Fault>
    ensures ok { OnOk result (HasEarlyReturns func.old.body env.old func.new.body env.new) }
    ensures header { func.new ≡ record func.old { body = func.new.body } }
    ensures kept_runs { TreeInTables func.old env.old → HasNewBlocks func.old.body env.old
        → OnOk result ((events : Items Event) (end : End) →
        IsBodyRun func.old env.old events end ↔ IsBodyRun func.new env.new events end) }
    ensures kept_scopes { OnOk result (scopes_in func.new.body ≡ scopes_in func.old.body) }
    ensures known { OnOk result (TreeInTables func.old env.old → TreeInTables func.new env.new) }
    ensures known_names { (graph : Graph) → NamesInTables graph env.old → NamesInTables graph env.new }
    ensures kept_numbers { KeepsNumbers env.old env.new }

    ensures refused { IfErr result (λ fault. (fault ≡ faults.NoMemory)
        ⊎ EndsAtFault env.old func.old.body fault) }
    ensures kept_environment { IfErr result (λ fault. (fault ≡ faults.NoMemory) ⊎ (env.new ≡ env.old)) }
    ensures has_ids { IsTrue (has_room env.old (length (scopes_in func.old.body))) → ¬ (result ≡ Err faults.NoIds) }
    ensures named { IfErr result (λ fault. (fault ≡ faults.NoMemory) ⊎ ((fault ≡ faults.NoIds)
        ⊎ TreeNamesOutside func.old env.old fault)) }
    ensures sound { TreeInTables func.old env.old
        → IfErr result (λ fault. (fault ≡ faults.NoMemory) ⊎ (fault ≡ faults.NoIds)) }
{
    let made = replace_returns(alloc, func, env)?;
    if made.is_empty() {
        return Ok(());
    }
    add_early_returns(alloc, env, made.as_slice())
}
