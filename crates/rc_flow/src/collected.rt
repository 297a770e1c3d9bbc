//! The names that are reactive from the start.
//!
//! After oxc's prune_non_reactive_dependencies, whose first part it is.

ghost use Rattle.std.specs.Prelude.{◌≡◌, ◌⊎◌, IfErr, IfOk};
ghost use Rattle.rc_hir.specs.Fault.{IsExpected};
ghost use Rattle.rc_flow.specs.Collected.{AreCollected};
ghost use Rattle.rc_flow.specs.inside.Recording.{walked_steps};
ghost use Rattle.rc_flow.specs.inside.Spread.{spread_over};
ghost use Rattle.rc_flow.specs.inside.Told.{IsTold};
ghost use Rattle.rc_hir.specs.declared.fault.Fault.TheVariants as faults;
ghost use Rattle.rc_tree.specs.TreeNames.{TreeInTables, TreeNamesOutside};

use crate::collect_visitor::CollectVisitor;
use crate::spread::Spread;
use crate::taking::take_told;
use crate::told::Told;
use rc_hir::{Environment, Fault};
use rc_names::{IdentifierId, KeySet, List};
use rc_tree::ReactiveFunction;
use rc_walk::visit_reactive_function;
use std::alloc::Global;

/// The names that are marked reactive where the body reads or writes them, and the keys of the declarations of its
/// pruned scope blocks.
///
/// The key of a primitive value is left out, and that of a ref is collected where the ref was so before.
///
/// `BadName` comes where the operands of a value can't be read, and names the value's function, which is outside its
/// table. `NoMemory` means out of memory, and is the only fault where every number is in its table.
pub fn collect_reactive_identifiers(
    alloc: Global,
    func: &ReactiveFunction,
    env: &Environment,
) -> Result<KeySet<IdentifierId>, Fault>
    ensures ok { IfOk result (λ names. AreCollected env.now func.now.body names) }
    ensures named { IfErr result (λ fault. (fault ≡ faults.NoMemory) ⊎ TreeNamesOutside func.now env.now fault) }
    ensures sound { TreeInTables func.now env.now → IfErr result (λ fault. fault ≡ faults.NoMemory) }
{
    let spread = collected(alloc, func, env)?;
    let Spread { names, ends: _ } = spread;
    Ok(names)
}

/// The set of the collected names, after the whole read walk.
pub(crate) fn collected(
    alloc: Global,
    func: &ReactiveFunction,
    env: &Environment,
) -> Result<Spread, Fault>
    ensures { IsExpected (spread_over func.now.body env.now) result }
{
    let told = recorded(alloc, func, env)?;
    let mut spread = Spread::new(alloc);
    take_told(alloc, env, told.as_slice(), &mut spread)?;
    Ok(spread)
}

/// What the collecting walk tells.
fn recorded(alloc: Global, func: &ReactiveFunction, env: &Environment) -> Result<List<Told>, Fault>
    ensures { IsTold env.now.functions (walked_steps env.now func.now.body) result }
{
    let mut told = List::new(alloc);
    visit_reactive_function(alloc, func, &CollectVisitor { alloc, env }, &mut told)?;
    Ok(told)
}
