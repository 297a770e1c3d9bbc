//! The check that the operands of a scope are inside its scope blocks.
//!
//! One pass collects the scopes that have a scope block, and another the last place of each of these scopes in each
//! function's context, by the scope's range. A read walk then looks up the scope of each operand, and whether a block
//! of it is open; of a context it visits the places whose range has the id. Only the last operand outside is kept.

mod contexts;
mod look_ups;
mod open_scopes;
mod visitor;

ghost use Rattle.std.specs.Prelude.{◌≡◌, ◌⊎◌, ℕ, All, IfErr, IfOk, OnOk};
ghost use Rattle.rc_checks.specs.Membership.{IsInside, IsFirstUnknown, IsLastOutside};
ghost use Rattle.rc_tree.specs.ScopesIn as spec;
ghost use Rattle.rc_tree.specs.Visits.{visits_of};
ghost use Rattle.rc_hir.specs.Model.{TableName as Table};
ghost use Rattle.rc_names.specs.Numbers.{EvaluationOrder as Order, ScopeId as Scope, is_among};
ghost use Rattle.rc_tree.specs.TreeNames.{TreeInTables, TreeNamesOutside};

use crate::membership::contexts::contexts_to_visit;
use crate::membership::open_scopes::OpenScopes;
use crate::membership::visitor::{CheckInstructionsAgainstScopesVisitor, Seen};
use crate::scope_blocks::scopes_in;
use rc_hir::{Environment, Fault};
use rc_names::{KeySet, ScopeId};
use rc_tree::{ReactiveBlock, ReactiveFunction};
use rc_walk::visit_reactive_function;
use std::alloc::{AllocError, Global};

/// Checks that each operand whose identifier has a scope, and that is visited inside the scope's range, is in a scope
/// block of it, where the tree has one.
///
/// `ScopeCompleted` names the id and the scope of the last operand of the read walk that isn't. `BadName` names the
/// first number that is looked up in vain: of an operand's identifier, of its scope, or of a function whose context is
/// read. It never comes where every number is in its table. `NoMemory` means out of memory.
pub fn assert_scope_instructions_within_scopes(
    alloc: Global,
    func: &ReactiveFunction,
    env: &Environment,
) -> Result<(), Fault>
    ensures ok { OnOk result
        (All (IsInside env.now (spec.scopes_in func.now.body)) (visits_of env.now.functions func.now.body)) }
    ensures scope_completed { (id : Order) (scope : Scope) → result ≡ Err (Fault.ScopeCompleted id scope) →
        IsLastOutside env.now (spec.scopes_in func.now.body) (visits_of env.now.functions func.now.body) id scope }
    ensures bad_name { (table : Table) (index : ℕ) → result ≡ Err (Fault.BadName table index) →
        IsFirstUnknown env.now (spec.scopes_in func.now.body) (visits_of env.now.functions func.now.body)
        (Fault.BadName table index) }
    ensures named { (table : Table) (index : ℕ) → result ≡ Err (Fault.BadName table index) →
        TreeNamesOutside func.now env.now (Fault.BadName table index) }
    ensures sound { TreeInTables func.now env.now →
        (table : Table) (index : ℕ) → result ≡ Err (Fault.BadName table index) → ⊥ }
    ensures only { IfErr result (λ fault. (fault ≡ Fault.NoMemory)
        ⊎ (((id : Order) × (scope : Scope) × (fault ≡ Fault.ScopeCompleted id scope))
        ⊎ ((table : Table) × (index : ℕ) × (fault ≡ Fault.BadName table index)))) }
{
    let blocks = scope_blocks(alloc, &func.body)?;
    let contexts = contexts_to_visit(alloc, env, &blocks)?;
    let check = CheckInstructionsAgainstScopesVisitor {
        alloc,
        env,
        blocks: &blocks,
        contexts,
    };
    let mut seen = Seen {
        around: OpenScopes::new(alloc),
        outside: None,
    };
    visit_reactive_function(alloc, func, &check, &mut seen)?;
    match seen.outside {
        Some(found) => Err(Fault::ScopeCompleted {
            id: found.id,
            scope: found.scope,
        }),
        None => Ok(()),
    }
}

/// The same of a function whose numbers are in their tables, as they are in each that the builder makes. Where its tree
/// has no scope block, no operand is outside of one, and none is visited.
pub fn assert_known_instructions_within_scopes(
    alloc: Global,
    func: &ReactiveFunction,
    env: &Environment,
) -> Result<(), Fault>
    requires known { TreeInTables func.now env.now }
    ensures ok { OnOk result
        (All (IsInside env.now (spec.scopes_in func.now.body)) (visits_of env.now.functions func.now.body)) }
    ensures scope_completed { (id : Order) (scope : Scope) → result ≡ Err (Fault.ScopeCompleted id scope) →
        IsLastOutside env.now (spec.scopes_in func.now.body) (visits_of env.now.functions func.now.body) id scope }
    ensures only { IfErr result (λ fault. (fault ≡ Fault.NoMemory)
        ⊎ ((id : Order) × (scope : Scope) × (fault ≡ Fault.ScopeCompleted id scope))) }
{
    if scopes_in(alloc, &func.body)?.is_empty() {
        return Ok(());
    }
    assert_scope_instructions_within_scopes(alloc, func, env)
}

/// The scopes that have a scope block in the tree. The only error is out of memory.
fn scope_blocks(alloc: Global, body: &ReactiveBlock) -> Result<KeySet<ScopeId>, AllocError>
    ensures { IfOk result (λ blocks. (scope : Scope)
        → is_among blocks scope ≡ is_among (spec.scopes_in body.now) scope) }
{
    let scopes = scopes_in(alloc, body)?;
    let mut blocks = KeySet::new(alloc);
    for scope in scopes.as_slice() {
        blocks.insert(*scope)?;
    }
    Ok(blocks)
}
