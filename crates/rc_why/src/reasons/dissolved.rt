//! What merging reads of a scope and of the one around it, where it dissolves the scope.

ghost use Rattle.std.specs.Prelude.{◌≡◌, IfOk};
ghost use Rattle.rc_why.specs.declared.reason.Facts.TheVariants as facts;
ghost use Rattle.rc_why.specs.inside.ToldFacts.{told_pairs};

use crate::reason::Facts;
use rc_hir::{Environment, ReactiveScope};
use rc_merge::{DepPair, pairs_of};
use rc_names::{List, ScopeId, Table};
use std::alloc::{AllocError, Global};

/// The facts of a scope that is dissolved: its dependencies, and those of the scope around it. Fails only when out of
/// memory.
pub(crate) fn dissolved_facts(
    alloc: Global,
    env: &Environment,
    scopes: &Table<ScopeId, ReactiveScope>,
    scope: ScopeId,
    parent: ScopeId,
) -> Result<Facts, AllocError>
    ensures { IfOk result (λ it.
        it ≡ facts.Dissolved (told_pairs env.now scopes.now scope) (told_pairs env.now scopes.now parent)) }
{
    let own = pairs_at(alloc, env, scopes, scope)?;
    let parent = pairs_at(alloc, env, scopes, parent)?;
    Ok(Facts::Dissolved { own, parent })
}

/// What a scope of the table depends on. Fails only when out of memory.
fn pairs_at(
    alloc: Global,
    env: &Environment,
    scopes: &Table<ScopeId, ReactiveScope>,
    scope: ScopeId,
) -> Result<List<DepPair>, AllocError>
    ensures { IfOk result (λ pairs. pairs ≡ told_pairs env.now scopes.now scope) }
{
    match scopes.get(scope) {
        Some(own) => pairs_of(alloc, env, own.dependencies.as_slice()),
        None => Ok(List::new(alloc)),
    }
}
