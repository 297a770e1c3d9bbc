//! What the pass on unused scopes reads of a scope.

ghost use Rattle.std.specs.Prelude.{◌≡◌, IfOk, map};
ghost use Rattle.rc_hir.specs.Model as model;
ghost use Rattle.rc_why.specs.declared.reason.Facts.TheVariants as facts;
ghost use Rattle.rc_why.specs.inside.ToldFacts.{declarers_at};

use crate::reason::Facts;
use rc_hir::{DeclarationEntry, ReactiveScope};
use rc_names::{List, ScopeId, Table};
use std::alloc::{AllocError, Global};

/// The facts of an unused scope: the scope by which each of its values was declared. It reassigns and returns nothing.
/// Fails only when out of memory.
pub(crate) fn unused_facts(
    alloc: Global,
    scopes: &Table<ScopeId, ReactiveScope>,
    scope: ScopeId,
) -> Result<Facts, AllocError>
    ensures { IfOk result (λ it. it ≡ facts.Unused (declarers_at scopes.now scope) 0 0) }
{
    let declared_by = match scopes.get(scope) {
        Some(own) => declarers(alloc, own.declarations.as_slice())?,
        None => List::new(alloc),
    };
    Ok(Facts::Unused {
        declared_by,
        reassignments: 0,
        returns: 0,
    })
}

/// The scope by which each of the values was declared. Fails only when out of memory.
fn declarers(alloc: Global, entries: &[DeclarationEntry]) -> Result<List<ScopeId>, AllocError>
    ensures { IfOk result (λ scopes.
        scopes ≡ map (λ (entry : model.DeclarationEntry). entry.value.scope) entries.now) }
{
    let mut scopes = List::new(alloc);
    for entry in entries {
        scopes.push(entry.value.scope)?;
    }
    Ok(scopes)
}
