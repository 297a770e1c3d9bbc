//! What the pass has met so far.

ghost use Rattle.std.specs.Prelude.{◌≡◌, Some, slice_get, IfOk, OnOk};
ghost use Rattle.rc_escape.specs.Met as spec;
ghost use Rattle.rc_escape.specs.inside.NotEscapingSteps.{PutsScope};
ghost use Rattle.rc_names.specs.Numbers.{ScopeId as Scope, is_among};

use rc_names::{DeclarationId, KeySet, Keyed, List, ScopeId};
use rc_tree::{Fate, ScopeFate};
use std::alloc::{AllocError, Global};

/// A name with a scope that is stored into a declaration.
#[derive(Clone, Copy)]
pub struct Store {
    pub declaration: DeclarationId,
    pub scope: ScopeId,
}

/// The scopes whose blocks gave way, and the names that were stored.
#[derive(Drop)]
pub struct Met {
    pub dissolved: KeySet<ScopeId>,
    /// The same scopes with their fate, one for each block, in the order in which the blocks ended.
    pub log: List<ScopeFate>,
    /// Each declaration into which a name with a scope was stored, with the scopes of these names.
    pub stored: Keyed<DeclarationId, KeySet<ScopeId>>,
}

impl Met {
    /// Nothing is met yet, which takes no memory.
    pub fn new(alloc: Global) -> Met
        ensures { result ≡ spec.nothing_met }
    {
        Met {
            dissolved: KeySet::new(alloc),
            log: List::new(alloc),
            stored: Keyed::new(alloc),
        }
    }

    /// The block of a scope gives way. Fails only when out of memory.
    pub fn dissolve(&mut self, scope: ScopeId) -> Result<(), AllocError>
        ensures { OnOk result (self.new ≡ spec.with_dissolved scope self.old) }
    {
        self.dissolved.insert(scope)?;
        self.log.push(ScopeFate {
            scope,
            fate: Fate::NotEscaping,
        })
    }

    /// Returns whether the block of a scope gave way.
    pub fn has_dissolved(&self, scope: ScopeId) -> bool
        ensures { result ≡ is_among self.now.dissolved scope }
    {
        self.dissolved.contains(scope)
    }

    /// Returns whether the block of each scope gave way of which a name was stored into the declaration.
    pub fn has_dissolved_stored(&self, declaration: DeclarationId) -> bool
        ensures { result ≡ spec.are_dissolved self.now (spec.stored_into self.now declaration) }
    {
        match self.stored.get(declaration) {
            Some(scopes) => self.has_dissolved_all(scopes),
            None => true,
        }
    }

    /// Returns whether the block of each scope of a set gave way.
    fn has_dissolved_all(&self, scopes: &KeySet<ScopeId>) -> bool
        ensures { result ≡ spec.are_dissolved self.now scopes.now }
    {
        for place in 0..scopes.len() {
            if !self.has_dissolved_at(scopes, place) {
                return false;
            }
        }
        true
    }

    /// Returns whether the block of the scope at a place of a set gave way.
    fn has_dissolved_at(&self, scopes: &KeySet<ScopeId>, place: usize) -> bool
        ensures { (scope : Scope) → slice_get scopes.now place ≡ Some scope → result ≡ is_among self.now.dissolved scope }
    {
        match scopes.at(place) {
            Some(scope) => self.has_dissolved(scope),
            None => true,
        }
    }

    /// A name with a scope is stored into a declaration. Fails only when out of memory.
    #[tactic(auto, using(crate::proofs::StoresLemmas::first_store))]
    pub fn store(&mut self, alloc: Global, store: Store) -> Result<(), AllocError>
        ensures { OnOk result (self.new ≡ spec.with_store_if (Some store) self.old) }
    {
        if put_scope(&mut self.stored, store)? {
            return Ok(());
        }
        let mut scopes = KeySet::new(alloc);
        scopes.insert(store.scope)?;
        self.stored.insert(store.declaration, scopes)?;
        Ok(())
    }
}

/// Puts a scope to those of a declaration, and returns whether it has some. Fails only when out of memory.
fn put_scope(
    stored: &mut Keyed<DeclarationId, KeySet<ScopeId>>,
    store: Store,
) -> Result<bool, AllocError>
    ensures { IfOk result (λ found. PutsScope found store stored.old stored.new) }
{
    match stored.get_mut(store.declaration) {
        Some(scopes) => {
            scopes.insert(store.scope)?;
            Ok(true)
        }
        None => Ok(false),
    }
}
