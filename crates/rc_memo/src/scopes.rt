//! The scopes that have a record, each with the declarations of its dependencies.

ghost use Rattle.std.specs.Prelude.{◌≡◌, [], ◌∷◌, map, IfOk, OnOk};
ghost use Rattle.rc_memo.specs.Events.{listed};
ghost use Rattle.rc_memo.specs.Record.{dependency_name, dependency_names as names_by};
ghost use Rattle.rc_memo.specs.inside.Growing.{AddsScopes};

use crate::reader::RowReader;
use rc_hir::ReactiveScopeDependency;
use rc_names::{DeclarationId, Keyed, List, ScopeId};
use std::alloc::AllocError;

/// The scopes that have a record, each with the declarations of its dependencies.
type Scopes = Keyed<ScopeId, List<DeclarationId>>;

/// These methods fail only when out of memory.
impl<'a> RowReader<'a> {
    /// Returns the declarations of dependencies.
    fn dependency_names(
        &self,
        dependencies: &List<ReactiveScopeDependency>,
    ) -> Result<List<DeclarationId>, AllocError>
        ensures { IfOk result (λ names. names ≡ map (dependency_name self.now.env.now) dependencies.now) }
    {
        let mut names = List::new(self.alloc);
        for dependency in dependencies.as_slice() {
            names.push(self.declaration(dependency.identifier))?;
        }
        Ok(names)
    }

    /// Returns the declarations of a scope's dependencies.
    fn dependencies_of(&self, scope: ScopeId) -> Result<List<DeclarationId>, AllocError>
        ensures { IfOk result (λ names. names ≡ names_by self.now.env.now scope) }
    {
        match self.env.scopes.get(scope) {
            Some(known) => self.dependency_names(&known.dependencies),
            None => Ok(List::new(self.alloc)),
        }
    }

    /// Records a scope, where it has no record yet.
    #[tactic(auto, using(crate::proofs::GrowingLemmas::adds_known_scope, crate::proofs::GrowingLemmas::adds_new_scope))]
    pub fn record_scope(&self, scopes: &mut Scopes, scope: ScopeId) -> Result<(), AllocError>
        ensures { OnOk result (AddsScopes self.now.env.now (scope ∷ []) scopes.old scopes.new) }
    {
        match scopes.get(scope) {
            Some(_) => {}
            None => {
                let names = self.dependencies_of(scope)?;
                scopes.insert(scope, names)?;
            }
        }
        Ok(())
    }

    /// Records the scope of a mention, where one is active.
    #[tactic(auto, using(crate::proofs::GrowingLemmas::adds_no_scopes))]
    pub fn record_active(
        &self,
        scopes: &mut Scopes,
        scope: Option<ScopeId>,
    ) -> Result<(), AllocError>
        ensures { OnOk result (AddsScopes self.now.env.now (listed scope) scopes.old scopes.new) }
    {
        match scope {
            Some(scope) => self.record_scope(scopes, scope),
            None => Ok(()),
        }
    }
}
