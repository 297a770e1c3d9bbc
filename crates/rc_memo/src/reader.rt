//! Reading what the places of a row name: their declarations, and the scopes that are active for them.

ghost use Rattle.std.specs.Prelude.{◌≡◌};
ghost use Rattle.rc_hir.specs.Environment as environment;
ghost use Rattle.rc_memo.specs.Mentions as spec;

use crate::event::{Mention, Target};
use crate::table::LevelGiven;
use rc_hir::{Environment, Place};
use rc_names::{DeclarationId, EvaluationOrder, IdentifierId, ScopeId};
use rc_ranges::is_in_range;
use std::alloc::Global;

/// Reads the rows of a tree. Its methods fail only when out of memory.
#[derive(Clone, Copy)]
pub struct RowReader<'a> {
    pub alloc: Global,
    pub env: &'a Environment,
}

impl<'a> RowReader<'a> {
    /// Returns the declaration of an identifier.
    pub fn declaration(&self, number: IdentifierId) -> DeclarationId
        ensures { result ≡ environment.declaration_of self.now.env.now number }
    {
        match self.env.identifiers.get(number) {
            Some(identifier) => identifier.declaration_id,
            None => DeclarationId::new(number.0),
        }
    }

    /// Returns the scope, where its range has the id.
    fn if_active(&self, id: EvaluationOrder, scope: ScopeId) -> Option<ScopeId>
        ensures { result ≡ spec.if_active self.now.env.now id scope }
    {
        match self.env.scopes.get(scope) {
            Some(known) => if is_in_range(id, known.range) {
                Some(scope)
            } else {
                None
            },
            None => None,
        }
    }

    /// Returns the scope of an identifier, where it is active at the id.
    pub fn active_scope(&self, id: EvaluationOrder, number: IdentifierId) -> Option<ScopeId>
        ensures { result ≡ spec.active_scope self.now.env.now id number }
    {
        let identifier = self.env.identifiers.get(number)?;
        let scope = identifier.scope?;
        self.if_active(id, scope)
    }

    /// Returns what a place in a row of that id names.
    #[tactic(auto, unfolding(crate::specs::Mentions::mention_of))]
    fn mention(&self, id: EvaluationOrder, place: Place) -> Mention
        ensures { result ≡ spec.mention_of self.now.env.now id place }
    {
        Mention {
            name: self.declaration(place.identifier),
            scope: self.active_scope(id, place.identifier),
        }
    }

    /// Returns what a place with its level names.
    #[tactic(auto, unfolding(crate::specs::Mentions::target_of))]
    pub fn target(&self, id: EvaluationOrder, given: LevelGiven) -> Target
        ensures { result ≡ spec.target_of self.now.env.now id given }
    {
        Target {
            mention: self.mention(id, given.place),
            level: given.level,
        }
    }
}
