//! What the pass writes: the scopes, the copies that rows make, what was decided, and the facts that are told of it.

ghost use Rattle.std.specs.Prelude.{◌≡◌, slice_set, OnOk};
ghost use Rattle.rc_merge.specs.Places as spec;
ghost use Rattle.rc_merge.specs.inside.ListSteps as steps;
ghost use Rattle.rc_merge.specs.inside.Rows as rows;

use crate::facts::MergedFacts;
use crate::rows::{Copies, note_copy};
use rc_hir::{Environment, MutableRange, ReactiveScope};
use rc_names::{EvaluationOrder, List, ScopeId, Table};
use rc_tree::{Fate, ReactiveInstruction, ScopeFate};
use std::alloc::{AllocError, Global};
use std::mem;

/// What was decided, and the facts of each scope that merged, where they are asked for.
#[derive(Drop)]
pub(crate) struct Log {
    pub fates: List<ScopeFate>,
    pub merged: Option<List<MergedFacts>>,
}

/// What the pass writes.
#[derive(Drop)]
pub(crate) struct Tables {
    pub scopes: Table<ScopeId, ReactiveScope>,
    pub copies: Copies,
    pub log: Log,
}

impl Tables {
    /// Takes a scope out of the table; for a number outside the table, that is an empty scope.
    pub fn take_scope(&mut self, alloc: Global, number: ScopeId) -> ReactiveScope
        ensures taken { result ≡ (spec.scope_at self.old.scopes number).own }
        ensures left { self.new ≡ record self.old {
          scopes = slice_set self.old.scopes number.0 spec.no_scope;
        } }
    {
        match self.scopes.get_mut(number) {
            Some(scope) => mem::replace(scope, no_scope(alloc)),
            None => no_scope(alloc),
        }
    }

    /// Puts a scope in its place.
    pub fn put_scope(&mut self, number: ScopeId, scope: ReactiveScope)
        ensures { self.new ≡ record self.old { scopes = slice_set self.old.scopes number.0 scope } }
    {
        if let Some(place) = self.scopes.get_mut(number) {
            *place = scope;
        }
    }

    /// Notes the copy that a row makes, if it makes one. Fails only when out of memory.
    pub fn note(&mut self, env: &Environment, row: &ReactiveInstruction) -> Result<(), AllocError>
        ensures { OnOk result (self.new ≡ record self.old {
          copies = rows.noted self.old.copies (rows.copy_of_row env.now row.now);
        }) }
    {
        note_copy(env, row, &mut self.copies)
    }

    /// Lists the fate of a scope. Fails only when out of memory.
    pub fn decide(&mut self, scope: ScopeId, fate: Fate) -> Result<(), AllocError>
        ensures { OnOk result (self.new ≡ record self.old {
          log = steps.with_fate (record { scope = scope; fate = fate }) self.old.log;
        }) }
    {
        self.log.fates.push(ScopeFate { scope, fate })
    }

    /// Tells the facts of a scope, where they are asked for. Fails only when out of memory.
    pub fn tell(&mut self, facts: MergedFacts) -> Result<(), AllocError>
        ensures { OnOk result (self.new ≡ record self.old { log = steps.with_facts facts self.old.log }) }
    {
        match &mut self.log.merged {
            Some(merged) => merged.push(facts),
            None => Ok(()),
        }
    }
}

/// Returns the scope that is assumed for a number outside the table. This takes no memory.
pub(crate) fn no_scope(alloc: Global) -> ReactiveScope
    ensures { result ≡ spec.no_scope }
{
    ReactiveScope {
        range: MutableRange {
            start: EvaluationOrder::new(0),
            end: EvaluationOrder::new(0),
        },
        dependencies: List::new(alloc),
        declarations: List::new(alloc),
        reassignments: List::new(alloc),
        early_return_value: None,
        merged: List::new(alloc),
    }
}
