//! One set of names grows over the steps of a walk, and notes its size where a scope block ends.
//!
//! The set keeps names in the order in which they became reactive. So the names that were reactive at a place are the
//! first ones, as many as were noted there.

ghost use Rattle.std.specs.Prelude.{◌≡◌, OnOk};
ghost use Rattle.std.specs.List.{list_any};
ghost use Rattle.rc_names.specs.Numbers.{is_among};
ghost use Rattle.rc_flow.specs.inside.Spread as spec;

use crate::step::Step;
use rc_hir::{Environment, ReactiveScope, ReactiveScopeDependency};
use rc_names::{IdentifierId, KeySet, Keyed, List, ScopeId};
use std::alloc::{AllocError, Global};

/// The names that are reactive so far, and how many there were where a block of a scope first ended.
#[derive(Drop)]
pub struct Spread {
    pub names: KeySet<IdentifierId>,
    pub ends: Keyed<ScopeId, usize>,
}

impl Spread {
    /// No names, which takes no memory.
    pub fn new(alloc: Global) -> Spread
        ensures { result ≡ spec.nothing }
    {
        Spread {
            names: KeySet::new(alloc),
            ends: Keyed::new(alloc),
        }
    }

    /// Takes all the steps, in order.
    pub fn take(&mut self, env: &Environment, steps: &[Step]) -> Result<(), AllocError>
        ensures { OnOk result (self.new ≡ spec.after_steps env.now steps.now self.old) }
    {
        for step in steps {
            self.take_step(env, step)?;
        }
        Ok(())
    }

    /// Takes one step.
    pub fn take_step(&mut self, env: &Environment, step: &Step) -> Result<(), AllocError>
        ensures { OnOk result (self.new ≡ spec.after_step env.now step.now self.old) }
    {
        match step {
            Step::Marks(name) => {
                self.names.insert(*name)?;
                Ok(())
            }
            Step::Carries { from, to } => self.carry(from.as_slice(), to.as_slice()),
            Step::Ends(scope) => self.end(env, *scope),
        }
    }

    /// Where one of the first names is reactive, the others become so.
    fn carry(&mut self, from: &[IdentifierId], to: &[IdentifierId]) -> Result<(), AllocError>
        ensures { OnOk result (self.new ≡ spec.carried from.now to.now self.old) }
    {
        if has_any(&self.names, from) {
            add_all(&mut self.names, to)?;
        }
        Ok(())
    }

    /// A block of the scope ends: where one of its dependencies is reactive, its outputs become so.
    fn end(&mut self, env: &Environment, scope: ScopeId) -> Result<(), AllocError>
        ensures { OnOk result (self.new ≡ spec.after_end env.now scope self.old) }
    {
        self.note_end(scope)?;
        let Some(known) = env.scopes.get(scope) else {
            return Ok(());
        };
        if depends_on(known, &self.names) {
            add_outputs(&mut self.names, known)?;
        }
        Ok(())
    }

    /// Notes how many names there are where a block of the scope first ends.
    fn note_end(&mut self, scope: ScopeId) -> Result<(), AllocError>
        ensures { OnOk result (self.new ≡ spec.noted scope self.old) }
    {
        match self.ends.get(scope) {
            Some(_) => Ok(()),
            None => {
                let size = self.names.len();
                self.ends.insert(scope, size)?;
                Ok(())
            }
        }
    }

    /// Whether a dependency is reactive wherever a block of the scope ends.
    pub fn stays(&self, scope: ScopeId, dependency: &ReactiveScopeDependency) -> bool
        ensures { result ≡ spec.stays self.now scope dependency.now }
    {
        match self.ends.get(scope) {
            Some(size) => match self.names.position(dependency.identifier) {
                Some(place) => place < *size,
                None => false,
            },
            None => true,
        }
    }
}

/// Whether one of the names is in the set.
fn has_any(set: &KeySet<IdentifierId>, names: &[IdentifierId]) -> bool
    ensures { result ≡ list_any (is_among set.now) names.now }
{
    names.iter().any(|name| set.contains(*name))
}

/// Whether a dependency of the scope is in the set.
fn depends_on(scope: &ReactiveScope, set: &KeySet<IdentifierId>) -> bool
    ensures { result ≡ spec.depends_on scope.now set.now }
{
    let mut dependencies = scope.dependencies.as_slice().iter();
    dependencies.any(|dependency| set.contains(dependency.identifier))
}

/// Puts all the names into the set.
fn add_all(set: &mut KeySet<IdentifierId>, names: &[IdentifierId]) -> Result<(), AllocError>
    ensures { OnOk result (set.new ≡ spec.with_all names.now set.old) }
{
    for name in names {
        set.insert(*name)?;
    }
    Ok(())
}

/// Puts the outputs of a scope into the set: what it declares and what it reassigns.
fn add_outputs(set: &mut KeySet<IdentifierId>, scope: &ReactiveScope) -> Result<(), AllocError>
    ensures { OnOk result (set.new ≡ spec.with_outputs scope.now set.old) }
{
    for entry in scope.declarations.as_slice() {
        set.insert(entry.value.identifier)?;
    }
    add_all(set, scope.reassignments.as_slice())
}
