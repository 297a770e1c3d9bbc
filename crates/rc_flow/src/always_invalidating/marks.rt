//! The two sets of names, and what they say of scope blocks.

ghost use Rattle.std.specs.Prelude.{◌≡◌, OnOk};
ghost use Rattle.rc_flow.specs.inside.Marks as spec;

use crate::invalidating_cause::InvalidatingCause;
use crate::value_step::ValueStep;
use rc_hir::{DeclarationEntry, Environment, ReactiveScope};
use rc_names::{IdentifierId, KeySet, List, ScopeId};
use rc_tree::{Fate, ScopeFate};
use std::alloc::{AllocError, Global};

/// The names of values that are new each time, and of those that no scope keeps. For each scope block that has ended,
/// whether it depends on one of the latter; and the scopes of those that do, with their fate, and with the first such
/// dependency.
#[derive(Drop)]
pub struct Marks {
    pub always: KeySet<IdentifierId>,
    pub unmemoized: KeySet<IdentifierId>,
    pub dropped: List<bool>,
    pub decided: List<ScopeFate>,
    pub causes: List<InvalidatingCause>,
}

impl Marks {
    /// No names and no blocks, which takes no memory.
    pub fn new(alloc: Global) -> Marks
        ensures { result ≡ spec.no_marks }
    {
        Marks {
            always: KeySet::new(alloc),
            unmemoized: KeySet::new(alloc),
            dropped: List::new(alloc),
            decided: List::new(alloc),
            causes: List::new(alloc),
        }
    }

    /// Takes all the steps, in order.
    pub fn take(&mut self, env: &Environment, steps: &[ValueStep]) -> Result<(), AllocError>
        ensures { OnOk result (self.new ≡ spec.after_steps env.now steps.now self.old) }
    {
        for step in steps {
            self.take_step(env, *step)?;
        }
        Ok(())
    }

    /// Takes one step.
    fn take_step(&mut self, env: &Environment, step: ValueStep) -> Result<(), AllocError>
        ensures { OnOk result (self.new ≡ spec.after_step env.now step self.old) }
    {
        match step {
            ValueStep::Makes { name, in_scope } => self.make(name, in_scope),
            ValueStep::Copies { from, to } => self.copy(from, to),
            ValueStep::Ends(scope) => self.end(env, scope),
        }
    }

    /// A value is made, in a scope block or outside of all.
    fn make(&mut self, name: IdentifierId, in_scope: bool) -> Result<(), AllocError>
        ensures { OnOk result (self.new ≡ spec.after_making name in_scope self.old) }
    {
        self.always.insert(name)?;
        if !in_scope {
            self.unmemoized.insert(name)?;
        }
        Ok(())
    }

    /// The second name gets the value of the first.
    fn copy(&mut self, from: IdentifierId, to: IdentifierId) -> Result<(), AllocError>
        ensures { OnOk result (self.new ≡ spec.after_copy from to self.old) }
    {
        copy_mark(&mut self.always, from, to)?;
        copy_mark(&mut self.unmemoized, from, to)
    }

    /// The end of a scope block: if it depends on a value that no scope keeps, its own values aren't kept either.
    fn end(&mut self, env: &Environment, scope: ScopeId) -> Result<(), AllocError>
        ensures { OnOk result (self.new ≡ spec.after_end env.now scope self.old) }
    {
        let Some(known) = env.scopes.get(scope) else {
            return self.dropped.push(false);
        };
        let cause = first_dependency(known, &self.unmemoized);
        let dropped = cause.is_some();
        self.dropped.push(dropped)?;
        if let Some(dependency) = cause {
            let fate = Fate::AlwaysInvalidating;
            self.decided.push(ScopeFate { scope, fate })?;
            self.causes.push(InvalidatingCause { scope, dependency })?;
            self.leave_unkept(known)?;
        }
        Ok(())
    }

    /// The outputs of the scope that are new each time are kept by no scope.
    fn leave_unkept(&mut self, scope: &ReactiveScope) -> Result<(), AllocError>
        ensures { OnOk result (self.new ≡ spec.with_unkept scope.now self.old) }
    {
        let always = &self.always;
        add_declared(&mut self.unmemoized, always, scope.declarations.as_slice())?;
        add_reassigned(&mut self.unmemoized, always, scope.reassignments.as_slice())
    }
}

/// The first dependency of the scope that is in the set.
fn first_dependency(scope: &ReactiveScope, set: &KeySet<IdentifierId>) -> Option<IdentifierId>
    ensures { result ≡ spec.first_dependency scope.now set.now }
{
    let dependencies = scope.dependencies.as_slice().iter();
    let mut names = dependencies.map(|dependency| dependency.identifier);
    names.find(|name| set.contains(*name))
}

/// Puts the declared names into the set that are among the others.
fn add_declared(
    set: &mut KeySet<IdentifierId>,
    others: &KeySet<IdentifierId>,
    entries: &[DeclarationEntry],
) -> Result<(), AllocError>
    ensures { OnOk result (set.new ≡ spec.with_declared others.now entries.now set.old) }
{
    for entry in entries {
        add_if_among(set, others, entry.value.identifier)?;
    }
    Ok(())
}

/// Puts the reassigned names into the set that are among the others.
fn add_reassigned(
    set: &mut KeySet<IdentifierId>,
    others: &KeySet<IdentifierId>,
    names: &[IdentifierId],
) -> Result<(), AllocError>
    ensures { OnOk result (set.new ≡ spec.with_reassigned others.now names.now set.old) }
{
    for name in names {
        add_if_among(set, others, *name)?;
    }
    Ok(())
}

/// Where the first name is in the set, so is the second.
fn copy_mark(
    set: &mut KeySet<IdentifierId>,
    from: IdentifierId,
    to: IdentifierId,
) -> Result<(), AllocError>
    ensures { OnOk result (set.new ≡ spec.with_copy from to set.old) }
{
    if set.contains(from) {
        set.insert(to)?;
    }
    Ok(())
}

/// Puts a name into the set, if it is among the others.
fn add_if_among(
    set: &mut KeySet<IdentifierId>,
    others: &KeySet<IdentifierId>,
    name: IdentifierId,
) -> Result<(), AllocError>
    ensures { OnOk result (set.new ≡ spec.with_if_among others.now name set.old) }
{
    if others.contains(name) {
        set.insert(name)?;
    }
    Ok(())
}
