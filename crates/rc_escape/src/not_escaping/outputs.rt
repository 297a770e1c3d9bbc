//! The outputs of a scope, and whether its block gives way.

ghost use Rattle.std.specs.Prelude.{◌≡◌, ◌++◌, map, IfOk, OnOk};
ghost use Rattle.std.specs.List.{list_any};
ghost use Rattle.rc_escape.specs.Flags as flags;
ghost use Rattle.rc_escape.specs.Outputs as spec;
ghost use Rattle.rc_hir.specs.Model as model;
ghost use Rattle.rc_hir.specs.Environment.{declaration_of};
ghost use Rattle.rc_names.specs.Numbers.{is_among};

use crate::DeclSet;
use rc_hir::{DeclarationEntry, Environment, ReactiveScope};
use rc_names::{DeclarationId, IdentifierId, List, ScopeId};
use std::alloc::{AllocError, Global};

/// Returns the outputs of a scope: the declarations of the names that it declares, and then those of the names that it
/// reassigns, each as often as it is listed. A scope outside the table has none. The only error is out of memory.
pub fn outputs(
    alloc: Global,
    env: &Environment,
    scope: ScopeId,
) -> Result<List<DeclarationId>, AllocError>
    ensures { IfOk result (λ names. names ≡ spec.outputs env.now scope) }
{
    match env.scopes.get(scope) {
        Some(known) => outputs_of(alloc, env, known),
        None => Ok(List::new(alloc)),
    }
}

/// Returns the outputs of a scope of the table. The only error is out of memory.
fn outputs_of(
    alloc: Global,
    env: &Environment,
    scope: &ReactiveScope,
) -> Result<List<DeclarationId>, AllocError>
    ensures { IfOk result (λ names. names ≡ spec.outputs_of env.now scope.now) }
{
    let mut names = List::new(alloc);
    add_declared(&mut names, env, scope.declarations.as_slice())?;
    add_reassigned(&mut names, env, scope.reassignments.as_slice())?;
    Ok(names)
}

/// Adds the declarations of the names that a scope declares. The only error is out of memory.
fn add_declared(
    names: &mut List<DeclarationId>,
    env: &Environment,
    entries: &[DeclarationEntry],
) -> Result<(), AllocError>
    ensures { OnOk result (names.new
        ≡ names.old ++ map (λ entry. declaration_of env.now entry.value.identifier) entries.now) }
{
    for entry in entries {
        names.push(declaration_of(env, entry.value.identifier))?;
    }
    Ok(())
}

/// Adds the declarations of the names that a scope reassigns. The only error is out of memory.
fn add_reassigned(
    names: &mut List<DeclarationId>,
    env: &Environment,
    numbers: &[IdentifierId],
) -> Result<(), AllocError>
    ensures { OnOk result (names.new ≡ names.old ++ map (declaration_of env.now) numbers.now) }
{
    for number in numbers {
        names.push(declaration_of(env, *number))?;
    }
    Ok(())
}

/// Returns the declaration of an identifier.
pub fn declaration_of(env: &Environment, number: IdentifierId) -> DeclarationId
    ensures { result ≡ declaration_of env.now number }
{
    match env.identifiers.get(number) {
        Some(identifier) => identifier.declaration_id,
        None => DeclarationId::new(number.0),
    }
}

/// Returns the scope of an identifier.
pub fn scope_of(env: &Environment, number: IdentifierId) -> Option<ScopeId>
    ensures { result ≡ flags.scope_of env.now number }
{
    let identifier = env.identifiers.get(number)?;
    identifier.scope
}

/// Returns whether a name that the scope declares is memoized.
fn declares_memoized(env: &Environment, set: &DeclSet, scope: &ReactiveScope) -> bool
    ensures { result ≡ list_any (λ entry. is_among set.now (declaration_of env.now entry.value.identifier))
        scope.now.declarations }
{
    let mut declarations = scope.declarations.as_slice().iter();
    declarations.any(|entry| set.contains(declaration_of(env, entry.value.identifier)))
}

/// Returns whether a name that the scope reassigns is memoized.
fn reassigns_memoized(env: &Environment, set: &DeclSet, scope: &ReactiveScope) -> bool
    ensures { result ≡ list_any (λ number. is_among set.now (declaration_of env.now number)) scope.now.reassignments }
{
    let mut reassignments = scope.reassignments.as_slice().iter();
    reassignments.any(|number| set.contains(declaration_of(env, *number)))
}

/// Returns whether an output of the scope is memoized.
fn has_memoized(env: &Environment, set: &DeclSet, scope: &ReactiveScope) -> bool
    ensures { result ≡ list_any (is_among set.now) (spec.outputs_of env.now scope.now) }
{
    declares_memoized(env, set, scope) || reassigns_memoized(env, set, scope)
}

/// Returns whether the scope declares or reassigns a name.
fn has_output(scope: &ReactiveScope) -> bool
    ensures { (env : model.Environment) → result ≡ spec.has_output (spec.outputs_of env scope.now) }
{
    !scope.declarations.is_empty() || !scope.reassignments.is_empty()
}

/// Returns whether the block of the scope gives way.
fn gives_way(env: &Environment, set: &DeclSet, scope: &ReactiveScope) -> bool
    ensures { result ≡ spec.gives_way env.now set.now scope.now }
{
    scope.early_return_value.is_none() && (has_output(scope) && !has_memoized(env, set, scope))
}

/// Returns whether the block of the scope of a number gives way; one outside the table stays.
pub fn is_dissolved(env: &Environment, set: &DeclSet, number: ScopeId) -> bool
    ensures { result ≡ spec.is_dissolved env.now set.now number }
{
    match env.scopes.get(number) {
        Some(scope) => gives_way(env, set, scope),
        None => false,
    }
}
