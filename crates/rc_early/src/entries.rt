//! The entries of early returns in the environment.

ghost use Rattle.std.specs.Prelude.{◌≡◌, ◌⊎◌, ◌+◌, ◌<◌, ◌^◌, IfErr, IsTrue, OnErr, OnOk, length};
ghost use Rattle.rc_early.specs.Entries as spec;
ghost use Rattle.rc_early.specs.inside.Growing.{AreNumbered, Fits, Grows, HasPlaces};
ghost use Rattle.rc_hir.specs.Environment.{with_identifier};
ghost use Rattle.rc_hir.specs.declared.fault.Fault.TheVariants as faults;

use crate::early_return::EarlyReturn;
use rc_hir::{DeclarationEntry, Environment, Fault, IdentifierName, ReactiveScopeDeclaration};
use rc_names::{Span, Text};
use std::alloc::{AllocError, Global};

/// Adds the entries of early returns, one after the other.
pub(crate) fn add_early_returns(
    alloc: Global,
    env: &mut Environment,
    made: &[EarlyReturn],
) -> Result<(), Fault>
    requires room { Fits env.old (length made.now) }
    requires numbered { AreNumbered env.old made.now }
    ensures ok { OnOk result (env.new ≡ spec.with_early_returns made.now env.old) }
    ensures grows { Grows env.old env.new }
    ensures only { IfErr result (λ fault. fault ≡ faults.NoMemory) }
{
    for early in made {
        add_early_return(alloc, env, early)?;
    }
    Ok(())
}

/// Adds the entries of an early return.
fn add_early_return(alloc: Global, env: &mut Environment, early: &EarlyReturn) -> Result<(), Fault>
    requires room { IsTrue (spec.has_room env.old 1) }
    requires numbered { early.now.entry.value.0 ≡ length env.old.identifiers }
    ensures ok { OnOk result (env.new ≡ spec.with_early_return early.now env.old) }
    ensures grows { Grows env.old env.new }
    ensures only { IfErr result (λ fault. fault ≡ faults.NoMemory) }
{
    let span = early.entry.span;
    add_variable(alloc, env, span)?;
    add_temporaries(env, span)?;
    env.next_block_id()?;
    set_early_return(env, early)?;
    Ok(())
}

/// Adds an identifier with a name that no source has.
fn add_variable(alloc: Global, env: &mut Environment, span: Option<Span>) -> Result<(), Fault>
    requires { HasPlaces env.old 1 }
    ensures ok { OnOk result (env.new ≡ spec.with_variable span env.old) }
    ensures grows { Grows env.old env.new }
    ensures only { IfErr result (λ fault. fault ≡ faults.NoMemory) }
{
    let number = env.identifiers.len();
    let name = Text::from(format!(in alloc; "#t{number}")?);
    let id = env.next_identifier_id(span)?;
    if let Some(identifier) = env.identifiers.get_mut(id) {
        identifier.name = Some(IdentifierName::Promoted(name));
    }
    Ok(())
}

/// Adds four identifiers, for the sentinel, `Symbol`, its `for`, and the argument.
fn add_temporaries(env: &mut Environment, span: Option<Span>) -> Result<(), Fault>
    requires { HasPlaces env.old 4 }
    ensures ok { OnOk result (env.new ≡ spec.with_temporaries span env.old) }
    ensures grows { Grows env.old env.new }
    ensures only { IfErr result (λ fault. fault ≡ faults.NoMemory) }
{
    add_temporary(env, span)?;
    add_temporary(env, span)?;
    add_temporary(env, span)?;
    add_temporary(env, span)
}

/// Adds an identifier without a name.
fn add_temporary(env: &mut Environment, span: Option<Span>) -> Result<(), Fault>
    requires { HasPlaces env.old 1 }
    ensures ok { OnOk result (env.new ≡ with_identifier span env.old) }
    ensures grows { Grows env.old env.new }
    ensures only { IfErr result (λ fault. fault ≡ faults.NoMemory) }
{
    env.next_identifier_id(span)?;
    Ok(())
}

/// Gives the scope the early return, whose variable it declares.
fn set_early_return(env: &mut Environment, early: &EarlyReturn) -> Result<(), AllocError>
    ensures ok { OnOk result (env.new ≡ record env.old { scopes = spec.with_entry early.now env.old.scopes }) }
    ensures err { OnErr result (env.new ≡ env.old) }
{
    let Some(scope) = env.scopes.get_mut(early.scope) else {
        return Ok(());
    };
    scope.declarations.push(DeclarationEntry {
        key: early.entry.value,
        value: ReactiveScopeDeclaration {
            identifier: early.entry.value,
            scope: early.scope,
        },
    })?;
    scope.early_return_value = Some(early.entry);
    Ok(())
}
