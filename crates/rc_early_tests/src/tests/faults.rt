//! Why the pass refuses a tree, with the environment as before.

use super::trees::{Numbers, environment, function, numbers, returning};
use rc_early::propagate_early_returns;
use rc_hir::{Environment, Fault, ReactiveScopeEarlyReturn, TableName};
use rc_names::{List, ScopeId};
use std::alloc::Global;
use std::test::Fail;

/// Two scopes without an early return.
const UNSET: [Option<ReactiveScopeEarlyReturn>; 2] = [None, None];

/// Whether scope 0 has an early return.
fn is_set(env: &Environment) -> bool {
    match env.scopes.get(ScopeId::new(0)) {
        Some(scope) => scope.early_return_value.is_some(),
        None => false,
    }
}

/// The fault of the pass, if there is one, on a block of scope 0 and one of another scope with a `Return` each; and the
/// numbers after it, and whether scope 0 has an early return then.
fn refused(
    alloc: Global,
    other: u32,
    next_block: u32,
) -> Result<(Option<Fault>, Numbers, bool), Fault> {
    let mut env = environment(alloc, UNSET.as_slice(), next_block)?;
    let mut body = List::new(alloc);
    body.push(returning(alloc, 0, 1)?)?;
    body.push(returning(alloc, other, 2)?)?;
    let mut func = function(alloc, body);
    let result = propagate_early_returns(alloc, &mut func, &mut env);
    Ok((result.err(), numbers(&env), is_set(&env)))
}

#[test]
fn a_scope_outside_its_table_is_refused(rt: HostRuntime) -> Result<(), Fail> {
    let fault = Fault::BadName {
        table: TableName::Scopes,
        index: 4,
    };
    let expected = (Some(fault), (3, 3, 7), false);
    assert_eq!(rt; refused(rt.alloc(), 4, 7)?, expected);
    Ok(())
}

#[test]
fn a_second_label_without_a_number_is_refused(rt: HostRuntime) -> Result<(), Fail> {
    let expected = (Some(Fault::NoIds), (3, 3, 4_294_967_294), false);
    assert_eq!(rt; refused(rt.alloc(), 1, 4_294_967_294)?, expected);
    Ok(())
}

#[test]
fn the_last_number_is_a_label(rt: HostRuntime) -> Result<(), Fail> {
    let expected = (None, (8, 8, 4_294_967_295), true);
    assert_eq!(rt; refused(rt.alloc(), 0, 4_294_967_294)?, expected);
    Ok(())
}
