//! Numbers inside and outside their tables.

use super::graphs::{
    nested, one_block, one_function, two_returns_in_a_scope, with_an_early_return, with_row,
};
use rc_hir::{Environment, Fault, HirFunction, TableName, check_names};
use rc_names::{CloneIn, DeclarationId, IdentifierId};
use std::alloc::Global;
use std::test::Fail;

/// The fault with which a graph is refused, if it is.
fn fault_of(graph: &HirFunction, env: &Environment) -> Option<Fault> {
    check_names(graph, env).err()
}

/// The fault with which a function that contains itself is refused, if it is.
fn fault_of_itself(alloc: Global) -> Result<Option<Fault>, Fault> {
    let graph = with_row(one_block(alloc, &[])?, nested(0))?;
    let env = one_function(alloc, graph.clone_in(alloc)?)?;
    Ok(fault_of(&graph, &env))
}

#[test]
fn a_function_may_hold_itself(rt: HostRuntime) -> Result<(), Fail> {
    assert_eq!(rt; fault_of_itself(rt.alloc())?, None);
    Ok(())
}

/// The fault with which a graph is refused whose first identifier has that declaration, if it is.
fn fault_of_declaration(alloc: Global, declaration: u32) -> Result<Option<Fault>, Fault> {
    let graph = two_returns_in_a_scope(alloc)?;
    let mut env = with_an_early_return(alloc)?;
    if let Some(first) = env.identifiers.get_mut(IdentifierId::new(0)) {
        first.declaration_id = DeclarationId::new(declaration);
    }
    Ok(fault_of(&graph, &env))
}

#[test]
fn a_declaration_has_the_range_of_identifiers(rt: HostRuntime) -> Result<(), Fail> {
    let alloc = rt.alloc();
    assert_eq!(rt; fault_of_declaration(alloc, 0)?, None);
    let refused = Fault::BadName {
        table: TableName::Declarations,
        index: 9,
    };
    assert_eq!(rt; fault_of_declaration(alloc, 9)?, Some(refused));
    Ok(())
}
