//! The counters, and the facts that the shapes give.

use super::graphs::environment;
use rc_hir::{Environment, Fault, HirType, Shape, ShapeRow};
use rc_names::{BlockId, IdentifierId, List, Table, TypeId};
use std::alloc::Global;
use std::test::Fail;

/// A new identifier after three others, and its type if it is in the table.
fn new_identifier(alloc: Global) -> Result<(IdentifierId, Option<TypeId>), Fault> {
    let mut env = environment(alloc, 3)?;
    let id = env.next_identifier_id(None)?;
    Ok((
        id,
        env.identifiers.get(id).map(|identifier| identifier.type_),
    ))
}

#[test]
fn a_new_identifier_has_a_type_of_its_own(rt: HostRuntime) -> Result<(), Fail> {
    let (id, type_) = new_identifier(rt.alloc())?;
    assert_eq!(rt; id, IdentifierId::new(3));
    assert_eq!(rt; type_, Some(TypeId::new(1)));
    Ok(())
}

/// Two new blocks, where the next number is the last but one, and the counter after them.
fn last_blocks(alloc: Global) -> (Result<BlockId, Fault>, Result<BlockId, Fault>, u32) {
    let mut env = Environment::empty(alloc);
    env.next_block = 4294967294;
    let first = env.next_block_id();
    let second = env.next_block_id();
    (first, second, env.next_block)
}

#[test]
fn the_last_number_is_no_block(rt: HostRuntime) {
    let (first, second, next_block) = last_blocks(rt.alloc());
    assert_eq!(rt; first, Ok(BlockId::new(4294967294)));
    assert_eq!(rt; second, Err(Fault::NoIds));
    assert_eq!(rt; next_block, 4294967295);
}

/// One identifier, and a row of shapes of a hook whose result may be an alias.
fn with_row(alloc: Global) -> Result<Environment, Fault> {
    let row = ShapeRow {
        hook: true,
        no_alias: false,
    };
    let mut env = environment(alloc, 1)?;
    env.shapes = List::from_slice(alloc, &[row])?;
    Ok(env)
}

/// The same environment, where the identifier's type is a function with that row.
fn with_hook(alloc: Global) -> Result<Environment, Fault> {
    let hook = HirType::Function {
        shape: Some(Shape::Row(0)),
    };
    let mut env = with_row(alloc)?;
    env.types = Table::new(alloc);
    env.types.push(hook)?;
    Ok(env)
}

/// Whether an identifier is a hook, and whether its result is no alias.
fn told(env: Environment, id: u32) -> (bool, bool) {
    let id = IdentifierId::new(id);
    (env.is_hook(id), env.has_no_alias_signature(id))
}

#[test]
fn a_row_of_shapes_tells_of_a_function(rt: HostRuntime) -> Result<(), Fail> {
    let alloc = rt.alloc();
    assert!(rt; !told(with_row(alloc)?, 0).0);
    assert_eq!(rt; told(with_hook(alloc)?, 0), (true, false));
    assert!(rt; !told(with_hook(alloc)?, 1).0);
    Ok(())
}
