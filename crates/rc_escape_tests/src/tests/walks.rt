//! Which names are memoized.

use super::records::{empty, escape, has_names, put, put_scope};
use rc_escape::{DeclSet, MemoRecord, MemoizationLevel, memoized};
use rc_hir::Fault;
use rc_names::ScopeId;
use std::alloc::{AllocError, Global};
use std::test::Fail;

/// Names 0 and 1 need each other and are conditional; name 0 needs name 2, which is memoized; name 0 escapes.
fn a_cycle(alloc: Global) -> Result<MemoRecord, AllocError> {
    let mut record = empty(alloc);
    put(
        alloc,
        &mut record,
        0,
        MemoizationLevel::Conditional,
        &[1, 2],
        &[],
    )?;
    put(
        alloc,
        &mut record,
        1,
        MemoizationLevel::Conditional,
        &[0],
        &[],
    )?;
    put(alloc, &mut record, 2, MemoizationLevel::Memoized, &[], &[])?;
    escape(&mut record, 0)?;
    Ok(record)
}

#[test]
fn a_name_that_is_not_decided_yet_does_not_count(rt: HostRuntime) -> Result<(), Fail> {
    let alloc = rt.alloc();
    let record = a_cycle(alloc)?;
    assert!(rt; memoizes(alloc, &record, &[0, 2]));
    Ok(())
}

/// Name 0 is memoized, needs name 1 and has scope 5; scope 5 depends on name 2 and on a name without a node.
fn a_scope(alloc: Global) -> Result<MemoRecord, AllocError> {
    let mut record = empty(alloc);
    put(
        alloc,
        &mut record,
        0,
        MemoizationLevel::Memoized,
        &[1],
        &[5],
    )?;
    put(
        alloc,
        &mut record,
        1,
        MemoizationLevel::Unmemoized,
        &[],
        &[],
    )?;
    put(
        alloc,
        &mut record,
        2,
        MemoizationLevel::Unmemoized,
        &[],
        &[5],
    )?;
    put_scope(alloc, &mut record, 5, &[2, 9])?;
    escape(&mut record, 0)?;
    Ok(record)
}

#[test]
fn the_dependencies_of_a_scope_are_forced(rt: HostRuntime) -> Result<(), Fail> {
    let alloc = rt.alloc();
    let record = a_scope(alloc)?;
    assert!(rt; memoizes(alloc, &record, &[0, 2]));
    Ok(())
}

/// Names 0 and 1 have scopes 7 and 4, which have no record; nothing escapes.
fn without_scopes(alloc: Global) -> Result<MemoRecord, AllocError> {
    let mut record = empty(alloc);
    put(alloc, &mut record, 0, MemoizationLevel::Memoized, &[], &[7])?;
    put(alloc, &mut record, 1, MemoizationLevel::Never, &[], &[4])?;
    Ok(record)
}

#[test]
fn the_lowest_scope_without_a_record_is_named(rt: HostRuntime) -> Result<(), Fail> {
    let alloc = rt.alloc();
    let record = without_scopes(alloc)?;
    assert_eq!(rt;
        refusal(alloc, &record),
        Some(Fault::NoScopeNode {
            scope: ScopeId::new(4)
        })
    );
    Ok(())
}

/// The last name of a chain, whose first one is 0.
const LAST: u32 = 99_999;

/// Each name of a chain but the last is conditional and needs the next one; the last is memoized, and name 0 escapes.
fn a_chain(alloc: Global) -> Result<MemoRecord, AllocError> {
    let mut record = empty(alloc);
    for name in 0..LAST {
        put_link(alloc, &mut record, name)?;
    }
    put(
        alloc,
        &mut record,
        LAST,
        MemoizationLevel::Memoized,
        &[],
        &[],
    )?;
    escape(&mut record, 0)?;
    Ok(record)
}

/// Puts a conditional name into the record that needs the next one.
fn put_link(alloc: Global, record: &mut MemoRecord, name: u32) -> Result<(), AllocError> {
    let next = name.saturating_add(1);
    put(
        alloc,
        record,
        name,
        MemoizationLevel::Conditional,
        &[next],
        &[],
    )
}

#[test]
fn each_name_of_a_long_chain_is_memoized(rt: HostRuntime) -> Result<(), Fail> {
    let alloc = rt.alloc();
    let record = a_chain(alloc)?;
    assert_eq!(rt; memoized_count(alloc, &record), Some(100_000));
    Ok(())
}

/// Whether these names are memoized and no others.
fn memoizes(alloc: Global, record: &MemoRecord, names: &[u32]) -> bool {
    match memoized(alloc, record) {
        Ok(set) => has_names(&set, names),
        Err(_) => false,
    }
}

/// The number of names that are memoized, if the record gives no fault.
fn memoized_count(alloc: Global, record: &MemoRecord) -> Option<usize> {
    match memoized(alloc, record) {
        Ok(set) => Some(set.len()),
        Err(_) => None,
    }
}

/// The fault that the record gives.
fn refusal(alloc: Global, record: &MemoRecord) -> Option<Fault> {
    match memoized(alloc, record) {
        Ok(_) => None,
        Err(fault) => Some(fault),
    }
}
