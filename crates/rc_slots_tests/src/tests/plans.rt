//! The plans of functions.

use super::trees::{Counts, blocks, environment, function, pruned_around, scope_around, slots};
use rc_names::List;
use rc_slots::{ScopeSlots, SlotFault, SlotPlan, plan_slots};
use rc_tree::ReactiveStatement;
use std::alloc::{AllocError, Global};
use std::test::Fail;

/// The plan of a function with that body, where the lists of the scopes have these lengths.
fn plan(
    alloc: Global,
    scopes: &[Counts],
    body: List<ReactiveStatement>,
) -> Result<SlotPlan, SlotFault> {
    let env = environment(alloc, scopes)?;
    plan_slots(alloc, &function(alloc, body), &env)
}

/// Whether a plan has these entries and this total.
fn is_plan(plan: &SlotPlan, entries: &[ScopeSlots], total: u32) -> bool {
    plan.scopes.as_slice() == entries && plan.total == total
}

#[test]
fn a_scope_that_another_was_merged_into_has_two_slots(rt: HostRuntime) -> Result<(), Fail> {
    let body = blocks(rt.alloc(), &[0])?;
    let plan = plan(rt.alloc(), &[(1, 1, 0), (1, 1, 0)], body)?;
    assert!(rt; is_plan(&plan, &[slots(0, 0, (1, 1, 0))], 2));
    Ok(())
}

#[test]
fn a_component_has_five_slots(rt: HostRuntime) -> Result<(), Fail> {
    let body = blocks(rt.alloc(), &[0, 1])?;
    let plan = plan(rt.alloc(), &[(1, 2, 0), (1, 1, 0)], body)?;
    let entries = [slots(0, 0, (1, 2, 0)), slots(1, 3, (1, 1, 0))];
    assert!(rt; is_plan(&plan, &entries, 5));
    Ok(())
}

/// A block of scope 1 around one of scope 0, and a pruned block of scope 3 around one of scope 2.
fn nested(alloc: Global) -> Result<List<ReactiveStatement>, AllocError> {
    let mut body = List::new(alloc);
    body.push(scope_around(1, blocks(alloc, &[0])?))?;
    body.push(pruned_around(3, blocks(alloc, &[2])?))?;
    Ok(body)
}

#[test]
fn an_outer_block_comes_before_an_inner_one(rt: HostRuntime) -> Result<(), Fail> {
    let scopes = [(0, 0, 1), (2, 0, 0), (0, 3, 0), (5, 5, 5)];
    let plan = plan(rt.alloc(), &scopes, nested(rt.alloc())?)?;
    let entries = [
        slots(1, 0, (2, 0, 0)),
        slots(0, 2, (0, 0, 1)),
        slots(2, 3, (0, 3, 0)),
    ];
    assert!(rt; is_plan(&plan, &entries, 6));
    Ok(())
}

#[test]
fn two_blocks_of_a_scope_have_slots_each(rt: HostRuntime) -> Result<(), Fail> {
    let body = blocks(rt.alloc(), &[0, 0])?;
    let plan = plan(rt.alloc(), &[(1, 0, 1)], body)?;
    let entries = [slots(0, 0, (1, 0, 1)), slots(0, 2, (1, 0, 1))];
    assert!(rt; is_plan(&plan, &entries, 4));
    Ok(())
}

#[test]
fn a_function_without_scope_blocks_has_no_slots(rt: HostRuntime) -> Result<(), Fail> {
    let body = blocks(rt.alloc(), &[])?;
    let plan = plan(rt.alloc(), &[(1, 1, 1)], body)?;
    assert!(rt; is_plan(&plan, &[], 0));
    Ok(())
}

/// The fault for a function with that body, where the environment has two scopes.
fn fault(alloc: Global, body: List<ReactiveStatement>) -> Option<SlotFault> {
    plan(alloc, &[(1, 1, 0), (1, 1, 0)], body).err()
}

#[test]
fn the_first_scope_outside_the_table_is_named(rt: HostRuntime) -> Result<(), Fail> {
    let body = blocks(rt.alloc(), &[1, 7, 2, 0])?;
    let expected = Some(SlotFault::BadName { index: 7 });
    assert_eq!(rt; fault(rt.alloc(), body), expected);
    Ok(())
}

/// A block of scope 9 around one of scope 8.
fn outside(alloc: Global) -> Result<List<ReactiveStatement>, AllocError> {
    let mut body = List::new(alloc);
    body.push(scope_around(9, blocks(alloc, &[8])?))?;
    Ok(body)
}

#[test]
fn an_outer_block_is_named_before_an_inner_one(rt: HostRuntime) -> Result<(), Fail> {
    let body = outside(rt.alloc())?;
    let expected = Some(SlotFault::BadName { index: 9 });
    assert_eq!(rt; fault(rt.alloc(), body), expected);
    Ok(())
}

/// The fault for a function of two scope blocks, if there is one. There is none where the function lacks memory.
fn starved(alloc: Global) -> Option<SlotFault> {
    let env = environment(alloc, &[(1, 2, 0), (1, 1, 0)]).ok()?;
    let body = blocks(alloc, &[0, 1]).ok()?;
    plan_slots(alloc, &function(alloc, body), &env).err()
}

// This holds for each call for memory that fails: `rt try --test --fail-alloc N`.
#[test]
fn memory_alone_is_missing(rt: HostRuntime) -> Result<(), Fail> {
    if let Some(fault) = starved(rt.alloc()) {
        assert_eq!(rt; fault, SlotFault::NoMemory);
    }
    Ok(())
}

/// That number of empty blocks of scope 0.
fn many_blocks(alloc: Global, count: u32) -> Result<List<ReactiveStatement>, AllocError> {
    let mut body = List::new(alloc);
    for _ in 0..count {
        body.push(scope_around(0, List::new(alloc)))?;
    }
    Ok(body)
}

#[test]
fn a_hundred_thousand_blocks_have_slots(rt: HostRuntime) -> Result<(), Fail> {
    let body = many_blocks(rt.alloc(), 100_000)?;
    let plan = plan(rt.alloc(), &[(1, 1, 0)], body)?;
    assert_eq!(rt; plan.total, 200_000);
    assert_eq!(rt;
        plan.scopes.get(99_999).copied(),
        Some(slots(0, 199_998, (1, 1, 0)))
    );
    Ok(())
}
