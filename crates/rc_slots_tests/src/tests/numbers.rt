//! How many slots a plan may have.

use rc_names::ScopeId;
use rc_slots::{ScopeLengths, SlotFault, number_slots};
use std::alloc::Global;
use std::test::Fail;

/// The most slots that a plan has.
const MOST: usize = 4_294_967_295;

/// A scope block with these lengths.
fn lengths(dependencies: usize, declarations: usize, reassignments: usize) -> ScopeLengths {
    ScopeLengths {
        scope: ScopeId::new(0),
        dependencies,
        declarations,
        reassignments,
    }
}

/// The number of slots.
fn total(alloc: Global, all: &[ScopeLengths]) -> Result<u32, SlotFault> {
    Ok(number_slots(alloc, all)?.total)
}

#[test]
fn the_most_slots_are_numbered(rt: HostRuntime) -> Result<(), Fail> {
    let one = [lengths(1, 1, MOST - 2)];
    assert_eq!(rt; total(rt.alloc(), &one), Ok(4_294_967_295));
    let two = [lengths(MOST - 1, 0, 0), lengths(0, 1, 0), lengths(0, 0, 0)];
    assert_eq!(rt; total(rt.alloc(), &two), Ok(4_294_967_295));
    Ok(())
}

#[test]
fn one_more_slot_is_too_many(rt: HostRuntime) -> Result<(), Fail> {
    let sum = [lengths(1, 1, MOST - 1)];
    assert_eq!(rt; total(rt.alloc(), &sum), Err(SlotFault::TooMany));
    let sums = [lengths(MOST, 0, 0), lengths(0, 0, 1)];
    assert_eq!(rt; total(rt.alloc(), &sums), Err(SlotFault::TooMany));
    let list = [lengths(0, MOST + 1, 0)];
    assert_eq!(rt; total(rt.alloc(), &list), Err(SlotFault::TooMany));
    Ok(())
}
