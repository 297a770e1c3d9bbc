//! To which scope block each slot belongs.

use super::trees::{Counts, blocks, environment, function, owner};
use rc_names::ScopeId;
use rc_slots::{ScopeLengths, SlotFault, SlotOwner, SlotPart, number_slots, plan_slots};
use std::alloc::Global;
use std::test::Fail;

/// The owner of a slot of a function with blocks of these scopes, whose lists have these lengths.
fn owner_of(
    alloc: Global,
    scopes: &[Counts],
    body: &[u32],
    slot: u32,
) -> Result<Option<SlotOwner>, SlotFault> {
    let env = environment(alloc, scopes)?;
    let func = function(alloc, blocks(alloc, body)?);
    Ok(plan_slots(alloc, &func, &env)?.owner(slot))
}

#[test]
fn a_declaration_comes_after_the_dependency(rt: HostRuntime) -> Result<(), Fail> {
    let declaration = owner(0, SlotPart::Declaration(0));
    assert_eq!(rt; owner_of(rt.alloc(), &[(1, 1, 0)], &[0], 1)?, declaration);
    assert_eq!(rt; owner_of(rt.alloc(), &[(1, 1, 0)], &[0], 2)?, None);
    Ok(())
}

/// Whether the slot of a block with two entries in each list is that one, after a block with one dependency.
fn is_part(alloc: Global, slot: u32, part: SlotPart) -> Result<bool, SlotFault> {
    let found = owner_of(alloc, &[(2, 2, 2), (1, 0, 0)], &[1, 0], slot)?;
    Ok(found == owner(0, part))
}

#[test]
fn each_part_of_a_block_has_a_slot(rt: HostRuntime) -> Result<(), Fail> {
    assert!(rt; is_part(rt.alloc(), 1, SlotPart::Dependency(0))?);
    assert!(rt; is_part(rt.alloc(), 2, SlotPart::Dependency(1))?);
    assert!(rt; is_part(rt.alloc(), 3, SlotPart::Declaration(0))?);
    assert!(rt; is_part(rt.alloc(), 4, SlotPart::Declaration(1))?);
    assert!(rt; is_part(rt.alloc(), 5, SlotPart::Reassignment(0))?);
    assert!(rt; is_part(rt.alloc(), 6, SlotPart::Reassignment(1))?);
    Ok(())
}

/// The owner of a slot where scopes 0, 2 and 3 have none, and scopes 1 and 4 one each.
fn owner_among_empty(alloc: Global, slot: u32) -> Result<Option<SlotOwner>, SlotFault> {
    let scopes = [
        (0, 0, 0),
        (1, 0, 0),
        (0, 0, 0),
        (0, 0, 0),
        (0, 0, 1),
        (0, 0, 0),
    ];
    owner_of(alloc, &scopes, &[0, 1, 2, 3, 4, 5], slot)
}

#[test]
fn blocks_without_slots_own_none(rt: HostRuntime) -> Result<(), Fail> {
    let first = owner(1, SlotPart::Dependency(0));
    assert_eq!(rt; owner_among_empty(rt.alloc(), 0)?, first);
    let last = owner(4, SlotPart::Reassignment(0));
    assert_eq!(rt; owner_among_empty(rt.alloc(), 1)?, last);
    assert_eq!(rt; owner_among_empty(rt.alloc(), 2)?, None);
    Ok(())
}

#[test]
fn a_function_without_blocks_owns_no_slot(rt: HostRuntime) -> Result<(), Fail> {
    assert_eq!(rt; owner_of(rt.alloc(), &[(1, 0, 0)], &[], 0)?, None);
    Ok(())
}

/// The owner of a slot where scope 0 has that number of dependencies, and scope 1 has one declaration.
fn owner_after(
    alloc: Global,
    dependencies: usize,
    slot: u32,
) -> Result<Option<SlotOwner>, SlotFault> {
    let long = ScopeLengths {
        scope: ScopeId::new(0),
        dependencies,
        declarations: 0,
        reassignments: 0,
    };
    let short = ScopeLengths {
        scope: ScopeId::new(1),
        dependencies: 0,
        declarations: 1,
        reassignments: 0,
    };
    Ok(number_slots(alloc, &[long, short])?.owner(slot))
}

#[test]
fn the_last_slot_has_an_owner(rt: HostRuntime) -> Result<(), Fail> {
    let last = owner(1, SlotPart::Declaration(0));
    assert_eq!(rt;
        owner_after(rt.alloc(), 4_294_967_294, 4_294_967_294)?,
        last
    );
    assert_eq!(rt;
        owner_after(rt.alloc(), 4_294_967_294, 4_294_967_295)?,
        None
    );
    let long = owner(0, SlotPart::Dependency(4_294_967_293));
    assert_eq!(rt;
        owner_after(rt.alloc(), 4_294_967_294, 4_294_967_293)?,
        long
    );
    Ok(())
}
