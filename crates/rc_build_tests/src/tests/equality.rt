//! A tree equals its copy alone.

use super::tree::{CHANGES, Change, tree};
use rc_equality::Equals;
use std::alloc::{AllocError, Global};
use std::test::Fail;

/// Whether the tree with that change equals the one without.
fn is_equal(alloc: Global, change: Change) -> Result<bool, AllocError> {
    let changed = tree(alloc, change)?;
    Ok(changed.equals(&tree(alloc, Change::Nothing)?))
}

/// Whether it is so the other way round.
fn is_equal_back(alloc: Global, change: Change) -> Result<bool, AllocError> {
    let changed = tree(alloc, change)?;
    Ok(tree(alloc, Change::Nothing)?.equals(&changed))
}

#[test]
fn a_tree_with_another_part_is_another_tree(rt: HostRuntime) -> Result<(), Fail> {
    let alloc = rt.alloc();
    assert!(rt; is_equal(alloc, Change::Nothing)?);
    for change in CHANGES {
        assert!(rt; !is_equal(alloc, change)?, "{change:?}");
        assert!(rt; !is_equal_back(alloc, change)?, "{change:?}");
    }
    Ok(())
}
