//! Which pairs are the same.

use super::lists::{Step, fits, one, plain};
use rc_names::ScopeId;
use rc_tree::Fate;
use rc_why::Facts;
use std::alloc::{AllocError, Global};
use std::test::Fail;

/// Whether these paths from one declaration are the same.
fn are_same(alloc: Global, path: &[Step], other: &[Step]) -> Result<bool, AllocError> {
    let own = one(alloc, 4, path)?;
    let parent = one(alloc, 4, other)?;
    Ok(fits(
        Fate::DissolvedInto(ScopeId::new(0)),
        Facts::Dissolved { own, parent },
    ))
}

#[test]
fn paths_are_compared_step_by_step(rt: HostRuntime) -> Result<(), Fail> {
    let a = plain("a");
    let b = plain("b");
    assert!(rt; are_same(rt.alloc(), &[a, b], &[a, b])?);
    assert!(rt; !are_same(rt.alloc(), &[a, b], &[b, a])?);
    assert!(rt; !are_same(rt.alloc(), &[a], &[a, b])?);
    assert!(rt; !are_same(rt.alloc(), &[], &[a])?);
    Ok(())
}

#[test]
fn an_optional_step_is_another_one(rt: HostRuntime) -> Result<(), Fail> {
    let step = plain("a");
    let optional = Step {
        optional: true,
        ..step
    };
    assert!(rt; are_same(rt.alloc(), &[optional], &[optional])?);
    assert!(rt; !are_same(rt.alloc(), &[step], &[optional])?);
    Ok(())
}

#[test]
fn a_number_is_no_text(rt: HostRuntime) -> Result<(), Fail> {
    let text = plain("0");
    let number = Step {
        is_number: true,
        ..text
    };
    assert!(rt; are_same(rt.alloc(), &[number], &[number])?);
    assert!(rt; !are_same(rt.alloc(), &[text], &[number])?);
    Ok(())
}
