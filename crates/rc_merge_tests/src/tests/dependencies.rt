//! Which lists of dependencies are equal. A list is written in a short form: a letter for each name, and a quote after
//! it for the property `a` of its value.

use rc_hir::{DependencyPathEntry, Environment, Fault, PropertyLiteral, ReactiveScopeDependency};
use rc_merge::are_equal_dependencies;
use rc_names::{IdentifierId, List, Text};
use std::alloc::{AllocError, Global};
use std::test::Fail;

/// The dependency on a name, or on the property `a` of its value.
fn dependency(
    alloc: Global,
    name: u8,
    has_path: bool,
) -> Result<ReactiveScopeDependency, AllocError> {
    let mut path = List::new(alloc);
    if has_path {
        path.push(DependencyPathEntry {
            property: PropertyLiteral::String(Text::from_str(alloc, "a")?),
            optional: false,
        })?;
    }
    Ok(ReactiveScopeDependency {
        identifier: IdentifierId::new(u32::from(name)),
        reactive: true,
        path,
        span: None,
    })
}

/// The dependencies of a text.
fn dependencies(alloc: Global, text: &str) -> Result<List<ReactiveScopeDependency>, AllocError> {
    let names = text.as_bytes();
    let mut all = List::new(alloc);
    for i in 0..names.len() {
        if names[i] != b'\'' {
            let has_path = names.get(i + 1) == Some(&b'\'');
            all.push(dependency(alloc, names[i], has_path)?)?;
        }
    }
    Ok(all)
}

/// Whether two lists of dependencies are equal, one way and the other.
fn are_equal(alloc: Global, a: &str, b: &str) -> Result<(bool, bool), Fault> {
    let env = Environment::empty(alloc);
    let a = dependencies(alloc, a)?;
    let b = dependencies(alloc, b)?;
    Ok((
        are_equal_dependencies(&a, &b, &env),
        are_equal_dependencies(&b, &a, &env),
    ))
}

#[test]
fn a_dependency_that_is_there_twice_is_not_two(rt: HostRuntime) -> Result<(), Fail> {
    assert_eq!(rt; are_equal(rt.alloc(), "xx", "xy")?, (false, false));
    Ok(())
}

#[test]
fn the_order_of_dependencies_is_free(rt: HostRuntime) -> Result<(), Fail> {
    assert_eq!(rt; are_equal(rt.alloc(), "xy'z", "zxy'")?, (true, true));
    Ok(())
}

#[test]
fn a_part_of_a_value_is_not_the_value(rt: HostRuntime) -> Result<(), Fail> {
    assert_eq!(rt; are_equal(rt.alloc(), "x", "x'")?, (false, false));
    Ok(())
}

#[test]
fn lists_of_other_lengths_differ(rt: HostRuntime) -> Result<(), Fail> {
    assert_eq!(rt; are_equal(rt.alloc(), "x", "xx")?, (false, false));
    Ok(())
}
