//! Which names are reactive from the start.

use super::rows::{Row, marked};
use super::tables::{Known, PRIMITIVE, REF, environment};
use super::trees::{Part, function, parts};
use rc_flow::collect_reactive_identifiers;
use rc_hir::{Environment, Fault, ParamPattern};
use rc_names::{IdentifierId, KeySet, List};
use rc_tree::{ReactiveFunction, ReactiveStatement};
use std::alloc::Global;
use std::test::Fail;

/// A scope that declares a name, a primitive value, and a ref under the key 5.
const SCOPES: [Known<'static>; 1] = [Known {
    dependencies: &[],
    declarations: &[(2, 2), (PRIMITIVE, PRIMITIVE), (5, REF)],
    reassignments: &[4],
}];

/// Whether the set has these names and no others.
fn has_names(set: &KeySet<IdentifierId>, names: &[u32]) -> bool {
    if set.len() != names.len() {
        return false;
    }
    names
        .iter()
        .all(|name| set.contains(IdentifierId::new(*name)))
}

/// Whether these names of a function are collected, and no others.
pub fn are_collected(
    alloc: Global,
    func: &ReactiveFunction,
    env: &Environment,
    names: &[u32],
) -> Result<bool, Fault> {
    let set = collect_reactive_identifiers(alloc, func, env)?;
    Ok(has_names(&set, names))
}

/// Whether these names are collected from statements.
fn are_collected_in(
    alloc: Global,
    statements: List<ReactiveStatement>,
    names: &[u32],
) -> Result<bool, Fault> {
    let env = environment(alloc, SCOPES.as_slice())?;
    are_collected(alloc, &function(alloc, statements), &env, names)
}

/// Whether these names are collected from parts.
fn are_collected_of(alloc: Global, all: &[Part], names: &[u32]) -> Result<bool, Fault> {
    are_collected_in(alloc, parts(alloc, all)?, names)
}

#[test]
fn marks_and_pruned_scopes_make_names_reactive(rt: HostRuntime) -> Result<(), Fail> {
    let reads: Part = Part::Rows(&[Row::Reads(REF)]);
    let calls: Part = Part::Rows(&[Row::Calls(0)]);
    let loads: Part = Part::Rows(&[Row::Reads(0), Row::Loads(0, 1)]);
    // Parts, and the names that are reactive from the start. The key of a ref follows where the ref was read before.
    let table: [(&[Part], &[u32]); 6] = [
        (&[calls], &[0]),
        (&[loads], &[0]),
        (&[Part::Scope(0)], &[]),
        (&[Part::Pruned(0)], &[2]),
        (&[reads, Part::Pruned(0)], &[2, 5, REF]),
        (&[Part::Pruned(0), reads], &[2, REF]),
    ];
    for (i, (parts, names)) in table.iter().enumerate() {
        assert!(rt;
            are_collected_of(rt.alloc(), parts, names)?,
            "row {i} of the table"
        );
    }
    Ok(())
}

/// Whether no name is collected of a function whose one parameter is marked reactive.
fn skips_parameters(alloc: Global) -> Result<bool, Fault> {
    let env = environment(alloc, SCOPES.as_slice())?;
    let mut func = function(alloc, List::new(alloc));
    func.params.push(ParamPattern::Place(marked(0)))?;
    are_collected(alloc, &func, &env, &[])
}

#[test]
fn a_parameter_is_not_collected(rt: HostRuntime) -> Result<(), Fail> {
    assert!(rt; skips_parameters(rt.alloc())?);
    Ok(())
}
