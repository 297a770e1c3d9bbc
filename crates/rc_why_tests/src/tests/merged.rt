//! Reasons of merging.

use super::lists::{Step, fits, names, one, plain, uses, whole};
use rc_names::{EvaluationOrder, ScopeId};
use rc_tree::Fate;
use rc_why::{Facts, MergeCondition};
use std::alloc::{AllocError, Global};
use std::test::Fail;

/// What the conditions compare, by numbers: the head's dependencies and outputs, the next scope's dependencies and
/// their sources, and the last uses of names, where the next scope's range ends at 8.
#[derive(Clone, Copy)]
struct Compared<'a> {
    head: &'a [u32],
    outputs: &'a [u32],
    next: &'a [u32],
    sources: &'a [u32],
    last: &'a [u32],
}

/// The dependencies 7 are copies of the output 5. A name is used last before the end, and another one nowhere.
const BY_SOURCES: Compared<'static> = Compared {
    head: &[0, 2],
    outputs: &[5, 6],
    next: &[7, 6, 7],
    sources: &[5, 6, 5],
    last: &[7, 0],
};

/// Whether the next scope merges by a condition.
fn merges(
    alloc: Global,
    condition: MergeCondition,
    compared: Compared,
) -> Result<bool, AllocError> {
    let head = whole(alloc, compared.head)?;
    let outputs = names(alloc, compared.outputs)?;
    let next = whole(alloc, compared.next)?;
    let sources = names(alloc, compared.sources)?;
    let uses = uses(alloc, compared.last)?;
    Ok(fits(
        Fate::MergedInto(ScopeId::new(0)),
        Facts::Merged {
            condition,
            head,
            outputs,
            next,
            sources,
            uses,
            end: EvaluationOrder::new(8),
        },
    ))
}

/// By which of the three conditions the next scope merges.
fn conditions(alloc: Global, compared: Compared) -> Result<(bool, bool, bool), AllocError> {
    Ok((
        merges(alloc, MergeCondition::Same, compared)?,
        merges(alloc, MergeCondition::Outputs, compared)?,
        merges(alloc, MergeCondition::Sources, compared)?,
    ))
}

#[test]
fn the_next_scope_has_the_dependencies_of_the_head(rt: HostRuntime) -> Result<(), Fail> {
    let same = Compared {
        next: &[2, 0],
        sources: &[],
        ..BY_SOURCES
    };
    assert_eq!(rt; conditions(rt.alloc(), same)?, (true, false, false));
    let other = Compared {
        head: &[0, 3],
        ..same
    };
    assert_eq!(rt; conditions(rt.alloc(), other)?, (false, false, false));
    Ok(())
}

#[test]
fn the_next_scope_depends_on_the_outputs_of_the_head(rt: HostRuntime) -> Result<(), Fail> {
    let outputs = Compared {
        next: &[6, 5],
        sources: &[],
        ..BY_SOURCES
    };
    assert_eq!(rt; conditions(rt.alloc(), outputs)?, (false, true, false));
    let more = Compared {
        outputs: &[5, 6, 9],
        ..outputs
    };
    assert_eq!(rt; conditions(rt.alloc(), more)?, (false, false, false));
    let others = Compared {
        next: &[6, 6],
        ..outputs
    };
    assert_eq!(rt; conditions(rt.alloc(), others)?, (false, false, false));
    Ok(())
}

#[test]
fn the_next_scope_depends_on_outputs_and_their_copies(rt: HostRuntime) -> Result<(), Fail> {
    assert_eq!(rt; conditions(rt.alloc(), BY_SOURCES)?, (false, false, true));
    let fewer = Compared {
        sources: &[5, 6],
        ..BY_SOURCES
    };
    assert_eq!(rt; conditions(rt.alloc(), fewer)?, (false, false, false));
    let others = Compared {
        sources: &[5, 6, 0],
        ..BY_SOURCES
    };
    assert_eq!(rt; conditions(rt.alloc(), others)?, (false, false, false));
    let none = Compared {
        next: &[],
        sources: &[],
        ..BY_SOURCES
    };
    assert_eq!(rt; conditions(rt.alloc(), none)?, (false, false, false));
    Ok(())
}

/// Whether a scope with the dependency 5, by a path, merges with a head that declares 5.
fn merges_by(alloc: Global, condition: MergeCondition, path: &[Step]) -> Result<bool, AllocError> {
    let head = whole(alloc, &[0])?;
    let outputs = names(alloc, &[5])?;
    let next = one(alloc, 5, path)?;
    let sources = names(alloc, &[5])?;
    let uses = uses(alloc, &[])?;
    Ok(fits(
        Fate::MergedInto(ScopeId::new(0)),
        Facts::Merged {
            condition,
            head,
            outputs,
            next,
            sources,
            uses,
            end: EvaluationOrder::new(8),
        },
    ))
}

#[test]
fn a_part_of_an_output_is_no_output(rt: HostRuntime) -> Result<(), Fail> {
    let part = plain("a");
    assert!(rt; merges_by(rt.alloc(), MergeCondition::Outputs, &[])?);
    assert!(rt; !merges_by(rt.alloc(), MergeCondition::Outputs, &[part])?);
    assert!(rt; merges_by(rt.alloc(), MergeCondition::Sources, &[])?);
    assert!(rt; !merges_by(rt.alloc(), MergeCondition::Sources, &[part])?);
    Ok(())
}

/// Whether the scope of `BY_SOURCES` merges where names have these last uses.
fn merges_with(alloc: Global, last: &[u32]) -> Result<bool, AllocError> {
    merges(
        alloc,
        MergeCondition::Sources,
        Compared { last, ..BY_SOURCES },
    )
}

#[test]
fn each_name_has_its_last_use_before_the_end(rt: HostRuntime) -> Result<(), Fail> {
    assert!(rt; merges_with(rt.alloc(), &[])?);
    assert!(rt; merges_with(rt.alloc(), &[0, 7])?);
    assert!(rt; !merges_with(rt.alloc(), &[0, 8])?);
    assert!(rt; !merges_with(rt.alloc(), &[9, 0])?);
    Ok(())
}

/// Whether the dependencies 0 and 0 fit a fate of merging or another one.
fn fits_same(alloc: Global, fate: Fate) -> Result<bool, AllocError> {
    let head = whole(alloc, &[0])?;
    let next = whole(alloc, &[0])?;
    Ok(fits(
        fate,
        Facts::Merged {
            condition: MergeCondition::Same,
            head,
            outputs: names(alloc, &[])?,
            next,
            sources: names(alloc, &[])?,
            uses: uses(alloc, &[])?,
            end: EvaluationOrder::new(8),
        },
    ))
}

#[test]
fn facts_of_merging_fit_no_other_fate(rt: HostRuntime) -> Result<(), Fail> {
    assert!(rt; fits_same(rt.alloc(), Fate::MergedInto(ScopeId::new(0)))?);
    assert!(rt; !fits_same(rt.alloc(), Fate::DissolvedInto(ScopeId::new(0)))?);
    assert!(rt; !fits_same(rt.alloc(), Fate::Kept)?);
    Ok(())
}
