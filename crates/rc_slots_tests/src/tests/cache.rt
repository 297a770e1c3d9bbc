//! Renders of a cache.

ghost use Rattle.std.specs.Prelude.{◌≡◌, All, IfOk};
ghost use Rattle.rc_slots.specs.CacheRun.{AllFit, Fits};
ghost use Rattle.rc_slots.specs.Slots.{IsPlan};
ghost use Rattle.rc_slots_tests.specs.Plans as plans;

use rc_names::{List, ScopeId};
use rc_slots::{ScopeAnswer, ScopeSlots, ScopeValues, SlotCache, SlotPlan, render_all};
use std::alloc::{AllocError, Global};
use std::test::Fail;

/// Whether an entry recomputed, and its only output.
type Answer = Option<(bool, u64)>;

/// An entry with a dependency and a declaration, whose slots are the first ones.
fn memoized() -> ScopeSlots
    ensures { result ≡ plans.memoized }
{
    ScopeSlots {
        scope: ScopeId::new(0),
        first: 0,
        dependencies: 1,
        declarations: 1,
        reassignments: 0,
    }
}

/// An entry without slots.
fn slotless() -> ScopeSlots
    ensures { result ≡ plans.slotless }
{
    ScopeSlots {
        scope: ScopeId::new(1),
        first: 0,
        dependencies: 0,
        declarations: 0,
        reassignments: 0,
    }
}

/// The values of an entry with a dependency and a declaration.
fn values(alloc: Global, dependency: u64, output: u64) -> Result<ScopeValues, AllocError>
    ensures { IfOk result (Fits plans.memoized) }
{
    Ok(ScopeValues {
        dependencies: List::from_slice(alloc, &[dependency])?,
        outputs: List::from_slice(alloc, &[output])?,
    })
}

/// The answer of an entry with one output.
fn told(answers: &List<ScopeAnswer>, entry: usize) -> Answer {
    let answer = answers.get(entry)?;
    Some((answer.recomputed, *answer.outputs.get(0)?))
}

/// The plan of one entry.
fn one_entry(alloc: Global) -> Result<SlotPlan, AllocError>
    ensures plan { IfOk result IsPlan }
    ensures scopes { IfOk result (λ plan. plan.scopes ≡ plans.one_entry) }
{
    Ok(SlotPlan {
        scopes: List::from_slice(alloc, &[memoized()])?,
        total: 2,
    })
}

/// What a render gives one entry.
fn given(alloc: Global, values: (u64, u64)) -> Result<List<ScopeValues>, AllocError>
    ensures { IfOk result (AllFit plans.one_entry) }
{
    let mut given = List::new(alloc);
    given.push(self::values(alloc, values.0, values.1)?)?;
    Ok(given)
}

/// Renders one entry.
fn render(cache: &mut SlotCache, alloc: Global, values: (u64, u64)) -> Result<Answer, AllocError>
    requires { cache.old.scopes ≡ plans.one_entry }
    ensures { cache.new.scopes ≡ plans.one_entry }
{
    let given = given(alloc, values)?;
    let answers = cache.render(alloc, &given)?;
    Ok(told(&answers, 0))
}

/// The answers of one entry to three renders.
fn in_turn(
    alloc: Global,
    renders: [(u64, u64); 3],
) -> Result<(Answer, Answer, Answer), AllocError> {
    let mut cache = SlotCache::new(alloc, one_entry(alloc)?)?;
    let first = render(&mut cache, alloc, renders[0])?;
    let second = render(&mut cache, alloc, renders[1])?;
    let third = render(&mut cache, alloc, renders[2])?;
    Ok((first, second, third))
}

/// What three renders give one entry.
fn three_renders(
    alloc: Global,
    renders: [(u64, u64); 3],
) -> Result<List<List<ScopeValues>>, AllocError>
    ensures { IfOk result (All (AllFit plans.one_entry)) }
{
    let mut all = List::new(alloc);
    for values in renders {
        all.push(given(alloc, values)?)?;
    }
    Ok(all)
}

/// The answer of one entry to one of several renders.
fn told_in(renders: &List<List<ScopeAnswer>>, render: usize) -> Answer {
    told(renders.get(render)?, 0)
}

/// The answers of one entry to three renders that are given together.
fn together(
    alloc: Global,
    renders: [(u64, u64); 3],
) -> Result<(Answer, Answer, Answer), AllocError> {
    let renders = three_renders(alloc, renders)?;
    let answers = render_all(alloc, one_entry(alloc)?, &renders)?;
    Ok((
        told_in(&answers, 0),
        told_in(&answers, 1),
        told_in(&answers, 2),
    ))
}

#[test]
fn an_entry_recomputes_where_its_dependency_has_changed(rt: HostRuntime) -> Result<(), Fail> {
    let renders = [(5, 50), (5, 60), (6, 70)];
    let expected = (Some((true, 50)), Some((false, 50)), Some((true, 70)));
    assert_eq!(rt; in_turn(rt.alloc(), renders)?, expected);
    assert_eq!(rt; together(rt.alloc(), renders)?, expected);
    Ok(())
}

#[test]
fn an_entry_recomputes_where_its_dependency_changes_back(rt: HostRuntime) -> Result<(), Fail> {
    let renders = [(5, 50), (6, 60), (5, 70)];
    let expected = (Some((true, 50)), Some((true, 60)), Some((true, 70)));
    assert_eq!(rt; in_turn(rt.alloc(), renders)?, expected);
    assert_eq!(rt; together(rt.alloc(), renders)?, expected);
    Ok(())
}

#[test]
fn no_render_has_no_answer(rt: HostRuntime) -> Result<(), Fail> {
    let renders = List::new(rt.alloc());
    let answers = render_all(rt.alloc(), one_entry(rt.alloc())?, &renders)?;
    assert!(rt; answers.is_empty());
    Ok(())
}

/// The plan of an entry without slots and another one.
fn two_entries(alloc: Global) -> Result<SlotPlan, AllocError>
    ensures plan { IfOk result IsPlan }
    ensures scopes { IfOk result (λ plan. plan.scopes ≡ plans.two_entries) }
{
    Ok(SlotPlan {
        scopes: List::from_slice(alloc, &[slotless(), memoized()])?,
        total: 2,
    })
}

/// What a render gives two entries.
fn given_two(alloc: Global, values: (u64, u64)) -> Result<List<ScopeValues>, AllocError>
    ensures { IfOk result (AllFit plans.two_entries) }
{
    let mut given = List::new(alloc);
    given.push(ScopeValues {
        dependencies: List::new(alloc),
        outputs: List::new(alloc),
    })?;
    given.push(self::values(alloc, values.0, values.1)?)?;
    Ok(given)
}

/// Renders two entries: whether the first one recomputes, and the answer of the second.
fn render_two(
    cache: &mut SlotCache,
    alloc: Global,
    values: (u64, u64),
) -> Result<(bool, Answer), AllocError>
    requires { cache.old.scopes ≡ plans.two_entries }
    ensures { cache.new.scopes ≡ plans.two_entries }
{
    let given = given_two(alloc, values)?;
    let answers = cache.render(alloc, &given)?;
    let recomputed = match answers.get(0) {
        Some(answer) => answer.recomputed,
        None => false,
    };
    Ok((recomputed, told(&answers, 1)))
}

/// The answers of two entries to two renders that give the same dependency.
fn two_in_turn(alloc: Global) -> Result<[(bool, Answer); 2], AllocError> {
    let mut cache = SlotCache::new(alloc, two_entries(alloc)?)?;
    let first = render_two(&mut cache, alloc, (5, 50))?;
    let second = render_two(&mut cache, alloc, (5, 60))?;
    Ok([first, second])
}

#[test]
fn an_entry_without_slots_always_recomputes(rt: HostRuntime) -> Result<(), Fail> {
    let expected = [(true, Some((true, 50))), (true, Some((false, 50)))];
    assert_eq!(rt; two_in_turn(rt.alloc())?, expected);
    Ok(())
}

/// Says `read` before the render and `no memory` where it fails, as the tests that `bench/want-of-memory` runs do.
#[test]
fn a_render_without_memory_leaves_the_cache_as_it_is(rt: HostRuntime) -> Result<(), Fail> {
    let alloc = rt.alloc();
    let mut cache = SlotCache::new(alloc, one_entry(alloc)?)?;
    let first = render(&mut cache, alloc, (5, 50))?;
    assert_eq!(rt; first, Some((true, 50)));
    let changed = given(alloc, (6, 60))?;
    let unchanged = given(alloc, (5, 70))?;
    eprintln!(rt; "read")?;
    if cache.render(alloc, &changed).is_err() {
        eprintln!(rt; "no memory")?;
        if let Ok(answers) = cache.render(alloc, &unchanged) {
            assert_eq!(rt; told(&answers, 0), Some((false, 50)));
        }
    }
    Ok(())
}
