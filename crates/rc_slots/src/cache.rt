//! A memo cache in which a scope block recomputes where one of its dependencies has changed.

ghost use Rattle.std.specs.Prelude.{◌≡◌, All, Some, map, length, IfOk, OnOk, OnErr};
ghost use Rattle.std.specs.Cmp.Lexicographic.{pointwise};
ghost use Rattle.rc_slots.specs.CacheRun as spec;
ghost use Rattle.rc_slots.specs.Slots.{IsPlan, size, sizes};
ghost use Rattle.rc_slots.specs.inside.CachedSlots as cached;

use crate::plan::{ScopeSlots, SlotPlan};
use rc_names::List;
use std::alloc::{AllocError, Global};
use std::marker::Model;

/// The values that a render gives a scope block: those of its dependencies; and, as its outputs, those of its
/// declarations and then of its reassignments, should it recompute.
#[derive(Drop)]
pub struct ScopeValues {
    pub dependencies: List<u64>,
    pub outputs: List<u64>,
}

/// Whether a scope block recomputed in a render, and its outputs after it.
#[derive(Drop)]
pub struct ScopeAnswer {
    pub recomputed: bool,
    pub outputs: List<u64>,
}

/// The cache of a plan. Contracts see an item for each entry of the plan: none, or the values given in the entry's last
/// recomputing render.
///
/// The slots of each entry follow those of the entry before it. They are all empty at first, and filled together.
#[derive(Drop)]
pub struct SlotCache {
    plan: SlotPlan,
    slots: Vec<Option<u64>>,
}

impl Model for SlotCache {
    ghost use Rattle.std.specs.Prelude.{◌≡◌, length};
    ghost use Rattle.rc_slots.specs.CacheRun.{CacheItems};
    ghost use Rattle.rc_slots.specs.Slots.{sizes};
    ghost use Rattle.rc_slots.specs.inside.CachedSlots.{items_in};

    ghost Value = { CacheItems };

    ghost view = { λ it. record {
      scopes = it.plan.scopes;
      items = items_in it.plan.scopes it.slots.items;
    } };

    ghost invariant = { λ it. length it.slots.items ≡ sizes it.plan.scopes };
}

impl SlotCache {
    /// Returns the cache of a plan, in which all slots are empty. Fails only when out of memory.
    pub fn new(alloc: Global, plan: SlotPlan) -> Result<SlotCache, AllocError>
        requires { IsPlan plan }
        ensures scopes { IfOk result (λ cache. cache.scopes ≡ plan.scopes) }
        ensures items { IfOk result (λ cache. cache.items ≡ spec.no_items plan.scopes) }
    {
        let slots = vec![in alloc; None; plan.total as usize]?;
        Ok(SlotCache { plan, slots })
    }

    /// Renders once: returns the answer of each entry to its values, in the order of the plan.
    ///
    /// An entry recomputes if it has no slots, hasn't recomputed before, or has a dependency whose value isn't the one
    /// given in its last recomputing render. An entry that recomputes answers the given outputs, and its slots keep the
    /// given values. Any other answers the outputs given in its last recomputing render. Fails only when out of memory,
    /// and then nothing has changed.
    pub fn render(
        &mut self,
        alloc: Global,
        given: &List<ScopeValues>,
    ) -> Result<List<ScopeAnswer>, AllocError>
        requires { spec.AllFit self.old.scopes given.now }
        ensures answers { IfOk result (λ answers. answers ≡ spec.answers self.old.scopes self.old.items given.now) }
        ensures scopes { self.new.scopes ≡ self.old.scopes }
        ensures items { OnOk result (self.new.items ≡ spec.items_after self.old.scopes self.old.items given.now) }
        ensures err { OnErr result (self.new ≡ self.old) }
    {
        let given = given.as_slice();
        let answers = answers(
            alloc,
            self.plan.scopes.as_slice(),
            self.slots.as_slice(),
            given,
        )?;
        keep(self.slots.as_mut_slice(), given, answers.as_slice());
        Ok(answers)
    }
}

/// Renders in turn, beginning with the empty cache of a plan, and returns the answers to each render. Fails only when
/// out of memory.
pub fn render_all(
    alloc: Global,
    plan: SlotPlan,
    renders: &List<List<ScopeValues>>,
) -> Result<List<List<ScopeAnswer>>, AllocError>
    requires plan { IsPlan plan }
    requires fit { All (spec.AllFit plan.scopes) renders.now }
    ensures { IfOk result (λ answers. answers ≡ spec.all_answers plan.scopes (spec.no_items plan.scopes) renders.now) }
{
    let mut cache = SlotCache::new(alloc, plan)?;
    let mut answers = List::new(alloc);
    for given in renders.as_slice() {
        answers.push(cache.render(alloc, given)?)?;
    }
    Ok(answers)
}

/// Returns the answer of each entry to a render, given the slots of all entries. Fails only when out of memory.
fn answers(
    alloc: Global,
    scopes: &[ScopeSlots],
    slots: &[Option<u64>],
    given: &[ScopeValues],
) -> Result<List<ScopeAnswer>, AllocError>
    requires room { length slots.now ≡ sizes scopes.now }
    requires fit { spec.AllFit scopes.now given.now }
    ensures { IfOk result (λ answers. answers ≡
        spec.answers scopes.now (cached.items_in scopes.now slots.now) given.now) }
{
    let mut answers = List::new(alloc);
    let mut rest = slots;
    for (entry, values) in scopes.iter().zip(given) {
        let (kept, later) = rest.split_at(entry.size());
        answers.push(answer(alloc, entry, kept, values)?)?;
        rest = later;
    }
    Ok(answers)
}

/// Returns the answer of an entry to a render, given its slots. Fails only when out of memory.
fn answer(
    alloc: Global,
    entry: &ScopeSlots,
    slots: &[Option<u64>],
    given: &ScopeValues,
) -> Result<ScopeAnswer, AllocError>
    requires room { length slots.now ≡ size entry.now }
    requires fits { spec.Fits entry.now given.now }
    ensures { IfOk result (λ answer. answer ≡
        spec.answer_of entry.now (cached.item_in entry.now.dependencies slots.now) given.now) }
{
    if recomputes(entry, slots, given) {
        return Ok(ScopeAnswer {
            recomputed: true,
            outputs: given.outputs.copy_in(alloc)?,
        });
    }
    let (_, outputs) = slots.split_at(entry.dependencies as usize);
    Ok(ScopeAnswer {
        recomputed: false,
        outputs: values_in(alloc, outputs)?,
    })
}

/// Whether an entry recomputes in a render, given its slots.
fn recomputes(entry: &ScopeSlots, slots: &[Option<u64>], given: &ScopeValues) -> bool
    requires room { length slots.now ≡ size entry.now }
    requires fits { spec.Fits entry.now given.now }
    ensures { result ≡ spec.is_recomputed entry.now (cached.item_in entry.now.dependencies slots.now) given.now }
{
    if !is_filled(slots) {
        return true;
    }
    let (dependencies, _) = slots.split_at(entry.dependencies as usize);
    !have_values(dependencies, given.dependencies.as_slice())
}

impl ScopeSlots {
    /// Returns the number of the scope block's slots.
    fn size(&self) -> usize
        ensures { result ≡ size self.now }
    {
        self.dependencies as usize + self.declarations as usize + self.reassignments as usize
    }
}

/// Whether an entry has slots with values in them. The first slot tells, since an entry's slots are filled together.
fn is_filled(slots: &[Option<u64>]) -> bool
    ensures { result ≡ cached.is_filled slots.now }
{
    matches!(slots.first(), Some(Some(_)))
}

/// Whether each slot holds the value at its place.
fn have_values(slots: &[Option<u64>], values: &[u64]) -> bool
    requires { length slots.now ≡ length values.now }
    ensures { result ≡ pointwise cached.has_value slots.now values.now }
{
    for (slot, value) in slots.iter().zip(values) {
        if *slot != Some(*value) {
            return false;
        }
    }
    true
}

/// Returns the values in slots, without the empty ones. Fails only when out of memory.
fn values_in(alloc: Global, slots: &[Option<u64>]) -> Result<List<u64>, AllocError>
    ensures { IfOk result (λ values. values ≡ cached.values_in slots.now) }
{
    let mut values = List::new(alloc);
    for slot in slots {
        let Some(value) = slot else {
            continue;
        };
        values.push(*value)?;
    }
    Ok(values)
}

/// Puts the given values of each entry that recomputed into its slots.
fn keep(slots: &mut [Option<u64>], given: &[ScopeValues], answers: &[ScopeAnswer])
    requires { length slots.old ≡ cached.slot_counts given.now }
    ensures { slots.new ≡ cached.slots_after given.now answers.now slots.old }
{
    let mut first = 0;
    for (values, answer) in given.iter().zip(answers) {
        let end = first + values.dependencies.len() + values.outputs.len();
        keep_values(&mut slots[first..end], values, answer.recomputed);
        first = end;
    }
}

/// Puts the given values of an entry into its slots, if it recomputed.
fn keep_values(slots: &mut [Option<u64>], given: &ScopeValues, recomputed: bool)
    requires { length slots.old ≡ cached.slot_count given.now }
    ensures { slots.new ≡ cached.kept_slots given.now recomputed slots.old }
{
    if recomputed {
        let (dependencies, outputs) = slots.split_at_mut(given.dependencies.len());
        fill(dependencies, given.dependencies.as_slice());
        fill(outputs, given.outputs.as_slice());
    }
}

/// Puts each value into the slot at its place.
fn fill(slots: &mut [Option<u64>], values: &[u64])
    requires { length slots.old ≡ length values.now }
    ensures { slots.new ≡ map Some values.now }
{
    for (i, value) in values.iter().enumerate() {
        slots[i] = Some(*value);
    }
}
