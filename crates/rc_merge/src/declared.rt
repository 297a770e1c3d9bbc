//! A head's declarations, with an index. Unused ones stay in the list until it has doubled, so that dropping one takes
//! amortised constant time.

ghost use Rattle.std.specs.Prelude.{◌≡◌, ◌≤◌, ◌++◌, ◌∷◌, [], length, map, nat_eq, slice_set, None, Some, IfOk, OnOk};
ghost use Rattle.std.specs.List.{cons_option, filter, filter_map, position};
ghost use Rattle.rc_hir.specs.Model.{Environment as Tables};
ghost use Rattle.rc_names.specs.Numbers.{same_id};
ghost use Rattle.rc_merge.specs.Explained as explained;
ghost use Rattle.rc_merge.specs.Inputs as inputs;
ghost use Rattle.rc_merge.specs.Joining as spec;
ghost use Rattle.rc_merge.specs.LastUses.{LastUses};
ghost use Rattle.rc_merge.specs.inside.Declarations.{current_of, entries_of, is_current, keys_in, slot_of, with_place};
ghost use Rattle.rc_merge.specs.inside.Indexed.{IsIndexed, current};
ghost use Rattle.rc_merge.specs.inside.LastUsesMet.{uses_of};
ghost use Rattle.rc_merge.specs.inside.Rows.{copies_of};

use crate::input::declaration_of;
use crate::known::{Known, always_invalidates};
use crate::rows::Copies;
use crate::sorted_inputs::are_declared_inputs;
use rc_hir::{DeclarationEntry, ReactiveScopeDependency};
use rc_names::{DeclarationId, EvaluationOrder, IdentifierId, KeySet, Keyed, List};
use std::alloc::{AllocError, Global};

/// A declaration with the last use of its name.
#[derive(Clone, Copy)]
struct Slot {
    entry: DeclarationEntry,
    last: Option<EvaluationOrder>,
}

impl Slot {
    fn new(known: &Known<'_>, entry: DeclarationEntry) -> Slot
        ensures { result ≡ slot_of known.now.env.now (uses_of known.now.uses.now) entry }
    {
        let name = declaration_of(known.env, entry.value.identifier);
        Slot {
            entry,
            last: known.last_use(name),
        }
    }

    /// Returns whether the last use isn't below an id.
    fn is_current(&self, end: EvaluationOrder) -> bool
        ensures { result ≡ is_current end self.now }
    {
        match self.last {
            Some(last) => last.0 >= end.0,
            None => true,
        }
    }
}

/// The declarations of a head in their order, with the place of each key, and the declared names.
#[derive(Drop)]
pub(crate) struct Declared {
    alloc: Global,
    slots: List<Slot>,
    places: Keyed<IdentifierId, usize>,
    names: KeySet<DeclarationId>,
    /// The slots whose last use is below this id are gone.
    end: EvaluationOrder,
    /// How many slots there were when those that were gone were last taken out.
    kept: usize,
}

impl Declared {
    /// Indexes declarations, in their order. Fails only when out of memory.
    pub fn new(known: &Known<'_>, entries: &[DeclarationEntry]) -> Result<Declared, AllocError>
        ensures current { IfOk result (λ declared. current declared ≡ entries.now) }
        ensures whole { IfOk result (λ declared. declared.end.0 ≡ 0) }
        ensures indexed { IfOk result (IsIndexed known.now.env.now (uses_of known.now.uses.now)) }
    {
        let mut declared = Declared::index(known, entries)?;
        declared.kept = entries.len();
        Ok(declared)
    }

    fn index(known: &Known<'_>, entries: &[DeclarationEntry]) -> Result<Declared, AllocError>
        ensures entries { IfOk result (λ declared. entries_of declared.slots ≡ entries.now) }
        ensures whole { IfOk result (λ declared. declared.end.0 ≡ 0) }
        ensures indexed { IfOk result (IsIndexed known.now.env.now (uses_of known.now.uses.now)) }
    {
        let mut declared = Declared::empty(known.alloc);
        for entry in entries {
            declared = declared.push(known, *entry)?;
        }
        Ok(declared)
    }

    /// Returns no declarations. This takes no memory.
    fn empty(alloc: Global) -> Declared
        ensures slots { result.slots ≡ [] }
        ensures whole { result.end.0 ≡ 0 }
        ensures indexed { (env : Tables) (uses : LastUses) → IsIndexed env uses result }
    {
        Declared {
            alloc,
            slots: List::new(alloc),
            places: Keyed::new(alloc),
            names: KeySet::new(alloc),
            end: EvaluationOrder::new(0),
            kept: 0,
        }
    }

    /// Adds a declaration at the end. Fails only when out of memory.
    fn push(self, known: &Known<'_>, entry: DeclarationEntry) -> Result<Declared, AllocError>
        requires { IsIndexed known.now.env.now (uses_of known.now.uses.now) self }
        ensures current { IfOk result (λ declared. current declared ≡ current_of self.end
            (self.slots ++ slot_of known.now.env.now (uses_of known.now.uses.now) entry ∷ [])) }
        ensures entries { IfOk result (λ declared. entries_of declared.slots ≡ entries_of self.slots ++ entry ∷ []) }
        ensures end { IfOk result (λ declared. declared.end.0 ≡ self.end.0) }
        ensures indexed { IfOk result (IsIndexed known.now.env.now (uses_of known.now.uses.now)) }
    {
        let name = declaration_of(known.env, entry.value.identifier);
        let slot = Slot::new(known, entry);
        let mut declared = self;
        let place = declared.slots.len();
        note_place(&mut declared.places, entry.key, place)?;
        declared.names.insert(name)?;
        declared.slots.push(slot)?;
        Ok(declared)
    }

    /// Adds a declaration under its key: it takes the place of the first one with that key, or goes to the end. Fails
    /// only when out of memory.
    fn put(self, known: &Known<'_>, entry: DeclarationEntry) -> Result<Declared, AllocError>
        requires { IsIndexed known.now.env.now (uses_of known.now.uses.now) self }
        ensures current { IfOk result (λ declared. current declared ≡ spec.put_declaration (current self) entry) }
        ensures indexed { IfOk result (IsIndexed known.now.env.now (uses_of known.now.uses.now)) }
    {
        if self.places.get(entry.key).is_none() && Slot::new(known, entry).is_current(self.end) {
            return self.push(known, entry);
        }
        let declared = self.compact(known)?;
        declared.put_whole(known, entry)
    }

    /// Adds a declaration under its key where no slot is gone. Fails only when out of memory.
    fn put_whole(self, known: &Known<'_>, entry: DeclarationEntry) -> Result<Declared, AllocError>
        requires indexed { IsIndexed known.now.env.now (uses_of known.now.uses.now) self }
        requires whole { self.end.0 ≡ 0 }
        ensures current { IfOk result (λ declared. current declared ≡ spec.put_declaration (current self) entry) }
        ensures indexed { IfOk result (IsIndexed known.now.env.now (uses_of known.now.uses.now)) }
    {
        match self.places.get(entry.key).copied() {
            Some(place) => self.replace(known, place, entry),
            None => self.push(known, entry),
        }
    }

    /// Replaces the declaration with the same key, in a list without dropped slots. Fails only when out of memory.
    fn replace(
        self,
        known: &Known<'_>,
        place: usize,
        entry: DeclarationEntry,
    ) -> Result<Declared, AllocError>
        requires indexed { IsIndexed known.now.env.now (uses_of known.now.uses.now) self }
        requires whole { self.end.0 ≡ 0 }
        requires placed { position (same_id entry.key) (keys_in (entries_of self.slots)) ≡ Some place }
        ensures current { IfOk result (λ declared. current declared ≡ slice_set (entries_of self.slots) place entry) }
        ensures indexed { IfOk result (IsIndexed known.now.env.now (uses_of known.now.uses.now)) }
    {
        let Some(old) = self.slots.get(place).copied() else {
            return Ok(self);
        };
        let name = declaration_of(known.env, old.entry.value.identifier);
        let mut declared = self;
        set_slot(&mut declared.slots, place, Slot::new(known, entry));
        if name == declaration_of(known.env, entry.value.identifier) {
            return Ok(declared);
        }
        let entries = current_entries(known.alloc, declared.end, declared.slots.as_slice())?;
        Declared::new(known, entries.as_slice())
    }

    /// Takes out the slots that are gone. Fails only when out of memory.
    fn compact(self, known: &Known<'_>) -> Result<Declared, AllocError>
        requires { IsIndexed known.now.env.now (uses_of known.now.uses.now) self }
        ensures current { IfOk result (λ declared. current declared ≡ current self) }
        ensures whole { IfOk result (λ declared. declared.end.0 ≡ 0) }
        ensures indexed { IfOk result (IsIndexed known.now.env.now (uses_of known.now.uses.now)) }
    {
        if self.end.0 == 0 {
            return Ok(self);
        }
        let entries = current_entries(known.alloc, self.end, self.slots.as_slice())?;
        Declared::new(known, entries.as_slice())
    }

    /// Adds declarations, each under its key, and drops those whose last use is below an id then. Fails only when out
    /// of memory.
    pub fn grow(
        self,
        known: &Known<'_>,
        end: EvaluationOrder,
        more: &[DeclarationEntry],
    ) -> Result<Declared, AllocError>
        requires { IsIndexed known.now.env.now (uses_of known.now.uses.now) self }
        ensures current { IfOk result (λ declared. current declared ≡ spec.grown_declarations known.now.env.now
            (uses_of known.now.uses.now) end (current self) more.now) }
        ensures indexed { IfOk result (IsIndexed known.now.env.now (uses_of known.now.uses.now)) }
    {
        let mut declared = self;
        for entry in more {
            declared = declared.put(known, *entry)?;
        }
        let raised = declared.raise(known, end)?;
        raised.compact_if_long(known)
    }

    /// Drops the declarations whose last use is below an id. Fails only when out of memory.
    fn raise(self, known: &Known<'_>, end: EvaluationOrder) -> Result<Declared, AllocError>
        requires { IsIndexed known.now.env.now (uses_of known.now.uses.now) self }
        ensures current { IfOk result (λ declared. current declared
            ≡ filter (spec.is_still_used known.now.env.now (uses_of known.now.uses.now) end) (current self)) }
        ensures indexed { IfOk result (IsIndexed known.now.env.now (uses_of known.now.uses.now)) }
    {
        let mut declared = self.compact_if_later(known, end)?;
        declared.end = end;
        Ok(declared)
    }

    /// Removes the dropped slots, if they were dropped by a later id than this one. Fails only when out of memory.
    fn compact_if_later(
        self,
        known: &Known<'_>,
        end: EvaluationOrder,
    ) -> Result<Declared, AllocError>
        requires { IsIndexed known.now.env.now (uses_of known.now.uses.now) self }
        ensures current { IfOk result (λ declared. current declared ≡ current self) }
        ensures below { IfOk result (λ declared. declared.end.0 ≤ end.0) }
        ensures indexed { IfOk result (IsIndexed known.now.env.now (uses_of known.now.uses.now)) }
    {
        if self.end.0 <= end.0 {
            return Ok(self);
        }
        self.compact(known)
    }

    /// Removes the dropped slots once there are more than twice as many slots as after the last removal. Fails only
    /// when out of memory.
    fn compact_if_long(self, known: &Known<'_>) -> Result<Declared, AllocError>
        requires { IsIndexed known.now.env.now (uses_of known.now.uses.now) self }
        ensures current { IfOk result (λ declared. current declared ≡ current self) }
        ensures indexed { IfOk result (IsIndexed known.now.env.now (uses_of known.now.uses.now)) }
    {
        let most = self.kept.saturating_mul(2).saturating_add(8);
        if self.slots.len() <= most {
            return Ok(self);
        }
        self.compact(known)
    }

    /// Returns the declarations that are not gone. Fails only when out of memory.
    pub fn into_entries(self) -> Result<List<DeclarationEntry>, AllocError>
        ensures { IfOk result (λ entries. entries ≡ current self) }
    {
        current_entries(self.alloc, self.end, self.slots.as_slice())
    }

    /// Returns whether a name is declared.
    fn declares(&self, known: &Known<'_>, name: DeclarationId) -> bool
        requires { IsIndexed known.now.env.now (uses_of known.now.uses.now) self.now }
        ensures { result ≡ spec.declares known.now.env.now (current self.now) name }
    {
        self.names.contains(name) && known.is_used_from(self.end, name)
    }

    /// Returns whether the inputs of dependencies are the declared values, each whole. Fails only when out of memory.
    pub fn are_inputs_of(
        &self,
        known: &Known<'_>,
        dependencies: &List<ReactiveScopeDependency>,
    ) -> Result<bool, AllocError>
        ensures { IfOk result (λ same. same ≡ inputs.same_inputs (inputs.as_inputs known.now.env.now (current self.now))
            (inputs.inputs_of known.now.env.now dependencies.now)) }
    {
        if !are_as_many(self.end, self.slots.as_slice(), dependencies.len()) {
            return Ok(false);
        }
        let entries = current_entries(known.alloc, self.end, self.slots.as_slice())?;
        let names = names_of(known, entries.as_slice())?;
        are_declared_inputs(known.alloc, names.as_slice(), dependencies, known.env)
    }

    /// Returns whether there is a dependency, and each is on a whole declared value that is always new, itself or as a
    /// copy.
    pub fn are_sources_of(
        &self,
        known: &Known<'_>,
        copies: &Copies,
        dependencies: &[ReactiveScopeDependency],
    ) -> bool
        requires { IsIndexed known.now.env.now (uses_of known.now.uses.now) self.now }
        ensures { result ≡ spec.are_from known.now.env.now (copies_of copies.now) (current self.now) dependencies.now }
    {
        if dependencies.is_empty() {
            return false;
        }
        for dependency in dependencies {
            if !self.is_source_of(known, copies, dependency) {
                return false;
            }
        }
        true
    }

    fn is_source_of(
        &self,
        known: &Known<'_>,
        copies: &Copies,
        dependency: &ReactiveScopeDependency,
    ) -> bool
        requires { IsIndexed known.now.env.now (uses_of known.now.uses.now) self.now }
        ensures { result ≡ spec.is_from known.now.env.now (copies_of copies.now) (current self.now) dependency.now }
    {
        dependency.path.is_empty()
            && always_invalidates(known.env, dependency.identifier)
            && self.declares_source(
                known,
                copies,
                declaration_of(known.env, dependency.identifier),
            )
    }

    /// Returns whether a name is declared, or copies a declared one.
    fn declares_source(&self, known: &Known<'_>, copies: &Copies, name: DeclarationId) -> bool
        requires { IsIndexed known.now.env.now (uses_of known.now.uses.now) self.now }
        ensures { result ≡ spec.is_there (spec.source_of known.now.env.now (copies_of copies.now)
            (current self.now) name) }
    {
        match self.source_of(known, copies, name) {
            Some(_) => true,
            None => false,
        }
    }

    /// Returns the declared name that a name is or copies, if there is one.
    fn source_of(
        &self,
        known: &Known<'_>,
        copies: &Copies,
        name: DeclarationId,
    ) -> Option<DeclarationId>
        requires { IsIndexed known.now.env.now (uses_of known.now.uses.now) self.now }
        ensures { result ≡ spec.source_of known.now.env.now (copies_of copies.now) (current self.now) name }
    {
        if self.declares(known, name) {
            return Some(name);
        }
        match copies.get(name) {
            Some(source) if self.declares(known, *source) => Some(*source),
            _ => None,
        }
    }

    /// Returns the declared names that the dependencies are or copy. Fails only when out of memory.
    pub fn sources_of(
        &self,
        known: &Known<'_>,
        copies: &Copies,
        dependencies: &[ReactiveScopeDependency],
    ) -> Result<List<DeclarationId>, AllocError>
        requires { IsIndexed known.now.env.now (uses_of known.now.uses.now) self.now }
        ensures { IfOk result (λ sources. sources ≡ filter_map
            (explained.source_by known.now.env.now (copies_of copies.now) (current self.now)) dependencies.now) }
    {
        let mut sources = List::new(known.alloc);
        for dependency in dependencies {
            push_source(self.source_for(known, copies, dependency), &mut sources)?;
        }
        Ok(sources)
    }

    fn source_for(
        &self,
        known: &Known<'_>,
        copies: &Copies,
        dependency: &ReactiveScopeDependency,
    ) -> Option<DeclarationId>
        requires { IsIndexed known.now.env.now (uses_of known.now.uses.now) self.now }
        ensures { result ≡ explained.source_by known.now.env.now (copies_of copies.now) (current self.now)
            dependency.now }
    {
        let name = declaration_of(known.env, dependency.identifier);
        self.source_of(known, copies, name)
    }

    /// Returns the names that are declared. Fails only when out of memory.
    pub fn outputs(&self, known: &Known<'_>) -> Result<List<DeclarationId>, AllocError>
        ensures { IfOk result (λ names. names ≡ map (spec.declared_name known.now.env.now) (current self.now)) }
    {
        let entries = current_entries(known.alloc, self.end, self.slots.as_slice())?;
        names_of(known, entries.as_slice())
    }
}

/// Adds a source, if there is one. Fails only when out of memory.
fn push_source(
    source: Option<DeclarationId>,
    sources: &mut List<DeclarationId>,
) -> Result<(), AllocError>
    ensures { OnOk result (sources.new ≡ sources.old ++ cons_option source []) }
{
    match source {
        Some(source) => sources.push(source),
        None => Ok(()),
    }
}

/// Notes the place of a key that has none. Fails only when out of memory.
fn note_place(
    places: &mut Keyed<IdentifierId, usize>,
    key: IdentifierId,
    place: usize,
) -> Result<(), AllocError>
    ensures { OnOk result (places.new ≡ with_place key place places.old) }
{
    if places.get(key).is_none() {
        places.insert(key, place)?;
    }
    Ok(())
}

/// Puts a slot at a place, and changes nothing past the end.
fn set_slot(slots: &mut List<Slot>, place: usize, slot: Slot)
    ensures { slots.new ≡ slice_set slots.old place slot }
{
    if let Some(old) = slots.get_mut(place) {
        *old = slot;
    }
}

/// Returns the declarations whose last use isn't below an id. Fails only when out of memory.
fn current_entries(
    alloc: Global,
    end: EvaluationOrder,
    slots: &[Slot],
) -> Result<List<DeclarationEntry>, AllocError>
    ensures { IfOk result (λ entries. entries ≡ current_of end slots.now) }
{
    let mut entries = List::new(alloc);
    for slot in slots {
        if slot.is_current(end) {
            entries.push(slot.entry)?;
        }
    }
    Ok(entries)
}

/// Returns whether exactly that number of slots have a last use at `id` or later. It stops at the first slot too many.
fn are_as_many(end: EvaluationOrder, slots: &[Slot], count: usize) -> bool
    ensures { result ≡ nat_eq (length (filter (is_current end) slots.now)) count }
{
    let mut left = count;
    for slot in slots {
        if slot.is_current(end) {
            if left == 0 {
                return false;
            }
            left -= 1;
        }
    }
    left == 0
}

/// Returns the names of declarations. Fails only when out of memory.
fn names_of(
    known: &Known<'_>,
    entries: &[DeclarationEntry],
) -> Result<List<DeclarationId>, AllocError>
    ensures { IfOk result (λ names. names ≡ map (spec.declared_name known.now.env.now) entries.now) }
{
    let mut names = List::with_capacity(known.alloc, entries.len())?;
    for entry in entries {
        names.push(declaration_of(known.env, entry.value.identifier))?;
    }
    Ok(names)
}
