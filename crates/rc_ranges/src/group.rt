//! Some entries, with a range around theirs.

ghost use Rattle.std.specs.Prelude.{◌≡◌, ◌++◌, IfOk, OnOk, OnErr};
ghost use Rattle.std.specs.List.{list_any};
ghost use Rattle.rc_ranges.specs.inside.Entries as spec;
ghost use Rattle.rc_ranges.specs.inside.Within.{AreWithin};

use crate::entry::Entry;
use crate::range::{hull_of, is_in_range};
use rc_hir::MutableRange;
use rc_names::{EvaluationOrder, List};
use std::alloc::{AllocError, Global};
use std::marker::Model;

/// Some entries and a range that theirs are within, which contracts see as the list of the entries.
#[derive(Drop)]
pub struct Group {
    ids: MutableRange,
    entries: List<Entry>,
}

impl Model for Group {
    ghost use Rattle.std.specs.Prelude.{List as Entries};
    ghost use Rattle.rc_ranges.specs.declared.entry.Entry.{Entry as TheEntry};
    ghost use Rattle.rc_ranges.specs.inside.Within.{AreWithin};

    ghost Value = { Entries TheEntry };

    ghost view = { λ group. group.entries };

    ghost invariant = { λ group. AreWithin group.ids group.entries };
}

impl Group {
    /// Returns a group of these entries. Fails only when out of memory.
    pub fn new(alloc: Global, entries: &[Entry]) -> Result<Group, AllocError>
        ensures { IfOk result (λ group. group ≡ entries.now) }
    {
        Ok(Group {
            ids: hull_of(entries),
            entries: List::from_slice(alloc, entries)?,
        })
    }

    /// Returns a range that those of the entries are within.
    pub fn ids(&self) -> MutableRange
        ensures { AreWithin result self.now }
    {
        self.ids
    }

    /// Appends the indices of the entries whose range has an id. Fails only when out of memory.
    pub fn put_indices_at(
        &self,
        indices: &mut Vec<usize>,
        id: EvaluationOrder,
    ) -> Result<(), AllocError>
        ensures { OnOk result (indices.new.items ≡ indices.old.items ++ spec.indices_at id self.now) }
    {
        if is_in_range(id, self.ids) {
            put_indices_of(self.entries.as_slice(), indices, id)?;
        }
        Ok(())
    }

    /// Takes those entries out whose range has an id. Fails only when out of memory, and then nothing has changed.
    pub fn remove_at(&mut self, alloc: Global, id: EvaluationOrder) -> Result<(), AllocError>
        ensures ok { OnOk result (self.new ≡ spec.entries_left id self.old) }
        ensures err { OnErr result (self.new ≡ self.old) }
    {
        if is_in_range(id, self.ids) && has_entry_at(self.entries.as_slice(), id) {
            let left = entries_left(alloc, self.entries.as_slice(), id)?;
            *self = Group::new(alloc, left.as_slice())?;
        }
        Ok(())
    }
}

/// Appends the indices of the entries whose range has an id. Fails only when out of memory.
fn put_indices_of(
    entries: &[Entry],
    indices: &mut Vec<usize>,
    id: EvaluationOrder,
) -> Result<(), AllocError>
    ensures { OnOk result (indices.new.items ≡ indices.old.items ++ spec.indices_at id entries.now) }
{
    for entry in entries {
        if is_in_range(id, entry.range) {
            indices.push(entry.index)?;
        }
    }
    Ok(())
}

/// Returns whether the range of an entry has an id.
fn has_entry_at(entries: &[Entry], id: EvaluationOrder) -> bool
    ensures { result ≡ list_any (spec.entry_has id) entries.now }
{
    entries.iter().any(|entry| is_in_range(id, entry.range))
}

/// Returns the entries whose range lacks an id. Fails only when out of memory.
fn entries_left(
    alloc: Global,
    entries: &[Entry],
    id: EvaluationOrder,
) -> Result<Vec<Entry>, AllocError>
    ensures { IfOk result (λ left. left.items ≡ spec.entries_left id entries.now) }
{
    let mut left = Vec::with_capacity(alloc, entries.len())?;
    for entry in entries {
        if !is_in_range(id, entry.range) {
            left.push(*entry)?;
        }
    }
    Ok(left)
}
