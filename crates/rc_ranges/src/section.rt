//! Some groups, with a range around theirs.

ghost use Rattle.std.specs.Prelude.{◌≡◌, ◌++◌, IfOk, OnOk};
ghost use Rattle.rc_ranges.specs.inside.Entries as spec;
ghost use Rattle.rc_ranges.specs.inside.Within.{AreWithin, KeepsWithin};

use crate::entry::Entry;
use crate::group::Group;
use crate::range::{hull, hull_of, is_in_range, no_ids};
use rc_hir::MutableRange;
use rc_names::{EvaluationOrder, List};
use std::alloc::{AllocError, Global};
use std::marker::Model;

/// How many entries are in one group, at most.
const GROUP: usize = 64;

/// Some groups and a range that those of their entries are within, which contracts see as the list of all the entries.
#[derive(Drop)]
pub struct Section {
    ids: MutableRange,
    groups: List<Group>,
}

impl Model for Section {
    ghost use Rattle.std.specs.Prelude.{List as Entries};
    ghost use Rattle.rc_ranges.specs.declared.entry.Entry.{Entry as TheEntry};
    ghost use Rattle.rc_ranges.specs.inside.Entries.{joined};
    ghost use Rattle.rc_ranges.specs.inside.Within.{AreWithin};

    ghost Value = { Entries TheEntry };

    ghost view = { λ section. joined section.groups };

    ghost invariant = { λ section. AreWithin section.ids (joined section.groups) };
}

impl Section {
    /// Returns a section of these entries, in groups. Fails only when out of memory.
    pub fn new(alloc: Global, entries: &[Entry]) -> Result<Section, AllocError>
        ensures { IfOk result (λ section. section ≡ entries.now) }
    {
        Ok(Section {
            ids: hull_of(entries),
            groups: groups_of(alloc, entries)?,
        })
    }

    /// Appends the indices of the entries whose range has an id. Fails only when out of memory.
    pub fn put_indices_at(
        &self,
        indices: &mut Vec<usize>,
        id: EvaluationOrder,
    ) -> Result<(), AllocError>
        ensures { OnOk result (indices.new.items ≡ indices.old.items ++ spec.indices_at id self.now) }
    {
        if is_in_range(id, self.ids) {
            put_indices_of(self.groups.as_slice(), indices, id)?;
        }
        Ok(())
    }

    /// Takes those entries out whose range has an id. Fails only when out of memory.
    pub fn remove_at(&mut self, alloc: Global, id: EvaluationOrder) -> Result<(), AllocError>
        ensures { OnOk result (self.new ≡ spec.entries_left id self.old) }
    {
        if is_in_range(id, self.ids) {
            remove_from(&mut self.groups, alloc, id)?;
            self.ids = hull_of_groups(self.groups.as_slice());
        }
        Ok(())
    }
}

/// Returns these entries in groups. Fails only when out of memory.
fn groups_of(alloc: Global, entries: &[Entry]) -> Result<List<Group>, AllocError>
    ensures { IfOk result (λ groups. spec.joined groups ≡ entries.now) }
{
    let mut groups = List::new(alloc);
    for chunk in entries.chunks(GROUP) {
        groups.push(Group::new(alloc, chunk)?)?;
    }
    Ok(groups)
}

/// Appends the indices of the entries of groups whose range has an id. Fails only when out of memory.
fn put_indices_of(
    groups: &[Group],
    indices: &mut Vec<usize>,
    id: EvaluationOrder,
) -> Result<(), AllocError>
    ensures { OnOk result (indices.new.items
        ≡ indices.old.items ++ spec.indices_at id (spec.joined groups.now)) }
{
    for group in groups {
        group.put_indices_at(indices, id)?;
    }
    Ok(())
}

/// Returns a range that the ranges of the entries of groups are within: the hull of all.
fn hull_of_groups(groups: &[Group]) -> MutableRange
    ensures { AreWithin result (spec.joined groups.now) }
{
    let mut ids = no_ids();
    for group in groups {
        ids = hull(ids, group.ids());
    }
    ids
}

/// Takes those entries out of groups whose range has an id. Fails only when out of memory.
fn remove_from(
    groups: &mut List<Group>,
    alloc: Global,
    id: EvaluationOrder,
) -> Result<(), AllocError>
    ensures ok { OnOk result (spec.joined groups.new ≡ spec.entries_left id (spec.joined groups.old)) }
    ensures within { KeepsWithin (spec.joined groups.old) (spec.joined groups.new) }
{
    for i in 0..groups.len() {
        if let Some(group) = groups.get_mut(i) {
            group.remove_at(alloc, id)?;
        }
    }
    Ok(())
}
