//! Places that are found by an id in their range.

ghost use Rattle.std.specs.Prelude.{◌≡◌, map, IfOk, OnOk};
ghost use Rattle.rc_ranges.specs.Ranges as spec;
ghost use Rattle.rc_ranges.specs.inside.Entries as inside;

use crate::RangedPlace;
use crate::entry::Entry;
use crate::section::Section;
use rc_hir::Place;
use rc_names::{EvaluationOrder, List};
use std::alloc::{AllocError, Global};
use std::marker::Model;

/// How many entries are in one section, at most: 64 groups of 64.
const SECTION: usize = 4096;

/// Places with their ranges, which contracts see as the list of those that are left, in the order in which they were
/// given.
#[derive(Drop)]
pub struct PlacesByRange {
    places: List<Place>,
    sections: List<Section>,
}

impl Model for PlacesByRange {
    ghost use Rattle.std.specs.Prelude.{List as Places};
    ghost use Rattle.rc_ranges.specs.declared.ranged_place.RangedPlace.{RangedPlace as TheRangedPlace};
    ghost use Rattle.rc_ranges.specs.inside.Entries.{joined, places_left};

    ghost Value = { Places TheRangedPlace };

    ghost view = { λ it. places_left it.places (joined it.sections) };
}

impl PlacesByRange {
    /// Returns these places. Fails only when out of memory.
    pub fn new(alloc: Global, places: &[RangedPlace]) -> Result<PlacesByRange, AllocError>
        ensures { IfOk result (λ index. index ≡ places.now) }
    {
        let mut entries = entries_of(alloc, places)?;
        entries.sort_unstable_by_key(|entry| entry.range.start.0);
        Ok(PlacesByRange {
            places: places_of(alloc, places)?,
            sections: sections_of(alloc, entries.as_slice())?,
        })
    }

    /// Returns the places whose range has an id, in their order. Fails only when out of memory, and takes none where
    /// there is no such place.
    pub fn at(&self, alloc: Global, id: EvaluationOrder) -> Result<List<Place>, AllocError>
        ensures { IfOk result (λ found. found ≡ spec.places_at id self.now) }
    {
        let mut indices = indices_at(alloc, self.sections.as_slice(), id)?;
        indices.sort_unstable();
        places_with(alloc, &self.places, indices.as_slice())
    }

    /// Takes those places out whose range has an id. Fails only when out of memory, and then some of them may be left.
    pub fn remove_at(&mut self, alloc: Global, id: EvaluationOrder) -> Result<(), AllocError>
        ensures { OnOk result (self.new ≡ spec.ranged_left id self.old) }
    {
        remove_from(&mut self.sections, alloc, id)
    }
}

/// Returns the entries of places, in their order. Fails only when out of memory.
fn entries_of(alloc: Global, places: &[RangedPlace]) -> Result<Vec<Entry>, AllocError>
    ensures { IfOk result (λ entries. entries.items ≡ inside.entries_since 0 places.now) }
{
    let mut entries = Vec::with_capacity(alloc, places.len())?;
    for (index, ranged) in places.iter().enumerate() {
        entries.push(Entry {
            range: ranged.range,
            index,
        })?;
    }
    Ok(entries)
}

/// Returns places without their ranges. Fails only when out of memory.
fn places_of(alloc: Global, places: &[RangedPlace]) -> Result<List<Place>, AllocError>
    ensures { IfOk result (λ list. list ≡ map (λ ranged. ranged.place) places.now) }
{
    let mut list = List::with_capacity(alloc, places.len())?;
    for ranged in places {
        list.push(ranged.place)?;
    }
    Ok(list)
}

/// Returns entries in sections. Fails only when out of memory.
fn sections_of(alloc: Global, entries: &[Entry]) -> Result<List<Section>, AllocError>
    ensures { IfOk result (λ sections. inside.joined sections ≡ entries.now) }
{
    let mut sections = List::new(alloc);
    for chunk in entries.chunks(SECTION) {
        sections.push(Section::new(alloc, chunk)?)?;
    }
    Ok(sections)
}

/// Returns the indices of the entries whose range has an id. Fails only when out of memory.
fn indices_at(
    alloc: Global,
    sections: &[Section],
    id: EvaluationOrder,
) -> Result<Vec<usize>, AllocError>
    ensures { IfOk result (λ indices. indices.items ≡ inside.indices_at id (inside.joined sections.now)) }
{
    let mut indices = Vec::new(alloc);
    for section in sections {
        section.put_indices_at(&mut indices, id)?;
    }
    Ok(indices)
}

/// Returns the places at these indices. Fails only when out of memory.
fn places_with(
    alloc: Global,
    places: &List<Place>,
    indices: &[usize],
) -> Result<List<Place>, AllocError>
    ensures { IfOk result (λ found. found ≡ inside.places_with places.now indices.now) }
{
    let mut found = List::with_capacity(alloc, indices.len())?;
    for index in indices {
        if let Some(place) = places.get(*index) {
            found.push(*place)?;
        }
    }
    Ok(found)
}

/// Takes those entries out of sections whose range has an id. Fails only when out of memory.
fn remove_from(
    sections: &mut List<Section>,
    alloc: Global,
    id: EvaluationOrder,
) -> Result<(), AllocError>
    ensures { OnOk result (inside.joined sections.new ≡ inside.entries_left id (inside.joined sections.old)) }
{
    for i in 0..sections.len() {
        if let Some(section) = sections.get_mut(i) {
            section.remove_at(alloc, id)?;
        }
    }
    Ok(())
}
