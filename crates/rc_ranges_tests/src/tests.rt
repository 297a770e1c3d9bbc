//! Each call once, with enough memory: no clause says that a call finds memory.

use rc_hir::{Effect, MutableRange, Place};
use rc_names::{EvaluationOrder, IdentifierId, List};
use rc_ranges::{PlacesByRange, RangedPlace, is_in_range};
use std::alloc::{AllocError, Global};
use std::test::Fail;

/// The range from one number up to another.
fn range(start: u32, end: u32) -> MutableRange {
    MutableRange {
        start: EvaluationOrder::new(start),
        end: EvaluationOrder::new(end),
    }
}

/// A place of an identifier with this number, with a range.
fn ranged(number: u32, start: u32, end: u32) -> RangedPlace {
    RangedPlace {
        place: Place {
            identifier: IdentifierId::new(number),
            effect: Effect::Read,
            reactive: false,
            span: None,
        },
        range: range(start, end),
    }
}

/// The numbers of the identifiers of the places that are found.
fn found(alloc: Global, index: &PlacesByRange, id: u32) -> Result<List<u32>, AllocError> {
    let places = index.at(alloc, EvaluationOrder::new(id))?;
    let mut numbers = List::new(alloc);
    for place in places.as_slice() {
        numbers.push(place.identifier.0)?;
    }
    Ok(numbers)
}

/// Whether the places that are found have these numbers.
fn is_found(
    alloc: Global,
    index: &PlacesByRange,
    id: u32,
    numbers: &[u32],
) -> Result<bool, AllocError> {
    Ok(found(alloc, index, id)?.as_slice() == numbers)
}

#[test]
fn a_range_has_its_start_and_lacks_its_end(rt: HostRuntime) {
    assert!(rt; !is_in_range(EvaluationOrder::new(4), range(5, 7)));
    assert!(rt; is_in_range(EvaluationOrder::new(5), range(5, 7)));
    assert!(rt; is_in_range(EvaluationOrder::new(6), range(5, 7)));
    assert!(rt; !is_in_range(EvaluationOrder::new(7), range(5, 7)));
}

/// Six places with ranges in no order: two have the same range, and that of the third is empty.
fn six_places(alloc: Global) -> Result<PlacesByRange, AllocError> {
    let places = [
        ranged(0, 5, 9),
        ranged(1, 2, 6),
        ranged(2, 7, 7),
        ranged(3, 5, 9),
        ranged(4, 0, 3),
        ranged(5, 8, 20),
    ];
    PlacesByRange::new(alloc, &places)
}

#[test]
fn places_are_found_in_their_order(rt: HostRuntime) -> Result<(), Fail> {
    let alloc = rt.alloc();
    let index = six_places(alloc)?;
    assert!(rt; is_found(alloc, &index, 2, &[1, 4])?);
    assert!(rt; is_found(alloc, &index, 5, &[0, 1, 3])?);
    assert!(rt; is_found(alloc, &index, 7, &[0, 3])?);
    assert!(rt; is_found(alloc, &index, 20, &[])?);
    Ok(())
}

/// The six places without those that an id is in the range of.
fn six_places_without(alloc: Global, id: u32) -> Result<PlacesByRange, AllocError> {
    let mut index = six_places(alloc)?;
    index.remove_at(alloc, EvaluationOrder::new(id))?;
    Ok(index)
}

#[test]
fn what_is_removed_is_gone_and_the_rest_is_found(rt: HostRuntime) -> Result<(), Fail> {
    let alloc = rt.alloc();
    let index = six_places_without(alloc, 5)?;
    assert!(rt; is_found(alloc, &index, 5, &[])?);
    assert!(rt; is_found(alloc, &index, 2, &[4])?);
    assert!(rt; is_found(alloc, &index, 8, &[5])?);
    Ok(())
}

/// How many places there are below: more than one section has.
const MANY: u32 = 10_000;

/// The number that the range of one of many places begins with. Each number below `MANY` is that of one place.
fn start_of(number: u32) -> u32 {
    number.wrapping_mul(7919) % MANY
}

/// Many places whose ranges have three ids each, in no order.
fn many_places(alloc: Global) -> Result<PlacesByRange, AllocError> {
    let mut places = List::new(alloc);
    for number in 0..MANY {
        let start = start_of(number);
        places.push(ranged(number, start, start.wrapping_add(3)))?;
    }
    PlacesByRange::new(alloc, places.as_slice())
}

/// The numbers of those of many places whose range begins with one of these numbers.
fn starting_with(alloc: Global, starts: &[u32]) -> Result<List<u32>, AllocError> {
    let mut numbers = List::new(alloc);
    for number in 0..MANY {
        if starts.contains(&start_of(number)) {
            numbers.push(number)?;
        }
    }
    Ok(numbers)
}

/// Whether those of many places are found at an id whose range begins with one of these numbers.
fn is_found_among_many(
    alloc: Global,
    index: &PlacesByRange,
    id: u32,
    starts: &[u32],
) -> Result<bool, AllocError> {
    let numbers = starting_with(alloc, starts)?;
    is_found(alloc, index, id, numbers.as_slice())
}

/// Many places without those that an id is in the range of.
fn many_places_without(alloc: Global, id: u32) -> Result<PlacesByRange, AllocError> {
    let mut index = many_places(alloc)?;
    index.remove_at(alloc, EvaluationOrder::new(id))?;
    Ok(index)
}

#[test]
fn few_of_many_places_are_found_and_removed(rt: HostRuntime) -> Result<(), Fail> {
    let alloc = rt.alloc();
    let index = many_places_without(alloc, 5000)?;
    assert!(rt; is_found_among_many(alloc, &index, 5000, &[])?);
    assert!(rt; is_found_among_many(alloc, &index, 5001, &[5001])?);
    assert!(rt; is_found_among_many(alloc, &index, 4097, &[4095, 4096, 4097])?);
    assert!(rt; is_found_among_many(alloc, &index, 0, &[0])?);
    Ok(())
}
