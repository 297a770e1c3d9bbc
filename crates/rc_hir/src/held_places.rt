//! Parts of values, patterns and terminals that have places.

ghost use Rattle.std.specs.Prelude.{◌≡◌, ◌++◌, Ok, OnOk};
ghost use Rattle.std.specs.List.{flat_map};
ghost use Rattle.rc_hir.specs.Fault.{IsExpected};
ghost use Rattle.rc_hir.specs.Operands as table;
ghost use Rattle.rc_hir.specs.TerminalOperands.{case_places};

use crate::fault::Fault;
use crate::instruction::JsxAttribute;
use crate::pattern::{
    ArrayElement, ArrayPatternElement, ObjectPropertyKey, ObjectPropertyOrSpread,
};
use crate::place::PlaceOrSpread;
use crate::places::Places;
use crate::terminal::Case;
use rc_names::List;
use std::alloc::{AllocError, Global};

/// A part that has places.
pub trait HoldsPlaces {
    ghost use Rattle.std.specs.Prelude.{List as Entries};
    ghost use Rattle.rc_hir.specs.Model.{Place};

    /// Its places, in order.
    ghost held: { Self → Entries Place };

    /// Appends the places of the part. Fails only when out of memory.
    fn push_held(&self, alloc: Global, places: &mut Places<'_>) -> Result<(), AllocError>
        ensures { OnOk result (places.new ≡ places.old ++ Self.held self.now) };
}

impl HoldsPlaces for PlaceOrSpread {
    ghost held = { table.argument_places };

    fn push_held(&self, alloc: Global, places: &mut Places<'_>) -> Result<(), AllocError> {
        match self {
            PlaceOrSpread::Place(place) => places.push(alloc, *place),
            PlaceOrSpread::Spread(spread) => places.push(alloc, spread.place),
        }
    }
}

impl HoldsPlaces for ArrayElement {
    ghost held = { table.element_places };

    fn push_held(&self, alloc: Global, places: &mut Places<'_>) -> Result<(), AllocError> {
        match self {
            ArrayElement::Place(place) => places.push(alloc, *place),
            ArrayElement::Spread(spread) => places.push(alloc, spread.place),
            ArrayElement::Hole => Ok(()),
        }
    }
}

impl HoldsPlaces for ArrayPatternElement {
    ghost held = { table.item_places };

    fn push_held(&self, alloc: Global, places: &mut Places<'_>) -> Result<(), AllocError> {
        match self {
            ArrayPatternElement::Place(place) => places.push(alloc, *place),
            ArrayPatternElement::Spread(spread) => places.push(alloc, spread.place),
            ArrayPatternElement::Hole => Ok(()),
        }
    }
}

impl HoldsPlaces for ObjectPropertyOrSpread {
    ghost held = { table.entry_places };

    fn push_held(&self, alloc: Global, places: &mut Places<'_>) -> Result<(), AllocError> {
        match self {
            ObjectPropertyOrSpread::Property(property) => {
                push_key(alloc, places, &property.key)?;
                places.push(alloc, property.place)
            }
            ObjectPropertyOrSpread::Spread(spread) => places.push(alloc, spread.place),
        }
    }
}

fn push_key(
    alloc: Global,
    places: &mut Places<'_>,
    key: &ObjectPropertyKey,
) -> Result<(), AllocError>
    ensures { OnOk result (places.new ≡ places.old ++ table.key_places key.now) }
{
    match key {
        ObjectPropertyKey::Identifier(_)
        | ObjectPropertyKey::String(_)
        | ObjectPropertyKey::Number(_) => Ok(()),
        ObjectPropertyKey::Computed(place) => places.push(alloc, *place),
    }
}

impl HoldsPlaces for JsxAttribute {
    ghost held = { table.attribute_places };

    fn push_held(&self, alloc: Global, places: &mut Places<'_>) -> Result<(), AllocError> {
        match self {
            JsxAttribute::Attribute { place, .. } => places.push(alloc, *place),
            JsxAttribute::SpreadAttribute { argument } => places.push(alloc, *argument),
        }
    }
}

impl HoldsPlaces for Case {
    ghost held = { case_places };

    fn push_held(&self, alloc: Global, places: &mut Places<'_>) -> Result<(), AllocError> {
        match self.test {
            Some(test) => places.push(alloc, test),
            None => Ok(()),
        }
    }
}

/// Returns these places, followed by those of each item. The only fault is `NoMemory`.
pub fn gathered<'p, T: HoldsPlaces>(
    alloc: Global,
    first: Places<'p>,
    items: &List<T>,
) -> Result<Places<'p>, Fault>
    ensures { IsExpected (Ok (first.entry ++ flat_map T.held items.now)) result }
{
    let mut places = first;
    push_each(alloc, &mut places, items)?;
    Ok(places)
}

/// Appends the places of each item. Fails only when out of memory.
pub fn push_each<T: HoldsPlaces>(
    alloc: Global,
    places: &mut Places<'_>,
    items: &List<T>,
) -> Result<(), AllocError>
    ensures { OnOk result (places.new ≡ places.old ++ flat_map T.held items.now) }
{
    for item in items.as_slice() {
        item.push_held(alloc, places)?;
    }
    Ok(())
}
