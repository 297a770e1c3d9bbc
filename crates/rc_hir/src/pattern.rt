//! Patterns, and the parts that they share with literals.

use crate::place::{Place, SpreadPattern};
use rc_names::{List, Text};

/// The way in which a name is bound or written.
#[derive(Clone, Copy, Debug, PartialEq, Eq)]
pub enum InstructionKind {
    Const,
    Let,
    Reassign,
    Catch,
    Function,
    HoistedConst,
    HoistedLet,
    HoistedFunction,
}

/// A place that is written.
#[derive(Clone, Copy, Debug, PartialEq, Eq)]
pub struct LValue {
    pub kind: InstructionKind,
    pub place: Place,
}

/// A pattern whose places are written.
#[derive(Drop)]
pub struct LValuePattern {
    pub kind: InstructionKind,
    pub pattern: Pattern,
}

/// The items or the properties into which a value is taken apart.
#[derive(Drop)]
pub enum Pattern {
    Array {
        items: List<ArrayPatternElement>,
    },
    Object {
        properties: List<ObjectPropertyOrSpread>,
    },
}

/// An entry of an array pattern.
#[derive(Clone, Copy, Debug, PartialEq, Eq)]
pub enum ArrayPatternElement {
    Place(Place),
    Spread(SpreadPattern),
    Hole,
}

/// An entry of an array literal.
#[derive(Clone, Copy, Debug, PartialEq, Eq)]
pub enum ArrayElement {
    Place(Place),
    Spread(SpreadPattern),
    Hole,
}

/// An entry of an object pattern or of an object literal.
#[derive(Drop)]
pub enum ObjectPropertyOrSpread {
    Property(ObjectProperty),
    Spread(SpreadPattern),
}

/// A property with its place.
#[derive(Drop)]
pub struct ObjectProperty {
    pub key: ObjectPropertyKey,
    pub place: Place,
}

/// The key of a property.
#[derive(Drop)]
pub enum ObjectPropertyKey {
    Identifier(Text),
    String(Text),
    /// The number as it is written in the source.
    Number(Text),
    Computed(Place),
}

/// The name of a property that is read, written or deleted.
#[derive(Drop)]
pub enum PropertyLiteral {
    String(Text),
    /// The number as it is written in the source.
    Number(Text),
}
