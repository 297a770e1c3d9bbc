//! Equality of patterns and of their parts.

use crate::Equals;
use rc_hir::{
    LValuePattern, ObjectProperty, ObjectPropertyKey, ObjectPropertyOrSpread, Pattern,
    PropertyLiteral,
};

impl Equals for LValuePattern {
    fn equals(&self, other: &LValuePattern) -> bool {
        self.kind == other.kind && self.pattern.equals(&other.pattern)
    }
}

impl Equals for Pattern {
    fn equals(&self, other: &Pattern) -> bool {
        match (self, other) {
            (Pattern::Array { items }, Pattern::Array { items: others }) => items.equals(others),
            (Pattern::Object { properties }, Pattern::Object { properties: others }) => {
                properties.equals(others)
            }
            _ => false,
        }
    }
}

impl Equals for ObjectPropertyOrSpread {
    fn equals(&self, other: &ObjectPropertyOrSpread) -> bool {
        match (self, other) {
            (ObjectPropertyOrSpread::Property(property), ObjectPropertyOrSpread::Property(its)) => {
                property.equals(its)
            }
            (ObjectPropertyOrSpread::Spread(spread), ObjectPropertyOrSpread::Spread(its)) => {
                spread == its
            }
            _ => false,
        }
    }
}

impl Equals for ObjectProperty {
    fn equals(&self, other: &ObjectProperty) -> bool {
        self.key.equals(&other.key) && self.place == other.place
    }
}

impl Equals for ObjectPropertyKey {
    fn equals(&self, other: &ObjectPropertyKey) -> bool {
        match (self, other) {
            (ObjectPropertyKey::Identifier(name), ObjectPropertyKey::Identifier(its)) => {
                name.equals(its)
            }
            (ObjectPropertyKey::String(text), ObjectPropertyKey::String(its)) => text.equals(its),
            (ObjectPropertyKey::Number(text), ObjectPropertyKey::Number(its)) => text.equals(its),
            (ObjectPropertyKey::Computed(place), ObjectPropertyKey::Computed(its)) => place == its,
            _ => false,
        }
    }
}

impl Equals for PropertyLiteral {
    fn equals(&self, other: &PropertyLiteral) -> bool {
        match (self, other) {
            (PropertyLiteral::String(text), PropertyLiteral::String(its)) => text.equals(its),
            (PropertyLiteral::Number(text), PropertyLiteral::Number(its)) => text.equals(its),
            _ => false,
        }
    }
}
