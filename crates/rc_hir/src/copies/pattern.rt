//! Copies of patterns and of their parts.

use crate::pattern::{
    LValuePattern, ObjectProperty, ObjectPropertyKey, ObjectPropertyOrSpread, Pattern,
    PropertyLiteral,
};
use rc_names::CloneIn;
use std::alloc::{AllocError, Global};

impl CloneIn for LValuePattern {
    fn clone_in(&self, alloc: Global) -> Result<LValuePattern, AllocError> {
        Ok(LValuePattern {
            kind: self.kind,
            pattern: self.pattern.clone_in(alloc)?,
        })
    }
}

impl CloneIn for Pattern {
    fn clone_in(&self, alloc: Global) -> Result<Pattern, AllocError> {
        match self {
            Pattern::Array { items } => Ok(Pattern::Array {
                items: items.copy_in(alloc)?,
            }),
            Pattern::Object { properties } => Ok(Pattern::Object {
                properties: properties.clone_in(alloc)?,
            }),
        }
    }
}

impl CloneIn for ObjectPropertyOrSpread {
    fn clone_in(&self, alloc: Global) -> Result<ObjectPropertyOrSpread, AllocError> {
        match self {
            ObjectPropertyOrSpread::Property(property) => {
                Ok(ObjectPropertyOrSpread::Property(property.clone_in(alloc)?))
            }
            ObjectPropertyOrSpread::Spread(spread) => Ok(ObjectPropertyOrSpread::Spread(*spread)),
        }
    }
}

impl CloneIn for ObjectProperty {
    fn clone_in(&self, alloc: Global) -> Result<ObjectProperty, AllocError> {
        Ok(ObjectProperty {
            key: self.key.clone_in(alloc)?,
            place: self.place,
        })
    }
}

impl CloneIn for ObjectPropertyKey {
    fn clone_in(&self, alloc: Global) -> Result<ObjectPropertyKey, AllocError> {
        match self {
            ObjectPropertyKey::Identifier(name) => Ok(ObjectPropertyKey::Identifier(name.clone_in(
                alloc,
            )?)),
            ObjectPropertyKey::String(text) => Ok(ObjectPropertyKey::String(text.clone_in(alloc)?)),
            ObjectPropertyKey::Number(text) => Ok(ObjectPropertyKey::Number(text.clone_in(alloc)?)),
            ObjectPropertyKey::Computed(place) => Ok(ObjectPropertyKey::Computed(*place)),
        }
    }
}

impl CloneIn for PropertyLiteral {
    fn clone_in(&self, alloc: Global) -> Result<PropertyLiteral, AllocError> {
        match self {
            PropertyLiteral::String(text) => Ok(PropertyLiteral::String(text.clone_in(alloc)?)),
            PropertyLiteral::Number(text) => Ok(PropertyLiteral::Number(text.clone_in(alloc)?)),
        }
    }
}
