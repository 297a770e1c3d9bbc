//! Equality of texts and of containers.

use crate::Equals;
use rc_names::{Boxed, List, Text};

impl Equals for Text {
    fn equals(&self, other: &Text) -> bool {
        self.as_str() == other.as_str()
    }
}

impl<T: Equals> Equals for Boxed<T> {
    fn equals(&self, other: &Boxed<T>) -> bool {
        self.get().equals(other.get())
    }
}

impl<T: Equals> Equals for Option<T> {
    fn equals(&self, other: &Option<T>) -> bool {
        match self {
            Some(part) => match other {
                Some(its_part) => part.equals(its_part),
                None => false,
            },
            None => other.is_none(),
        }
    }
}

impl<T: Equals> Equals for List<T> {
    fn equals(&self, other: &List<T>) -> bool {
        let others = other.as_slice();
        if self.len() != others.len() {
            return false;
        }
        for (i, item) in self.as_slice().iter().enumerate() {
            if !item.equals(&others[i]) {
                return false;
            }
        }
        true
    }
}
