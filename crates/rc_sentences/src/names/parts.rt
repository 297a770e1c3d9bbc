//! Parts that have numbers, and the containers of such parts.

use crate::names::seeker::{Seeker, Step};
use rc_names::{Keyed, List, Name, Table};
use std::alloc::AllocError;

/// A part that has numbers.
pub trait Seeks {
    /// Looks for a number in the part, and returns whether it is there; then the way leads to it. Fails only when out
    /// of memory.
    fn seek(&self, seeker: &mut Seeker) -> Result<bool, AllocError>;
}

impl<T: Seeks> Seeks for Option<T> {
    fn seek(&self, seeker: &mut Seeker) -> Result<bool, AllocError> {
        match self {
            Some(part) => part.seek(seeker),
            None => Ok(false),
        }
    }
}

impl<T: Seeks> Seeks for List<T> {
    fn seek(&self, seeker: &mut Seeker) -> Result<bool, AllocError> {
        seek_each(self.as_slice(), seeker)
    }
}

impl<I: Name, T: Seeks> Seeks for Table<I, T> {
    fn seek(&self, seeker: &mut Seeker) -> Result<bool, AllocError> {
        seek_each(self.as_slice(), seeker)
    }
}

impl<K: Name, V: Seeks> Seeks for Keyed<K, V> {
    fn seek(&self, seeker: &mut Seeker) -> Result<bool, AllocError> {
        seek_each(self.values(), seeker)
    }
}

fn seek_each<T: Seeks>(parts: &[T], seeker: &mut Seeker) -> Result<bool, AllocError> {
    for (index, part) in parts.iter().enumerate() {
        if seek_at(Step::Item(index), part, seeker)? {
            return Ok(true);
        }
    }
    Ok(false)
}

/// Looks for a number in a part to which a step leads.
fn seek_at<T: Seeks>(step: Step, part: &T, seeker: &mut Seeker) -> Result<bool, AllocError> {
    seeker.step(step)?;
    if part.seek(seeker)? {
        return Ok(true);
    }
    seeker.back();
    Ok(false)
}

/// Looks for a number in a field.
pub fn seek_in<T: Seeks>(
    name: &'static str,
    part: &T,
    seeker: &mut Seeker,
) -> Result<bool, AllocError> {
    seek_at(Step::Field(name), part, seeker)
}

/// Looks for a number in two fields.
pub fn seek_both<A: Seeks, B: Seeks>(
    names: (&'static str, &'static str),
    first: &A,
    second: &B,
    seeker: &mut Seeker,
) -> Result<bool, AllocError> {
    if seek_in(names.0, first, seeker)? {
        return Ok(true);
    }
    seek_in(names.1, second, seeker)
}

/// Looks for a number in three fields.
pub fn seek_three<A: Seeks, B: Seeks, C: Seeks>(
    names: (&'static str, &'static str, &'static str),
    first: &A,
    second: &B,
    third: &C,
    seeker: &mut Seeker,
) -> Result<bool, AllocError> {
    if seek_in(names.0, first, seeker)? {
        return Ok(true);
    }
    seek_both((names.1, names.2), second, third, seeker)
}
