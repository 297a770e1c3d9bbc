//! Parts that have numbers, and the containers of such parts.

#![tactic(auto, using(crate::proofs::NamesLemmas::judging))]

ghost use Rattle.std.specs.Prelude.{◌≡◌, ◌++◌, slice_get, Some};
ghost use Rattle.std.specs.List.{flat_map};
ghost use Rattle.rc_hir.specs.PartNames.{names_if, under_key};
ghost use Rattle.rc_hir.specs.Names.{IsCheckOf};

use super::Lengths;
use crate::fault::Fault;
use rc_names::{Keyed, List, Name, Table};

/// A part that has numbers.
pub trait HoldsNames {
    ghost use Rattle.std.specs.Prelude.{List as Entries};
    ghost use Rattle.rc_hir.specs.PartNames.{Name};

    /// The numbers, each with the table that it indexes.
    ghost names: { Self → Entries Name };

    /// Checks that each number is in its table. Returns `BadName` with one that isn't.
    fn check(&self, tables: Lengths) -> Result<(), Fault>
        ensures { IsCheckOf tables (Self.names self.now) result };
}

impl<T: HoldsNames> HoldsNames for Option<T> {
    ghost names = { names_if T.names };

    fn check(&self, tables: Lengths) -> Result<(), Fault> {
        match self {
            Some(part) => part.check(tables),
            None => Ok(()),
        }
    }
}

impl<T: HoldsNames> HoldsNames for List<T> {
    ghost names = { flat_map T.names };

    fn check(&self, tables: Lengths) -> Result<(), Fault> {
        check_each(self.as_slice(), tables)
    }
}

impl<I: Name, T: HoldsNames> HoldsNames for Table<I, T> {
    ghost names = { flat_map T.names };

    fn check(&self, tables: Lengths) -> Result<(), Fault> {
        check_each(self.as_slice(), tables)
    }
}

impl<K: Name, V: HoldsNames> HoldsNames for Keyed<K, V> {
    ghost names = { flat_map (under_key V.names) };

    fn check(&self, tables: Lengths) -> Result<(), Fault> {
        for i in 0..self.len() {
            check_at(self, i, tables)?;
        }
        Ok(())
    }
}

fn check_at<K: Name, V: HoldsNames>(
    keyed: &Keyed<K, V>,
    i: usize,
    tables: Lengths,
) -> Result<(), Fault>
    ensures { (pair : K × V) → slice_get keyed.now i ≡ Some pair → IsCheckOf tables (V.names pair.1) result }
{
    match keyed.at(i) {
        Some((_, value)) => value.check(tables),
        None => Ok(()),
    }
}

fn check_each<T: HoldsNames>(parts: &[T], tables: Lengths) -> Result<(), Fault>
    ensures { IsCheckOf tables (flat_map T.names parts.now) result }
{
    for part in parts {
        part.check(tables)?;
    }
    Ok(())
}

/// Checks the numbers of two parts.
pub fn check_both<A: HoldsNames, B: HoldsNames>(
    first: &A,
    second: &B,
    tables: Lengths,
) -> Result<(), Fault>
    ensures { IsCheckOf tables (A.names first.now ++ B.names second.now) result }
{
    first.check(tables)?;
    second.check(tables)
}

/// Checks the numbers of three parts.
pub fn check_three<A: HoldsNames, B: HoldsNames, C: HoldsNames>(
    first: &A,
    second: &B,
    third: &C,
    tables: Lengths,
) -> Result<(), Fault>
    ensures { IsCheckOf tables (A.names first.now ++ (B.names second.now ++ C.names third.now)) result }
{
    first.check(tables)?;
    check_both(second, third, tables)
}
