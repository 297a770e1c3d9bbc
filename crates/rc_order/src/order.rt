//! A list of names in the order of their numbers, each once.

ghost use Rattle.std.specs.Prelude.{◌≡◌, map, IfOk};
ghost use Rattle.std.specs.BTreeSet.{IsFromIterResult};
ghost use Rattle.rc_names.specs.Numbers.{to_id};
ghost use Rattle.rc_order.specs.Order.{AreInOrder, numbers_of};

use rc_names::{DeclarationId, List};
use std::alloc::{AllocError, Global};
use std::collections::BTreeSet;

/// Returns the names by rising number, each once, however often and wherever they are listed. The only error is out of
/// memory.
pub fn in_order(alloc: Global, names: &[DeclarationId]) -> Result<List<DeclarationId>, AllocError>
    ensures { IfOk result (AreInOrder names.now) }
{
    let numbers: BTreeSet<u32> = collected(alloc, names)?;
    with_numbers(alloc, &numbers)
}

/// The set of the names' numbers. The only error is out of memory.
fn collected(alloc: Global, names: &[DeclarationId]) -> Result<BTreeSet<u32>, AllocError>
    ensures { IfOk result (IsFromIterResult ⟦<u32 as Ord>⟧.cmp (numbers_of names.now)) }
{
    names.iter().map(|name| name.0).collect(alloc)
}

/// The names with these numbers, in their order. The only error is out of memory.
fn with_numbers(alloc: Global, numbers: &BTreeSet<u32>) -> Result<List<DeclarationId>, AllocError>
    ensures { IfOk result (λ names. names ≡ map to_id numbers.now.keys) }
{
    let mut names = List::new(alloc);
    for number in numbers {
        names.push(DeclarationId::new(*number))?;
    }
    Ok(names)
}
