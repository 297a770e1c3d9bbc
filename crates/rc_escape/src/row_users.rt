//! Which rows a name is an operand of.

ghost use Rattle.std.specs.Prelude.{◌≡◌, List as Entries, [], Some, nat_eq, replicate, slice_get, IfOk, OnOk};
ghost use Rattle.rc_names.specs.Numbers.{DeclarationId as Declaration};
ghost use Rattle.std.specs.List.{list_any};
ghost use Rattle.rc_escape.specs.inside.RowUsers.{AddsUsers, AreUsers};
ghost use Rattle.rc_escape.specs.inside.WalkPlaces.{is_place_of};

use rc_memo::RowRecord;
use rc_names::{DeclarationId, List};
use std::alloc::{AllocError, Global};

/// Returns `n` empty lists. Fails only when out of memory.
fn empty_lists(alloc: Global, n: usize) -> Result<List<List<usize>>, AllocError>
    ensures { IfOk result (λ lists. lists ≡ replicate n []) }
{
    let mut lists = List::with_capacity(alloc, n)?;
    while lists.len() < n {
        lists.push(List::new(alloc))?;
    }
    Ok(lists)
}

/// Puts a row to the list at a place. Fails only when out of memory.
fn put_user(users: &mut List<List<usize>>, place: usize, row: usize) -> Result<(), AllocError>
    ensures { OnOk result (AddsUsers users.old users.new row (λ other. nat_eq place other)) }
{
    if let Some(rows) = users.get_mut(place) {
        rows.push(row)?;
    }
    Ok(())
}

/// Puts a row to the list of one of its operands, where that has a node. Fails only when out of memory.
#[tactic(auto, using(crate::proofs::UsersLemmas::no_place, crate::proofs::UsersLemmas::at_place))]
fn put_operand(
    users: &mut List<List<usize>>,
    rows: &RowRecord,
    row: usize,
    operand: DeclarationId,
) -> Result<(), AllocError>
    ensures { OnOk result (AddsUsers users.old users.new row (λ place. is_place_of rows.now place operand)) }
{
    match rows.nodes.position(operand) {
        Some(place) => put_user(users, place, row),
        None => Ok(()),
    }
}

/// Puts a row to the list of each of its operands that has a node. Fails only when out of memory.
#[tactic(auto, using(crate::proofs::UsersLemmas::of_row))]
fn put_operands(
    users: &mut List<List<usize>>,
    rows: &RowRecord,
    row: usize,
    operands: &[DeclarationId],
) -> Result<(), AllocError>
    ensures { OnOk result (AddsUsers users.old users.new row
        (λ place. list_any (is_place_of rows.now place) operands.now)) }
{
    for operand in operands {
        put_operand(users, rows, row, *operand)?;
    }
    Ok(())
}

/// Puts the row at a position to the list of each of its operands. Fails only when out of memory.
fn put_row(users: &mut List<List<usize>>, rows: &RowRecord, row: usize) -> Result<(), AllocError>
    ensures { OnOk result ((operands : Entries Declaration) → slice_get rows.now.operands row ≡ Some operands
        → AddsUsers users.old users.new row (λ place. list_any (is_place_of rows.now place) operands)) }
{
    match rows.operands.get(row) {
        Some(operands) => put_operands(users, rows, row, operands.as_slice()),
        None => Ok(()),
    }
}

/// Returns for each node the rows that its name is an operand of. Fails only when out of memory.
#[tactic(auto, using(crate::proofs::UsersLemmas::of_rows))]
pub(crate) fn row_users(alloc: Global, rows: &RowRecord) -> Result<List<List<usize>>, AllocError>
    ensures { IfOk result (λ users. AreUsers rows.now users) }
{
    let mut users = empty_lists(alloc, rows.nodes.len())?;
    for row in 0..rows.operands.len() {
        put_row(&mut users, rows, row)?;
    }
    Ok(users)
}
