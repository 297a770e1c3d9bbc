//! The function that two tables give, as programs read it that hand a tree on.

ghost use Rattle.std.specs.Prelude.{◌≡◌, ◌↔◌, IfOk, Some};
ghost use Rattle.serde_json.specs.View.{view};
ghost use Rattle.rc_doc.specs.Reading.{IsRead};
ghost use Rattle.rc_tree.specs.Model.{ReactiveFunction};
ghost use Rattle.rc_flat.specs.Tables.{GivesFunction};
ghost use Rattle.rc_flat.specs.inside.Assembly.{function_of};

use crate::assembly::assembled;
use crate::function::FlatFunction;
use rc_doc::{Read, Refusal};
use rc_tree::ReactiveFunction;
use serde_json::Value;
use std::alloc::{AllocError, Global};

/// Returns the function that a JSON value gives by its two tables, and `None` if it gives none. Fails only when out of
/// memory.
///
/// No call is nested for a part that is inside another. Only dropping a value that nests takes stack for each level.
pub fn read_function(alloc: Global, value: &Value) -> Result<Option<ReactiveFunction>, AllocError>
    ensures { IfOk result (λ found. (func : ReactiveFunction) → (found ≡ Some func)
        ↔ GivesFunction (view value.now) func) }
{
    match read_tables(alloc, value) {
        Ok(func) => Ok(Some(func)),
        Err(Refusal::NotDoc) => Ok(None),
        Err(Refusal::Memory) => Err(AllocError),
    }
}

/// Reads the two tables, and puts their parts into their places.
fn read_tables(alloc: Global, value: &Value) -> Result<ReactiveFunction, Refusal>
    ensures { IsRead result (function_of (view value.now)) }
{
    let func = FlatFunction::read(alloc, value)?;
    assembled(alloc, func)
}
