//! Readers of a function as two tables. `specs/ReadingFlat.antt` has the same words.

mod terminals;
mod values;

ghost use Rattle.std.specs.Prelude.{codes};
ghost use Rattle.serde_json.specs.View.{view};
ghost use Rattle.rc_doc.specs.Reading.{IsRead, option_field};
ghost use Rattle.rc_flat.specs.ReadingFlat.{flat_function_of, label_of, scope_block_of, statement_of};
ghost use Rattle.rc_flat.specs.ReadingFlat.{terminal_statement_of};

use crate::fields::{flag, list_or_empty, only, optional, required};
use crate::function::FlatFunction;
use crate::statement::{FlatScopeBlock, FlatStatement};
use crate::terminal::FlatTerminalStatement;
use rc_doc::{Read, Refusal, tag};
use rc_tree::ReactiveLabel;
use serde_json::Value;
use std::alloc::Global;

#[tactic(auto, unfolding(crate::specs::ReadingFlat::label_of))]
fn read_label(alloc: Global, from: &Value) -> Result<ReactiveLabel, Refusal>
    ensures { IsRead result (label_of (view from.now)) }
{
    only(from, &["id", "implicit"])?;
    let id = required(alloc, from, "id")?;
    let implicit = flag(from, "implicit")?;
    Ok(ReactiveLabel { id, implicit })
}

/// The label of a terminal, which is `None` if it is left out or null.
fn label(alloc: Global, from: &Value) -> Result<Option<ReactiveLabel>, Refusal>
    ensures { IsRead result (option_field label_of (codes "label") (view from.now)) }
{
    match from.get("label") {
        Some(found) if found.is_null() => Ok(None),
        Some(found) => Ok(Some(read_label(alloc, found)?)),
        None => Ok(None),
    }
}

impl Read for FlatTerminalStatement {
    ghost reads = { terminal_statement_of };

    #[tactic(auto, unfolding(crate::specs::ReadingFlat::terminal_statement_of))]
    fn read(alloc: Global, from: &Value) -> Result<FlatTerminalStatement, Refusal> {
        only(from, &["label", "terminal"])?;
        let terminal = required(alloc, from, "terminal")?;
        let label = label(alloc, from)?;
        Ok(FlatTerminalStatement { terminal, label })
    }
}

impl Read for FlatScopeBlock {
    ghost reads = { scope_block_of };

    #[tactic(auto, unfolding(crate::specs::ReadingFlat::scope_block_of))]
    fn read(alloc: Global, from: &Value) -> Result<FlatScopeBlock, Refusal> {
        only(from, &["instructions", "scope"])?;
        let scope = required(alloc, from, "scope")?;
        let instructions = required(alloc, from, "instructions")?;
        Ok(FlatScopeBlock {
            scope,
            instructions,
        })
    }
}

impl Read for FlatStatement {
    ghost reads = { statement_of };

    #[tactic(auto, unfolding(crate::specs::ReadingFlat::statement_of))]
    fn read(alloc: Global, from: &Value) -> Result<FlatStatement, Refusal> {
        only(from, &["k", "v"])?;
        match tag(from) {
            Some("Instruction") => Ok(FlatStatement::Instruction(required(alloc, from, "v")?)),
            Some("Terminal") => Ok(FlatStatement::Terminal(required(alloc, from, "v")?)),
            Some("Scope") => Ok(FlatStatement::Scope(required(alloc, from, "v")?)),
            Some("PrunedScope") => Ok(FlatStatement::PrunedScope(required(alloc, from, "v")?)),
            _ => Err(Refusal::NotDoc),
        }
    }
}

impl Read for FlatFunction {
    ghost reads = { flat_function_of };

    #[tactic(auto, unfolding(crate::specs::ReadingFlat::flat_function_of))]
    fn read(alloc: Global, from: &Value) -> Result<FlatFunction, Refusal> {
        only(
            from,
            &[
                "blocks",
                "directives",
                "generator",
                "id",
                "is_async",
                "name_hint",
                "params",
                "span",
                "values",
            ],
        )?;
        let span = optional(alloc, from, "span")?;
        let id = optional(alloc, from, "id")?;
        let name_hint = optional(alloc, from, "name_hint")?;
        let params = list_or_empty(alloc, from, "params")?;
        let generator = flag(from, "generator")?;
        let is_async = flag(from, "is_async")?;
        let blocks = list_or_empty(alloc, from, "blocks")?;
        let values = list_or_empty(alloc, from, "values")?;
        let directives = list_or_empty(alloc, from, "directives")?;
        Ok(FlatFunction {
            span,
            id,
            name_hint,
            params,
            generator,
            is_async,
            blocks,
            values,
            directives,
        })
    }
}
