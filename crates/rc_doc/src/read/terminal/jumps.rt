//! Readers of the terminals that jump or end a run, and of the one that may throw.

ghost use Rattle.std.specs.Prelude.{◌≡◌};
ghost use Rattle.serde_json.specs.View.{view};
ghost use Rattle.rc_doc.specs.Reading.{IsRead};
ghost use Rattle.rc_doc.specs.Terminals.{terminal_named};
ghost use Rattle.rc_doc.specs.Terminals.Jumps.{goto_named, goto_of, goto_variant_of, maybe_throw_of};
ghost use Rattle.rc_doc.specs.Terminals.Jumps.{return_of, throw_of, unreachable_of};

use crate::fields::{Read, optional, or_refuse, required};
use crate::members::{five_fields, four_fields, three_fields};
use crate::read::terminal::branches;
use crate::refusal::Refusal;
use rc_hir::{GotoVariant, Terminal};
use serde_json::Value;
use std::alloc::Global;

/// The terminal with this name, of this family or of one after it.
pub(super) fn terminal_named(alloc: Global, name: &str, from: &Value) -> Result<Terminal, Refusal>
    ensures { IsRead result (terminal_named (view from.now) name.now) }
{
    match name {
        "Goto" => goto(alloc, from),
        "Return" => return_terminal(alloc, from),
        "MaybeThrow" => maybe_throw(alloc, from),
        "Throw" => throw(alloc, from),
        "Unreachable" => unreachable(alloc, from),
        _ => branches::terminal_named(alloc, name, from),
    }
}

fn goto_named(name: &str) -> Option<GotoVariant>
    ensures { result ≡ goto_named name.now }
{
    match name {
        "Break" => Some(GotoVariant::Break),
        "Continue" => Some(GotoVariant::Continue),
        "Try" => Some(GotoVariant::Try),
        _ => None,
    }
}

impl Read for GotoVariant {
    ghost reads = { goto_variant_of };

    fn read(_alloc: Global, from: &Value) -> Result<GotoVariant, Refusal> {
        let name = or_refuse(from.as_str())?;
        or_refuse(goto_named(name))
    }
}

#[tactic(auto, unfolding(crate::specs::Terminals::Jumps::throw_of))]
fn throw(alloc: Global, from: &Value) -> Result<Terminal, Refusal>
    ensures { IsRead result (throw_of (view from.now)) }
{
    let (id, _, span, value) = four_fields(from, "id", "k", "span", "value")?;
    let value = required(alloc, value)?;
    let id = required(alloc, id)?;
    let span = optional(alloc, span)?;
    Ok(Terminal::Throw { value, id, span })
}

#[tactic(auto, unfolding(crate::specs::Terminals::Jumps::return_of))]
fn return_terminal(alloc: Global, from: &Value) -> Result<Terminal, Refusal>
    ensures { IsRead result (return_of (view from.now)) }
{
    let (id, _, span, value) = four_fields(from, "id", "k", "span", "value")?;
    let value = required(alloc, value)?;
    let id = required(alloc, id)?;
    let span = optional(alloc, span)?;
    Ok(Terminal::Return { value, id, span })
}

#[tactic(auto, unfolding(crate::specs::Terminals::Jumps::goto_of))]
fn goto(alloc: Global, from: &Value) -> Result<Terminal, Refusal>
    ensures { IsRead result (goto_of (view from.now)) }
{
    let (block, id, _, span, variant) = five_fields(from, "block", "id", "k", "span", "variant")?;
    let block = required(alloc, block)?;
    let variant = required(alloc, variant)?;
    let id = required(alloc, id)?;
    let span = optional(alloc, span)?;
    Ok(Terminal::Goto {
        block,
        variant,
        id,
        span,
    })
}

#[tactic(auto, unfolding(crate::specs::Terminals::Jumps::unreachable_of))]
fn unreachable(alloc: Global, from: &Value) -> Result<Terminal, Refusal>
    ensures { IsRead result (unreachable_of (view from.now)) }
{
    let (id, _, span) = three_fields(from, "id", "k", "span")?;
    let id = required(alloc, id)?;
    let span = optional(alloc, span)?;
    Ok(Terminal::Unreachable { id, span })
}

#[tactic(auto, unfolding(crate::specs::Terminals::Jumps::maybe_throw_of))]
fn maybe_throw(alloc: Global, from: &Value) -> Result<Terminal, Refusal>
    ensures { IsRead result (maybe_throw_of (view from.now)) }
{
    let (continuation, handler, id, _, span) = five_fields(
        from,
        "continuation",
        "handler",
        "id",
        "k",
        "span",
    )?;
    let continuation = required(alloc, continuation)?;
    let handler = optional(alloc, handler)?;
    let id = required(alloc, id)?;
    let span = optional(alloc, span)?;
    Ok(Terminal::MaybeThrow {
        continuation,
        handler,
        id,
        span,
    })
}
