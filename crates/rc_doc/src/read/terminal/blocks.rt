//! Readers of the terminals that go into one block and then on at their fallthrough.

ghost use Rattle.std.specs.Prelude.{◌++◌};
ghost use Rattle.serde_json.specs.View.{view};
ghost use Rattle.rc_doc.specs.Reading.{IsRead, variant};
ghost use Rattle.rc_doc.specs.Terminals.Blocks.{block_terminals, label_of, pruned_scope_of, scope_of, sequence_of};
ghost use Rattle.rc_doc.specs.Terminals.Blocks.{try_of};
ghost use Rattle.rc_doc.specs.Terminals.Loops.{loop_terminals};

use crate::fields::{optional, required};
use crate::members::{five_fields, seven_fields, six_fields};
use crate::read::terminal::loops;
use crate::refusal::Refusal;
use rc_hir::Terminal;
use serde_json::Value;
use std::alloc::Global;

/// The terminal with this name, of this family or of one after it.
pub(super) fn terminal_named(alloc: Global, name: &str, from: &Value) -> Result<Terminal, Refusal>
    ensures { IsRead result (variant (block_terminals (view from.now) ++ loop_terminals (view from.now)) name.now) }
{
    match name {
        "Scope" => scope(alloc, from),
        "PrunedScope" => pruned_scope(alloc, from),
        "Label" => label(alloc, from),
        "Sequence" => sequence(alloc, from),
        "Try" => try_terminal(alloc, from),
        _ => loops::terminal_named(alloc, name, from),
    }
}

#[tactic(auto, unfolding(crate::specs::Terminals::Blocks::sequence_of))]
fn sequence(alloc: Global, from: &Value) -> Result<Terminal, Refusal>
    ensures { IsRead result (sequence_of (view from.now)) }
{
    let (block, fallthrough, id, _, span) = five_fields(
        from,
        "block",
        "fallthrough",
        "id",
        "k",
        "span",
    )?;
    let block = required(alloc, block)?;
    let fallthrough = required(alloc, fallthrough)?;
    let id = required(alloc, id)?;
    let span = optional(alloc, span)?;
    Ok(Terminal::Sequence {
        block,
        fallthrough,
        id,
        span,
    })
}

#[tactic(auto, unfolding(crate::specs::Terminals::Blocks::label_of))]
fn label(alloc: Global, from: &Value) -> Result<Terminal, Refusal>
    ensures { IsRead result (label_of (view from.now)) }
{
    let (block, fallthrough, id, _, span) = five_fields(
        from,
        "block",
        "fallthrough",
        "id",
        "k",
        "span",
    )?;
    let block = required(alloc, block)?;
    let fallthrough = required(alloc, fallthrough)?;
    let id = required(alloc, id)?;
    let span = optional(alloc, span)?;
    Ok(Terminal::Label {
        block,
        fallthrough,
        id,
        span,
    })
}

#[tactic(auto, unfolding(crate::specs::Terminals::Blocks::scope_of))]
fn scope(alloc: Global, from: &Value) -> Result<Terminal, Refusal>
    ensures { IsRead result (scope_of (view from.now)) }
{
    let (block, fallthrough, id, _, scope, span) = six_fields(
        from,
        "block",
        "fallthrough",
        "id",
        "k",
        "scope",
        "span",
    )?;
    let fallthrough = required(alloc, fallthrough)?;
    let block = required(alloc, block)?;
    let scope = required(alloc, scope)?;
    let id = required(alloc, id)?;
    let span = optional(alloc, span)?;
    Ok(Terminal::Scope {
        fallthrough,
        block,
        scope,
        id,
        span,
    })
}

#[tactic(auto, unfolding(crate::specs::Terminals::Blocks::pruned_scope_of))]
fn pruned_scope(alloc: Global, from: &Value) -> Result<Terminal, Refusal>
    ensures { IsRead result (pruned_scope_of (view from.now)) }
{
    let (block, fallthrough, id, _, scope, span) = six_fields(
        from,
        "block",
        "fallthrough",
        "id",
        "k",
        "scope",
        "span",
    )?;
    let fallthrough = required(alloc, fallthrough)?;
    let block = required(alloc, block)?;
    let scope = required(alloc, scope)?;
    let id = required(alloc, id)?;
    let span = optional(alloc, span)?;
    Ok(Terminal::PrunedScope {
        fallthrough,
        block,
        scope,
        id,
        span,
    })
}

#[tactic(auto, unfolding(crate::specs::Terminals::Blocks::try_of))]
fn try_terminal(alloc: Global, from: &Value) -> Result<Terminal, Refusal>
    ensures { IsRead result (try_of (view from.now)) }
{
    let (block, fallthrough, handler, handler_binding, id, _, span) = seven_fields(
        from,
        "block",
        "fallthrough",
        "handler",
        "handler_binding",
        "id",
        "k",
        "span",
    )?;
    let block = required(alloc, block)?;
    let handler_binding = optional(alloc, handler_binding)?;
    let handler = required(alloc, handler)?;
    let fallthrough = required(alloc, fallthrough)?;
    let id = required(alloc, id)?;
    let span = optional(alloc, span)?;
    Ok(Terminal::Try {
        block,
        handler_binding,
        handler,
        fallthrough,
        id,
        span,
    })
}
