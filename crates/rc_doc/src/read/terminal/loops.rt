//! Readers of the terminals that loop.

ghost use Rattle.serde_json.specs.View.{view};
ghost use Rattle.rc_doc.specs.Reading.{IsRead, variant};
ghost use Rattle.rc_doc.specs.Terminals.Loops.{do_while_of, for_in_of, for_of, for_of_of, loop_terminals, while_of};

use crate::fields::{optional, required};
use crate::members::{eight_fields, seven_fields, six_fields};
use crate::refusal::Refusal;
use rc_hir::Terminal;
use serde_json::Value;
use std::alloc::Global;

/// The terminal of this family with this name.
pub(super) fn terminal_named(alloc: Global, name: &str, from: &Value) -> Result<Terminal, Refusal>
    ensures { IsRead result (variant (loop_terminals (view from.now)) name.now) }
{
    match name {
        "DoWhile" => do_while(alloc, from),
        "While" => while_terminal(alloc, from),
        "For" => for_terminal(alloc, from),
        "ForOf" => for_of(alloc, from),
        "ForIn" => for_in(alloc, from),
        _ => Err(Refusal::NotDoc),
    }
}

#[tactic(auto, unfolding(crate::specs::Terminals::Loops::do_while_of))]
fn do_while(alloc: Global, from: &Value) -> Result<Terminal, Refusal>
    ensures { IsRead result (do_while_of (view from.now)) }
{
    let (fallthrough, id, _, loop_block, span, test) = six_fields(
        from,
        "fallthrough",
        "id",
        "k",
        "loop_block",
        "span",
        "test",
    )?;
    let loop_block = required(alloc, loop_block)?;
    let test = required(alloc, test)?;
    let fallthrough = required(alloc, fallthrough)?;
    let id = required(alloc, id)?;
    let span = optional(alloc, span)?;
    Ok(Terminal::DoWhile {
        loop_block,
        test,
        fallthrough,
        id,
        span,
    })
}

#[tactic(auto, unfolding(crate::specs::Terminals::Loops::while_of))]
fn while_terminal(alloc: Global, from: &Value) -> Result<Terminal, Refusal>
    ensures { IsRead result (while_of (view from.now)) }
{
    let (fallthrough, id, _, loop_block, span, test) = six_fields(
        from,
        "fallthrough",
        "id",
        "k",
        "loop_block",
        "span",
        "test",
    )?;
    let test = required(alloc, test)?;
    let loop_block = required(alloc, loop_block)?;
    let fallthrough = required(alloc, fallthrough)?;
    let id = required(alloc, id)?;
    let span = optional(alloc, span)?;
    Ok(Terminal::While {
        test,
        loop_block,
        fallthrough,
        id,
        span,
    })
}

#[tactic(auto, unfolding(crate::specs::Terminals::Loops::for_of))]
fn for_terminal(alloc: Global, from: &Value) -> Result<Terminal, Refusal>
    ensures { IsRead result (for_of (view from.now)) }
{
    let (fallthrough, id, init, _, loop_block, span, test, update) = eight_fields(
        from,
        "fallthrough",
        "id",
        "init",
        "k",
        "loop_block",
        "span",
        "test",
        "update",
    )?;
    let init = required(alloc, init)?;
    let test = required(alloc, test)?;
    let update = optional(alloc, update)?;
    let loop_block = required(alloc, loop_block)?;
    let fallthrough = required(alloc, fallthrough)?;
    let id = required(alloc, id)?;
    let span = optional(alloc, span)?;
    Ok(Terminal::For {
        init,
        test,
        update,
        loop_block,
        fallthrough,
        id,
        span,
    })
}

#[tactic(auto, unfolding(crate::specs::Terminals::Loops::for_of_of))]
fn for_of(alloc: Global, from: &Value) -> Result<Terminal, Refusal>
    ensures { IsRead result (for_of_of (view from.now)) }
{
    let (fallthrough, id, init, _, loop_block, span, test) = seven_fields(
        from,
        "fallthrough",
        "id",
        "init",
        "k",
        "loop_block",
        "span",
        "test",
    )?;
    let init = required(alloc, init)?;
    let test = required(alloc, test)?;
    let loop_block = required(alloc, loop_block)?;
    let fallthrough = required(alloc, fallthrough)?;
    let id = required(alloc, id)?;
    let span = optional(alloc, span)?;
    Ok(Terminal::ForOf {
        init,
        test,
        loop_block,
        fallthrough,
        id,
        span,
    })
}

#[tactic(auto, unfolding(crate::specs::Terminals::Loops::for_in_of))]
fn for_in(alloc: Global, from: &Value) -> Result<Terminal, Refusal>
    ensures { IsRead result (for_in_of (view from.now)) }
{
    let (fallthrough, id, init, _, loop_block, span) = six_fields(
        from,
        "fallthrough",
        "id",
        "init",
        "k",
        "loop_block",
        "span",
    )?;
    let init = required(alloc, init)?;
    let loop_block = required(alloc, loop_block)?;
    let fallthrough = required(alloc, fallthrough)?;
    let id = required(alloc, id)?;
    let span = optional(alloc, span)?;
    Ok(Terminal::ForIn {
        init,
        loop_block,
        fallthrough,
        id,
        span,
    })
}
