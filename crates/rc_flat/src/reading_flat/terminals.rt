//! Readers of terminals: one function a terminal.

ghost use Rattle.std.specs.Prelude.{◌≡◌, codes};
ghost use Rattle.serde_json.specs.View.{view};
ghost use Rattle.rc_doc.specs.Reading.{IsRead, field};
ghost use Rattle.rc_flat.specs.ReadingFlat.Terminals.{do_while_of, flat_case_of, flat_terminal_of, for_in_of, for_of};
ghost use Rattle.rc_flat.specs.ReadingFlat.Terminals.{for_of_of, if_of, jump_of, labeled_of, leaving_of, switch_of};
ghost use Rattle.rc_flat.specs.ReadingFlat.Terminals.{target_kind_named, target_kind_of, try_of, while_of};

use crate::fields::{list_or_empty, only, optional, required};
use crate::terminal::{FlatSwitchCase, FlatTerminal};
use rc_doc::{Read, Refusal, tag};
use rc_tree::ReactiveTerminalTargetKind;
use serde_json::Value;
use std::alloc::Global;

fn target_kind_named(name: &str) -> Option<ReactiveTerminalTargetKind>
    ensures { result ≡ target_kind_named name.now }
{
    match name {
        "Implicit" => Some(ReactiveTerminalTargetKind::Implicit),
        "Labeled" => Some(ReactiveTerminalTargetKind::Labeled),
        "Unlabeled" => Some(ReactiveTerminalTargetKind::Unlabeled),
        _ => None,
    }
}

fn read_target_kind(value: &Value) -> Option<ReactiveTerminalTargetKind>
    ensures { result ≡ target_kind_of (view value.now) }
{
    target_kind_named(value.as_str()?)
}

/// The way in which a jump finds its target.
fn target_kind(from: &Value) -> Result<ReactiveTerminalTargetKind, Refusal>
    ensures { IsRead result (field target_kind_of (codes "target_kind") (view from.now)) }
{
    match from.get("target_kind") {
        Some(found) => read_target_kind(found).ok_or(Refusal::NotDoc),
        None => Err(Refusal::NotDoc),
    }
}

fn break_terminal(alloc: Global, from: &Value) -> Result<FlatTerminal, Refusal>
    ensures { IsRead result (jump_of FlatTerminal.Break (view from.now)) }
{
    only(from, &["id", "k", "target", "target_kind"])?;
    let target = required(alloc, from, "target")?;
    let target_kind = target_kind(from)?;
    let id = required(alloc, from, "id")?;
    Ok(FlatTerminal::Break {
        target,
        target_kind,
        id,
    })
}

fn continue_terminal(alloc: Global, from: &Value) -> Result<FlatTerminal, Refusal>
    ensures { IsRead result (jump_of FlatTerminal.Continue (view from.now)) }
{
    only(from, &["id", "k", "target", "target_kind"])?;
    let target = required(alloc, from, "target")?;
    let target_kind = target_kind(from)?;
    let id = required(alloc, from, "id")?;
    Ok(FlatTerminal::Continue {
        target,
        target_kind,
        id,
    })
}

fn return_terminal(alloc: Global, from: &Value) -> Result<FlatTerminal, Refusal>
    ensures { IsRead result (leaving_of FlatTerminal.Return (view from.now)) }
{
    only(from, &["id", "k", "value"])?;
    let value = required(alloc, from, "value")?;
    let id = required(alloc, from, "id")?;
    Ok(FlatTerminal::Return { value, id })
}

fn throw(alloc: Global, from: &Value) -> Result<FlatTerminal, Refusal>
    ensures { IsRead result (leaving_of FlatTerminal.Throw (view from.now)) }
{
    only(from, &["id", "k", "value"])?;
    let value = required(alloc, from, "value")?;
    let id = required(alloc, from, "id")?;
    Ok(FlatTerminal::Throw { value, id })
}

impl Read for FlatSwitchCase {
    ghost reads = { flat_case_of };

    #[tactic(auto, unfolding(crate::specs::ReadingFlat::Terminals::flat_case_of))]
    fn read(alloc: Global, from: &Value) -> Result<FlatSwitchCase, Refusal> {
        only(from, &["block", "test"])?;
        let test = optional(alloc, from, "test")?;
        let block = optional(alloc, from, "block")?;
        Ok(FlatSwitchCase { test, block })
    }
}

#[tactic(auto, unfolding(crate::specs::ReadingFlat::Terminals::switch_of))]
fn switch(alloc: Global, from: &Value) -> Result<FlatTerminal, Refusal>
    ensures { IsRead result (switch_of (view from.now)) }
{
    only(from, &["cases", "id", "k", "test"])?;
    let test = required(alloc, from, "test")?;
    let cases = list_or_empty(alloc, from, "cases")?;
    let id = required(alloc, from, "id")?;
    Ok(FlatTerminal::Switch { test, cases, id })
}

#[tactic(auto, unfolding(crate::specs::ReadingFlat::Terminals::do_while_of))]
fn do_while(alloc: Global, from: &Value) -> Result<FlatTerminal, Refusal>
    ensures { IsRead result (do_while_of (view from.now)) }
{
    only(from, &["id", "k", "loop_block", "test"])?;
    let loop_block = required(alloc, from, "loop_block")?;
    let test = required(alloc, from, "test")?;
    let id = required(alloc, from, "id")?;
    Ok(FlatTerminal::DoWhile {
        loop_block,
        test,
        id,
    })
}

#[tactic(auto, unfolding(crate::specs::ReadingFlat::Terminals::while_of))]
fn while_loop(alloc: Global, from: &Value) -> Result<FlatTerminal, Refusal>
    ensures { IsRead result (while_of (view from.now)) }
{
    only(from, &["id", "k", "loop_block", "test"])?;
    let test = required(alloc, from, "test")?;
    let loop_block = required(alloc, from, "loop_block")?;
    let id = required(alloc, from, "id")?;
    Ok(FlatTerminal::While {
        test,
        loop_block,
        id,
    })
}

#[tactic(auto, unfolding(crate::specs::ReadingFlat::Terminals::for_of))]
fn for_loop(alloc: Global, from: &Value) -> Result<FlatTerminal, Refusal>
    ensures { IsRead result (for_of (view from.now)) }
{
    only(from, &["id", "init", "k", "loop_block", "test", "update"])?;
    let init = required(alloc, from, "init")?;
    let test = required(alloc, from, "test")?;
    let update = optional(alloc, from, "update")?;
    let loop_block = required(alloc, from, "loop_block")?;
    let id = required(alloc, from, "id")?;
    Ok(FlatTerminal::For {
        init,
        test,
        update,
        loop_block,
        id,
    })
}

#[tactic(auto, unfolding(crate::specs::ReadingFlat::Terminals::for_of_of))]
fn for_of(alloc: Global, from: &Value) -> Result<FlatTerminal, Refusal>
    ensures { IsRead result (for_of_of (view from.now)) }
{
    only(from, &["id", "init", "k", "loop_block", "span", "test"])?;
    let init = required(alloc, from, "init")?;
    let test = required(alloc, from, "test")?;
    let loop_block = required(alloc, from, "loop_block")?;
    let span = optional(alloc, from, "span")?;
    let id = required(alloc, from, "id")?;
    Ok(FlatTerminal::ForOf {
        init,
        test,
        loop_block,
        span,
        id,
    })
}

#[tactic(auto, unfolding(crate::specs::ReadingFlat::Terminals::for_in_of))]
fn for_in(alloc: Global, from: &Value) -> Result<FlatTerminal, Refusal>
    ensures { IsRead result (for_in_of (view from.now)) }
{
    only(from, &["id", "init", "k", "loop_block", "span"])?;
    let init = required(alloc, from, "init")?;
    let loop_block = required(alloc, from, "loop_block")?;
    let span = optional(alloc, from, "span")?;
    let id = required(alloc, from, "id")?;
    Ok(FlatTerminal::ForIn {
        init,
        loop_block,
        span,
        id,
    })
}

#[tactic(auto, unfolding(crate::specs::ReadingFlat::Terminals::if_of))]
fn if_terminal(alloc: Global, from: &Value) -> Result<FlatTerminal, Refusal>
    ensures { IsRead result (if_of (view from.now)) }
{
    only(from, &["alternate", "consequent", "id", "k", "test"])?;
    let test = required(alloc, from, "test")?;
    let consequent = required(alloc, from, "consequent")?;
    let alternate = optional(alloc, from, "alternate")?;
    let id = required(alloc, from, "id")?;
    Ok(FlatTerminal::If {
        test,
        consequent,
        alternate,
        id,
    })
}

#[tactic(auto, unfolding(crate::specs::ReadingFlat::Terminals::labeled_of))]
fn labeled(alloc: Global, from: &Value) -> Result<FlatTerminal, Refusal>
    ensures { IsRead result (labeled_of (view from.now)) }
{
    only(from, &["block", "id", "k"])?;
    let block = required(alloc, from, "block")?;
    let id = required(alloc, from, "id")?;
    Ok(FlatTerminal::Label { block, id })
}

#[tactic(auto, unfolding(crate::specs::ReadingFlat::Terminals::try_of))]
fn try_terminal(alloc: Global, from: &Value) -> Result<FlatTerminal, Refusal>
    ensures { IsRead result (try_of (view from.now)) }
{
    only(from, &["block", "handler", "handler_binding", "id", "k"])?;
    let block = required(alloc, from, "block")?;
    let handler_binding = optional(alloc, from, "handler_binding")?;
    let handler = required(alloc, from, "handler")?;
    let id = required(alloc, from, "id")?;
    Ok(FlatTerminal::Try {
        block,
        handler_binding,
        handler,
        id,
    })
}

impl Read for FlatTerminal {
    ghost reads = { flat_terminal_of };

    #[tactic(auto, unfolding(crate::specs::ReadingFlat::Terminals::flat_terminal_of))]
    fn read(alloc: Global, from: &Value) -> Result<FlatTerminal, Refusal> {
        match tag(from) {
            Some("Break") => break_terminal(alloc, from),
            Some("Continue") => continue_terminal(alloc, from),
            Some("Return") => return_terminal(alloc, from),
            Some("Throw") => throw(alloc, from),
            Some("Switch") => switch(alloc, from),
            Some("DoWhile") => do_while(alloc, from),
            Some("While") => while_loop(alloc, from),
            Some("For") => for_loop(alloc, from),
            Some("ForOf") => for_of(alloc, from),
            Some("ForIn") => for_in(alloc, from),
            Some("If") => if_terminal(alloc, from),
            Some("Label") => labeled(alloc, from),
            Some("Try") => try_terminal(alloc, from),
            _ => Err(Refusal::NotDoc),
        }
    }
}
