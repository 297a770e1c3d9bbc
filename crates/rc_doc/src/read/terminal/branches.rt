//! Readers of the terminals that choose a way.

ghost use Rattle.std.specs.Prelude.{◌≡◌, ◌++◌};
ghost use Rattle.serde_json.specs.View.{view};
ghost use Rattle.rc_doc.specs.Reading.{IsRead, variant};
ghost use Rattle.rc_doc.specs.Terminals.Blocks.{block_terminals};
ghost use Rattle.rc_doc.specs.Terminals.Loops.{loop_terminals};
ghost use Rattle.rc_doc.specs.Terminals.Branches.{branch_of, branch_terminals, case_of, if_of, logical_of, logical_operator_of};
ghost use Rattle.rc_doc.specs.Terminals.Branches.{operator_named, optional_of, switch_of, ternary_of};

use crate::fields::{Read, flag, list_or_empty, optional, or_refuse, required};
use crate::members::{five_fields, seven_fields, six_fields, two_fields};
use crate::read::terminal::blocks;
use crate::refusal::Refusal;
use rc_hir::{Case, LogicalOperator, Terminal};
use serde_json::Value;
use std::alloc::Global;

/// The terminal with this name, of this family or of one after it.
pub(super) fn terminal_named(alloc: Global, name: &str, from: &Value) -> Result<Terminal, Refusal>
    ensures { IsRead result (variant (branch_terminals (view from.now) ++ block_terminals (view from.now) ++ loop_terminals (view from.now)) name.now) }
{
    match name {
        "If" => if_terminal(alloc, from),
        "Branch" => branch(alloc, from),
        "Logical" => logical(alloc, from),
        "Ternary" => ternary(alloc, from),
        "Optional" => optional_terminal(alloc, from),
        "Switch" => switch(alloc, from),
        _ => blocks::terminal_named(alloc, name, from),
    }
}

fn operator_named(name: &str) -> Option<LogicalOperator>
    ensures { result ≡ operator_named name.now }
{
    match name {
        "And" => Some(LogicalOperator::And),
        "Or" => Some(LogicalOperator::Or),
        "Coalesce" => Some(LogicalOperator::Coalesce),
        _ => None,
    }
}

impl Read for LogicalOperator {
    ghost reads = { logical_operator_of };

    fn read(_alloc: Global, from: &Value) -> Result<LogicalOperator, Refusal> {
        let name = or_refuse(from.as_str())?;
        or_refuse(operator_named(name))
    }
}

impl Read for Case {
    ghost reads = { case_of };

    #[tactic(auto, unfolding(crate::specs::Terminals::Branches::case_of))]
    fn read(alloc: Global, from: &Value) -> Result<Case, Refusal> {
        let (block, test) = two_fields(from, "block", "test")?;
        let test = optional(alloc, test)?;
        let block = required(alloc, block)?;
        Ok(Case { test, block })
    }
}

#[tactic(auto, unfolding(crate::specs::Terminals::Branches::if_of))]
fn if_terminal(alloc: Global, from: &Value) -> Result<Terminal, Refusal>
    ensures { IsRead result (if_of (view from.now)) }
{
    let (alternate, consequent, fallthrough, id, _, span, test) = seven_fields(
        from,
        "alternate",
        "consequent",
        "fallthrough",
        "id",
        "k",
        "span",
        "test",
    )?;
    let test = required(alloc, test)?;
    let consequent = required(alloc, consequent)?;
    let alternate = required(alloc, alternate)?;
    let fallthrough = required(alloc, fallthrough)?;
    let id = required(alloc, id)?;
    let span = optional(alloc, span)?;
    Ok(Terminal::If {
        test,
        consequent,
        alternate,
        fallthrough,
        id,
        span,
    })
}

#[tactic(auto, unfolding(crate::specs::Terminals::Branches::branch_of))]
fn branch(alloc: Global, from: &Value) -> Result<Terminal, Refusal>
    ensures { IsRead result (branch_of (view from.now)) }
{
    let (alternate, consequent, id, _, span, test) = six_fields(
        from,
        "alternate",
        "consequent",
        "id",
        "k",
        "span",
        "test",
    )?;
    let test = required(alloc, test)?;
    let consequent = required(alloc, consequent)?;
    let alternate = required(alloc, alternate)?;
    let id = required(alloc, id)?;
    let span = optional(alloc, span)?;
    Ok(Terminal::Branch {
        test,
        consequent,
        alternate,
        id,
        span,
    })
}

#[tactic(auto, unfolding(crate::specs::Terminals::Branches::logical_of))]
fn logical(alloc: Global, from: &Value) -> Result<Terminal, Refusal>
    ensures { IsRead result (logical_of (view from.now)) }
{
    let (fallthrough, id, _, operator, span, test) = six_fields(
        from,
        "fallthrough",
        "id",
        "k",
        "operator",
        "span",
        "test",
    )?;
    let operator = required(alloc, operator)?;
    let test = required(alloc, test)?;
    let fallthrough = required(alloc, fallthrough)?;
    let id = required(alloc, id)?;
    let span = optional(alloc, span)?;
    Ok(Terminal::Logical {
        operator,
        test,
        fallthrough,
        id,
        span,
    })
}

#[tactic(auto, unfolding(crate::specs::Terminals::Branches::ternary_of))]
fn ternary(alloc: Global, from: &Value) -> Result<Terminal, Refusal>
    ensures { IsRead result (ternary_of (view from.now)) }
{
    let (fallthrough, id, _, span, test) = five_fields(
        from,
        "fallthrough",
        "id",
        "k",
        "span",
        "test",
    )?;
    let test = required(alloc, test)?;
    let fallthrough = required(alloc, fallthrough)?;
    let id = required(alloc, id)?;
    let span = optional(alloc, span)?;
    Ok(Terminal::Ternary {
        test,
        fallthrough,
        id,
        span,
    })
}

#[tactic(auto, unfolding(crate::specs::Terminals::Branches::optional_of))]
fn optional_terminal(alloc: Global, from: &Value) -> Result<Terminal, Refusal>
    ensures { IsRead result (optional_of (view from.now)) }
{
    let (fallthrough, id, _, is_optional, span, test) = six_fields(
        from,
        "fallthrough",
        "id",
        "k",
        "optional",
        "span",
        "test",
    )?;
    let is_optional = flag(is_optional)?;
    let test = required(alloc, test)?;
    let fallthrough = required(alloc, fallthrough)?;
    let id = required(alloc, id)?;
    let span = optional(alloc, span)?;
    Ok(Terminal::Optional {
        optional: is_optional,
        test,
        fallthrough,
        id,
        span,
    })
}

#[tactic(auto, unfolding(crate::specs::Terminals::Branches::switch_of))]
fn switch(alloc: Global, from: &Value) -> Result<Terminal, Refusal>
    ensures { IsRead result (switch_of (view from.now)) }
{
    let (cases, fallthrough, id, _, span, test) = six_fields(
        from,
        "cases",
        "fallthrough",
        "id",
        "k",
        "span",
        "test",
    )?;
    let test = required(alloc, test)?;
    let cases = list_or_empty(alloc, cases)?;
    let fallthrough = required(alloc, fallthrough)?;
    let id = required(alloc, id)?;
    let span = optional(alloc, span)?;
    Ok(Terminal::Switch {
        test,
        cases,
        fallthrough,
        id,
        span,
    })
}
