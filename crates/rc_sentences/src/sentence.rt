//! The sentence that says why a graph is refused.

use crate::arms::{write_loud, write_short};
use crate::blocks::{
    write_dead, write_key, write_no_block, write_scope_twice, write_twice, write_unset,
};
use crate::graph::Graph;
use crate::jumps::{write_break, write_continue, write_leaving, write_try_exit};
use crate::limits::{write_early_return, write_no_numbers};
use crate::line::Line;
use crate::loops::write_loop;
use crate::names::write_bad_name;
use crate::needs::write_uninitialised;
use crate::outside::write_outside;
use crate::records::write_no_record;
use crate::statements::{write_falls_elsewhere, write_switch};
use crate::tries::{write_handler, write_throw};
use crate::values::{write_empty, write_label, write_no_value, write_tested, write_value_end};
use rc_hir::{Environment, Fault, HirFunction, Rule};
use rc_names::{BlockId, Text};
use std::alloc::{AllocError, Global};

/// Returns a fault of a graph in a sentence: what the graph has, what was asked for, and which word `rc explain` takes.
/// Fails only when out of memory.
pub fn fault_sentence(
    alloc: Global,
    fault: &Fault,
    hir: &HirFunction,
    env: &Environment,
) -> Result<Text, AllocError> {
    let graph = Graph::new(alloc, hir, env)?;
    let mut line = Line::new(alloc);
    write_fault(alloc, &mut line, &graph, *fault)?;
    line.push("; `rc explain ")?;
    line.push(name_of(*fault))?;
    line.push("` says more")?;
    Ok(line.finish())
}

/// What the graph has, and what was asked for.
fn write_fault(
    alloc: Global,
    line: &mut Line,
    graph: &Graph<'_>,
    fault: Fault,
) -> Result<(), AllocError> {
    match fault {
        Fault::Malformed { block, rule } => write_broken(alloc, line, graph, block, rule),
        Fault::Todo { block } => write_label(alloc, line, graph, block),
        Fault::BadName { table, index } => {
            write_bad_name(alloc, line, graph.hir, graph.env, table, index)
        }
        Fault::EarlyReturnSet { scope } => write_early_return(line, graph, scope),
        Fault::ScopeCompleted { id, scope } => write_outside(alloc, line, graph, id, scope),
        Fault::NoIds => write_no_numbers(line, graph),
        Fault::Uninitialised { declaration } => {
            write_uninitialised(alloc, line, graph, declaration)
        }
        Fault::NoScopeNode { scope } => write_no_record(alloc, line, graph, scope),
        Fault::NoMemory | Fault::BadTarget { .. } | Fault::FunctionCycle { .. } => line.push(
            "a pass refuses it",
        ),
    }
}

/// How a block breaks a rule.
fn write_broken(
    alloc: Global,
    line: &mut Line,
    graph: &Graph<'_>,
    block: BlockId,
    rule: Rule,
) -> Result<(), AllocError> {
    match rule {
        Rule::NoBlock => write_no_block(alloc, line, graph, block),
        Rule::KeyDiffers => write_key(line, graph, block),
        Rule::UnsetId => write_unset(line, graph, block),
        Rule::Twice => write_twice(alloc, line, graph, block),
        Rule::Dead => write_dead(alloc, line, graph, block),
        Rule::ScopeTwice => write_scope_twice(line, graph, block),
        Rule::BreakTarget => write_break(alloc, line, graph, block),
        Rule::ContinueTarget => write_continue(alloc, line, graph, block),
        Rule::CaseLabel => write_leaving(alloc, line, graph, block, "the case before it"),
        Rule::ScopeBreak => write_leaving(alloc, line, graph, block, "the scope itself"),
        Rule::GotoTry => write_try_exit(alloc, line, graph, block),
        Rule::LoopLive => write_loop(alloc, line, graph, block),
        Rule::SwitchCase => write_switch(line, graph, block),
        Rule::FallsElsewhere => write_falls_elsewhere(alloc, line, graph, block),
        Rule::EmptyValue => write_empty(alloc, line, graph, block),
        Rule::ValueEnd => write_value_end(alloc, line, graph, block),
        Rule::NotValue => write_no_value(alloc, line, graph, block),
        Rule::Tested => write_tested(line, graph, block),
        Rule::LoudArm => write_loud(line, graph, block),
        Rule::ShortArm => write_short(line, graph, block),
        Rule::Handler => write_handler(alloc, line, graph, block),
        Rule::ThrowInTry => write_throw(alloc, line, graph, block),
        Rule::OtherTree => {
            graph.write_block(line, block)?;
            line.push(" is the entry of a graph that spells another tree than the one given")
        }
    }
}

/// The name of a fault, or of the rule that is broken.
fn name_of(fault: Fault) -> &'static str {
    match fault {
        Fault::Malformed { rule, .. } => rule_name(rule),
        Fault::Todo { .. } => "Todo",
        Fault::EarlyReturnSet { .. } => "EarlyReturnSet",
        Fault::ScopeCompleted { .. } => "ScopeCompleted",
        Fault::Uninitialised { .. } => "Uninitialised",
        Fault::NoScopeNode { .. } => "NoScopeNode",
        Fault::BadName { .. } => "BadName",
        Fault::NoIds => "NoIds",
        Fault::NoMemory => "NoMemory",
        Fault::BadTarget { .. } => "BadTarget",
        Fault::FunctionCycle { .. } => "FunctionCycle",
    }
}

fn rule_name(rule: Rule) -> &'static str {
    match rule {
        Rule::NoBlock => "NoBlock",
        Rule::KeyDiffers => "KeyDiffers",
        Rule::UnsetId => "UnsetId",
        Rule::Twice => "Twice",
        Rule::BreakTarget => "BreakTarget",
        Rule::ContinueTarget => "ContinueTarget",
        Rule::CaseLabel => "CaseLabel",
        Rule::ScopeBreak => "ScopeBreak",
        Rule::GotoTry => "GotoTry",
        Rule::LoopLive => "LoopLive",
        Rule::SwitchCase => "SwitchCase",
        Rule::EmptyValue => "EmptyValue",
        Rule::ValueEnd => "ValueEnd",
        Rule::NotValue => "NotValue",
        Rule::Tested => "Tested",
        Rule::LoudArm => "LoudArm",
        Rule::ShortArm => "ShortArm",
        Rule::Handler => "Handler",
        Rule::ThrowInTry => "ThrowInTry",
        Rule::Dead => "Dead",
        Rule::ScopeTwice => "ScopeTwice",
        Rule::FallsElsewhere => "FallsElsewhere",
        Rule::OtherTree => "OtherTree",
    }
}
