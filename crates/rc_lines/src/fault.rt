//! The line that reports a fault.

ghost use Rattle.std.specs.Prelude.{◌≡◌, ◌++◌, IfOk, OnOk, option_map, decimal};
ghost use Rattle.rc_lines.specs.FaultLine.{rule_name, table_name, fault_name, place_of_fault, fault_line};

use crate::page::Page;
use rc_hir::{Fault, Rule, TableName};
use std::alloc::{AllocError, Global};

/// The line that reports a fault, with its line feed. `NoMemory` has a status of its own, and `BadTarget` and
/// `FunctionCycle` never come from `build_and_prune`; for all three the text is empty.
///
/// Fails only when out of memory.
pub fn fault_line(alloc: Global, fault: &Fault) -> Result<Page, AllocError>
    ensures { IfOk result (λ page. page ≡ fault_line fault.now) }
{
    let mut page = Page::new(alloc);
    if let Some(name) = name_of(*fault) {
        page.push("fault ")?;
        page.push(name)?;
        write_place(&mut page, *fault)?;
        page.push("\n")?;
    }
    Ok(page)
}

/// A fault's number and name; none for a fault that has no line.
fn name_of(fault: Fault) -> Option<&'static str>
    ensures { option_map (λ name. name.now) result ≡ fault_name fault }
{
    match fault {
        Fault::Malformed { .. } => Some("1 Malformed"),
        Fault::Todo { .. } => Some("2 Todo"),
        Fault::EarlyReturnSet { .. } => Some("3 EarlyReturnSet"),
        Fault::ScopeCompleted { .. } => Some("4 ScopeCompleted"),
        Fault::Uninitialised { .. } => Some("5 Uninitialised"),
        Fault::NoScopeNode { .. } => Some("6 NoScopeNode"),
        Fault::BadName { .. } => Some("7 BadName"),
        Fault::NoIds => Some("8 NoIds"),
        Fault::NoMemory | Fault::BadTarget { .. } | Fault::FunctionCycle { .. } => None,
    }
}

/// Where a fault was found.
fn write_place(page: &mut Page, fault: Fault) -> Result<(), AllocError>
    ensures { OnOk result (page.new ≡ page.old ++ place_of_fault fault) }
{
    match fault {
        Fault::Malformed { block, rule } => {
            write_numbered(page, " block ", block.0)?;
            page.push(" rule ")?;
            page.push(rule_name(rule))
        }
        Fault::Todo { block } => write_numbered(page, " block ", block.0),
        Fault::EarlyReturnSet { scope } | Fault::NoScopeNode { scope } => write_numbered(
            page, " scope ", scope.0,
        ),
        Fault::ScopeCompleted { id, scope } => {
            write_numbered(page, " id ", id.0)?;
            write_numbered(page, " scope ", scope.0)
        }
        Fault::Uninitialised { declaration } => write_numbered(
            page,
            " declaration ",
            declaration.0,
        ),
        Fault::BadName { table, index } => {
            page.push(" ")?;
            page.push(table_name(table))?;
            write_numbered(page, " ", index)
        }
        Fault::NoIds | Fault::NoMemory | Fault::BadTarget { .. } | Fault::FunctionCycle { .. } =>
            Ok(()),
    }
}

/// A number after its name.
fn write_numbered(page: &mut Page, name: &str, n: u32) -> Result<(), AllocError>
    ensures { OnOk result (page.new ≡ page.old ++ (name.now ++ decimal n)) }
{
    page.push(name)?;
    page.number(n)
}

fn rule_name(rule: Rule) -> &'static str
    ensures { result.now ≡ rule_name rule }
{
    match rule {
        Rule::NoBlock => "NoBlock",
        Rule::KeyDiffers => "KeyDiffers",
        Rule::UnsetId => "UnsetId",
        Rule::Twice => "Twice",
        Rule::BreakTarget => "BreakTarget",
        Rule::ContinueTarget => "ContinueTarget",
        Rule::CaseLabel => "CaseLabel",
        Rule::ScopeBreak => "ScopeBreak",
        Rule::GotoTry => "GotoTry",
        Rule::LoopLive => "LoopLive",
        Rule::SwitchCase => "SwitchCase",
        Rule::EmptyValue => "EmptyValue",
        Rule::ValueEnd => "ValueEnd",
        Rule::NotValue => "NotValue",
        Rule::Tested => "Tested",
        Rule::LoudArm => "LoudArm",
        Rule::ShortArm => "ShortArm",
        Rule::Handler => "Handler",
        Rule::ThrowInTry => "ThrowInTry",
        Rule::Dead => "Dead",
        Rule::ScopeTwice => "ScopeTwice",
        Rule::FallsElsewhere => "FallsElsewhere",
        Rule::OtherTree => "OtherTree",
    }
}

fn table_name(table: TableName) -> &'static str
    ensures { result.now ≡ table_name table }
{
    match table {
        TableName::Identifiers => "Identifiers",
        TableName::Declarations => "Declarations",
        TableName::Types => "Types",
        TableName::Scopes => "Scopes",
        TableName::Functions => "Functions",
        TableName::Instructions => "Instructions",
        TableName::Shapes => "Shapes",
    }
}
