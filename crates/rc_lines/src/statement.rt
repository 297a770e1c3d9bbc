//! Statements, each with the lines below it.
//!
//! A step down is a number of spaces more, and lists are loops, so the call stack grows with nesting alone.

ghost use Rattle.std.specs.Prelude.{◌≡◌, ◌++◌, OnOk, map, option_map};
ghost use Rattle.rc_lines.specs.Lines.{all_lines, part, optional_part, catch_text, statement_lines, terminal_lines};
ghost use Rattle.rc_lines.specs.Lines.{case_lines, block_lines};

use crate::page::{Page, deeper};
use crate::terminal::{
    write_case_name, write_catch_name, write_head, write_scope_name, write_value_line, write_values,
};
use crate::value::write_row;
use rc_hir::Place;
use rc_tree::{ReactiveBlock, ReactiveStatement, ReactiveSwitchCase, ReactiveTerminal};
use std::alloc::AllocError;

/// The statements of a block.
#[cycle(statement)]
pub fn write_block(page: &mut Page, block: &ReactiveBlock, indent: usize) -> Result<(), AllocError>
    ensures { OnOk result (page.new ≡ page.old ++ block_lines block.now indent) }
{
    write_statements(page, block.statements.as_slice(), indent)
}

/// Statements one after the other.
#[cycle(statement)]
fn write_statements(
    page: &mut Page,
    statements: &[ReactiveStatement],
    indent: usize,
) -> Result<(), AllocError>
    ensures { OnOk result (page.new ≡ page.old ++ all_lines (map statement_lines statements.now) indent) }
{
    for statement in statements {
        write_statement(page, statement, indent)?;
    }
    Ok(())
}

/// A statement, and the lines below it.
#[cycle(statement)]
fn write_statement(
    page: &mut Page,
    statement: &ReactiveStatement,
    indent: usize,
) -> Result<(), AllocError>
    ensures { OnOk result (page.new ≡ page.old ++ statement_lines statement.now indent) }
{
    page.indent(indent)?;
    match statement {
        ReactiveStatement::Instruction(row) => {
            write_row(page, row)?;
            page.push("\n")
        }
        ReactiveStatement::Terminal(statement) => {
            let statement = statement.get();
            let below = deeper(indent)?;
            write_head(page, &statement.terminal, statement.label)?;
            page.push("\n")?;
            write_values(page, &statement.terminal, below)?;
            write_blocks(page, &statement.terminal, below)
        }
        ReactiveStatement::Scope(scope) => {
            write_scope_name(page, "scope ", scope.scope)?;
            write_block(page, &scope.instructions, deeper(indent)?)
        }
        ReactiveStatement::PrunedScope(scope) => {
            write_scope_name(page, "pruned ", scope.scope)?;
            write_block(page, &scope.instructions, deeper(indent)?)
        }
    }
}

/// The blocks of a terminal. The test of a do-while comes after its body.
#[cycle(statement)]
fn write_blocks(
    page: &mut Page,
    terminal: &ReactiveTerminal,
    indent: usize,
) -> Result<(), AllocError>
    ensures { OnOk result (page.new ≡ page.old ++ (terminal_lines terminal.now).blocks indent) }
{
    match terminal {
        ReactiveTerminal::Break { .. }
        | ReactiveTerminal::Continue { .. }
        | ReactiveTerminal::Return { .. }
        | ReactiveTerminal::Throw { .. } => Ok(()),
        ReactiveTerminal::If {
            consequent,
            alternate,
            ..
        } => {
            write_part(page, "then", consequent, indent)?;
            write_optional_part(page, "else", alternate, indent)
        }
        ReactiveTerminal::Switch { cases, .. } => write_cases(page, cases.as_slice(), indent),
        ReactiveTerminal::DoWhile {
            loop_block,
            test,
            ..
        } => {
            write_part(page, "body", loop_block, indent)?;
            write_value_line(page, "test ", test, indent)
        }
        ReactiveTerminal::While { loop_block, .. }
        | ReactiveTerminal::For { loop_block, .. }
        | ReactiveTerminal::ForOf { loop_block, .. }
        | ReactiveTerminal::ForIn { loop_block, .. } => write_part(
            page, "body", loop_block, indent,
        ),
        ReactiveTerminal::Label { block, .. } => write_part(page, "body", block, indent),
        ReactiveTerminal::Try {
            block,
            handler_binding,
            handler,
            ..
        } => {
            write_part(page, "block", block, indent)?;
            write_catch(page, *handler_binding, handler, indent)
        }
    }
}

/// A named part, with its block.
#[cycle(statement)]
fn write_part(
    page: &mut Page,
    name: &str,
    block: &ReactiveBlock,
    indent: usize,
) -> Result<(), AllocError>
    ensures { OnOk result (page.new ≡ page.old ++ part name.now (block_lines block.now) indent) }
{
    page.indent(indent)?;
    page.push(name)?;
    page.push("\n")?;
    write_block(page, block, deeper(indent)?)
}

/// A named part, where there is one.
#[cycle(statement)]
fn write_optional_part(
    page: &mut Page,
    name: &str,
    block: &Option<ReactiveBlock>,
    indent: usize,
) -> Result<(), AllocError>
    ensures { OnOk result (page.new ≡ page.old ++ optional_part name.now (option_map block_lines block.now) indent) }
{
    match block {
        Some(block) => write_part(page, name, block, indent),
        None => Ok(()),
    }
}

/// The part of a handler, with its block.
#[cycle(statement)]
fn write_catch(
    page: &mut Page,
    binding: Option<Place>,
    handler: &ReactiveBlock,
    indent: usize,
) -> Result<(), AllocError>
    ensures { OnOk result (page.new ≡ page.old ++ part (catch_text binding) (block_lines handler.now) indent) }
{
    page.indent(indent)?;
    write_catch_name(page, binding)?;
    page.push("\n")?;
    write_block(page, handler, deeper(indent)?)
}

/// The cases of a switch.
#[cycle(statement)]
fn write_cases(
    page: &mut Page,
    cases: &[ReactiveSwitchCase],
    indent: usize,
) -> Result<(), AllocError>
    ensures { OnOk result (page.new ≡ page.old ++ all_lines (map case_lines cases.now) indent) }
{
    for case in cases {
        write_case(page, case, indent)?;
    }
    Ok(())
}

/// A case with its block, or without one.
#[cycle(statement)]
fn write_case(page: &mut Page, case: &ReactiveSwitchCase, indent: usize) -> Result<(), AllocError>
    ensures { OnOk result (page.new ≡ page.old ++ case_lines case.now indent) }
{
    page.indent(indent)?;
    write_case_name(page, case.test)?;
    match &case.block {
        Some(block) => {
            page.push("\n")?;
            write_block(page, block, deeper(indent)?)
        }
        None => page.push(" none\n"),
    }
}
