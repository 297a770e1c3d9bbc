//! A tree written down as a list of lines.

use rc_names::List;
use rc_tree::{
    ReactiveBlock, ReactiveLabel, ReactiveStatement, ReactiveSwitchCase, ReactiveTerminal,
    ReactiveTerminalStatement, ReactiveTerminalTargetKind,
};
use std::alloc::{AllocError, Global};

/// A label by its number, and whether it is implicit.
pub type Label = Option<(u32, bool)>;

/// A statement by its id or number. One that holds statements is opened, and closed after them.
#[derive(Clone, Copy, Debug, PartialEq, Eq)]
pub enum Line {
    Row(u32),
    Break(u32, ReactiveTerminalTargetKind),
    Continue(u32, ReactiveTerminalTargetKind),
    Return(u32),
    Label(u32, Label),
    If(u32, Label),
    While(u32, Label),
    Switch(u32, Label),
    Scope(u32),
    PrunedScope(u32),
    /// Any other terminal.
    Other,
    End,
}

/// The lines of a block.
pub fn outline(alloc: Global, block: &ReactiveBlock) -> Result<List<Line>, AllocError> {
    let mut lines = List::new(alloc);
    put_block(block, &mut lines)?;
    Ok(lines)
}

#[cycle(put)]
fn put_block(block: &ReactiveBlock, lines: &mut List<Line>) -> Result<(), AllocError> {
    for statement in block.statements.as_slice() {
        put_statement(statement, lines)?;
    }
    Ok(())
}

#[cycle(put)]
fn put_statement(statement: &ReactiveStatement, lines: &mut List<Line>) -> Result<(), AllocError> {
    match statement {
        ReactiveStatement::Instruction(row) => lines.push(Line::Row(row.id.0)),
        ReactiveStatement::Terminal(stmt) => put_terminal(stmt.get(), lines),
        ReactiveStatement::Scope(scope) => {
            lines.push(Line::Scope(scope.scope.0))?;
            put_inside(&scope.instructions, lines)
        }
        ReactiveStatement::PrunedScope(scope) => {
            lines.push(Line::PrunedScope(scope.scope.0))?;
            put_inside(&scope.instructions, lines)
        }
    }
}

#[cycle(put)]
fn put_terminal(
    stmt: &ReactiveTerminalStatement,
    lines: &mut List<Line>,
) -> Result<(), AllocError> {
    let label = label_of(&stmt.label);
    match &stmt.terminal {
        ReactiveTerminal::Break {
            target,
            target_kind,
            ..
        } => lines.push(Line::Break(target.0, *target_kind)),
        ReactiveTerminal::Continue {
            target,
            target_kind,
            ..
        } => lines.push(Line::Continue(target.0, *target_kind)),
        ReactiveTerminal::Return { id, .. } => lines.push(Line::Return(id.0)),
        ReactiveTerminal::Label { block, id } => {
            lines.push(Line::Label(id.0, label))?;
            put_inside(block, lines)
        }
        ReactiveTerminal::If { consequent, id, .. } => {
            lines.push(Line::If(id.0, label))?;
            put_inside(consequent, lines)
        }
        ReactiveTerminal::While { loop_block, id, .. } => {
            lines.push(Line::While(id.0, label))?;
            put_inside(loop_block, lines)
        }
        ReactiveTerminal::Switch { cases, id, .. } => {
            lines.push(Line::Switch(id.0, label))?;
            put_cases(cases, lines)
        }
        _ => lines.push(Line::Other),
    }
}

#[cycle(put)]
fn put_cases(cases: &List<ReactiveSwitchCase>, lines: &mut List<Line>) -> Result<(), AllocError> {
    for case in cases.as_slice() {
        if let Some(block) = &case.block {
            put_inside(block, lines)?;
        }
    }
    Ok(())
}

/// A block, and the end of the statement that holds it.
#[cycle(put)]
fn put_inside(block: &ReactiveBlock, lines: &mut List<Line>) -> Result<(), AllocError> {
    put_block(block, lines)?;
    lines.push(Line::End)
}

fn label_of(label: &Option<ReactiveLabel>) -> Label {
    label.map(|label| (label.id.0, label.implicit))
}
