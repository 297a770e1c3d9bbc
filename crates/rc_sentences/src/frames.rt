//! The blocks that a jump can name, and the block to which falling off a list leads.

use crate::graph::Graph;
use crate::line::Line;
use crate::parts::Part;
use crate::terminals::{Role, fallthrough_of, is_value, loop_start, scope_named};
use rc_hir::{Case, Terminal};
use rc_names::{BlockId, KeySet, List};
use std::alloc::{AllocError, Global};

/// A block that a jump can name, and what it is to the terminal of the block at a position.
#[derive(Clone, Copy, Debug, PartialEq, Eq)]
pub struct JumpTarget {
    pub block: BlockId,
    pub role: Role,
    pub statement: usize,
}

/// What the statements around a list give: the blocks that its jumps can name, and the block to which falling off it
/// leads, if it doesn't end the function.
#[derive(Drop)]
pub struct Frames {
    named: KeySet<BlockId>,
    pub next: Option<BlockId>,
}

/// The frames around the list that the block under a key is in. Fails only when out of memory.
pub fn frames_around(alloc: Global, graph: &Graph<'_>, key: BlockId) -> Result<Frames, AllocError> {
    let mut around = graph.parts_around(alloc, key)?;
    around.reverse();
    let mut frames = Frames {
        named: KeySet::new(alloc),
        next: None,
    };
    for part in around.as_slice() {
        frames.enter(graph, *part)?;
    }
    Ok(frames)
}

impl Frames {
    /// Whether a jump can name the block.
    pub fn names(&self, block: BlockId) -> bool {
        self.named.contains(block)
    }

    /// Goes into a part of a statement.
    fn enter(&mut self, graph: &Graph<'_>, part: Part) -> Result<(), AllocError> {
        let Some(terminal) = graph.terminal_at(part.statement) else {
            return Ok(());
        };
        match loop_start(terminal) {
            Some(start) => {
                if part.role == Role::LoopBlock {
                    self.next = Some(start.block);
                    self.named.insert(start.block)?;
                    self.put(fallthrough_of(terminal))?;
                }
                Ok(())
            }
            None => self.enter_statement(graph, terminal, part.role),
        }
    }

    /// Goes into a part of a statement that is no loop.
    fn enter_statement(
        &mut self,
        graph: &Graph<'_>,
        terminal: &Terminal,
        role: Role,
    ) -> Result<(), AllocError> {
        let Some(fallthrough) = fallthrough_of(terminal) else {
            return Ok(());
        };
        if is_value(terminal) {
            return Ok(());
        }
        if !self.names(fallthrough) && is_opened(graph, terminal, fallthrough) {
            self.next = Some(fallthrough);
            self.named.insert(fallthrough)?;
        }
        match terminal {
            Terminal::Switch { cases, .. } => self.enter_case(cases.as_slice(), role, fallthrough),
            _ => Ok(()),
        }
    }

    /// Goes into the list of a case, which falls into the next one.
    fn enter_case(
        &mut self,
        cases: &[Case],
        role: Role,
        fallthrough: BlockId,
    ) -> Result<(), AllocError> {
        let mut has_next = false;
        for (index, case) in cases.iter().enumerate() {
            if is_later(role, index) && !is_empty(*case, fallthrough) {
                self.named.insert(case.block)?;
                if !has_next {
                    self.next = Some(case.block);
                }
                has_next = true;
            }
        }
        Ok(())
    }

    /// Adds a block that a jump can name.
    fn put(&mut self, block: Option<BlockId>) -> Result<(), AllocError> {
        if let Some(block) = block {
            self.named.insert(block)?;
        }
        Ok(())
    }
}

/// Whether a jump may name the fallthrough of a statement that is no loop, as far as its block decides it.
fn is_opened(graph: &Graph<'_>, terminal: &Terminal, fallthrough: BlockId) -> bool {
    scope_named(terminal).is_some() || !graph.ends_unreachable(fallthrough)
}

/// Whether a case at that index comes after the one that is the part.
fn is_later(role: Role, index: usize) -> bool {
    match role {
        Role::Case(part) => part < index,
        _ => false,
    }
}

/// Whether a case is a default that leads straight to the fallthrough, which gives none in the tree.
fn is_empty(case: Case, fallthrough: BlockId) -> bool {
    case.test.is_none() && case.block == fallthrough
}

/// What a block that a jump can name is to the innermost statement that lets it, given the parts around the jump.
pub fn jump_target(graph: &Graph<'_>, around: &[Part], block: BlockId) -> Option<JumpTarget> {
    for part in around {
        if let Some(role) = role_around(graph, *part, block) {
            return Some(JumpTarget {
                block,
                role,
                statement: part.statement,
            });
        }
    }
    None
}

/// What a block that a jump out of the part can name is to the statement.
fn role_around(graph: &Graph<'_>, part: Part, block: BlockId) -> Option<Role> {
    let terminal = graph.terminal_at(part.statement)?;
    let fallthrough = fallthrough_of(terminal)?;
    if is_value(terminal) {
        return None;
    }
    if let Some(start) = loop_start(terminal) {
        if part.role != Role::LoopBlock {
            return None;
        }
        if start.block == block {
            return Some(start.role);
        }
    }
    if fallthrough == block {
        return Some(Role::Fallthrough);
    }
    match terminal {
        Terminal::Switch { cases, .. } => later_case(cases.as_slice(), part.role, block),
        _ => None,
    }
}

/// What a block is that a case after the part has.
fn later_case(cases: &[Case], role: Role, block: BlockId) -> Option<Role> {
    for (index, case) in cases.iter().enumerate() {
        if is_later(role, index) && case.block == block {
            return Some(Role::Case(index));
        }
    }
    None
}

/// Writes where falling off a list leads: "block 4" or "the end of the function".
pub fn write_next(line: &mut Line, frames: &Frames) -> Result<(), AllocError> {
    match frames.next {
        Some(block) => line.number("block ", block.0),
        None => line.push("the end of the function"),
    }
}
