//! Terminals: their kinds, their spans, and the blocks that they name.

use rc_hir::{Case, Terminal};
use rc_names::{BlockId, List, ScopeId, Span};
use std::alloc::{AllocError, Global};

/// What a block is to the terminal that names it: the field, by its name in a document.
#[derive(Clone, Copy, Debug, PartialEq, Eq)]
pub enum Role {
    Fallthrough,
    Continuation,
    Test,
    Init,
    Update,
    LoopBlock,
    Consequent,
    Alternate,
    /// The block of the case at that index.
    Case(usize),
    /// What a label, a scope, a sequence or a try is around.
    Block,
    /// The handler of a try.
    Handler,
    /// The target of a `Goto`, which jumps to it.
    Target,
    /// The handler that a `MaybeThrow` names, which jumps to it.
    Catcher,
}

impl Role {
    /// The name of the field; of a case, that of the list.
    pub fn field(self) -> &'static str {
        match self {
            Role::Fallthrough => "fallthrough",
            Role::Continuation => "continuation",
            Role::Test => "test",
            Role::Init => "init",
            Role::Update => "update",
            Role::LoopBlock => "loop_block",
            Role::Consequent => "consequent",
            Role::Alternate => "alternate",
            Role::Case(_) => "cases",
            Role::Block | Role::Target => "block",
            Role::Handler | Role::Catcher => "handler",
        }
    }

    /// Whether the terminal only jumps to the block.
    pub fn is_jump(self) -> bool {
        matches!(self, Role::Target | Role::Catcher)
    }
}

/// A block that a terminal names.
#[derive(Clone, Copy, Debug, PartialEq, Eq)]
pub struct Naming {
    pub role: Role,
    pub block: BlockId,
}

/// The blocks that a terminal names, its fallthrough first. Fails only when out of memory.
pub fn namings(alloc: Global, terminal: &Terminal) -> Result<List<Naming>, AllocError> {
    let mut found = List::new(alloc);
    put_if(&mut found, Role::Fallthrough, fallthrough_of(terminal))?;
    put_branches(&mut found, terminal)?;
    put_jumps(&mut found, terminal)?;
    put_if(&mut found, Role::Init, init_of(terminal))?;
    put_if(&mut found, Role::Test, test_of(terminal))?;
    put_if(&mut found, Role::Update, update_of(terminal))?;
    put_if(&mut found, Role::LoopBlock, loop_block_of(terminal))?;
    put_if(&mut found, Role::Block, block_of(terminal))?;
    Ok(found)
}

/// The arms of a terminal that chooses, and the handler of a try.
fn put_branches(found: &mut List<Naming>, terminal: &Terminal) -> Result<(), AllocError> {
    match terminal {
        Terminal::If {
            consequent,
            alternate,
            ..
        }
        | Terminal::Branch {
            consequent,
            alternate,
            ..
        } => {
            put(found, Role::Consequent, *consequent)?;
            put(found, Role::Alternate, *alternate)
        }
        Terminal::Switch { cases, .. } => put_cases(found, cases.as_slice()),
        Terminal::Try { handler, .. } => put(found, Role::Handler, *handler),
        _ => Ok(()),
    }
}

/// The blocks to which a terminal goes on or jumps.
fn put_jumps(found: &mut List<Naming>, terminal: &Terminal) -> Result<(), AllocError> {
    match terminal {
        Terminal::Goto { block, .. } => put(found, Role::Target, *block),
        Terminal::MaybeThrow {
            continuation,
            handler,
            ..
        } => {
            put(found, Role::Continuation, *continuation)?;
            put_if(found, Role::Catcher, *handler)
        }
        _ => Ok(()),
    }
}

fn put(found: &mut List<Naming>, role: Role, block: BlockId) -> Result<(), AllocError> {
    found.push(Naming { role, block })
}

fn put_if(found: &mut List<Naming>, role: Role, block: Option<BlockId>) -> Result<(), AllocError> {
    match block {
        Some(block) => put(found, role, block),
        None => Ok(()),
    }
}

fn put_cases(found: &mut List<Naming>, cases: &[Case]) -> Result<(), AllocError> {
    for (index, case) in cases.iter().enumerate() {
        put(found, Role::Case(index), case.block)?;
    }
    Ok(())
}

/// The block of the value that comes before all turns of a loop, or before its test.
fn init_of(terminal: &Terminal) -> Option<BlockId> {
    match terminal {
        Terminal::For { init, .. } | Terminal::ForOf { init, .. } | Terminal::ForIn { init, .. } =>
            Some(*init),
        _ => None,
    }
}

/// The block of the test of a loop or of a value.
fn test_of(terminal: &Terminal) -> Option<BlockId> {
    match terminal {
        Terminal::DoWhile { test, .. }
        | Terminal::While { test, .. }
        | Terminal::For { test, .. }
        | Terminal::ForOf { test, .. }
        | Terminal::Logical { test, .. }
        | Terminal::Ternary { test, .. }
        | Terminal::Optional { test, .. } => Some(*test),
        _ => None,
    }
}

/// The block of a loop's update.
fn update_of(terminal: &Terminal) -> Option<BlockId> {
    match terminal {
        Terminal::For { update, .. } => *update,
        _ => None,
    }
}

/// The block that a label, a scope, a sequence or a try is around.
fn block_of(terminal: &Terminal) -> Option<BlockId> {
    match terminal {
        Terminal::Sequence { block, .. }
        | Terminal::Label { block, .. }
        | Terminal::Scope { block, .. }
        | Terminal::PrunedScope { block, .. }
        | Terminal::Try { block, .. } => Some(*block),
        _ => None,
    }
}

/// Where control is after the statement or the value of a terminal.
pub fn fallthrough_of(terminal: &Terminal) -> Option<BlockId> {
    match terminal {
        Terminal::If { fallthrough, .. }
        | Terminal::Logical { fallthrough, .. }
        | Terminal::Ternary { fallthrough, .. }
        | Terminal::Optional { fallthrough, .. }
        | Terminal::Sequence { fallthrough, .. }
        | Terminal::Switch { fallthrough, .. }
        | Terminal::DoWhile { fallthrough, .. }
        | Terminal::While { fallthrough, .. }
        | Terminal::For { fallthrough, .. }
        | Terminal::ForOf { fallthrough, .. }
        | Terminal::ForIn { fallthrough, .. }
        | Terminal::Label { fallthrough, .. }
        | Terminal::Scope { fallthrough, .. }
        | Terminal::PrunedScope { fallthrough, .. }
        | Terminal::Try { fallthrough, .. } => Some(*fallthrough),
        Terminal::Branch { .. }
        | Terminal::Throw { .. }
        | Terminal::Return { .. }
        | Terminal::Goto { .. }
        | Terminal::Unreachable { .. }
        | Terminal::MaybeThrow { .. } => None,
    }
}

/// The block with which the turns of a loop begin, to which a continue leads; none if the terminal is no loop.
pub fn loop_start(terminal: &Terminal) -> Option<Naming> {
    match terminal {
        Terminal::DoWhile { test, .. } | Terminal::While { test, .. } => Some(Naming {
            role: Role::Test,
            block: *test,
        }),
        Terminal::For { test, update, .. } => match update {
            Some(update) => Some(Naming {
                role: Role::Update,
                block: *update,
            }),
            None => Some(Naming {
                role: Role::Test,
                block: *test,
            }),
        },
        Terminal::ForOf { init, .. } | Terminal::ForIn { init, .. } => Some(Naming {
            role: Role::Init,
            block: *init,
        }),
        _ => None,
    }
}

/// The block of a loop's body; none if the terminal is no loop.
pub fn loop_block_of(terminal: &Terminal) -> Option<BlockId> {
    match terminal {
        Terminal::DoWhile { loop_block, .. }
        | Terminal::While { loop_block, .. }
        | Terminal::For { loop_block, .. }
        | Terminal::ForOf { loop_block, .. }
        | Terminal::ForIn { loop_block, .. } => Some(*loop_block),
        _ => None,
    }
}

/// The scope that a terminal opens, kept or pruned.
pub fn scope_named(terminal: &Terminal) -> Option<ScopeId> {
    match terminal {
        Terminal::Scope { scope, .. } | Terminal::PrunedScope { scope, .. } => Some(*scope),
        _ => None,
    }
}

/// The block to which a terminal may jump: that of a `Goto`, and the consequent of a `Branch`.
pub fn target_of(terminal: &Terminal) -> Option<BlockId> {
    match terminal {
        Terminal::Goto { block, .. } => Some(*block),
        Terminal::Branch { consequent, .. } => Some(*consequent),
        _ => None,
    }
}

/// Whether the terminal is a value, whose parts meet at its fallthrough.
pub fn is_value(terminal: &Terminal) -> bool {
    matches!(
        terminal,
        Terminal::Logical { .. }
            | Terminal::Ternary { .. }
            | Terminal::Optional { .. }
            | Terminal::Sequence { .. }
    )
}

/// The name of a terminal's kind in a document.
pub fn kind_of(terminal: &Terminal) -> &'static str {
    match terminal {
        Terminal::If { .. } => "If",
        Terminal::Branch { .. } => "Branch",
        Terminal::Logical { .. } => "Logical",
        Terminal::Ternary { .. } => "Ternary",
        Terminal::Optional { .. } => "Optional",
        Terminal::Sequence { .. } => "Sequence",
        Terminal::Throw { .. } => "Throw",
        Terminal::Return { .. } => "Return",
        Terminal::Goto { .. } => "Goto",
        Terminal::Switch { .. } => "Switch",
        Terminal::DoWhile { .. } => "DoWhile",
        Terminal::While { .. } => "While",
        Terminal::For { .. } => "For",
        Terminal::ForOf { .. } => "ForOf",
        Terminal::ForIn { .. } => "ForIn",
        Terminal::Label { .. } => "Label",
        Terminal::Unreachable { .. } => "Unreachable",
        Terminal::MaybeThrow { .. } => "MaybeThrow",
        Terminal::Scope { .. } => "Scope",
        Terminal::PrunedScope { .. } => "PrunedScope",
        Terminal::Try { .. } => "Try",
    }
}

/// Where a terminal is in the source, if that is known.
pub fn span_of(terminal: &Terminal) -> Option<Span> {
    match terminal {
        Terminal::If { span, .. }
        | Terminal::Branch { span, .. }
        | Terminal::Logical { span, .. }
        | Terminal::Ternary { span, .. }
        | Terminal::Optional { span, .. }
        | Terminal::Sequence { span, .. }
        | Terminal::Throw { span, .. }
        | Terminal::Return { span, .. }
        | Terminal::Goto { span, .. }
        | Terminal::Switch { span, .. }
        | Terminal::DoWhile { span, .. }
        | Terminal::While { span, .. }
        | Terminal::For { span, .. }
        | Terminal::ForOf { span, .. }
        | Terminal::ForIn { span, .. }
        | Terminal::Label { span, .. }
        | Terminal::Unreachable { span, .. }
        | Terminal::MaybeThrow { span, .. }
        | Terminal::Scope { span, .. }
        | Terminal::PrunedScope { span, .. }
        | Terminal::Try { span, .. } => *span,
    }
}
