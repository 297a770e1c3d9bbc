//! Parts of graphs, and given runs.

use rc_hir::{
    BasicBlock, Effect, Environment, Fault, GotoVariant, Hir, HirFunction, Instruction,
    InstructionValue, Place, Terminal,
};
use rc_names::{BlockId, EvaluationOrder, IdentifierId, InstructionId, Keyed, List};
use rc_replay::{GivenRun, replay_graph};
use std::alloc::{AllocError, Global};

/// A place that is read.
pub fn place(number: u32) -> Place {
    Place {
        identifier: IdentifierId::new(number),
        effect: Effect::Read,
        reactive: false,
        span: None,
    }
}

/// A row with this value.
fn row(value: InstructionValue) -> Instruction {
    Instruction {
        id: EvaluationOrder::new(1),
        lvalue: place(2),
        value,
        span: None,
    }
}

/// The blocks and rows of a graph.
#[derive(Drop)]
pub struct Parts {
    pub blocks: Keyed<BlockId, BasicBlock>,
    pub rows: List<Instruction>,
}

/// No blocks and no rows.
pub fn nothing(alloc: Global) -> Parts {
    Parts {
        blocks: Keyed::new(alloc),
        rows: List::new(alloc),
    }
}

/// Adds a block without rows, under its own number.
pub fn add_block(
    alloc: Global,
    parts: &mut Parts,
    number: u32,
    terminal: Terminal,
) -> Result<(), AllocError> {
    let block = BasicBlock {
        id: BlockId::new(number),
        instructions: List::new(alloc),
        terminal,
    };
    parts.blocks.insert(block.id, block)?;
    Ok(())
}

/// Adds a block with one row, under its own number.
pub fn add_row_block(
    alloc: Global,
    parts: &mut Parts,
    number: u32,
    value: InstructionValue,
    terminal: Terminal,
) -> Result<(), AllocError> {
    let mut instructions = List::new(alloc);
    if let Ok(index) = u32::try_from(parts.rows.len()) {
        instructions.push(InstructionId::new(index))?;
    }
    parts.rows.push(row(value))?;
    let block = BasicBlock {
        id: BlockId::new(number),
        instructions,
        terminal,
    };
    parts.blocks.insert(block.id, block)?;
    Ok(())
}

/// Adds block 0, which has row 0 `count` times.
pub fn add_repeated_block(
    alloc: Global,
    parts: &mut Parts,
    value: InstructionValue,
    count: u32,
    terminal: Terminal,
) -> Result<(), AllocError> {
    let mut instructions = List::new(alloc);
    for _ in 0..count {
        instructions.push(InstructionId::new(0))?;
    }
    parts.rows.push(row(value))?;
    let block = BasicBlock {
        id: BlockId::new(0),
        instructions,
        terminal,
    };
    parts.blocks.insert(block.id, block)?;
    Ok(())
}

/// The graph of these blocks and rows, whose entry is block 0.
pub fn graph(alloc: Global, parts: Parts) -> HirFunction {
    let Parts { blocks, rows } = parts;
    HirFunction {
        span: None,
        id: None,
        name_hint: None,
        params: List::new(alloc),
        generator: false,
        is_async: false,
        context: List::new(alloc),
        body: Hir {
            entry: BlockId::new(0),
            blocks,
        },
        instructions: rows,
        directives: List::new(alloc),
    }
}

/// A jump.
pub fn goto(block: u32) -> Terminal {
    Terminal::Goto {
        block: BlockId::new(block),
        variant: GotoVariant::Break,
        id: EvaluationOrder::new(1),
        span: None,
    }
}

/// The return of a place.
pub fn returns(number: u32) -> Terminal {
    Terminal::Return {
        value: place(number),
        id: EvaluationOrder::new(1),
        span: None,
    }
}

/// A choice of two blocks by the first parameter.
pub fn if_else(consequent: u32, alternate: u32) -> Terminal {
    Terminal::If {
        test: place(0),
        consequent: BlockId::new(consequent),
        alternate: BlockId::new(alternate),
        fallthrough: BlockId::new(alternate),
        id: EvaluationOrder::new(1),
        span: None,
    }
}

/// The end of a block whose row may throw.
pub fn may_throw(continuation: u32, handler: Option<u32>) -> Terminal {
    Terminal::MaybeThrow {
        continuation: BlockId::new(continuation),
        handler: handler.map(BlockId::new),
        id: EvaluationOrder::new(1),
        span: None,
    }
}

/// The value of a `debugger` statement.
pub fn debugger() -> InstructionValue {
    InstructionValue::Debugger { span: None }
}

/// Whether the run is one of the graph, where the environment has no identifiers.
pub fn is_run(alloc: Global, parts: Parts, run: &GivenRun) -> Result<bool, Fault> {
    let hir = graph(alloc, parts);
    replay_graph(alloc, &hir, &Environment::empty(alloc), run)
}
