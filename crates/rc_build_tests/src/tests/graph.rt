//! A graph with a switch of two cases and a `for..of`, and its environment.
//!
//! Block 0 has a row and ends in the switch, whose cases are the blocks 1 and 2. The loop is at the fallthrough, block
//! 3: its init is block 4, its test block 5 and its body block 6. Block 7 returns.

use rc_hir::{
    BasicBlock, Case, Effect, Environment, GotoVariant, Hir, HirFunction, HirType, Identifier,
    Instruction, InstructionValue, ParamPattern, Place, PropertyLiteral, Terminal,
};
use rc_names::{
    BlockId, DeclarationId, EvaluationOrder, IdentifierId, InstructionId, Keyed, List, Span, Text,
    TypeId,
};
use std::alloc::{AllocError, Global};

/// The span of the first row.
pub const ROW_SPAN: Option<Span> = Some(Span { start: 3, end: 5 });

/// The span of the loop.
pub const LOOP_SPAN: Option<Span> = Some(Span { start: 9, end: 20 });

/// A place that is read.
pub fn place(number: u32) -> Place {
    Place {
        identifier: IdentifierId::new(number),
        effect: Effect::Read,
        reactive: false,
        span: None,
    }
}

/// The load of a property of the first parameter.
pub fn property(alloc: Global, name: &str) -> Result<InstructionValue, AllocError> {
    let name = Text::from_str(alloc, name)?;
    Ok(InstructionValue::PropertyLoad {
        object: place(0),
        property: PropertyLiteral::String(name),
        span: None,
    })
}

/// The iterator of the second parameter.
pub fn iterator() -> InstructionValue {
    InstructionValue::GetIterator {
        collection: place(1),
        span: None,
    }
}

/// Its next value.
pub fn next_value() -> InstructionValue {
    InstructionValue::IteratorNext {
        iterator: place(4),
        collection: place(1),
        span: None,
    }
}

/// A row without a span.
pub fn row(id: u32, target: u32, value: InstructionValue) -> Instruction {
    Instruction {
        id: EvaluationOrder::new(id),
        lvalue: place(target),
        value,
        span: None,
    }
}

/// The rows of the graph.
fn rows(alloc: Global) -> Result<List<Instruction>, AllocError> {
    let mut rows = List::new(alloc);
    let value = property(alloc, "b")?;
    rows.push(Instruction {
        id: EvaluationOrder::new(1),
        lvalue: place(2),
        value,
        span: ROW_SPAN,
    })?;
    rows.push(row(3, 3, InstructionValue::Debugger { span: None }))?;
    rows.push(row(7, 4, iterator()))?;
    rows.push(row(9, 5, next_value()))?;
    Ok(rows)
}

/// The indexes of the rows of a block.
fn rows_of(number: u32) -> Option<u32> {
    match number {
        0 => Some(0),
        1 => Some(1),
        4 => Some(2),
        5 => Some(3),
        _ => None,
    }
}

/// A jump.
pub fn jump(variant: GotoVariant, block: u32, id: u32) -> Terminal {
    Terminal::Goto {
        block: BlockId::new(block),
        variant,
        id: EvaluationOrder::new(id),
        span: None,
    }
}

/// The switch of two cases.
fn switch(alloc: Global) -> Result<Terminal, AllocError> {
    let cases = [
        Case {
            test: Some(place(1)),
            block: BlockId::new(1),
        },
        Case {
            test: None,
            block: BlockId::new(2),
        },
    ];
    let cases = List::from_slice(alloc, &cases)?;
    Ok(Terminal::Switch {
        test: place(0),
        cases,
        fallthrough: BlockId::new(3),
        id: EvaluationOrder::new(2),
        span: None,
    })
}

/// The terminal of a block.
fn terminal(alloc: Global, number: u32) -> Result<Terminal, AllocError> {
    match number {
        0 => switch(alloc),
        1 => Ok(jump(GotoVariant::Break, 3, 4)),
        2 => Ok(jump(GotoVariant::Break, 3, 5)),
        3 => Ok(Terminal::ForOf {
            init: BlockId::new(4),
            test: BlockId::new(5),
            loop_block: BlockId::new(6),
            fallthrough: BlockId::new(7),
            id: EvaluationOrder::new(6),
            span: LOOP_SPAN,
        }),
        4 => Ok(jump(GotoVariant::Break, 5, 8)),
        5 => Ok(Terminal::Branch {
            test: place(5),
            consequent: BlockId::new(6),
            alternate: BlockId::new(7),
            id: EvaluationOrder::new(10),
            span: None,
        }),
        6 => Ok(jump(GotoVariant::Continue, 4, 11)),
        _ => Ok(Terminal::Return {
            value: place(3),
            id: EvaluationOrder::new(12),
            span: None,
        }),
    }
}

/// A block of the graph.
fn block(alloc: Global, number: u32) -> Result<BasicBlock, AllocError> {
    let mut instructions = List::new(alloc);
    if let Some(row) = rows_of(number) {
        instructions.push(InstructionId::new(row))?;
    }
    let terminal = terminal(alloc, number)?;
    Ok(BasicBlock {
        id: BlockId::new(number),
        instructions,
        terminal,
    })
}

/// The blocks of the graph.
fn blocks(alloc: Global) -> Result<Keyed<BlockId, BasicBlock>, AllocError> {
    let mut blocks = Keyed::new(alloc);
    for number in 0u32..8 {
        blocks.insert(BlockId::new(number), block(alloc, number)?)?;
    }
    Ok(blocks)
}

/// The two parameters.
pub fn params(alloc: Global) -> Result<List<ParamPattern>, AllocError> {
    List::from_slice(
        alloc,
        &[ParamPattern::Place(place(0)), ParamPattern::Place(place(1))],
    )
}

/// A graph of these blocks and rows, with the first two identifiers as parameters.
pub fn function(
    alloc: Global,
    blocks: Keyed<BlockId, BasicBlock>,
    instructions: List<Instruction>,
) -> Result<HirFunction, AllocError> {
    let params = params(alloc)?;
    Ok(HirFunction {
        span: None,
        id: None,
        name_hint: None,
        params,
        generator: false,
        is_async: false,
        context: List::new(alloc),
        body: Hir {
            entry: BlockId::new(0),
            blocks,
        },
        instructions,
        directives: List::new(alloc),
    })
}

/// The graph.
pub fn graph(alloc: Global) -> Result<HirFunction, AllocError> {
    let blocks = blocks(alloc)?;
    function(alloc, blocks, rows(alloc)?)
}

/// An identifier with a declaration of its own.
fn identifier(number: u32) -> Identifier {
    Identifier {
        declaration_id: DeclarationId::new(number),
        name: None,
        scope: None,
        type_: TypeId::new(0),
        span: None,
    }
}

/// Six identifiers of one type.
pub fn environment(alloc: Global) -> Result<Environment, AllocError> {
    let mut env = Environment::empty(alloc);
    if !env.types.is_full() {
        env.types.push(HirType::Other)?;
    }
    for number in 0u32..6 {
        if !env.identifiers.is_full() {
            env.identifiers.push(identifier(number))?;
        }
    }
    env.next_block = 8;
    Ok(env)
}
