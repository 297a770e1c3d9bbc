//! Graphs and environments that several tests start from.

use rc_hir::{
    BasicBlock, Effect, Environment, Fault, Hir, HirFunction, HirType, Identifier, Instruction,
    InstructionValue, LoweredFunction, MutableRange, ParamPattern, Place, ReactiveScope,
    ReactiveScopeEarlyReturn, Terminal,
};
use rc_names::{
    BlockId, DeclarationId, EvaluationOrder, FunctionId, IdentifierId, InstructionId, Keyed, List,
    ScopeId, TypeId,
};
use std::alloc::Global;

/// A place that is read.
pub fn read(number: u32) -> Place {
    Place {
        identifier: IdentifierId::new(number),
        effect: Effect::Read,
        reactive: false,
        span: None,
    }
}

/// That many identifiers of type 0, each with its own declaration.
pub fn environment(alloc: Global, identifiers: u32) -> Result<Environment, Fault> {
    let mut env = Environment::empty(alloc);
    env.types.push(HirType::Other)?;
    for number in 0..identifiers {
        if !env.identifiers.is_full() {
            env.identifiers.push(identifier(number))?;
        }
    }
    Ok(env)
}

fn identifier(declaration: u32) -> Identifier {
    Identifier {
        declaration_id: DeclarationId::new(declaration),
        name: None,
        scope: None,
        type_: TypeId::new(0),
        span: None,
    }
}

/// A value that has no operands.
pub fn debugger() -> InstructionValue {
    InstructionValue::Debugger { span: None }
}

/// The function of that number, as a value.
pub fn nested(number: u32) -> InstructionValue {
    InstructionValue::FunctionExpression {
        name: None,
        lowered_func: LoweredFunction {
            func: FunctionId::new(number),
        },
        span: None,
    }
}

/// A function of one block, which names one row and returns its target. The row is missing.
pub fn one_block(alloc: Global, context: &[Place]) -> Result<HirFunction, Fault> {
    let rows = List::from_slice(alloc, &[InstructionId::new(0)])?;
    let mut blocks = Keyed::new(alloc);
    put(&mut blocks, 0, rows, returning(1, 2))?;
    let mut function = graph(alloc, &[0], blocks)?;
    function.context = List::from_slice(alloc, context)?;
    Ok(function)
}

/// The same function with a row that has a value.
pub fn with_row(mut function: HirFunction, value: InstructionValue) -> Result<HirFunction, Fault> {
    function.instructions.push(row(1, 1, value))?;
    Ok(function)
}

/// Two identifiers, and a table of one function.
pub fn one_function(alloc: Global, function: HirFunction) -> Result<Environment, Fault> {
    let mut env = environment(alloc, 2)?;
    if !env.functions.is_full() {
        env.functions.push(function)?;
    }
    Ok(env)
}

/// A scope whose two ends return: the first of two parameters chooses between an array and the second.
pub fn two_returns_in_a_scope(alloc: Global) -> Result<HirFunction, Fault> {
    let rows = List::from_slice(alloc, &[InstructionId::new(0)])?;
    let mut blocks = Keyed::new(alloc);
    put(&mut blocks, 0, List::new(alloc), opening(1, 5))?;
    put(&mut blocks, 1, rows, choosing(3))?;
    put(&mut blocks, 2, List::new(alloc), returning(2, 4))?;
    put(&mut blocks, 3, List::new(alloc), returning(1, 5))?;
    put(&mut blocks, 4, List::new(alloc), unreachable(6))?;
    put(&mut blocks, 5, List::new(alloc), unreachable(7))?;
    let mut function = graph(alloc, &[0, 1], blocks)?;
    let array = InstructionValue::ArrayExpression {
        elements: List::new(alloc),
        span: None,
    };
    function.instructions.push(row(2, 2, array))?;
    Ok(function)
}

/// The environment of that function: identifier 2 has scope 0, whose early return is set.
pub fn with_an_early_return(alloc: Global) -> Result<Environment, Fault> {
    let mut env = environment(alloc, 3)?;
    if let Some(array) = env.identifiers.get_mut(IdentifierId::new(2)) {
        array.scope = Some(ScopeId::new(0));
    }
    if !env.scopes.is_full() {
        env.scopes.push(scope(alloc))?;
    }
    Ok(env)
}

fn scope(alloc: Global) -> ReactiveScope {
    ReactiveScope {
        range: MutableRange {
            start: EvaluationOrder::new(1),
            end: EvaluationOrder::new(7),
        },
        dependencies: List::new(alloc),
        declarations: List::new(alloc),
        reassignments: List::new(alloc),
        early_return_value: Some(ReactiveScopeEarlyReturn {
            value: IdentifierId::new(0),
            span: None,
            label: BlockId::new(0),
        }),
        merged: List::new(alloc),
    }
}

// Parameters and blocks, and all else empty.
fn graph(
    alloc: Global,
    params: &[u32],
    blocks: Keyed<BlockId, BasicBlock>,
) -> Result<HirFunction, Fault> {
    let mut places = List::new(alloc);
    for number in params {
        places.push(ParamPattern::Place(read(*number)))?;
    }
    Ok(HirFunction {
        span: None,
        id: None,
        name_hint: None,
        params: places,
        generator: false,
        is_async: false,
        context: List::new(alloc),
        body: Hir {
            entry: BlockId::new(0),
            blocks,
        },
        instructions: List::new(alloc),
        directives: List::new(alloc),
    })
}

// Puts a block under its own number.
fn put(
    blocks: &mut Keyed<BlockId, BasicBlock>,
    number: u32,
    instructions: List<InstructionId>,
    terminal: Terminal,
) -> Result<(), Fault> {
    let block = BasicBlock {
        id: BlockId::new(number),
        instructions,
        terminal,
    };
    blocks.insert(BlockId::new(number), block)?;
    Ok(())
}

fn row(id: u32, target: u32, value: InstructionValue) -> Instruction {
    Instruction {
        id: EvaluationOrder::new(id),
        lvalue: read(target),
        value,
        span: None,
    }
}

fn opening(block: u32, fallthrough: u32) -> Terminal {
    Terminal::Scope {
        fallthrough: BlockId::new(fallthrough),
        block: BlockId::new(block),
        scope: ScopeId::new(0),
        id: EvaluationOrder::new(1),
        span: None,
    }
}

fn choosing(id: u32) -> Terminal {
    Terminal::If {
        test: read(0),
        consequent: BlockId::new(2),
        alternate: BlockId::new(3),
        fallthrough: BlockId::new(4),
        id: EvaluationOrder::new(id),
        span: None,
    }
}

fn returning(number: u32, id: u32) -> Terminal {
    Terminal::Return {
        value: read(number),
        id: EvaluationOrder::new(id),
        span: None,
    }
}

fn unreachable(id: u32) -> Terminal {
    Terminal::Unreachable {
        id: EvaluationOrder::new(id),
        span: None,
    }
}
