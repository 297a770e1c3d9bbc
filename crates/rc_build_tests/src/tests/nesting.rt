//! Graphs that nest, and the stack that their nesting may take.

use super::graph::{environment, function, jump, place, row};
use rc_build::{build_known_function, build_reactive_function_within};
use rc_hir::{
    BasicBlock, Fault, GotoVariant, HirFunction, InstructionValue, Terminal, check_names,
};
use rc_names::{BlockId, EvaluationOrder, InstructionId, Keyed, List};
use std::alloc::{AllocError, Global};
use std::test::Fail;

/// More bytes of stack than any of the graphs takes.
const ENOUGH: usize = 3_000;

/// More than one level of labels takes, and less than the graphs that nest.
const LITTLE: usize = 900;

/// The block that returns.
const LAST: u32 = 6;

/// How the three labels, or the three sequences, of a graph are arranged.
#[derive(Clone, Copy, Debug)]
enum Shape {
    LabelsInARow,
    NestedLabels,
    NestedSequences,
    /// One sequence is around the two others, which are in a row.
    SequencesInARow,
}

const NESTED: [Shape; 3] = [
    Shape::NestedLabels,
    Shape::NestedSequences,
    Shape::SequencesInARow,
];

/// The return of a place.
fn end() -> Terminal {
    Terminal::Return {
        value: place(0),
        id: EvaluationOrder::new(1),
        span: None,
    }
}

/// A label.
fn label(block: u32, fallthrough: u32) -> Terminal {
    Terminal::Label {
        block: BlockId::new(block),
        fallthrough: BlockId::new(fallthrough),
        id: EvaluationOrder::new(1),
        span: None,
    }
}

/// A sequence.
fn sequence(block: u32, fallthrough: u32) -> Terminal {
    Terminal::Sequence {
        block: BlockId::new(block),
        fallthrough: BlockId::new(fallthrough),
        id: EvaluationOrder::new(1),
        span: None,
    }
}

/// The terminal of a block before the last one.
fn inner_terminal(shape: Shape, number: u32) -> Terminal {
    let next = number.saturating_add(1);
    let after = number.saturating_add(2);
    let fallthrough = LAST.saturating_sub(number);
    match (shape, number) {
        (Shape::LabelsInARow, 0 | 2 | 4) => label(next, after),
        (Shape::NestedLabels, 0..=2) => label(next, fallthrough),
        (Shape::NestedSequences, 0..=2) => sequence(next, fallthrough),
        (Shape::SequencesInARow, 0) => sequence(next, LAST),
        (Shape::SequencesInARow, 1 | 3) => sequence(next, after),
        _ => jump(GotoVariant::Break, next, 1),
    }
}

/// The terminal of a block.
fn terminal(shape: Shape, number: u32) -> Terminal {
    if number == LAST {
        end()
    } else {
        inner_terminal(shape, number)
    }
}

/// A block with the one row of the graph.
fn block(alloc: Global, number: u32, terminal: Terminal) -> Result<BasicBlock, AllocError> {
    Ok(BasicBlock {
        id: BlockId::new(number),
        instructions: List::from_slice(alloc, &[InstructionId::new(0)])?,
        terminal,
    })
}

/// The graph of that shape.
fn graph(alloc: Global, shape: Shape) -> Result<HirFunction, AllocError> {
    let mut blocks = Keyed::new(alloc);
    for number in 0..=LAST {
        let block = block(alloc, number, terminal(shape, number))?;
        blocks.insert(BlockId::new(number), block)?;
    }
    let mut rows = List::new(alloc);
    rows.push(row(1, 2, InstructionValue::Debugger { span: None }))?;
    function(alloc, blocks, rows)
}

/// Builds the tree of the graph where nesting may take that many bytes of stack.
fn build(alloc: Global, shape: Shape, stack: usize) -> Result<(), Fault> {
    let hir = graph(alloc, shape)?;
    let env = environment(alloc)?;
    let _built = build_reactive_function_within(alloc, &hir, &env, stack)?;
    Ok(())
}

/// The same where the numbers are checked before.
fn build_known(alloc: Global, shape: Shape, stack: usize) -> Result<(), Fault> {
    let hir = graph(alloc, shape)?;
    let env = environment(alloc)?;
    check_names(&hir, &env)?;
    let _built = build_known_function(alloc, &hir, &env, stack)?;
    Ok(())
}

#[test]
fn a_graph_is_built_where_the_stack_holds_its_levels(rt: HostRuntime) -> Result<(), Fail> {
    let alloc = rt.alloc();
    for shape in NESTED {
        assert_eq!(rt; build(alloc, shape, ENOUGH), Ok(()), "{shape:?}");
    }
    Ok(())
}

#[test]
fn a_graph_that_nests_deeper_is_refused(rt: HostRuntime) -> Result<(), Fail> {
    let alloc = rt.alloc();
    for shape in NESTED {
        assert_eq!(rt;
            build(alloc, shape, LITTLE),
            Err(Fault::NoMemory),
            "{shape:?}"
        );
    }
    Ok(())
}

#[test]
fn levels_in_a_row_take_the_stack_of_one(rt: HostRuntime) -> Result<(), Fail> {
    assert_eq!(rt; build(rt.alloc(), Shape::LabelsInARow, LITTLE), Ok(()));
    Ok(())
}

#[test]
fn a_known_graph_has_the_same_stack(rt: HostRuntime) -> Result<(), Fail> {
    let alloc = rt.alloc();
    assert_eq!(rt; build_known(alloc, Shape::NestedLabels, ENOUGH), Ok(()));
    assert_eq!(rt;
        build_known(alloc, Shape::NestedLabels, LITTLE),
        Err(Fault::NoMemory)
    );
    Ok(())
}
