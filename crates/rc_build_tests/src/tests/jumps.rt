//! Jumps out of loops and switches: four graphs, and the tree that each spells.

use super::graph::{environment, function, jump, place, row as graph_row};
use super::tree::{break_to, function_of, row, statement};
use rc_build::{build_reactive_function, spells};
use rc_equality::Equals;
use rc_hir::{BasicBlock, Case, Fault, GotoVariant, HirFunction, InstructionValue, Terminal};
use rc_names::{BlockId, Boxed, EvaluationOrder, InstructionId, Keyed, List};
use rc_tree::{
    ReactiveBlock, ReactiveFunction, ReactiveLabel, ReactiveStatement, ReactiveSwitchCase,
    ReactiveTerminal, ReactiveTerminalTargetKind as Kind, ReactiveValue,
};
use std::alloc::{AllocError, Global};
use std::test::Fail;

/// The graphs. In each, block 0 has the outer statement, and the last block returns.
#[derive(Clone, Copy, Debug, PartialEq, Eq)]
enum Graph {
    /// A `while` with a row and a continue.
    Loop,
    /// A switch in a loop: one case leaves the loop, the default leaves the switch.
    SwitchInLoop,
    /// A switch whose second case falls into the third, and whose default leads past it.
    FallingCases,
    /// A switch in a loop that leads to the next turn: one case leaves the loop, the default continues it.
    ContinuingSwitch,
}

/// All of them.
const GRAPHS: [Graph; 4] = [
    Graph::Loop,
    Graph::SwitchInLoop,
    Graph::FallingCases,
    Graph::ContinuingSwitch,
];

/// The return of a place.
fn end(value: u32, id: u32) -> Terminal {
    Terminal::Return {
        value: place(value),
        id: EvaluationOrder::new(id),
        span: None,
    }
}

/// A `while` of block 0 that tests in block 1, and whose body is block 2.
fn while_loop(fallthrough: u32) -> Terminal {
    Terminal::While {
        test: BlockId::new(1),
        loop_block: BlockId::new(2),
        fallthrough: BlockId::new(fallthrough),
        id: EvaluationOrder::new(1),
        span: None,
    }
}

/// The `Branch` that ends the test of that loop.
fn branch(fallthrough: u32) -> Terminal {
    Terminal::Branch {
        test: place(0),
        consequent: BlockId::new(2),
        alternate: BlockId::new(fallthrough),
        id: EvaluationOrder::new(2),
        span: None,
    }
}

/// A case, or the default.
fn case(test: Option<u32>, block: u32) -> Case {
    Case {
        test: test.map(place),
        block: BlockId::new(block),
    }
}

/// A switch.
fn switch(
    alloc: Global,
    test: u32,
    cases: &[Case],
    fallthrough: u32,
    id: u32,
) -> Result<Terminal, AllocError> {
    let cases = List::from_slice(alloc, cases)?;
    Ok(Terminal::Switch {
        test: place(test),
        cases,
        fallthrough: BlockId::new(fallthrough),
        id: EvaluationOrder::new(id),
        span: None,
    })
}

/// The switch in a loop, with that fallthrough.
fn inner_switch(alloc: Global, fallthrough: u32) -> Result<Terminal, AllocError> {
    switch(alloc, 1, &[case(Some(2), 3), case(None, 4)], fallthrough, 3)
}

/// The terminals of the loop.
fn loop_terminal(number: u32) -> Option<Terminal> {
    match number {
        0 => Some(while_loop(3)),
        1 => Some(branch(3)),
        2 => Some(jump(GotoVariant::Continue, 1, 4)),
        3 => Some(end(1, 5)),
        _ => None,
    }
}

/// The terminals of the switch in a loop.
fn switch_in_loop(alloc: Global, number: u32) -> Result<Option<Terminal>, AllocError> {
    Ok(match number {
        0 => Some(while_loop(6)),
        1 => Some(branch(6)),
        2 => Some(inner_switch(alloc, 5)?),
        3 => Some(jump(GotoVariant::Break, 6, 4)),
        4 => Some(jump(GotoVariant::Break, 5, 5)),
        5 => Some(jump(GotoVariant::Continue, 1, 6)),
        6 => Some(end(0, 7)),
        _ => None,
    })
}

/// The terminals of the switch with a case that falls into the next one.
fn falling_cases(alloc: Global, number: u32) -> Result<Option<Terminal>, AllocError> {
    let cases = [
        case(Some(1), 1),
        case(Some(2), 2),
        case(Some(3), 3),
        case(None, 4),
    ];
    Ok(match number {
        0 => Some(switch(alloc, 0, &cases, 4, 1)?),
        1 => Some(jump(GotoVariant::Break, 4, 2)),
        2 => Some(jump(GotoVariant::Break, 3, 3)),
        3 => Some(jump(GotoVariant::Break, 4, 4)),
        4 => Some(end(0, 5)),
        _ => None,
    })
}

/// The terminals of the switch that leads to the next turn.
fn continuing_switch(alloc: Global, number: u32) -> Result<Option<Terminal>, AllocError> {
    Ok(match number {
        0 => Some(while_loop(6)),
        1 => Some(branch(6)),
        2 => Some(inner_switch(alloc, 1)?),
        3 => Some(jump(GotoVariant::Break, 6, 4)),
        4 => Some(jump(GotoVariant::Continue, 1, 5)),
        6 => Some(end(0, 6)),
        _ => None,
    })
}

/// The terminal of a block, if the graph has the block.
fn terminal(alloc: Global, graph: Graph, number: u32) -> Result<Option<Terminal>, AllocError> {
    match graph {
        Graph::Loop => Ok(loop_terminal(number)),
        Graph::SwitchInLoop => switch_in_loop(alloc, number),
        Graph::FallingCases => falling_cases(alloc, number),
        Graph::ContinuingSwitch => continuing_switch(alloc, number),
    }
}

/// A block: that of the loop's body has the row.
fn block(
    alloc: Global,
    graph: Graph,
    number: u32,
    terminal: Terminal,
) -> Result<BasicBlock, AllocError> {
    let mut instructions = List::new(alloc);
    if graph == Graph::Loop && number == 2 {
        instructions.push(InstructionId::new(0))?;
    }
    Ok(BasicBlock {
        id: BlockId::new(number),
        instructions,
        terminal,
    })
}

/// The graph.
fn hir(alloc: Global, graph: Graph) -> Result<HirFunction, AllocError> {
    let mut blocks = Keyed::new(alloc);
    for number in 0u32..7 {
        if let Some(terminal) = terminal(alloc, graph, number)? {
            blocks.insert(BlockId::new(number), block(alloc, graph, number, terminal)?)?;
        }
    }
    let mut rows = List::new(alloc);
    rows.push(graph_row(3, 2, InstructionValue::Debugger { span: None }))?;
    function(alloc, blocks, rows)
}

/// A continue.
fn continue_to(alloc: Global, target: u32, id: u32) -> Result<ReactiveStatement, AllocError> {
    let terminal = ReactiveTerminal::Continue {
        target: BlockId::new(target),
        target_kind: Kind::Implicit,
        id: EvaluationOrder::new(id),
    };
    statement(alloc, terminal, None)
}

/// A label.
fn label(id: u32) -> Option<ReactiveLabel> {
    Some(ReactiveLabel {
        id: BlockId::new(id),
        implicit: false,
    })
}

/// The loop with these statements.
fn while_of(
    alloc: Global,
    target: u32,
    statements: List<ReactiveStatement>,
) -> Result<ReactiveStatement, AllocError> {
    let test = InstructionValue::LoadLocal {
        place: place(0),
        span: None,
    };
    let terminal = ReactiveTerminal::While {
        test: Boxed::new(alloc, ReactiveValue::Instruction(test))?,
        loop_block: ReactiveBlock { statements },
        id: EvaluationOrder::new(1),
    };
    statement(alloc, terminal, label(target))
}

/// A case with that statement.
fn case_of(
    alloc: Global,
    test: Option<u32>,
    stmt: ReactiveStatement,
) -> Result<ReactiveSwitchCase, AllocError> {
    let mut statements = List::new(alloc);
    statements.push(stmt)?;
    Ok(ReactiveSwitchCase {
        test: test.map(place),
        block: Some(ReactiveBlock { statements }),
    })
}

/// A switch with these cases.
fn switch_of(
    alloc: Global,
    test: u32,
    cases: List<ReactiveSwitchCase>,
    label: Option<ReactiveLabel>,
    id: u32,
) -> Result<ReactiveStatement, AllocError> {
    let terminal = ReactiveTerminal::Switch {
        test: place(test),
        cases,
        id: EvaluationOrder::new(id),
    };
    statement(alloc, terminal, label)
}

/// The cases of the switch in a loop: the first leaves the loop by a break of that kind.
fn inner_cases(
    alloc: Global,
    kind: Kind,
    default: ReactiveStatement,
) -> Result<List<ReactiveSwitchCase>, AllocError> {
    let mut cases = List::new(alloc);
    cases.push(case_of(alloc, None, default)?)?;
    cases.push(case_of(alloc, Some(2), break_to(alloc, 6, kind, 4)?)?)?;
    cases.reverse();
    Ok(cases)
}

/// The cases of the switch with a case that falls into the next one.
fn falling_cases_of(alloc: Global, kind: Kind) -> Result<List<ReactiveSwitchCase>, AllocError> {
    let mut cases = List::new(alloc);
    cases.push(case_of(alloc, Some(1), break_to(alloc, 4, kind, 2)?)?)?;
    cases.push(case_of(alloc, Some(2), break_to(alloc, 3, Kind::Implicit, 3)?)?)?;
    cases.push(case_of(alloc, Some(3), break_to(alloc, 4, Kind::Implicit, 4)?)?)?;
    Ok(cases)
}

/// The statements in the loop.
fn loop_body(
    alloc: Global,
    graph: Graph,
    kind: Kind,
) -> Result<List<ReactiveStatement>, AllocError> {
    let mut statements = List::new(alloc);
    match graph {
        Graph::SwitchInLoop => {
            let cases = inner_cases(alloc, kind, break_to(alloc, 5, Kind::Implicit, 5)?)?;
            statements.push(switch_of(alloc, 1, cases, label(5), 3)?)?;
            statements.push(continue_to(alloc, 6, 6)?)?;
        }
        Graph::ContinuingSwitch => {
            let cases = inner_cases(alloc, kind, continue_to(alloc, 6, 5)?)?;
            statements.push(switch_of(alloc, 1, cases, None, 3)?)?;
        }
        Graph::Loop | Graph::FallingCases => {
            let debugger = InstructionValue::Debugger { span: None };
            statements.push(ReactiveStatement::Instruction(row(
                EvaluationOrder::new(3),
                Some(place(2)),
                debugger,
                None,
            )))?;
            statements.push(continue_to(alloc, 3, 4)?)?;
        }
    }
    Ok(statements)
}

/// The outer statement.
fn outer(alloc: Global, graph: Graph, kind: Kind) -> Result<ReactiveStatement, AllocError> {
    match graph {
        Graph::Loop => while_of(alloc, 3, loop_body(alloc, graph, kind)?),
        Graph::FallingCases => {
            let cases = falling_cases_of(alloc, kind)?;
            switch_of(alloc, 0, cases, label(4), 1)
        }
        Graph::SwitchInLoop | Graph::ContinuingSwitch => {
            while_of(alloc, 6, loop_body(alloc, graph, kind)?)
        }
    }
}

/// The return, as it is in the tree.
fn returned(alloc: Global, graph: Graph) -> Result<ReactiveStatement, AllocError> {
    let (value, id) = match graph {
        Graph::Loop => (1, 5),
        Graph::SwitchInLoop => (0, 7),
        Graph::FallingCases => (0, 5),
        Graph::ContinuingSwitch => (0, 6),
    };
    let terminal = ReactiveTerminal::Return {
        value: place(value),
        id: EvaluationOrder::new(id),
    };
    statement(alloc, terminal, None)
}

/// The tree of the graph, where the break that leaves a loop from a switch, or a switch from the case before its last,
/// is of that kind.
fn tree(alloc: Global, graph: Graph, kind: Kind) -> Result<ReactiveFunction, AllocError> {
    let mut statements = List::new(alloc);
    statements.push(outer(alloc, graph, kind)?)?;
    statements.push(returned(alloc, graph)?)?;
    function_of(alloc, statements)
}

/// Whether the graph builds the tree in which that break is labeled.
fn is_built(alloc: Global, graph: Graph) -> Result<bool, Fault> {
    let hir = hir(alloc, graph)?;
    let env = environment(alloc)?;
    let built = build_reactive_function(alloc, &hir, &env)?;
    Ok(built.equals(&tree(alloc, graph, Kind::Labeled)?))
}

/// Whether the graph spells the tree in which that break is of the kind.
fn is_spelled(alloc: Global, graph: Graph, kind: Kind) -> Result<bool, Fault> {
    let hir = hir(alloc, graph)?;
    let env = environment(alloc)?;
    let broken = spells(alloc, &hir, &env, &tree(alloc, graph, kind)?)?;
    Ok(broken.is_none())
}

#[test]
fn jumps_out_of_loops_and_switches_are_built(rt: HostRuntime) -> Result<(), Fail> {
    for graph in GRAPHS {
        assert!(rt; is_built(rt.alloc(), graph)?, "{graph:?}");
    }
    Ok(())
}

#[test]
fn a_break_past_a_switch_is_labeled(rt: HostRuntime) -> Result<(), Fail> {
    let alloc = rt.alloc();
    for graph in [Graph::SwitchInLoop, Graph::ContinuingSwitch] {
        assert!(rt; is_spelled(alloc, graph, Kind::Labeled)?, "{graph:?}");
        assert!(rt; !is_spelled(alloc, graph, Kind::Unlabeled)?, "{graph:?}");
        assert!(rt; !is_spelled(alloc, graph, Kind::Implicit)?, "{graph:?}");
    }
    Ok(())
}
