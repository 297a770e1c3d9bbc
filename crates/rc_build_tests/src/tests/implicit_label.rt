//! A small graph whose built tree has a label that isn't implicit yet.

use super::graph::{environment, function, place};
use rc_build::{Broken, build_reactive_function, spells};
use rc_hir::{
    BasicBlock, Fault, GotoVariant, HirFunction, Instruction, InstructionValue, Rule, Terminal,
};
use rc_names::{BlockId, EvaluationOrder, InstructionId, Keyed, List};
use rc_tree::{ReactiveFunction, ReactiveStatement};
use std::alloc::{AllocError, Global};
use std::test::Fail;

/// Block 0 is an `If` without an alternate, block 1 a break out of it, and block 2 a return.
fn terminal(number: u32) -> Terminal {
    match number {
        0 => Terminal::If {
            test: place(0),
            consequent: BlockId::new(1),
            alternate: BlockId::new(2),
            fallthrough: BlockId::new(2),
            id: EvaluationOrder::new(1),
            span: None,
        },
        1 => Terminal::Goto {
            block: BlockId::new(2),
            variant: GotoVariant::Break,
            id: EvaluationOrder::new(3),
            span: None,
        },
        _ => Terminal::Return {
            value: place(1),
            id: EvaluationOrder::new(4),
            span: None,
        },
    }
}

/// The block of a number; only the second one has the row.
fn block(alloc: Global, number: u32) -> Result<BasicBlock, AllocError> {
    let mut instructions = List::new(alloc);
    if number == 1 {
        instructions.push(InstructionId::new(0))?;
    }
    Ok(BasicBlock {
        id: BlockId::new(number),
        instructions,
        terminal: terminal(number),
    })
}

/// The graph of these blocks.
fn graph(alloc: Global) -> Result<HirFunction, AllocError> {
    let mut blocks = Keyed::new(alloc);
    for number in 0u32..3 {
        blocks.insert(BlockId::new(number), block(alloc, number)?)?;
    }
    let mut rows = List::new(alloc);
    rows.push(Instruction {
        id: EvaluationOrder::new(2),
        lvalue: place(2),
        value: InstructionValue::Debugger { span: None },
        span: None,
    })?;
    function(alloc, blocks, rows)
}

/// Makes the label of the first statement implicit; returns whether it was not so before.
fn make_implicit(func: &mut ReactiveFunction) -> bool {
    let Some(ReactiveStatement::Terminal(stmt)) = func.body.statements.get_mut(0) else {
        return false;
    };
    let Some(label) = &mut stmt.get_mut().label else {
        return false;
    };
    let was = label.implicit;
    label.implicit = true;
    !was
}

/// What `spells` returns for the graph and its built tree, whose label is made implicit first if that is asked.
fn broken(alloc: Global, implicit: bool) -> Result<Option<Broken>, Fault> {
    let hir = graph(alloc)?;
    let env = environment(alloc)?;
    let mut built = build_reactive_function(alloc, &hir, &env)?;
    if implicit && !make_implicit(&mut built) {
        return Ok(None);
    }
    spells(alloc, &hir, &env, &built)
}

#[test]
fn an_implicit_label_is_not_spelled(rt: HostRuntime) -> Result<(), Fail> {
    let alloc = rt.alloc();
    assert_eq!(rt; broken(alloc, false)?, None);
    let other = Broken {
        block: BlockId::new(0),
        rule: Rule::OtherTree,
    };
    assert_eq!(rt; broken(alloc, true)?, Some(other));
    Ok(())
}
