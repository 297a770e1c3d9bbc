//! The graphs whose runs are replayed.

use super::build::{
    Parts, add_block, add_repeated_block, add_row_block, debugger, goto, if_else, may_throw,
    nothing, place, returns,
};
use rc_hir::{Case, InstructionValue, Place, Terminal};
use rc_names::{BlockId, EvaluationOrder, List, ScopeId};
use std::alloc::{AllocError, Global};

/// `if ($0) debugger; return $1`.
pub fn debugger_in_an_arm(alloc: Global) -> Result<Parts, AllocError> {
    let mut parts = nothing(alloc);
    add_block(alloc, &mut parts, 0, if_else(1, 2))?;
    add_row_block(alloc, &mut parts, 1, debugger(), goto(2))?;
    add_block(alloc, &mut parts, 2, returns(1))?;
    Ok(parts)
}

/// A call of `$0` without arguments.
pub fn call(alloc: Global) -> InstructionValue {
    InstructionValue::CallExpression {
        callee: place(0),
        args: List::new(alloc),
        span: None,
    }
}

/// The `Try` of block 1, with handler 5 and fallthrough 6.
fn try_around() -> Terminal {
    Terminal::Try {
        block: BlockId::new(1),
        handler_binding: Some(place(3)),
        handler: BlockId::new(5),
        fallthrough: BlockId::new(6),
        id: EvaluationOrder::new(1),
        span: None,
    }
}

/// The `Sequence` of block 2, with fallthrough 4.
fn sequence() -> Terminal {
    Terminal::Sequence {
        block: BlockId::new(2),
        fallthrough: BlockId::new(4),
        id: EvaluationOrder::new(1),
        span: None,
    }
}

/// `try { $0() } catch ($3) {}; return $0`, where the call's block has that handler.
pub fn call_in_a_try(alloc: Global, handler: Option<u32>) -> Result<Parts, AllocError> {
    let mut parts = nothing(alloc);
    add_block(alloc, &mut parts, 0, try_around())?;
    add_block(alloc, &mut parts, 1, sequence())?;
    add_row_block(alloc, &mut parts, 2, call(alloc), may_throw(3, handler))?;
    add_block(alloc, &mut parts, 3, goto(4))?;
    add_block(alloc, &mut parts, 4, goto(6))?;
    add_block(alloc, &mut parts, 5, goto(6))?;
    add_block(alloc, &mut parts, 6, returns(0))?;
    Ok(parts)
}

/// An array without elements.
pub fn array(alloc: Global) -> InstructionValue {
    InstructionValue::ArrayExpression {
        elements: List::new(alloc),
        span: None,
    }
}

/// The end of a block that leads nowhere.
fn unreachable_end() -> Terminal {
    Terminal::Unreachable {
        id: EvaluationOrder::new(1),
        span: None,
    }
}

/// The scope of block 1, with fallthrough 5.
fn scope() -> Terminal {
    Terminal::Scope {
        fallthrough: BlockId::new(5),
        block: BlockId::new(1),
        scope: ScopeId::new(0),
        id: EvaluationOrder::new(1),
        span: None,
    }
}

/// A scope with `$2 = []; if ($0) return $2; else return $1`.
pub fn returns_in_a_scope(alloc: Global) -> Result<Parts, AllocError> {
    let mut parts = nothing(alloc);
    add_block(alloc, &mut parts, 0, scope())?;
    add_row_block(alloc, &mut parts, 1, array(alloc), if_else(2, 3))?;
    add_block(alloc, &mut parts, 2, returns(2))?;
    add_block(alloc, &mut parts, 3, returns(1))?;
    add_block(alloc, &mut parts, 4, unreachable_end())?;
    add_block(alloc, &mut parts, 5, unreachable_end())?;
    Ok(parts)
}

/// Two blocks without rows, each of which leads to the other.
pub fn silent_cycle(alloc: Global) -> Result<Parts, AllocError> {
    let mut parts = nothing(alloc);
    add_block(alloc, &mut parts, 0, goto(1))?;
    add_block(alloc, &mut parts, 1, goto(0))?;
    Ok(parts)
}

/// A cycle with a row that makes no event, which a throw leaves.
pub fn cycle_with_a_throw(alloc: Global) -> Result<Parts, AllocError> {
    let load = InstructionValue::LoadLocal {
        place: place(0),
        span: None,
    };
    let mut parts = nothing(alloc);
    add_row_block(alloc, &mut parts, 0, load, may_throw(0, Some(1)))?;
    add_block(alloc, &mut parts, 1, returns(0))?;
    Ok(parts)
}

/// A cycle with a `debugger` statement.
pub fn debugger_forever(alloc: Global) -> Result<Parts, AllocError> {
    let mut parts = nothing(alloc);
    add_row_block(alloc, &mut parts, 0, debugger(), goto(0))?;
    Ok(parts)
}

/// A block that has the same `debugger` statement `count` times; then `return $0`.
pub fn debugger_repeated(alloc: Global, count: u32) -> Result<Parts, AllocError> {
    let mut parts = nothing(alloc);
    add_repeated_block(alloc, &mut parts, debugger(), count, returns(0))?;
    Ok(parts)
}

/// A switch of these cases, with fallthrough 3.
fn switch(alloc: Global, cases: &[Case]) -> Result<Terminal, AllocError> {
    let cases = List::from_slice(alloc, cases)?;
    Ok(Terminal::Switch {
        test: place(0),
        cases,
        fallthrough: BlockId::new(3),
        id: EvaluationOrder::new(1),
        span: None,
    })
}

/// A case of a switch.
fn case(test: Option<Place>, block: u32) -> Case {
    Case {
        test,
        block: BlockId::new(block),
    }
}

/// A switch of two cases with these tests, the second of which has a `debugger` statement; then `return $0`.
pub fn two_cases(
    alloc: Global,
    first: Option<Place>,
    second: Option<Place>,
) -> Result<Parts, AllocError> {
    let switch = switch(alloc, &[case(first, 1), case(second, 2)])?;
    let mut parts = nothing(alloc);
    add_block(alloc, &mut parts, 0, switch)?;
    add_block(alloc, &mut parts, 1, goto(3))?;
    add_row_block(alloc, &mut parts, 2, debugger(), goto(3))?;
    add_block(alloc, &mut parts, 3, returns(0))?;
    Ok(parts)
}

/// A block that leads to a number that is no key.
pub fn into_nowhere(alloc: Global) -> Result<Parts, AllocError> {
    let mut parts = nothing(alloc);
    add_block(alloc, &mut parts, 0, if_else(7, 8))?;
    Ok(parts)
}
