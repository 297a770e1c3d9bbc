//! The order of the read walk, over every part of a tree.

use crate::tests::parts::rows::{
    put_call, put_contexts, put_destructure, put_expressions, put_sequence, put_store, put_update,
};
use crate::tests::parts::{
    ForOrder, Written, for_loop, put_do_while, put_ends, put_for, put_for_in, put_for_of, put_if,
    put_jumps, put_label, put_scopes, put_switch, put_try, put_while,
};
use crate::tests::recorder::{Part, Recorder, Visit, visits};
use crate::tests::trees::{empty, function, load, note, row, statement};
use rc_hir::{Environment, Fault};
use rc_names::List;
use rc_tree::{ReactiveBlock, ReactiveStatement, ReactiveTerminalStatement};
use rc_walk::read::traverse_terminal;
use std::alloc::{AllocError, Global};
use std::test::Fail;

/// Every statement, in the order in which they are declared.
pub fn statements(alloc: Global, order: ForOrder) -> Result<Written, AllocError> {
    let mut written = Written::new(alloc);
    put_jumps(alloc, &mut written)?;
    put_ends(alloc, &mut written)?;
    put_switch(alloc, &mut written)?;
    put_do_while(alloc, &mut written)?;
    put_while(alloc, &mut written)?;
    put_for(alloc, &mut written, order)?;
    put_for_of(alloc, &mut written)?;
    put_for_in(alloc, &mut written)?;
    put_if(alloc, &mut written)?;
    put_label(alloc, &mut written)?;
    put_try(alloc, &mut written)?;
    put_scopes(alloc, &mut written)?;
    Ok(written)
}

/// Rows of every value, with every value target and the forms of operands.
pub fn rows(alloc: Global) -> Result<Written, AllocError> {
    let mut written = Written::new(alloc);
    put_store(&mut written)?;
    put_destructure(alloc, &mut written)?;
    put_contexts(&mut written)?;
    put_update(alloc, &mut written)?;
    put_call(alloc, &mut written)?;
    put_expressions(alloc, &mut written)?;
    put_sequence(alloc, &mut written)?;
    Ok(written)
}

/// The visits of the walk of a body.
pub fn walked(alloc: Global, body: ReactiveBlock) -> Result<List<Visit>, Fault> {
    let recorder = Recorder {
        env: Environment::empty(alloc),
    };
    visits(alloc, &recorder, &function(alloc, body))
}

/// The visits of a body's inside, with those of the body around them.
pub fn as_body(alloc: Global, inside: &List<Visit>) -> Result<List<Visit>, AllocError> {
    let mut visits = List::new(alloc);
    visits.push(Visit::Enter(Part::Block))?;
    note(&mut visits, inside.as_slice())?;
    visits.push(Visit::Leave(Part::Block))?;
    Ok(visits)
}

/// Whether the operands among visits are these.
pub fn has_operands(
    alloc: Global,
    visits: &List<Visit>,
    expected: &[Visit],
) -> Result<bool, AllocError> {
    let mut operands = List::new(alloc);
    for visit in visits.as_slice() {
        if let Visit::Operand(_, _) = visit {
            operands.push(*visit)?;
        }
    }
    Ok(operands.as_slice() == expected)
}

/// The operands of the `for`: its update comes last.
const FOR_OPERANDS: [Visit; 4] = [
    Visit::Operand(5, 0),
    Visit::Operand(5, 1),
    Visit::Operand(9, 3),
    Visit::Operand(5, 2),
];

/// Whether the walk of a body has the visits that are written beside it.
fn is_walked_as_written(alloc: Global, written: Written) -> Result<bool, Fault> {
    let Written { body, visits } = written;
    let expected = as_body(alloc, &visits)?;
    let walked = walked(alloc, body)?;
    Ok(walked.as_slice() == expected.as_slice())
}

#[test]
fn every_statement_is_walked_in_the_order_of_the_table(rt: HostRuntime) -> Result<(), Fail> {
    let alloc = rt.alloc();
    assert!(rt; is_walked_as_written(alloc, statements(alloc, ForOrder::BodyFirst)?)?);
    Ok(())
}

#[test]
fn every_value_is_walked_in_the_order_of_the_table(rt: HostRuntime) -> Result<(), Fail> {
    let alloc = rt.alloc();
    assert!(rt; is_walked_as_written(alloc, rows(alloc)?)?);
    Ok(())
}

/// The visits of a body that is the `for`.
fn for_visits(alloc: Global) -> Result<List<Visit>, Fault> {
    let mut body = empty(alloc);
    body.statements.push(statement(alloc, for_loop(alloc)?)?)?;
    walked(alloc, body)
}

#[test]
fn a_for_reads_its_update_last(rt: HostRuntime) -> Result<(), Fail> {
    let alloc = rt.alloc();
    assert!(rt; has_operands(alloc, &for_visits(alloc)?, &FOR_OPERANDS)?);
    Ok(())
}

/// The visits of the inside of the `for`.
fn inside_visits(alloc: Global) -> Result<List<Visit>, Fault> {
    let recorder = Recorder {
        env: Environment::empty(alloc),
    };
    let stmt = ReactiveTerminalStatement {
        terminal: for_loop(alloc)?,
        label: None,
    };
    let mut visits = List::new(alloc);
    traverse_terminal(alloc, &recorder, &stmt, &mut visits)?;
    Ok(visits)
}

#[test]
fn the_inside_of_a_for_reads_the_same(rt: HostRuntime) -> Result<(), Fail> {
    let alloc = rt.alloc();
    assert!(rt; has_operands(alloc, &inside_visits(alloc)?, &FOR_OPERANDS)?);
    Ok(())
}

/// A block of that many rows, each of which loads a place.
pub fn long(alloc: Global, length: u32) -> Result<ReactiveBlock, AllocError> {
    let mut block = empty(alloc);
    for number in 0..length {
        block
            .statements
            .push(ReactiveStatement::Instruction(row(number, load(number))))?;
    }
    Ok(block)
}

/// The number of visits of the walk of a body.
fn visit_count(alloc: Global, body: ReactiveBlock) -> Result<usize, Fault> {
    Ok(walked(alloc, body)?.len())
}

#[test]
fn a_long_list_takes_no_stack(rt: HostRuntime) -> Result<(), Fail> {
    let alloc = rt.alloc();
    // Each row is entered and left, and has its id and a value of three visits.
    assert_eq!(rt; visit_count(alloc, long(alloc, 100_000)?)?, 600_002);
    Ok(())
}
