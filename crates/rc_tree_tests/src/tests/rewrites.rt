//! The rewriting walk: its order over every part of a tree, and the replacements of statements.

use crate::tests::order::{as_body, has_operands, long, rows, statements, walked};
use crate::tests::parts::{ForOrder, Written, for_loop};
use crate::tests::recorder::{Part, Visit};
use crate::tests::rewriter::{Rewriter, answer, rewritten};
use crate::tests::trees::{
    empty, function, load, load_visits, note, place, returning, returning_visits, row, statement,
};
use rc_hir::{Environment, Fault, TableName};
use rc_names::{BlockId, Boxed, EvaluationOrder, List, ScopeId};
use rc_tree::{
    ReactiveBlock, ReactiveInstruction, ReactiveLabel, ReactiveScopeBlock, ReactiveStatement,
    ReactiveTerminal, ReactiveTerminalStatement, Transformed,
};
use rc_walk::rewrite::traverse_terminal;
use std::alloc::{AllocError, Global};
use std::test::Fail;

/// A number that no part of a tree here has.
const NOWHERE: u32 = 4_294_967_295;

/// A transform that doesn't enter a scope of one number, and refuses an operand of another.
fn rewriter_but(alloc: Global, skipped: u32, refused: u32) -> Rewriter {
    Rewriter {
        env: Environment::empty(alloc),
        skipped,
        refused,
    }
}

/// A transform that enters every scope and refuses no operand.
fn rewriter(alloc: Global) -> Rewriter {
    rewriter_but(alloc, NOWHERE, NOWHERE)
}

/// The visits of the walk of a body.
fn rewriting(alloc: Global, body: ReactiveBlock) -> Result<List<Visit>, Fault> {
    rewritten(alloc, &mut rewriter(alloc), &mut function(alloc, body))
}

/// The visits of a read walk of a body after it was rewritten.
fn left(
    alloc: Global,
    transform: &mut Rewriter,
    body: ReactiveBlock,
) -> Result<List<Visit>, Fault> {
    let mut func = function(alloc, body);
    let _ = rewritten(alloc, transform, &mut func)?;
    walked(alloc, func.body)
}

/// Whether a body has these visits inside after it was rewritten by a transform that doesn't enter that scope.
fn leaves(
    alloc: Global,
    skipped: u32,
    body: ReactiveBlock,
    inside: &List<Visit>,
) -> Result<bool, Fault> {
    let expected = as_body(alloc, inside)?;
    let left = left(alloc, &mut rewriter_but(alloc, skipped, NOWHERE), body)?;
    Ok(left.as_slice() == expected.as_slice())
}

/// Whether the walk of a body has these visits inside.
fn is_rewritten_by(
    alloc: Global,
    body: ReactiveBlock,
    inside: &List<Visit>,
) -> Result<bool, Fault> {
    let expected = as_body(alloc, inside)?;
    let visits = rewriting(alloc, body)?;
    Ok(visits.as_slice() == expected.as_slice())
}

/// A row with a target.
fn storing(id: u32) -> ReactiveInstruction {
    let mut storing = row(id, load(1));
    storing.lvalue = Some(place(2));
    storing
}

/// A row with a target and a row without one.
fn two_rows(alloc: Global) -> Result<ReactiveBlock, AllocError> {
    let mut block = empty(alloc);
    block
        .statements
        .push(ReactiveStatement::Instruction(storing(50)))?;
    block
        .statements
        .push(ReactiveStatement::Instruction(row(51, load(3))))?;
    Ok(block)
}

/// The visits of a row with a target.
fn storing_visits(alloc: Global, id: u32) -> Result<List<Visit>, AllocError> {
    let mut visits = List::new(alloc);
    note(
        &mut visits,
        &[
            Visit::Enter(Part::Row(id)),
            Visit::Id(id),
            Visit::Target(id, 2),
        ],
    )?;
    note(&mut visits, &load_visits(id, 1))?;
    visits.push(Visit::Leave(Part::Row(id)))?;
    Ok(visits)
}

/// A scope of that number.
fn scope(number: u32, instructions: ReactiveBlock) -> ReactiveStatement {
    ReactiveStatement::Scope(ReactiveScopeBlock {
        scope: ScopeId::new(number),
        instructions,
    })
}

/// A `Label` of id 60.
fn label(block: ReactiveBlock) -> ReactiveTerminal {
    ReactiveTerminal::Label {
        block,
        id: EvaluationOrder::new(60),
    }
}

/// A body of one statement.
fn body_of(alloc: Global, statement: ReactiveStatement) -> Result<ReactiveBlock, AllocError> {
    let mut body = empty(alloc);
    body.statements.push(statement)?;
    Ok(body)
}

/// The operands of the `for`: its body comes last.
const FOR_OPERANDS: [Visit; 4] = [
    Visit::Operand(5, 0),
    Visit::Operand(5, 1),
    Visit::Operand(5, 2),
    Visit::Operand(9, 3),
];

/// Whether the rewriting walk of a body has the visits that are written beside it.
fn is_rewritten_as_written(alloc: Global, written: Written) -> Result<bool, Fault> {
    let Written { body, visits } = written;
    is_rewritten_by(alloc, body, &visits)
}

#[test]
fn every_statement_is_rewritten_in_the_order_of_the_table(rt: HostRuntime) -> Result<(), Fail> {
    let alloc = rt.alloc();
    assert!(rt; is_rewritten_as_written(alloc, statements(alloc, ForOrder::UpdateFirst)?)?);
    Ok(())
}

#[test]
fn every_value_is_rewritten_in_the_order_of_the_table(rt: HostRuntime) -> Result<(), Fail> {
    let alloc = rt.alloc();
    assert!(rt; is_rewritten_as_written(alloc, rows(alloc)?)?);
    Ok(())
}

/// The visits of a body that is the `for`.
fn for_visits(alloc: Global) -> Result<List<Visit>, Fault> {
    rewriting(alloc, body_of(alloc, statement(alloc, for_loop(alloc)?)?)?)
}

#[test]
fn a_for_reads_its_update_before_its_body(rt: HostRuntime) -> Result<(), Fail> {
    let alloc = rt.alloc();
    assert!(rt; has_operands(alloc, &for_visits(alloc)?, &FOR_OPERANDS)?);
    Ok(())
}

/// The visits of the inside of the `for`.
fn inside_visits(alloc: Global) -> Result<List<Visit>, Fault> {
    let mut stmt = ReactiveTerminalStatement {
        terminal: for_loop(alloc)?,
        label: None,
    };
    let mut visits = List::new(alloc);
    traverse_terminal(alloc, &mut rewriter(alloc), &mut stmt, &mut visits)?;
    Ok(visits)
}

#[test]
fn the_inside_of_a_for_is_rewritten_the_same(rt: HostRuntime) -> Result<(), Fail> {
    let alloc = rt.alloc();
    assert!(rt; has_operands(alloc, &inside_visits(alloc)?, &FOR_OPERANDS)?);
    Ok(())
}

/// The number of statements by which one is replaced, if it is replaced by several.
fn statements_in_place(answer: Transformed<ReactiveStatement>) -> Option<usize> {
    match &answer {
        Transformed::ReplaceMany(statements) => Some(statements.len()),
        _ => None,
    }
}

/// The replacement that the walk gives of this statement.
fn in_place_of(
    alloc: Global,
    mut stmt: ReactiveStatement,
) -> Result<Transformed<ReactiveStatement>, Fault> {
    answer(
        alloc,
        &mut rewriter(alloc),
        &mut stmt,
        &mut List::new(alloc),
    )
}

/// The number of statements by which a `Label` is replaced that has two rows.
fn statements_in_place_of_label(alloc: Global) -> Result<Option<usize>, Fault> {
    let stmt = statement(alloc, label(two_rows(alloc)?))?;
    Ok(statements_in_place(in_place_of(alloc, stmt)?))
}

#[test]
fn a_label_without_a_name_gives_way_to_its_statements(rt: HostRuntime) -> Result<(), Fail> {
    // One of the two rows was removed before.
    assert_eq!(rt; statements_in_place_of_label(rt.alloc())?, Some(1));
    Ok(())
}

/// A body that is a `Label` with a name, which has a return.
fn named_label(alloc: Global) -> Result<ReactiveBlock, AllocError> {
    let stmt = ReactiveTerminalStatement {
        terminal: label(returning(alloc, 61, 7)?),
        label: Some(ReactiveLabel {
            id: BlockId::new(4),
            implicit: false,
        }),
    };
    body_of(alloc, ReactiveStatement::Terminal(Boxed::new(alloc, stmt)?))
}

/// The visits of that `Label`.
fn named_label_visits(alloc: Global) -> Result<List<Visit>, AllocError> {
    let mut visits = List::from_slice(alloc, &[Visit::Enter(Part::Terminal), Visit::Id(60)])?;
    note(&mut visits, &returning_visits(61, 7))?;
    visits.push(Visit::Leave(Part::Terminal))?;
    Ok(visits)
}

#[test]
fn a_label_with_a_name_is_kept(rt: HostRuntime) -> Result<(), Fail> {
    let alloc = rt.alloc();
    assert!(rt;
        leaves(
            alloc,
            NOWHERE,
            named_label(alloc)?,
            &named_label_visits(alloc)?
        )?
    );
    Ok(())
}

/// A body that is a `Label` around scope 6, which has two rows.
fn scope_in_label(alloc: Global) -> Result<ReactiveBlock, AllocError> {
    let inside = body_of(alloc, scope(6, two_rows(alloc)?))?;
    body_of(alloc, statement(alloc, label(inside))?)
}

/// The visits of scope 6, once it is pruned, around others.
fn pruned_scope_visits(alloc: Global, inside: &List<Visit>) -> Result<List<Visit>, AllocError> {
    let mut visits = List::new(alloc);
    visits.push(Visit::Enter(Part::PrunedScope(6)))?;
    note(&mut visits, as_body(alloc, inside)?.as_slice())?;
    visits.push(Visit::Leave(Part::PrunedScope(6)))?;
    Ok(visits)
}

/// Whether the pruned scope with one row is left of that `Label`.
fn leaves_pruned_scope(alloc: Global) -> Result<bool, Fault> {
    let expected = pruned_scope_visits(alloc, &storing_visits(alloc, 50)?)?;
    leaves(alloc, NOWHERE, scope_in_label(alloc)?, &expected)
}

#[test]
fn a_scope_in_a_label_is_a_pruned_one_in_its_place(rt: HostRuntime) -> Result<(), Fail> {
    assert!(rt; leaves_pruned_scope(rt.alloc())?);
    Ok(())
}

/// Whether the walk of a scope around a return visits the scope once.
fn visits_scope_once(alloc: Global) -> Result<bool, Fault> {
    let mut expected = List::new(alloc);
    expected.push(Visit::Enter(Part::Scope(6)))?;
    note(&mut expected, &returning_visits(61, 7))?;
    expected.push(Visit::Leave(Part::Scope(6)))?;
    let body = body_of(alloc, scope(6, returning(alloc, 61, 7)?))?;
    is_rewritten_by(alloc, body, &expected)
}

#[test]
fn what_stands_in_place_of_a_scope_is_not_walked(rt: HostRuntime) -> Result<(), Fail> {
    assert!(rt; visits_scope_once(rt.alloc())?);
    Ok(())
}

/// A body that is scope 6, which has two rows.
fn scope_of_rows(alloc: Global) -> Result<ReactiveBlock, AllocError> {
    body_of(alloc, scope(6, two_rows(alloc)?))
}

/// Whether the walk of that body by a transform that doesn't enter the scope has no visit after the scope's entry.
fn skips_scope(alloc: Global) -> Result<bool, Fault> {
    let mut func = function(alloc, scope_of_rows(alloc)?);
    let visits = rewritten(alloc, &mut rewriter_but(alloc, 6, NOWHERE), &mut func)?;
    let expected = as_body(
        alloc,
        &List::from_slice(alloc, &[Visit::Enter(Part::Scope(6))])?,
    )?;
    Ok(visits.as_slice() == expected.as_slice())
}

#[test]
fn a_scope_that_is_not_entered_is_not_left(rt: HostRuntime) -> Result<(), Fail> {
    assert!(rt; skips_scope(rt.alloc())?);
    Ok(())
}

/// The visits of both rows of that scope.
fn rows_visits(alloc: Global) -> Result<List<Visit>, AllocError> {
    let mut visits = storing_visits(alloc, 50)?;
    note(&mut visits, &[Visit::Enter(Part::Row(51)), Visit::Id(51)])?;
    note(&mut visits, &load_visits(51, 3))?;
    visits.push(Visit::Leave(Part::Row(51)))?;
    Ok(visits)
}

/// Whether the pruned scope with both rows is left of a scope that isn't entered.
fn leaves_both_rows(alloc: Global) -> Result<bool, Fault> {
    let expected = pruned_scope_visits(alloc, &rows_visits(alloc)?)?;
    leaves(alloc, 6, scope_of_rows(alloc)?, &expected)
}

#[test]
fn a_scope_that_is_not_entered_is_replaced_with_both_its_rows(rt: HostRuntime) -> Result<(), Fail> {
    assert!(rt; leaves_both_rows(rt.alloc())?);
    Ok(())
}

/// The fault with which a transform that refuses operand 3 stops on a body, if it does.
fn fault_of_rewriting(alloc: Global, written: Written) -> Option<Fault> {
    let Written { body, visits: _ } = written;
    let mut transform = rewriter_but(alloc, NOWHERE, 3);
    rewritten(alloc, &mut transform, &mut function(alloc, body)).err()
}

#[test]
fn a_fault_of_a_hook_is_the_result(rt: HostRuntime) -> Result<(), Fail> {
    let alloc = rt.alloc();
    let fault = Fault::BadName {
        table: TableName::Identifiers,
        index: 3,
    };
    let written = statements(alloc, ForOrder::UpdateFirst)?;
    assert_eq!(rt; fault_of_rewriting(alloc, written), Some(fault));
    Ok(())
}

/// The number of visits of the walk of a body.
fn visit_count(alloc: Global, body: ReactiveBlock) -> Result<usize, Fault> {
    Ok(rewriting(alloc, body)?.len())
}

#[test]
fn a_long_list_is_rewritten_without_stack(rt: HostRuntime) -> Result<(), Fail> {
    let alloc = rt.alloc();
    // Each row is entered and left, and has its id and a value of three visits.
    assert_eq!(rt; visit_count(alloc, long(alloc, 100_000)?)?, 600_002);
    Ok(())
}
