//! Every part of a tree, beside the visits of its inside in the order of the table of parts.

pub mod rows;

use crate::tests::recorder::{Part, Visit};
use crate::tests::trees::{
    SPAN, boxed_load, empty, load_visits, note, place, returning, returning_visits, row, statement,
};
use rc_names::{BlockId, EvaluationOrder, List, ScopeId};
use rc_tree::{
    PrunedReactiveScopeBlock, ReactiveBlock, ReactiveInstruction, ReactiveScopeBlock,
    ReactiveStatement, ReactiveSwitchCase, ReactiveTerminal, ReactiveTerminalTargetKind,
};
use std::alloc::{AllocError, Global};

/// The order of the parts of a `for` after its test, in which the two walks differ.
#[derive(Clone, Copy, PartialEq, Eq)]
pub enum ForOrder {
    /// The order of the read walk.
    BodyFirst,
    /// The order of the rewriting walk.
    UpdateFirst,
}

/// A body, and the visits of its statements.
#[derive(Drop)]
pub struct Written {
    pub body: ReactiveBlock,
    pub visits: List<Visit>,
}

impl Written {
    /// Without a statement and without a visit.
    pub fn new(alloc: Global) -> Written {
        Written {
            body: empty(alloc),
            visits: List::new(alloc),
        }
    }

    /// Adds a terminal, and its visits with an entry before and a leave after them.
    fn put(
        &mut self,
        alloc: Global,
        terminal: ReactiveTerminal,
        inside: &[&[Visit]],
    ) -> Result<(), AllocError> {
        self.body.statements.push(statement(alloc, terminal)?)?;
        self.visits.push(Visit::Enter(Part::Terminal))?;
        for visits in inside {
            note(&mut self.visits, visits)?;
        }
        self.visits.push(Visit::Leave(Part::Terminal))?;
        Ok(())
    }

    /// Adds a row, and its visits with an entry before and a leave after them.
    fn put_row(&mut self, row: ReactiveInstruction, inside: &[&[Visit]]) -> Result<(), AllocError> {
        let part = Part::Row(row.id.0);
        self.body
            .statements
            .push(ReactiveStatement::Instruction(row))?;
        self.visits.push(Visit::Enter(part))?;
        for visits in inside {
            note(&mut self.visits, visits)?;
        }
        self.visits.push(Visit::Leave(part))?;
        Ok(())
    }
}

/// A jump of either kind has only its id.
pub fn put_jumps(alloc: Global, written: &mut Written) -> Result<(), AllocError> {
    let target = BlockId::new(1);
    let jump = ReactiveTerminal::Break {
        target,
        target_kind: ReactiveTerminalTargetKind::Labeled,
        id: EvaluationOrder::new(10),
    };
    written.put(alloc, jump, &[&[Visit::Id(10)]])?;
    let jump = ReactiveTerminal::Continue {
        target,
        target_kind: ReactiveTerminalTargetKind::Unlabeled,
        id: EvaluationOrder::new(11),
    };
    written.put(alloc, jump, &[&[Visit::Id(11)]])
}

/// A return and a throw: the id, then the place.
pub fn put_ends(alloc: Global, written: &mut Written) -> Result<(), AllocError> {
    let end = ReactiveTerminal::Return {
        value: place(2),
        id: EvaluationOrder::new(12),
    };
    written.put(alloc, end, &[&[Visit::Id(12), Visit::Operand(12, 2)]])?;
    let end = ReactiveTerminal::Throw {
        value: place(3),
        id: EvaluationOrder::new(13),
    };
    written.put(alloc, end, &[&[Visit::Id(13), Visit::Operand(13, 3)]])
}

/// An `if` with both arms: the test, the consequent, then the alternate.
pub fn put_if(alloc: Global, written: &mut Written) -> Result<(), AllocError> {
    let terminal = ReactiveTerminal::If {
        test: place(1),
        consequent: returning(alloc, 15, 2)?,
        alternate: Some(returning(alloc, 16, 3)?),
        id: EvaluationOrder::new(14),
    };
    let inside = [Visit::Id(14), Visit::Operand(14, 1)];
    written.put(
        alloc,
        terminal,
        &[&inside, &returning_visits(15, 2), &returning_visits(16, 3)],
    )
}

/// A switch: the test, then the test and the block of each case; the last case is a default, the second has no block.
pub fn put_switch(alloc: Global, written: &mut Written) -> Result<(), AllocError> {
    let mut cases = List::new(alloc);
    cases.push(ReactiveSwitchCase {
        test: Some(place(2)),
        block: Some(returning(alloc, 18, 3)?),
    })?;
    cases.push(ReactiveSwitchCase {
        test: Some(place(4)),
        block: None,
    })?;
    cases.push(ReactiveSwitchCase {
        test: None,
        block: Some(returning(alloc, 19, 5)?),
    })?;
    let terminal = ReactiveTerminal::Switch {
        test: place(1),
        cases,
        id: EvaluationOrder::new(17),
    };
    let first = [Visit::Id(17), Visit::Operand(17, 1), Visit::Operand(17, 2)];
    written.put(
        alloc,
        terminal,
        &[
            &first,
            &returning_visits(18, 3),
            &[Visit::Operand(17, 4)],
            &returning_visits(19, 5),
        ],
    )
}

/// A do-while: the block, then the test.
pub fn put_do_while(alloc: Global, written: &mut Written) -> Result<(), AllocError> {
    let terminal = ReactiveTerminal::DoWhile {
        loop_block: returning(alloc, 21, 2)?,
        test: boxed_load(alloc, 1)?,
        id: EvaluationOrder::new(20),
    };
    written.put(
        alloc,
        terminal,
        &[
            &[Visit::Id(20)],
            &returning_visits(21, 2),
            &load_visits(20, 1),
        ],
    )
}

/// A while: the test, then the block.
pub fn put_while(alloc: Global, written: &mut Written) -> Result<(), AllocError> {
    let terminal = ReactiveTerminal::While {
        test: boxed_load(alloc, 1)?,
        loop_block: returning(alloc, 23, 2)?,
        id: EvaluationOrder::new(22),
    };
    written.put(
        alloc,
        terminal,
        &[
            &[Visit::Id(22)],
            &load_visits(22, 1),
            &returning_visits(23, 2),
        ],
    )
}

/// A for of id 5 that loads 0, 1 and 2, with a block that returns 3 at id 9.
pub fn for_loop(alloc: Global) -> Result<ReactiveTerminal, AllocError> {
    Ok(ReactiveTerminal::For {
        init: boxed_load(alloc, 0)?,
        test: boxed_load(alloc, 1)?,
        update: Some(boxed_load(alloc, 2)?),
        loop_block: returning(alloc, 9, 3)?,
        id: EvaluationOrder::new(5),
    })
}

/// A for: the init, the test, and then the block and the update in the given order.
pub fn put_for(alloc: Global, written: &mut Written, order: ForOrder) -> Result<(), AllocError> {
    let (init, test) = (load_visits(5, 0), load_visits(5, 1));
    let (body, update) = (returning_visits(9, 3), load_visits(5, 2));
    let terminal = for_loop(alloc)?;
    match order {
        ForOrder::BodyFirst => written.put(
            alloc,
            terminal,
            &[&[Visit::Id(5)], &init, &test, &body, &update],
        ),
        ForOrder::UpdateFirst => written.put(
            alloc,
            terminal,
            &[&[Visit::Id(5)], &init, &test, &update, &body],
        ),
    }
}

/// A for-of: the init, the test, then the block.
pub fn put_for_of(alloc: Global, written: &mut Written) -> Result<(), AllocError> {
    let terminal = ReactiveTerminal::ForOf {
        init: boxed_load(alloc, 1)?,
        test: boxed_load(alloc, 2)?,
        loop_block: returning(alloc, 25, 3)?,
        span: SPAN,
        id: EvaluationOrder::new(24),
    };
    written.put(
        alloc,
        terminal,
        &[
            &[Visit::Id(24)],
            &load_visits(24, 1),
            &load_visits(24, 2),
            &returning_visits(25, 3),
        ],
    )
}

/// A for-in: the init, then the block.
pub fn put_for_in(alloc: Global, written: &mut Written) -> Result<(), AllocError> {
    let terminal = ReactiveTerminal::ForIn {
        init: boxed_load(alloc, 1)?,
        loop_block: returning(alloc, 27, 2)?,
        span: SPAN,
        id: EvaluationOrder::new(26),
    };
    written.put(
        alloc,
        terminal,
        &[
            &[Visit::Id(26)],
            &load_visits(26, 1),
            &returning_visits(27, 2),
        ],
    )
}

/// A label: its block.
pub fn put_label(alloc: Global, written: &mut Written) -> Result<(), AllocError> {
    let terminal = ReactiveTerminal::Label {
        block: returning(alloc, 29, 1)?,
        id: EvaluationOrder::new(28),
    };
    written.put(
        alloc,
        terminal,
        &[&[Visit::Id(28)], &returning_visits(29, 1)],
    )
}

/// A try: the block, the binding, then the handler.
pub fn put_try(alloc: Global, written: &mut Written) -> Result<(), AllocError> {
    let terminal = ReactiveTerminal::Try {
        block: returning(alloc, 31, 1)?,
        handler_binding: Some(place(2)),
        handler: returning(alloc, 32, 3)?,
        id: EvaluationOrder::new(30),
    };
    written.put(
        alloc,
        terminal,
        &[
            &[Visit::Id(30)],
            &returning_visits(31, 1),
            &[Visit::Operand(30, 2)],
            &returning_visits(32, 3),
        ],
    )
}

/// A scope and a pruned scope: the block of each.
pub fn put_scopes(alloc: Global, written: &mut Written) -> Result<(), AllocError> {
    let scope = ReactiveScopeBlock {
        scope: ScopeId::new(6),
        instructions: returning(alloc, 33, 1)?,
    };
    written
        .body
        .statements
        .push(ReactiveStatement::Scope(scope))?;
    written.visits.push(Visit::Enter(Part::Scope(6)))?;
    note(&mut written.visits, &returning_visits(33, 1))?;
    written.visits.push(Visit::Leave(Part::Scope(6)))?;

    let scope = PrunedReactiveScopeBlock {
        scope: ScopeId::new(7),
        instructions: returning(alloc, 34, 2)?,
    };
    written
        .body
        .statements
        .push(ReactiveStatement::PrunedScope(scope))?;
    written.visits.push(Visit::Enter(Part::PrunedScope(7)))?;
    note(&mut written.visits, &returning_visits(34, 2))?;
    written.visits.push(Visit::Leave(Part::PrunedScope(7)))?;
    Ok(())
}
