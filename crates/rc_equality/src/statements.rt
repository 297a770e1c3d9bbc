//! Equality of blocks, statements, terminals and scopes, and of whole functions.

ghost use Rattle.std.specs.Prelude.{◌≡◌, ◌↔◌, IsTrue};

use crate::Equals;
use rc_names::List;
use rc_tree::{
    PrunedReactiveScopeBlock, ReactiveBlock, ReactiveFunction, ReactiveScopeBlock,
    ReactiveStatement, ReactiveSwitchCase, ReactiveTerminal, ReactiveTerminalStatement,
};

impl Equals for ReactiveBlock {
    #[cycle(equal_tree)]
    fn equals(&self, other: &ReactiveBlock) -> bool {
        let others = other.statements.as_slice();
        if self.statements.len() != others.len() {
            return false;
        }
        for (i, statement) in self.statements.as_slice().iter().enumerate() {
            if !statement.equals(&others[i]) {
                return false;
            }
        }
        true
    }
}

impl Equals for ReactiveStatement {
    #[cycle(equal_tree)]
    fn equals(&self, other: &ReactiveStatement) -> bool {
        match self {
            ReactiveStatement::Instruction(instruction) => match other {
                ReactiveStatement::Instruction(its) => instruction.equals(its),
                _ => false,
            },
            ReactiveStatement::Terminal(stmt) => match other {
                ReactiveStatement::Terminal(its) => stmt.get().equals(its.get()),
                _ => false,
            },
            ReactiveStatement::Scope(scope) => match other {
                ReactiveStatement::Scope(its) => scope.equals(its),
                _ => false,
            },
            ReactiveStatement::PrunedScope(scope) => match other {
                ReactiveStatement::PrunedScope(its) => scope.equals(its),
                _ => false,
            },
        }
    }
}

impl Equals for ReactiveScopeBlock {
    #[cycle(equal_tree)]
    fn equals(&self, other: &ReactiveScopeBlock) -> bool {
        self.scope == other.scope && self.instructions.equals(&other.instructions)
    }
}

impl Equals for PrunedReactiveScopeBlock {
    #[cycle(equal_tree)]
    fn equals(&self, other: &PrunedReactiveScopeBlock) -> bool {
        self.scope == other.scope && self.instructions.equals(&other.instructions)
    }
}

impl Equals for ReactiveTerminalStatement {
    #[cycle(equal_tree)]
    fn equals(&self, other: &ReactiveTerminalStatement) -> bool {
        self.label == other.label && self.terminal.equals(&other.terminal)
    }
}

impl Equals for ReactiveTerminal {
    #[cycle(equal_tree)]
    fn equals(&self, other: &ReactiveTerminal) -> bool {
        match self {
            ReactiveTerminal::Break {
                target,
                target_kind,
                id,
            } => match other {
                ReactiveTerminal::Break {
                    target: its_target,
                    target_kind: its_target_kind,
                    id: its_id,
                } => target.equals(its_target)
                    && target_kind == its_target_kind
                    && id.equals(its_id),
                _ => false,
            },
            ReactiveTerminal::Continue {
                target,
                target_kind,
                id,
            } => match other {
                ReactiveTerminal::Continue {
                    target: its_target,
                    target_kind: its_target_kind,
                    id: its_id,
                } => target.equals(its_target)
                    && target_kind == its_target_kind
                    && id.equals(its_id),
                _ => false,
            },
            ReactiveTerminal::Return { value, id } => match other {
                ReactiveTerminal::Return {
                    value: its_value,
                    id: its_id,
                } => value.equals(its_value) && id.equals(its_id),
                _ => false,
            },
            ReactiveTerminal::Throw { value, id } => match other {
                ReactiveTerminal::Throw {
                    value: its_value,
                    id: its_id,
                } => value.equals(its_value) && id.equals(its_id),
                _ => false,
            },
            ReactiveTerminal::Switch { test, cases, id } => match other {
                ReactiveTerminal::Switch {
                    test: its_test,
                    cases: its_cases,
                    id: its_id,
                } => test.equals(its_test)
                    && id.equals(its_id)
                    && are_equal_cases(cases, its_cases),
                _ => false,
            },
            ReactiveTerminal::DoWhile {
                loop_block,
                test,
                id,
            } => match other {
                ReactiveTerminal::DoWhile {
                    loop_block: its_loop_block,
                    test: its_test,
                    id: its_id,
                } => id.equals(its_id)
                    && test.equals(its_test)
                    && loop_block.equals(its_loop_block),
                _ => false,
            },
            ReactiveTerminal::While {
                test,
                loop_block,
                id,
            } => match other {
                ReactiveTerminal::While {
                    test: its_test,
                    loop_block: its_loop_block,
                    id: its_id,
                } => id.equals(its_id)
                    && test.equals(its_test)
                    && loop_block.equals(its_loop_block),
                _ => false,
            },
            ReactiveTerminal::For {
                init,
                test,
                update,
                loop_block,
                id,
            } => match other {
                ReactiveTerminal::For {
                    init: its_init,
                    test: its_test,
                    update: its_update,
                    loop_block: its_loop_block,
                    id: its_id,
                } => id.equals(its_id)
                    && init.equals(its_init)
                    && test.equals(its_test)
                    && update.equals(its_update)
                    && loop_block.equals(its_loop_block),
                _ => false,
            },
            ReactiveTerminal::ForOf {
                init,
                test,
                loop_block,
                span,
                id,
            } => match other {
                ReactiveTerminal::ForOf {
                    init: its_init,
                    test: its_test,
                    loop_block: its_loop_block,
                    span: its_span,
                    id: its_id,
                } => span == its_span
                    && id.equals(its_id)
                    && init.equals(its_init)
                    && test.equals(its_test)
                    && loop_block.equals(its_loop_block),
                _ => false,
            },
            ReactiveTerminal::ForIn {
                init,
                loop_block,
                span,
                id,
            } => match other {
                ReactiveTerminal::ForIn {
                    init: its_init,
                    loop_block: its_loop_block,
                    span: its_span,
                    id: its_id,
                } => span == its_span
                    && id.equals(its_id)
                    && init.equals(its_init)
                    && loop_block.equals(its_loop_block),
                _ => false,
            },
            ReactiveTerminal::If {
                test,
                consequent,
                alternate,
                id,
            } => match other {
                ReactiveTerminal::If {
                    test: its_test,
                    consequent: its_consequent,
                    alternate: its_alternate,
                    id: its_id,
                } => test.equals(its_test)
                    && id.equals(its_id)
                    && consequent.equals(its_consequent)
                    && are_equal_alternates(alternate, its_alternate),
                _ => false,
            },
            ReactiveTerminal::Label { block, id } => match other {
                ReactiveTerminal::Label {
                    block: its_block,
                    id: its_id,
                } => id.equals(its_id) && block.equals(its_block),
                _ => false,
            },
            ReactiveTerminal::Try {
                block,
                handler_binding,
                handler,
                id,
            } => match other {
                ReactiveTerminal::Try {
                    block: its_block,
                    handler_binding: its_handler_binding,
                    handler: its_handler,
                    id: its_id,
                } => handler_binding.equals(its_handler_binding)
                    && id.equals(its_id)
                    && block.equals(its_block)
                    && handler.equals(its_handler),
                _ => false,
            },
        }
    }
}

impl Equals for ReactiveSwitchCase {
    #[cycle(equal_tree)]
    fn equals(&self, other: &ReactiveSwitchCase) -> bool {
        self.test.equals(&other.test) && are_equal_alternates(&self.block, &other.block)
    }
}

/// Whether two optional blocks are equal.
#[cycle(equal_tree)]
fn are_equal_alternates(block: &Option<ReactiveBlock>, other: &Option<ReactiveBlock>) -> bool
    ensures { IsTrue result ↔ (block.now ≡ other.now) }
{
    match block {
        Some(block) => match other {
            Some(its_block) => block.equals(its_block),
            None => false,
        },
        None => other.is_none(),
    }
}

/// Whether the cases of two switches are equal.
#[cycle(equal_tree)]
fn are_equal_cases(cases: &List<ReactiveSwitchCase>, others: &List<ReactiveSwitchCase>) -> bool
    ensures { IsTrue result ↔ (cases.now ≡ others.now) }
{
    let others = others.as_slice();
    if cases.len() != others.len() {
        return false;
    }
    for (i, case) in cases.as_slice().iter().enumerate() {
        if !case.equals(&others[i]) {
            return false;
        }
    }
    true
}

impl Equals for ReactiveFunction {
    fn equals(&self, other: &ReactiveFunction) -> bool {
        self.span == other.span
            && self.id.equals(&other.id)
            && self.name_hint.equals(&other.name_hint)
            && self.params.equals(&other.params)
            && self.generator == other.generator
            && self.is_async == other.is_async
            && self.body.equals(&other.body)
            && self.directives.equals(&other.directives)
    }
}
