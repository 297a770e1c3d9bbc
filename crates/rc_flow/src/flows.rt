//! The steps by which a tree carries reactivity on, in the order of the rewriting walk.
//!
//! Statements that follow each other are a loop, so that the call stack grows with the nesting alone.
#![tactic(auto, using(crate::proofs::FlowsLemmas::flowing_forms))]

mod values;

ghost use Rattle.std.specs.Prelude.{◌≡◌, ◌++◌, IfOk, OnOk};
ghost use Rattle.rc_flow.specs.Flows.{flows_in};
ghost use Rattle.rc_flow.specs.inside.PartFlows.{flows_if, flows_of_cases, flows_of_list, flows_of_statement};
ghost use Rattle.rc_flow.specs.inside.PartFlows.{flows_of_terminal};
ghost use Rattle.rc_names.specs.Numbers.{EvaluationOrder as Order};

use crate::step::Step;
use rc_hir::Environment;
use rc_names::List;
use rc_tree::{ReactiveBlock, ReactiveStatement, ReactiveSwitchCase, ReactiveTerminal};
use std::alloc::{AllocError, Global};

/// The walk that lists the steps. Each of its methods adds those of a part.
#[derive(Clone, Copy)]
pub struct PruneVisitor<'a> {
    pub alloc: Global,
    pub env: &'a Environment,
}

/// The steps of a tree. The only error is out of memory.
pub fn flows_in(
    alloc: Global,
    env: &Environment,
    block: &ReactiveBlock,
) -> Result<List<Step>, AllocError>
    ensures { IfOk result (λ steps. steps ≡ flows_in env.now block.now) }
{
    let mut steps = List::new(alloc);
    PruneVisitor { alloc, env }.add_block(&mut steps, block)?;
    Ok(steps)
}

impl<'a> PruneVisitor<'a> {
    /// Adds the steps of a block.
    #[cycle(flows)]
    fn add_block(&self, steps: &mut List<Step>, block: &ReactiveBlock) -> Result<(), AllocError>
        ensures { OnOk result (steps.new ≡ steps.old ++ flows_in self.now.env.now block.now) }
    {
        self.add_statements(steps, block.statements.as_slice())
    }

    /// Adds the steps of statements, one after the other.
    #[cycle(flows)]
    fn add_statements(
        &self,
        steps: &mut List<Step>,
        all: &[ReactiveStatement],
    ) -> Result<(), AllocError>
        ensures { OnOk result (steps.new ≡ steps.old ++ flows_of_list self.now.env.now all.now) }
    {
        for statement in all {
            self.add_statement(steps, statement)?;
        }
        Ok(())
    }

    /// Adds the steps of a statement; a scope block ends after its inside.
    #[cycle(flows)]
    fn add_statement(
        &self,
        steps: &mut List<Step>,
        statement: &ReactiveStatement,
    ) -> Result<(), AllocError>
        ensures { OnOk result (steps.new ≡ steps.old ++ flows_of_statement self.now.env.now statement.now) }
    {
        match statement {
            ReactiveStatement::Instruction(row) => self.add_row(steps, row),
            ReactiveStatement::Terminal(statement) => {
                self.add_terminal(steps, &statement.get().terminal)
            }
            ReactiveStatement::Scope(block) => {
                self.add_block(steps, &block.instructions)?;
                steps.push(Step::Ends(block.scope))
            }
            ReactiveStatement::PrunedScope(block) => self.add_block(steps, &block.instructions),
        }
    }

    /// Adds the steps of the parts of a terminal.
    #[cycle(flows)]
    fn add_terminal(
        &self,
        steps: &mut List<Step>,
        terminal: &ReactiveTerminal,
    ) -> Result<(), AllocError>
        ensures { OnOk result (steps.new ≡ steps.old ++ flows_of_terminal self.now.env.now terminal.now) }
    {
        match terminal {
            ReactiveTerminal::Break { .. }
            | ReactiveTerminal::Continue { .. }
            | ReactiveTerminal::Return { .. }
            | ReactiveTerminal::Throw { .. } => Ok(()),
            ReactiveTerminal::Switch { cases, .. } => self.add_cases(steps, cases.as_slice()),
            ReactiveTerminal::DoWhile {
                loop_block,
                test,
                ..
            } => {
                self.add_block(steps, loop_block)?;
                self.add_loop_value(steps, test)
            }
            ReactiveTerminal::While {
                test,
                loop_block,
                ..
            } => {
                self.add_loop_value(steps, test)?;
                self.add_block(steps, loop_block)
            }
            ReactiveTerminal::For {
                init,
                test,
                update,
                loop_block,
                ..
            } => {
                self.add_loop_value(steps, init)?;
                self.add_loop_value(steps, test)?;
                self.add_value_if(steps, update)?;
                self.add_block(steps, loop_block)
            }
            ReactiveTerminal::ForOf {
                init,
                test,
                loop_block,
                ..
            } => {
                self.add_loop_value(steps, init)?;
                self.add_loop_value(steps, test)?;
                self.add_block(steps, loop_block)
            }
            ReactiveTerminal::ForIn {
                init,
                loop_block,
                ..
            } => {
                self.add_loop_value(steps, init)?;
                self.add_block(steps, loop_block)
            }
            ReactiveTerminal::If {
                consequent,
                alternate,
                ..
            } => {
                self.add_block(steps, consequent)?;
                self.add_block_if(steps, alternate)
            }
            ReactiveTerminal::Label { block, .. } => self.add_block(steps, block),
            ReactiveTerminal::Try { block, handler, .. } => {
                self.add_block(steps, block)?;
                self.add_block(steps, handler)
            }
        }
    }

    /// Adds the steps of the cases of a switch.
    #[cycle(flows)]
    fn add_cases(
        &self,
        steps: &mut List<Step>,
        cases: &[ReactiveSwitchCase],
    ) -> Result<(), AllocError>
        ensures { OnOk result
            ((id : Order) → steps.new ≡ steps.old ++ flows_of_cases self.now.env.now id cases.now) }
    {
        for case in cases {
            self.add_block_if(steps, &case.block)?;
        }
        Ok(())
    }

    /// Adds the steps of a block that may be left out.
    #[cycle(flows)]
    fn add_block_if(
        &self,
        steps: &mut List<Step>,
        block: &Option<ReactiveBlock>,
    ) -> Result<(), AllocError>
        ensures { OnOk result (steps.new ≡ steps.old ++ flows_if self.now.env.now block.now) }
    {
        match block {
            Some(block) => self.add_block(steps, block),
            None => Ok(()),
        }
    }
}
