//! The positions of the statements of a body, from the last one to the first. Each is told where its completions lead.

ghost use Rattle.std.specs.Prelude.{◌≡◌, ◌||◌, None, is_none, IfOk, OnOk};
ghost use Rattle.std.specs.Option.{option_map};
ghost use Rattle.rc_replay.specs.inside.LaidBody as spec;
ghost use Rattle.rc_replay.specs.inside.Lowered.{all_choices, thrown_position};
ghost use Rattle.rc_replay.specs.inside.Positions.{position_of};

use crate::early_returns::{returned_by, stored_by};
use crate::exits::{Around, Exits, LabelExit};
use crate::given::End;
use crate::layout::{After, Layout, Turns};
use crate::positions::{Choice, Position};
use rc_hir::{Environment, Place};
use rc_names::{BlockId, Boxed, List};
use rc_tree::{
    ReactiveBlock, ReactiveLabel, ReactiveStatement, ReactiveSwitchCase, ReactiveTerminal,
    ReactiveTerminalTargetKind, ReactiveValue,
};
use std::alloc::AllocError;

/// Returns the place that the statement before that one stores, if there is one, and it stores one.
fn stored_before(statements: &[ReactiveStatement], i: usize) -> Option<Place>
    ensures { result ≡ spec.stored_before statements.now i }
{
    if i == 0 {
        return None;
    }
    match statements.get(i - 1) {
        Some(statement) => stored_by(statement),
        None => None,
    }
}

/// Returns the position of a throw statement.
fn thrown<'t>(throws: bool, place: Place) -> Position<'t>
    ensures { position_of result ≡ thrown_position throws place }
{
    if throws {
        Position::Ends(End::Thrown(place))
    } else {
        Position::Stops
    }
}

/// Returns the value that is updated before the next turn, if there is one.
fn updated<'t>(update: &'t Option<Boxed<ReactiveValue>>) -> Option<&'t ReactiveValue>
    ensures { option_map (λ value. value.now) result ≡ update.now }
{
    match update {
        Some(value) => Some(value.get()),
        None => None,
    }
}

/// Returns whether a case with this test is the default, or one after it is.
fn is_default_or(test: Option<Place>, defaults: bool) -> bool
    ensures { result ≡ (is_none test || defaults) }
{
    test.is_none() || defaults
}

/// Adds the choice of the way past all cases, which leads on there, unless there is a default. Fails only when out of
/// memory.
fn add_past(choices: &mut List<Choice>, defaults: bool, next: usize) -> Result<(), AllocError>
    ensures { OnOk result (choices.new ≡ all_choices defaults next choices.old) }
{
    if !defaults {
        choices.push((None, next))?;
    }
    Ok(())
}

impl<'t> Layout<'t> {
    /// Lays out a block, and returns the number of its first position. Fails only when out of memory.
    #[cycle(lay_statement)]
    pub fn block(
        &mut self,
        env: &Environment,
        exits: Exits,
        block: &'t ReactiveBlock,
    ) -> Result<usize, AllocError>
        ensures { IfOk result (spec.LaysBlock env.now exits block.now self.old self.new) }
    {
        self.list(env, exits, block.statements.as_slice())
    }

    /// Lays out the statements of a block.
    #[cycle(lay_statement)]
    fn list(
        &mut self,
        env: &Environment,
        exits: Exits,
        statements: &'t [ReactiveStatement],
    ) -> Result<usize, AllocError>
        ensures { IfOk result (spec.LaysList env.now None exits statements.now self.old self.new) }
    {
        let mut start = exits.normal;
        for i in (0..statements.len()).rev() {
            let stored = stored_before(statements, i);
            start = self.statement(env, stored, exits.before(start), &statements[i])?;
        }
        Ok(start)
    }

    /// Lays out a statement after one that stores that place, if it stores one.
    #[cycle(lay_statement)]
    fn statement(
        &mut self,
        env: &Environment,
        stored: Option<Place>,
        exits: Exits,
        statement: &'t ReactiveStatement,
    ) -> Result<usize, AllocError>
        ensures { IfOk result (spec.LaysStatement env.now stored exits statement.now self.old self.new) }
    {
        match statement {
            ReactiveStatement::Instruction(row) => {
                self.row(env, false, row, After::at(exits.normal))
            }
            ReactiveStatement::Terminal(statement) => {
                let statement = statement.get();
                self.terminal(env, stored, exits, statement.label, &statement.terminal)
            }
            ReactiveStatement::Scope(scope) => self.block(env, exits, &scope.instructions),
            ReactiveStatement::PrunedScope(scope) => self.block(env, exits, &scope.instructions),
        }
    }

    /// Lays out a terminal with its label.
    #[cycle(lay_statement)]
    fn terminal(
        &mut self,
        env: &Environment,
        stored: Option<Place>,
        exits: Exits,
        label: Option<ReactiveLabel>,
        terminal: &'t ReactiveTerminal,
    ) -> Result<usize, AllocError>
        ensures { IfOk result (spec.LaysTerminal env.now stored exits label terminal.now self.old self.new) }
    {
        match terminal {
            ReactiveTerminal::Return { value, .. } => {
                self.add(Position::Ends(End::Returned(*value)))
            }
            ReactiveTerminal::Throw { value, .. } => self.add(thrown(exits.throws, *value)),
            ReactiveTerminal::Break {
                target,
                target_kind,
                ..
            } => self.break_to(env, stored, exits, label, *target, *target_kind),
            ReactiveTerminal::Continue {
                target,
                target_kind,
                ..
            } => Ok(exits.of_continue(self.labels.as_slice(), *target, *target_kind)),
            ReactiveTerminal::If {
                consequent,
                alternate,
                ..
            } => {
                let holds = self.part(env, exits, exits.around(label), consequent)?;
                let fails = self.alternate(env, exits, exits.around(label), alternate)?;
                self.add(Position::Tests { holds, fails })
            }
            ReactiveTerminal::Switch { cases, .. } => {
                self.switch(env, exits, label, cases.as_slice())
            }
            ReactiveTerminal::Label { block, .. } => {
                self.part(env, exits, exits.around(label), block)
            }
            ReactiveTerminal::Try { block, .. } => {
                self.part(env, exits.protected(), exits.around(label), block)
            }
            ReactiveTerminal::While {
                test,
                loop_block,
                ..
            } => {
                let turns = self.turns(env, exits, label, loop_block, None, test.get())?;
                Ok(turns.test)
            }
            ReactiveTerminal::DoWhile {
                loop_block,
                test,
                ..
            } => {
                let turns = self.turns(env, exits, label, loop_block, None, test.get())?;
                Ok(turns.body)
            }
            ReactiveTerminal::For {
                init,
                test,
                update,
                loop_block,
                ..
            } => {
                let update = updated(update);
                let turns = self.turns(env, exits, label, loop_block, update, test.get())?;
                self.value(env, false, init.get(), After::at(turns.test))
            }
            ReactiveTerminal::ForOf {
                init,
                test,
                loop_block,
                ..
            } => {
                let init = Some(init.get());
                let turns = self.turns(env, exits, label, loop_block, init, test.get())?;
                Ok(turns.turn)
            }
            ReactiveTerminal::ForIn {
                init,
                loop_block,
                ..
            } => {
                let turns = self.turns(env, exits, label, loop_block, None, init.get())?;
                Ok(turns.test)
            }
        }
    }

    /// Lays out a break: an early return ends the run, and any other break leads on.
    fn break_to(
        &mut self,
        env: &Environment,
        stored: Option<Place>,
        exits: Exits,
        label: Option<ReactiveLabel>,
        target: BlockId,
        kind: ReactiveTerminalTargetKind,
    ) -> Result<usize, AllocError>
        ensures { IfOk result (spec.LaysBreak env.now stored exits label target kind self.old self.new) }
    {
        match returned_by(env, stored, target, kind) {
            Some(value) => self.add(Position::Ends(End::Returned(value))),
            None => Ok(exits.of_break(self.labels.as_slice(), label, target, kind)),
        }
    }

    /// Lays out the cases of a switch, each of which falls into the next one, and then the choice between them.
    #[cycle(lay_statement)]
    fn switch(
        &mut self,
        env: &Environment,
        exits: Exits,
        label: Option<ReactiveLabel>,
        cases: &'t [ReactiveSwitchCase],
    ) -> Result<usize, AllocError>
        ensures { IfOk result (spec.LaysSwitch env.now exits label cases.now self.old self.new) }
    {
        let mut choices = List::new(self.alloc);
        let mut defaults = false;
        let mut start = exits.normal;
        for i in (0..cases.len()).rev() {
            let case = &cases[i];
            let inside = exits.in_switch().before(start);
            start = self.alternate(env, inside, exits.around(label), &case.block)?;
            choices.push((case.test, start))?;
            defaults = is_default_or(case.test, defaults);
        }
        add_past(&mut choices, defaults, exits.normal)?;
        self.add(Position::Chooses(choices))
    }

    /// Lays out an optional block with that label around it.
    #[cycle(lay_statement)]
    fn alternate(
        &mut self,
        env: &Environment,
        exits: Exits,
        around: Around,
        block: &'t Option<ReactiveBlock>,
    ) -> Result<usize, AllocError>
        ensures { IfOk result (spec.LaysAlternate env.now exits around block.now self.old self.new) }
    {
        match block {
            Some(block) => self.part(env, exits, around, block),
            None => Ok(exits.normal),
        }
    }

    /// Lays out a block with that label around it.
    #[cycle(lay_statement)]
    fn part(
        &mut self,
        env: &Environment,
        exits: Exits,
        around: Around,
        block: &'t ReactiveBlock,
    ) -> Result<usize, AllocError>
        ensures { IfOk result (spec.LaysPart env.now exits around block.now self.old self.new) }
    {
        let Some(label) = around.label else {
            return self.block(env, exits, block);
        };
        self.labels.push(LabelExit {
            block: label.id,
            break_to: around.break_to,
            continue_to: around.continue_to,
        })?;
        let start = self.block(env, exits, block)?;
        self.labels.pop();
        Ok(start)
    }

    /// Lays out the turns of a loop: its body, its test, and the value before the test, if there is one. The number
    /// where the turns begin is known to the body before the position is.
    #[cycle(lay_statement)]
    fn turns(
        &mut self,
        env: &Environment,
        exits: Exits,
        label: Option<ReactiveLabel>,
        body: &'t ReactiveBlock,
        before: Option<&'t ReactiveValue>,
        test: &'t ReactiveValue,
    ) -> Result<Turns, AllocError>
        ensures { IfOk result (spec.LaysLoop env.now exits label (option_map (λ value. value.now) before.entry) test.now
            body.now self.old self.new) }
    {
        let turn = self.reserve()?;
        let around = Around {
            label,
            break_to: exits.normal,
            continue_to: Some(turn),
        };
        let body = self.part(env, exits.in_loop(turn), around, body)?;
        let branch = self.add(Position::Tests {
            holds: body,
            fails: exits.normal,
        })?;
        let test = self.value(env, false, test, After::at(branch))?;
        let start = self.before_test(env, before, test)?;
        self.fill(turn, start);
        Ok(Turns { turn, test, body })
    }

    /// Lays out the value before the test of a loop, if there is one, and returns the number where a turn begins.
    fn before_test(
        &mut self,
        env: &Environment,
        before: Option<&'t ReactiveValue>,
        test: usize,
    ) -> Result<usize, AllocError>
        ensures { IfOk result (spec.LaysBefore env.now (option_map (λ value. value.now) before.entry) test self.old self.new) }
    {
        match before {
            Some(value) => self.value(env, false, value, After::at(test)),
            None => Ok(test),
        }
    }
}
