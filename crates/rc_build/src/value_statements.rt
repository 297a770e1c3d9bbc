//! Value terminals in lists: each is a row, after which the list goes on at its fallthrough.

ghost use Rattle.std.specs.Prelude.{◌≡◌, Some, IsSome};
ghost use Rattle.rc_tree.specs.declared.statement.ReactiveStatement.TheVariants as reactive;
ghost use Rattle.rc_build.specs.inside.Built.{BuildsTask};
ghost use Rattle.rc_build.specs.inside.CanBuild.{CanBuildTerminal};
ghost use Rattle.rc_build.specs.inside.Task.{FromTerminal, left};
ghost use Rattle.rc_build.specs.inside.ValueKinds.{terminal_of};
ghost use Rattle.rc_build.specs.inside.ValueKinds as kinds;

use crate::builder::{Builder, Site, falls_to, malformed};
use crate::value_terminals::{NestedValue, ValueTerminal, value_terminal};
use rc_hir::{Fault, Rule, Terminal};
use rc_names::{BlockId, Boxed};
use rc_tree::{ReactiveInstruction, ReactiveStatement};

impl<'g> Builder<'g> {
    /// Builds the row of the value terminal that a terminal is; returns where the list goes on. The faults are those of
    /// `build_value_statement`.
    // Not inlined, so that a value takes no room in the frames of nested lists.
    #[inline(never)]
    pub fn build_row_of(
        &mut self,
        site: Site,
        terminal: &Terminal,
    ) -> Result<Option<BlockId>, Fault>
        requires { CanBuildTerminal self.old.hir.now self.old.marks site.handler self.old.frames site.block terminal.now
            × IsSome (kinds.value_terminal terminal.now) }
        ensures { BuildsTask self.old self.new site (FromTerminal terminal.now) left result }
    {
        self.build_value_statement(site, value_terminal(terminal).unwrap())
    }

    /// Builds the row of a value terminal; returns where the list goes on.
    ///
    /// - `Malformed` with `FallsElsewhere`: leaving the row leads elsewhere.
    /// - `Malformed`, `Todo`, `BadName`: as for its value and its short arm.
    fn build_value_statement(
        &mut self,
        site: Site,
        terminal: ValueTerminal,
    ) -> Result<Option<BlockId>, Fault>
        requires { CanBuildTerminal self.old.hir.now self.old.marks site.handler self.old.frames site.block
            (terminal_of terminal) }
        ensures { BuildsTask self.old self.new site (FromTerminal (terminal_of terminal)) left result }
    {
        let opened = self.open(terminal.fallthrough);
        if !falls_to(opened, terminal.fallthrough, site.next) {
            return Err(malformed(site.block, Rule::FallsElsewhere));
        }
        let nested = self.build_nested(terminal, site.handler)?;
        self.build_short_arm(
            terminal.fallthrough,
            site.handler,
            false,
            nested.get().short,
            None,
        )?;
        self.out.push(value_statement(terminal, nested))?;
        Ok(opened)
    }
}

/// The row of a value terminal.
fn value_statement(terminal: ValueTerminal, nested: Boxed<NestedValue>) -> ReactiveStatement
    ensures { result ≡ reactive.Instruction (record {
      id = terminal.id;
      lvalue = Some nested.answer;
      value = nested.value;
      span = terminal.span;
    }) }
{
    let nested = nested.into_inner();
    ReactiveStatement::Instruction(ReactiveInstruction {
        id: terminal.id,
        lvalue: Some(nested.answer),
        value: nested.value.into_inner(),
        span: terminal.span,
    })
}
