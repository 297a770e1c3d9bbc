//! Label pruning as a transform of the rewriting walk.

ghost use Rattle.std.specs.Prelude.{◌≡◌};
ghost use Rattle.rc_checks.specs.Labels.Steps.{label_steps, statements_taken, without};

use crate::block_set::BlockSet;
use crate::labels::targets::{mark, names_label, note_target};
use rc_hir::Fault;
use rc_names::List;
use rc_tree::{
    ReactiveBlock, ReactiveScopeBlock, ReactiveStatement, ReactiveTerminal,
    ReactiveTerminalStatement, Transformed,
};
use rc_walk::StatementTransform;

/// Label pruning as a pass over statements; its state is the set of targets. The rewriting walk with it, from no
/// targets on, gives the same tree as `prune_unused_labels`. Where unused labels are nested, the walk moves their
/// statements once for each level.
#[derive(Clone, Copy)]
pub struct UnusedLabels;

impl StatementTransform for UnusedLabels {
    type State = BlockSet;

    ghost steps = { λ pass. label_steps };

    fn enter_scope(
        &self,
        _scope: &ReactiveScopeBlock,
        _targets: &mut BlockSet,
    ) -> Result<(), Fault> {
        Ok(())
    }

    fn transform_terminal(
        &self,
        stmt: &mut ReactiveTerminalStatement,
        targets: &mut BlockSet,
    ) -> Result<Transformed<ReactiveStatement>, Fault> {
        note_target(&stmt.terminal, targets)?;
        match take_statements(stmt, targets) {
            Some(statements) => Ok(Transformed::ReplaceMany(statements)),
            None => {
                mark(stmt, targets);
                Ok(Transformed::Keep)
            }
        }
    }

    fn transform_scope(
        &self,
        _scope: &mut ReactiveScopeBlock,
        _targets: &mut BlockSet,
    ) -> Result<Transformed<ReactiveStatement>, Fault> {
        Ok(Transformed::Keep)
    }

    fn leave_block(
        &self,
        _block: &mut ReactiveBlock,
        _targets: &mut BlockSet,
    ) -> Result<(), Fault> {
        Ok(())
    }
}

/// Takes the statements of a `Label` that nothing names.
fn take_statements(
    stmt: &mut ReactiveTerminalStatement,
    targets: &BlockSet,
) -> Option<List<ReactiveStatement>>
    ensures statements_taken { result ≡ statements_taken targets.now stmt.old }
    ensures left { stmt.new ≡ without result stmt.old }
{
    if names_label(targets, &stmt.label) {
        return None;
    }
    match &mut stmt.terminal {
        ReactiveTerminal::Label { block, id: _ } => Some(block.statements.take()),
        _ => None,
    }
}
