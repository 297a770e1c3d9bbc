//! The targets of labeled breaks and continues, and the labels that they name.

ghost use Rattle.std.specs.Prelude.{◌≡◌, OnOk};
ghost use Rattle.rc_checks.specs.Labels.{is_named, label_after, targets_behind, with_jump};
ghost use Rattle.rc_tree.specs.declared.terminal.ReactiveTerminal.{out-ReactiveTerminal};

use crate::block_set::BlockSet;
use rc_names::BlockId;
use rc_tree::{
    ReactiveLabel, ReactiveTerminal, ReactiveTerminalStatement, ReactiveTerminalTargetKind,
};
use std::alloc::AllocError;

/// Notes the target of a labeled break or continue.
pub(super) fn note_target(
    terminal: &ReactiveTerminal,
    targets: &mut BlockSet,
) -> Result<(), AllocError>
    ensures { OnOk result (targets.new ≡ targets_behind (out-ReactiveTerminal terminal.now) targets.old) }
{
    match terminal {
        ReactiveTerminal::Break {
            target,
            target_kind,
            id: _,
        } => note_jump(*target_kind, *target, targets),
        ReactiveTerminal::Continue {
            target,
            target_kind,
            id: _,
        } => note_jump(*target_kind, *target, targets),
        _ => Ok(()),
    }
}

/// Notes a target, where the jump is labeled.
fn note_jump(
    kind: ReactiveTerminalTargetKind,
    target: BlockId,
    targets: &mut BlockSet,
) -> Result<(), AllocError>
    ensures { OnOk result (targets.new ≡ with_jump kind target targets.old) }
{
    if let ReactiveTerminalTargetKind::Labeled = kind {
        targets.insert(target)?;
    }
    Ok(())
}

/// Whether a target is the label, where there is one.
pub(super) fn names_label(targets: &BlockSet, label: &Option<ReactiveLabel>) -> bool
    ensures { result ≡ is_named targets.now label.now }
{
    match label {
        Some(label) => targets.contains(label.id),
        None => false,
    }
}

/// Makes a label that nothing names implicit.
pub(super) fn mark(stmt: &mut ReactiveTerminalStatement, targets: &BlockSet)
    ensures { stmt.new ≡ record { terminal = stmt.old.terminal; label = label_after targets.now stmt.old.label } }
{
    if let Some(label) = &mut stmt.label {
        if !targets.contains(label.id) {
            label.implicit = true;
        }
    }
}
