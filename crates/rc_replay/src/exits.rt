//! Where a statement goes on, and where the jumps in it lead.

ghost use Rattle.std.specs.Prelude.{◌≡◌, false, reverse, if◌then◌else◌};
ghost use Rattle.std.specs.Option.{option_map_or};
ghost use Rattle.rc_names.specs.Numbers.{same_id};
ghost use Rattle.rc_tree.specs.declared.kind.ReactiveTerminalTargetKind.TheVariants as kinds;
ghost use Rattle.rc_replay.specs.inside.Exits as spec;
ghost use Rattle.rc_replay.specs.inside.LaidExits as laid;
ghost use Rattle.rc_replay.specs.inside.Lowered as lowered;

use rc_names::BlockId;
use rc_tree::{ReactiveLabel, ReactiveTerminalTargetKind};

/// The number of the position that nothing follows.
pub(crate) const NOWHERE: usize = 0;

/// A label around a statement: where a break to it leads, and a continue, if it is the label of a loop.
#[derive(Clone, Copy, Debug, PartialEq, Eq)]
pub(crate) struct LabelExit {
    pub block: BlockId,
    pub break_to: usize,
    pub continue_to: Option<usize>,
}

/// The label around a part, and where jumps to it lead.
#[derive(Clone, Copy, Debug, PartialEq, Eq)]
pub(crate) struct Around {
    pub label: Option<ReactiveLabel>,
    pub break_to: usize,
    pub continue_to: Option<usize>,
}

/// Where a statement goes on, and where its unlabeled jumps lead. A throw statement in a protected block doesn't end
/// the run.
#[derive(Clone, Copy, Debug, PartialEq, Eq)]
pub(crate) struct Exits {
    pub normal: usize,
    pub innermost_break: usize,
    pub innermost_continue: usize,
    pub throws: bool,
}

impl Exits {
    /// The exits of a whole body.
    pub fn outermost() -> Exits
        ensures { result ≡ laid.laid_outermost }
    {
        Exits {
            normal: NOWHERE,
            innermost_break: NOWHERE,
            innermost_continue: NOWHERE,
            throws: true,
        }
    }

    /// The exits of a statement before one that begins at that position.
    pub fn before(self, next: usize) -> Exits
        ensures { result ≡ laid.laid_before next self }
    {
        Exits {
            normal: next,
            innermost_break: self.innermost_break,
            innermost_continue: self.innermost_continue,
            throws: self.throws,
        }
    }

    /// The exits of the cases of a switch.
    pub fn in_switch(self) -> Exits
        ensures { result ≡ laid.laid_switch self }
    {
        Exits {
            normal: self.normal,
            innermost_break: self.normal,
            innermost_continue: self.innermost_continue,
            throws: self.throws,
        }
    }

    /// The exits of the body of a loop whose turns begin at that position.
    pub fn in_loop(self, turn: usize) -> Exits
        ensures { result ≡ laid.laid_loop turn self }
    {
        Exits {
            normal: turn,
            innermost_break: self.normal,
            innermost_continue: turn,
            throws: self.throws,
        }
    }

    /// The exits of a protected block.
    pub fn protected(self) -> Exits
        ensures { result ≡ laid.laid_protected self }
    {
        Exits {
            normal: self.normal,
            innermost_break: self.innermost_break,
            innermost_continue: self.innermost_continue,
            throws: false,
        }
    }

    /// The label around the parts of a statement that is no loop.
    pub fn around(self, label: Option<ReactiveLabel>) -> Around
        ensures { result ≡ laid.laid_around label self }
    {
        Around {
            label,
            break_to: self.normal,
            continue_to: None,
        }
    }

    /// Returns where a break of a statement with that label leads. The innermost label around it is the last one.
    pub fn of_break(
        self,
        labels: &[LabelExit],
        label: Option<ReactiveLabel>,
        target: BlockId,
        kind: ReactiveTerminalTargetKind,
    ) -> usize
        ensures { result
            ≡ spec.exit (laid.exits_of self labels.now) (lowered.break_completion label target kind) }
    {
        match kind {
            ReactiveTerminalTargetKind::Implicit => self.normal,
            ReactiveTerminalTargetKind::Unlabeled => self.innermost_break,
            ReactiveTerminalTargetKind::Labeled => self.of_labeled(labels, label, target),
        }
    }

    /// Returns where a labeled break leads.
    fn of_labeled(
        self,
        labels: &[LabelExit],
        label: Option<ReactiveLabel>,
        target: BlockId,
    ) -> usize
        ensures { result ≡ spec.exit (laid.exits_of self labels.now)
            (lowered.break_completion label target kinds.Labeled) }
    {
        if is_label(label, target) {
            return self.normal;
        }
        break_label(labels, target)
    }

    /// Returns where a continue leads.
    pub fn of_continue(
        self,
        labels: &[LabelExit],
        target: BlockId,
        kind: ReactiveTerminalTargetKind,
    ) -> usize
        ensures { result
            ≡ spec.exit (laid.exits_of self labels.now) (lowered.continue_completion target kind) }
    {
        match kind {
            ReactiveTerminalTargetKind::Implicit => self.normal,
            ReactiveTerminalTargetKind::Unlabeled => self.innermost_continue,
            ReactiveTerminalTargetKind::Labeled => continue_label(labels, target),
        }
    }
}

/// Returns whether the label is that block's.
fn is_label(label: Option<ReactiveLabel>, target: BlockId) -> bool
    ensures { result ≡ option_map_or (λ own. same_id own.id target) label false }
{
    match label {
        Some(own) => own.id == target,
        None => false,
    }
}

/// Returns where a break to the label leads.
#[tactic(auto, using(crate::proofs::LabelExitLemmas::break_inside))]
fn break_label(labels: &[LabelExit], target: BlockId) -> usize
    ensures { result ≡ spec.break_exit (reverse labels.now) target }
{
    let mut found = NOWHERE;
    for label in labels {
        found = label.break_or(target, found);
    }
    found
}

/// Returns where a continue to the label leads. The labels of other statements than loops don't count.
#[tactic(auto, using(crate::proofs::LabelExitLemmas::continue_inside))]
fn continue_label(labels: &[LabelExit], target: BlockId) -> usize
    ensures { result ≡ spec.continue_exit (reverse labels.now) target }
{
    let mut found = NOWHERE;
    for label in labels {
        found = label.continue_or(target, found);
    }
    found
}

impl LabelExit {
    /// Returns where a break to the block leads, if this is the label, and the other position elsewhere.
    fn break_or(&self, target: BlockId, other: usize) -> usize
        ensures { result ≡ (if same_id self.now.block target then self.now.break_to else other) }
    {
        if self.block == target {
            self.break_to
        } else {
            other
        }
    }

    /// Returns where a continue to the block leads, if this is the label, and the other position elsewhere.
    fn continue_or(&self, target: BlockId, other: usize) -> usize
        ensures { result ≡ spec.continue_or self.now.continue_to (same_id self.now.block target) other }
    {
        match self.continue_to {
            Some(turn) if self.block == target => turn,
            _ => other,
        }
    }
}
