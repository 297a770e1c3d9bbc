//! The frames around the list that is built, and the resolution of breaks and continues.
//!
//! After the frames of oxc's build_reactive_function.

ghost use Rattle.std.specs.Prelude.{◌≡◌};
ghost use Rattle.rc_runs.specs.Frames as spec;

use rc_names::BlockId;
use rc_tree::ReactiveTerminalTargetKind;

/// A statement around the list that is built, given by the blocks that its jumps name.
#[derive(Clone, Copy, Debug, PartialEq, Eq)]
pub enum Frame {
    /// An `If` or a `Label`.
    Statement {
        block: BlockId,
    },
    /// A switch, around all its cases.
    Switch {
        block: BlockId,
    },
    /// The later case of a switch into which the case that is built falls.
    Case {
        block: BlockId,
    },
    /// A scope, kept or pruned.
    Scope {
        block: BlockId,
    },
    /// A loop of any of the five kinds.
    Loop {
        block: BlockId,
        continue_block: BlockId,
    },
    /// A switch, with a frame of its own or not, which an unlabeled break would leave. No jump names it.
    Mark,
}

/// The resolution of a break.
#[derive(Clone, Copy, Debug, PartialEq, Eq)]
pub enum BreakResult {
    /// No frame has that break block.
    NoFrame,
    /// The break would leave a scope from further inside than the scope's own list.
    LeavesScope,
    /// The break would name a later case from further inside than the list of its own case.
    LeavesCase,
    /// The break falls off the end of its scope, and needs no statement.
    FallsOff,
    /// The break is a statement of that kind.
    Breaks(ReactiveTerminalTargetKind),
}

/// The resolution of a continue.
#[derive(Clone, Copy, Debug, PartialEq, Eq)]
pub enum ContinueResult {
    /// No loop has that continue block.
    NoLoop,
    /// The continue is a statement of that kind, and names its loop by the loop's break block.
    Continues {
        target: BlockId,
        kind: ReactiveTerminalTargetKind,
    },
}

impl Frame {
    /// Returns the block that a break out of the frame names, and `None` if it is a mark.
    pub fn break_block(self) -> Option<BlockId>
        ensures { result ≡ spec.break_block self }
    {
        match self {
            Frame::Statement { block }
            | Frame::Switch { block }
            | Frame::Case { block }
            | Frame::Scope { block }
            | Frame::Loop { block, .. } => Some(block),
            Frame::Mark => None,
        }
    }

    /// Returns the block that a continue of the frame names, and `None` if it isn't a loop.
    pub fn continue_block(self) -> Option<BlockId>
        ensures { result ≡ spec.continue_block self }
    {
        match self {
            Frame::Statement { .. }
            | Frame::Switch { .. }
            | Frame::Case { .. }
            | Frame::Scope { .. }
            | Frame::Mark => None,
            Frame::Loop { continue_block, .. } => Some(continue_block),
        }
    }

    /// Returns the block that falling off a part of the frame reaches, and `None` if it is a mark.
    pub fn fall_block(self) -> Option<BlockId>
        ensures { result ≡ spec.fall_block self }
    {
        match self {
            Frame::Statement { block }
            | Frame::Switch { block }
            | Frame::Case { block }
            | Frame::Scope { block } => Some(block),
            Frame::Loop {
                continue_block: again,
                ..
            } => Some(again),
            Frame::Mark => None,
        }
    }

    /// Returns whether an unlabeled continue goes to the frame, if it is the innermost such frame.
    pub fn is_loop(self) -> bool
        ensures { result ≡ spec.is_loop self }
    {
        match self {
            Frame::Loop { .. } => true,
            Frame::Statement { .. }
            | Frame::Switch { .. }
            | Frame::Case { .. }
            | Frame::Scope { .. }
            | Frame::Mark => false,
        }
    }

    /// Returns whether an unlabeled break leaves the frame or its switch, if it is the innermost such frame.
    pub fn takes_unlabeled(self) -> bool
        ensures { result ≡ spec.takes_unlabeled self }
    {
        match self {
            Frame::Loop { .. } | Frame::Mark => true,
            Frame::Statement { .. }
            | Frame::Switch { .. }
            | Frame::Case { .. }
            | Frame::Scope { .. } => false,
        }
    }

    /// Returns whether the frame is a mark.
    pub fn is_mark(self) -> bool
        ensures { result ≡ spec.is_mark self }
    {
        match self {
            Frame::Mark => true,
            Frame::Statement { .. }
            | Frame::Switch { .. }
            | Frame::Case { .. }
            | Frame::Scope { .. }
            | Frame::Loop { .. } => false,
        }
    }

    /// Resolves a break to this frame. `innermost`: marks alone are inside it; `taken`: a loop or a mark is inside it.
    pub fn resolve_break(self, innermost: bool, taken: bool) -> BreakResult
        ensures { result ≡ spec.resolve_at innermost taken self }
    {
        match self {
            Frame::Statement { .. } | Frame::Switch { .. } => BreakResult::Breaks(if innermost {
                ReactiveTerminalTargetKind::Implicit
            } else {
                ReactiveTerminalTargetKind::Labeled
            }),
            Frame::Case { .. } => {
                if innermost {
                    BreakResult::Breaks(ReactiveTerminalTargetKind::Implicit)
                } else {
                    BreakResult::LeavesCase
                }
            }
            Frame::Scope { .. } => if innermost {
                BreakResult::FallsOff
            } else {
                BreakResult::LeavesScope
            },
            Frame::Loop { .. } => BreakResult::Breaks(if taken {
                ReactiveTerminalTargetKind::Labeled
            } else {
                ReactiveTerminalTargetKind::Unlabeled
            }),
            Frame::Mark => BreakResult::NoFrame,
        }
    }

    /// Resolves a continue to this frame. `innermost`: marks alone are inside it; `in_loop`: a loop is inside it.
    pub fn resolve_continue(self, innermost: bool, in_loop: bool) -> ContinueResult
        ensures { result ≡ spec.continue_at innermost in_loop self }
    {
        match self {
            Frame::Loop { block, .. } => ContinueResult::Continues {
                target: block,
                kind: Frame::continue_kind(innermost, in_loop),
            },
            Frame::Statement { .. }
            | Frame::Switch { .. }
            | Frame::Case { .. }
            | Frame::Scope { .. }
            | Frame::Mark => ContinueResult::NoLoop,
        }
    }

    /// Returns the kind of a continue of a loop. `innermost`: marks alone are inside the loop's; `in_loop`: a loop is.
    fn continue_kind(innermost: bool, in_loop: bool) -> ReactiveTerminalTargetKind
        ensures { result ≡ spec.continue_kind innermost in_loop }
    {
        if in_loop {
            ReactiveTerminalTargetKind::Labeled
        } else if innermost {
            ReactiveTerminalTargetKind::Implicit
        } else {
            ReactiveTerminalTargetKind::Unlabeled
        }
    }
}
