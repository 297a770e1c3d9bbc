//! The kinds of jumps.

ghost use Rattle.std.specs.Prelude.{◌≡◌};
ghost use Rattle.rc_tree.specs.Kind.{kind_word};

use std::fmt;

/// The way in which a break or a continue finds the statement that it leaves or goes on with.
#[derive(Clone, Copy, Debug, PartialEq, Eq)]
pub enum ReactiveTerminalTargetKind {
    /// Control goes there without a jump.
    Implicit,
    /// The jump names the statement's label.
    Labeled,
    /// The statement is the innermost loop.
    Unlabeled,
}

impl ReactiveTerminalTargetKind {
    /// Returns the word for the kind.
    pub fn as_str(&self) -> &'static str
        ensures { result.now ≡ kind_word self.now }
    {
        match self {
            ReactiveTerminalTargetKind::Implicit => "implicit",
            ReactiveTerminalTargetKind::Labeled => "labeled",
            ReactiveTerminalTargetKind::Unlabeled => "unlabeled",
        }
    }
}

impl fmt::Display for ReactiveTerminalTargetKind {
    ghost use Rattle.std.specs.Prelude.{Some};

    ghost output = { λ kind. Some (kind_word kind) };

    fn fmt<W: fmt::Write>(&self, f: &mut fmt::Formatter<W>) -> fmt::Result {
        f.write_str(self.as_str())
    }
}
