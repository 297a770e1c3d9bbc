//! The bytes of stack that nesting takes: the builder gives up before the stack does.
//!
//! Each level of a tree takes stack here and in every later call that goes down the tree. A level of each kind counts
//! as more than was measured of the whole program on x86-64 (`docs/BENCHMARKS.md`, "Stack").

ghost use Rattle.std.specs.Prelude.{◌≡◌, ◌<◌, ◌+◌, IfOk, IfErr};

use std::alloc::AllocError;

/// What nesting may take of a stack of 8 MiB: a quarter is left to words and environment, and 256 KiB to all else.
pub const USUAL_STACK: usize = (6 * 1024 - 256) * 1024;

/// What a part of a statement takes; a `Switch` takes most.
pub const STATEMENT_LEVEL: usize = 640;

/// What a value in a value takes, here or in a later call that goes down the tree.
pub const VALUE_LEVEL: usize = 600;

/// What a row of a value takes, since the rest of the value is inside its sequence.
pub const ROW_LEVEL: usize = 320;

/// What is left of a stack inside a level that takes that much. The only error is out of memory: the stack has less.
pub fn left_inside(stack: usize, level: usize) -> Result<usize, AllocError>
    ensures left { IfOk result (λ left. left + level ≡ stack) }
    ensures full { IfErr result (λ _. stack < level) }
{
    stack.checked_sub(level).ok_or(AllocError)
}
