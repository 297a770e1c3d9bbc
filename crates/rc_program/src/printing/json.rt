//! The whole answer as JSON.

ghost use Rattle.std.specs.Prelude.{IfOk};
ghost use Rattle.rc_program.specs.JsonLine.{IsJsonLine};

use rc_answer::answer_text;
use rc_hir::Environment;
use rc_lines::Page;
use rc_pipe::Pruned;
use std::alloc::{AllocError, Global};

/// The line of an answer, which is JSON. Fails only when out of memory.
pub fn json_line(alloc: Global, env: &Environment, pruned: &Pruned) -> Result<Page, AllocError>
    ensures { IfOk result (IsJsonLine env.now pruned.now) }
{
    let text = answer_text(alloc, env, pruned.fates.as_slice(), &pruned.func)?;
    Ok(Page::from(text))
}
