//! The header that a function has in its graph and in its tree.

ghost use Rattle.std.specs.Prelude.{◌≡◌, IfOk};
ghost use Rattle.rc_runs.specs.Spelled as spelled;

use rc_hir::HirFunction;
use rc_names::{CloneIn, Text};
use rc_tree::{ReactiveBlock, ReactiveFunction};
use std::alloc::{AllocError, Global};

/// A function with the header of a graph. The only error is out of memory.
pub fn with_header(
    alloc: Global,
    hir: &HirFunction,
    body: ReactiveBlock,
) -> Result<ReactiveFunction, AllocError>
    ensures { IfOk result (λ func. func ≡ spelled.with_header hir.now body) }
{
    Ok(ReactiveFunction {
        span: hir.span,
        id: copy_text(alloc, &hir.id)?,
        name_hint: copy_text(alloc, &hir.name_hint)?,
        params: hir.params.copy_in(alloc)?,
        generator: hir.generator,
        is_async: hir.is_async,
        body,
        directives: hir.directives.clone_in(alloc)?,
    })
}

/// A copy of a text, where there is one. The only error is out of memory.
fn copy_text(alloc: Global, text: &Option<Text>) -> Result<Option<Text>, AllocError>
    ensures { IfOk result (λ copy. copy ≡ text.now) }
{
    match text {
        None => Ok(None),
        Some(text) => Ok(Some(text.clone_in(alloc)?)),
    }
}
