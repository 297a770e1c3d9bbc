//! The rewriting walk of a whole function.
#![tactic(auto)]

ghost use Rattle.std.specs.Prelude.{◌≡◌};
ghost use Rattle.rc_tree.specs.Step.{IsStep};
ghost use Rattle.rc_tree.specs.Rewrite.{rewrite_block};

use crate::rewrite::statement::walk_block;
use crate::transform::ReactiveFunctionTransform;
use rc_hir::Fault;
use rc_tree::ReactiveFunction;
use std::alloc::Global;

/// Walks the body of a function; its header stays. Returns the fault of a hook, `BadName` if a nested function is
/// outside its table, and `NoMemory` when out of memory.
pub fn transform_reactive_function<T: ReactiveFunctionTransform>(
    alloc: Global,
    func: &mut ReactiveFunction,
    transform: &mut T,
    state: &mut T::State,
) -> Result<(), Fault>
    ensures walk { IsStep (rewrite_block T.steps T.functions (transform.old, state.old) func.old.body) result
        ((transform.new, state.new), func.new.body) }
    ensures header { func.new ≡ record func.old { body = func.new.body } }
{
    walk_block(alloc, transform, &mut func.body, state)
}
