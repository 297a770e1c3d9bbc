//! The scopes of the scope blocks of a tree that a graph spells.

ghost use Rattle.std.specs.Prelude.{◌≡◌, IfOk};
ghost use Rattle.rc_hir.specs.Model.{Environment, HirFunction};
ghost use Rattle.rc_runs.specs.Spelled.{Spells};
ghost use Rattle.rc_tree.specs.Model.{ReactiveFunction};
ghost use Rattle.rc_tree.specs.ScopesIn.{HasScopesOnce, scopes_in};

use rc_names::{List, ScopeId};
use rc_tree::ReactiveBlock;
use std::alloc::{AllocError, Global};

/// The scope of each scope block of the tree, in the order in which the blocks end; each is there once if a graph
/// spells the tree. The only error is out of memory.
pub fn scopes_in(alloc: Global, block: &ReactiveBlock) -> Result<List<ScopeId>, AllocError>
    ensures found { IfOk result (λ scopes. scopes ≡ scopes_in block.now) }
    ensures once { (hir : HirFunction) (env : Environment) (func : ReactiveFunction) → Spells hir env func
        → block.now ≡ func.body → IfOk result (λ scopes. HasScopesOnce block.now) }
{
    rc_tree::scopes_in(alloc, block)
}
