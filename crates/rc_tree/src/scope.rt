//! The blocks of reactive scopes.

ghost use Rattle.std.specs.Prelude.{◌≡◌};
ghost use Rattle.rc_tree.specs.Pruned.{as_pruned, emptied_scope};

use crate::statement::ReactiveBlock;
use rc_names::ScopeId;

/// The statements of a reactive scope.
#[cycle(tree)]
#[derive(Drop)]
pub struct ReactiveScopeBlock {
    pub scope: ScopeId,
    pub instructions: ReactiveBlock,
}

/// The statements of a reactive scope that was pruned, so that its values aren't kept.
#[cycle(tree)]
#[derive(Drop)]
pub struct PrunedReactiveScopeBlock {
    pub scope: ScopeId,
    pub instructions: ReactiveBlock,
}

impl ReactiveScopeBlock {
    /// A pruned block with the statements of this one, which are taken.
    pub fn take_pruned(&mut self) -> PrunedReactiveScopeBlock
        ensures pruned { result ≡ as_pruned self.old }
        ensures left { self.new ≡ emptied_scope self.old }
    {
        PrunedReactiveScopeBlock {
            scope: self.scope,
            instructions: ReactiveBlock {
                statements: self.instructions.statements.take(),
            },
        }
    }
}
