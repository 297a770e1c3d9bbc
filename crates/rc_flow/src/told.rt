//! What the collecting walk tells of names.

use crate::step::Step;
use rc_names::FunctionId;

/// What the walk tells at one place. A nested function's context is recorded by the function's number, however many
/// places it has.
#[derive(Drop)]
pub enum Told {
    /// A step.
    Step(Step),
    /// Each place of the function's context that is marked reactive marks its name.
    Context(FunctionId),
}
