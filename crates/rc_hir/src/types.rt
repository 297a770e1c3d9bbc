//! Types of identifiers, as far as the passes ask for them.

/// The type of an identifier.
#[derive(Clone, Copy, Debug, PartialEq, Eq)]
pub enum HirType {
    Primitive,
    Object { shape: Option<Shape> },
    Function { shape: Option<Shape> },
    Other,
}

/// The facts that are known of an object or a function.
#[derive(Clone, Copy, Debug, PartialEq, Eq)]
pub enum Shape {
    Array,
    Object,
    Function,
    Jsx,
    UseRef,
    SetState,
    SetActionState,
    Dispatch,
    StartTransition,
    SetOptimistic,
    /// The row of the environment's shapes with that number.
    Row(u32),
}

/// The shape of a function, as the environment has it.
#[derive(Clone, Copy, Debug, PartialEq, Eq)]
pub struct ShapeRow {
    pub hook: bool,
    pub no_alias: bool,
}
