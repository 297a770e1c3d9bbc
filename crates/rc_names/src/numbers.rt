//! The eight typed numbers: one type, with a marker type for each kind of number.

ghost use Rattle.std.specs.Prelude.{◌≡◌};

use crate::Name;
use std::hash::Hash;
use std::marker::PhantomData;

/// A number that names a `K`, by its place in a table or as a key.
#[derive(Clone, Copy, Debug, Eq, PartialOrd, Ord, Hash)]
pub struct Id<K>(pub u32, PhantomData<K>);

impl<K> Id<K> {
    /// Returns the id with this number.
    pub fn new(number: u32) -> Id<K>
        ensures { result.0 ≡ number }
    {
        Id(number, PhantomData)
    }
}

// Written by hand, since a derived comparison asks for the marker too, which every definition would have to name.
impl<K: PartialEq> PartialEq for Id<K> {
    ghost use Rattle.std.proofs.Common.{rules};
    ghost use Rattle.std.specs.Cmp.Rules.{comparing};
    ghost use Rattle.std.specs.Prelude.{nat_eq};

    ghost eq = { λ a b. nat_eq a.0 b.0 };

    ghost laws = { Prim.search (comparing, rules) };

    fn eq(&self, other: &Id<K>) -> bool {
        self.0 == other.0
    }
}

impl<K: Copy + Eq + Hash> Name for Id<K> {
    ghost use Rattle.std.proofs.Common.{rules};

    ghost number = { λ name. name.0 };

    fn index(self) -> usize {
        self.0 as usize
    }

    fn from_index(i: usize) -> Option<Id<K>> {
        match u32::try_from(i) {
            Ok(number) => Some(Id::new(number)),
            Err(_) => None,
        }
    }

    ghost same = { λ m n e. Prim.search rules };

    ghost eq_same = { λ m n e. Prim.search rules };
}

/// The marker type of `BlockId`.
#[derive(Clone, Copy, Debug, PartialEq, Eq, PartialOrd, Ord, Hash)]
pub struct Block;

/// A basic block of a graph, by its key.
pub type BlockId = Id<Block>;

/// The marker type of `IdentifierId`.
#[derive(Clone, Copy, Debug, PartialEq, Eq, PartialOrd, Ord, Hash)]
pub struct Identifier;

/// An identifier, by its place in the environment's table.
pub type IdentifierId = Id<Identifier>;

/// The marker type of `DeclarationId`.
#[derive(Clone, Copy, Debug, PartialEq, Eq, PartialOrd, Ord, Hash)]
pub struct Declaration;

/// A declaration; declarations share the identifiers' range of numbers.
pub type DeclarationId = Id<Declaration>;

/// The marker type of `TypeId`.
#[derive(Clone, Copy, Debug, PartialEq, Eq, PartialOrd, Ord, Hash)]
pub struct HirType;

/// A type, by its place in the environment's table.
pub type TypeId = Id<HirType>;

/// The marker type of `ScopeId`.
#[derive(Clone, Copy, Debug, PartialEq, Eq, PartialOrd, Ord, Hash)]
pub struct Scope;

/// A reactive scope, by its place in the environment's table.
pub type ScopeId = Id<Scope>;

/// The marker type of `FunctionId`.
#[derive(Clone, Copy, Debug, PartialEq, Eq, PartialOrd, Ord, Hash)]
pub struct Function;

/// A nested function, by its place in the environment's table.
pub type FunctionId = Id<Function>;

/// The marker type of `InstructionId`.
#[derive(Clone, Copy, Debug, PartialEq, Eq, PartialOrd, Ord, Hash)]
pub struct Instruction;

/// A row of a function, by its place among the function's instructions.
pub type InstructionId = Id<Instruction>;

/// The marker type of `EvaluationOrder`.
#[derive(Clone, Copy, Debug, PartialEq, Eq, PartialOrd, Ord, Hash)]
pub struct Evaluation;

/// The place of a row or a terminal in the order of evaluation.
pub type EvaluationOrder = Id<Evaluation>;

impl EvaluationOrder {
    /// The order of rows that a pass adds. They are outside the order of evaluation.
    pub const UNSET: EvaluationOrder = Id(0, PhantomData);
}
