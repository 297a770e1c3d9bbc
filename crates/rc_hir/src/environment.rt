//! The environment: the tables that a graph's numbers index.

ghost use Rattle.std.specs.Prelude.{◌≡◌, ◌+◌, ◌-◌, ◌^◌, ◌↔◌, ◌⊎◌, length, IfErr, IfOk, OnErr, OnOk};
ghost use Rattle.rc_hir.specs.Environment as spec;

use crate::fault::Fault;
use crate::function::HirFunction;
use crate::scope::ReactiveScope;
use crate::types::{HirType, Shape, ShapeRow};
use rc_names::{
    BlockId, DeclarationId, FunctionId, IdentifierId, List, ScopeId, Span, Table, Text, TypeId,
};
use std::alloc::Global;

/// A name in the source, or one that a pass gave.
#[derive(Drop)]
pub enum IdentifierName {
    Named(Text),
    Promoted(Text),
}

/// An identifier of the source, or one that a pass made.
#[derive(Drop)]
pub struct Identifier {
    pub declaration_id: DeclarationId,
    pub name: Option<IdentifierName>,
    pub scope: Option<ScopeId>,
    pub type_: TypeId,
    pub span: Option<Span>,
}

/// The options that the passes go by.
#[derive(Clone, Copy, Debug, PartialEq, Eq)]
pub struct Config {
    pub enable_forest: bool,
    pub enable_preserve_existing_memoization_guarantees: bool,
}

/// The tables that a graph's numbers index, and the number of the next new block.
#[derive(Drop)]
pub struct Environment {
    pub identifiers: Table<IdentifierId, Identifier>,
    pub types: Table<TypeId, HirType>,
    pub scopes: Table<ScopeId, ReactiveScope>,
    pub functions: Table<FunctionId, HirFunction>,
    pub shapes: List<ShapeRow>,
    pub config: Config,
    pub next_block: u32,
}

impl Environment {
    /// Returns an environment of empty tables, with both flags off and 0 as the next block's number. This takes no
    /// memory.
    pub fn empty(alloc: Global) -> Environment
        ensures { result ≡ spec.empty_environment }
    {
        Environment {
            identifiers: Table::new(alloc),
            types: Table::new(alloc),
            scopes: Table::new(alloc),
            functions: Table::new(alloc),
            shapes: List::new(alloc),
            config: Config {
                enable_forest: false,
                enable_preserve_existing_memoization_guarantees: false,
            },
            next_block: 0,
        }
    }

    /// Adds an identifier and returns its number. It has a new type `Other`, no name and no scope, and its declaration
    /// has its own number.
    ///
    /// Returns `NoIds` if no number is left for an identifier or for a type, and then nothing has changed. Returns
    /// `NoMemory` when out of memory, and then at most the type was added.
    pub fn next_identifier_id(&mut self, span: Option<Span>) -> Result<IdentifierId, Fault>
        ensures ok { OnOk result (self.new ≡ spec.with_identifier span self.old) }
        ensures number { IfOk result (λ id. id.0 ≡ length self.old.identifiers) }

        ensures no_ids { (result ≡ Err Fault.NoIds) ↔ spec.IsOutOfNumbers self.old }
        ensures only { IfErr result (λ fault. (fault ≡ Fault.NoIds) ⊎ (fault ≡ Fault.NoMemory)) }
        ensures refused { result ≡ Err Fault.NoIds → self.new ≡ self.old }
        ensures err { OnErr result ((self.new ≡ self.old) ⊎ (self.new ≡ spec.with_type self.old)) }
    {
        if self.identifiers.is_full() || self.types.is_full() {
            return Err(Fault::NoIds);
        }
        let type_ = self.types.push(HirType::Other)?;
        let number = self.identifiers.len() as u32;
        let id = self.identifiers.push(Identifier {
            declaration_id: DeclarationId::new(number),
            name: None,
            scope: None,
            type_,
            span,
        })?;
        Ok(id)
    }

    /// Returns the number of a new block. Returns `NoIds` if no number is left, and then nothing has changed.
    pub fn next_block_id(&mut self) -> Result<BlockId, Fault>
        ensures ok { OnOk result (self.new ≡ record self.old { next_block = self.old.next_block + 1 }) }
        ensures number { IfOk result (λ block. block.0 ≡ self.old.next_block) }

        ensures no_ids { (result ≡ Err Fault.NoIds) ↔ (self.old.next_block ≡ 2 ^ 32 - 1) }
        ensures only { IfErr result (λ fault. fault ≡ Fault.NoIds) }
        ensures err { OnErr result (self.new ≡ self.old) }
    {
        let number = self.next_block;
        match number.checked_add(1) {
            Some(next) => {
                self.next_block = next;
                Ok(BlockId::new(number))
            }
            None => Err(Fault::NoIds),
        }
    }

    /// Returns whether calls of this identifier never return an alias of an argument; false if a number is outside its
    /// table.
    pub fn has_no_alias_signature(&self, id: IdentifierId) -> bool
        ensures { result ≡ spec.has_no_alias_signature self.now id }
    {
        match self.signature(id) {
            Some(row) => row.no_alias,
            None => false,
        }
    }

    /// Returns whether the identifier is a hook; false if a number is outside its table.
    pub fn is_hook(&self, id: IdentifierId) -> bool
        ensures { result ≡ spec.is_hook self.now id }
    {
        match self.signature(id) {
            Some(row) => row.hook,
            None => false,
        }
    }

    // The row of shapes that the identifier's type names.
    fn signature(&self, id: IdentifierId) -> Option<ShapeRow>
        ensures { result ≡ spec.signature self.now id }
    {
        let identifier = self.identifiers.get(id)?;
        let type_ = self.types.get(identifier.type_)?;
        match type_ {
            HirType::Function {
                shape: Some(Shape::Row(row)),
            } => self.shapes.get(*row as usize).copied(),
            HirType::Function { .. }
            | HirType::Object { .. }
            | HirType::Primitive
            | HirType::Other => None,
        }
    }
}
