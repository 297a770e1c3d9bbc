//! Looking things up in a refused graph, and writing its blocks.

use crate::instructions;
use crate::line::Line;
use crate::parts::{Part, Parts};
use crate::terminals::{Role, kind_of, scope_named, span_of};
use rc_hir::{BasicBlock, Environment, HirFunction, Instruction, Place, Terminal};
use rc_names::{BlockId, DeclarationId, IdentifierId, InstructionId, List, ScopeId, Span};
use std::alloc::{AllocError, Global};

/// A graph with its environment, and the part that each block is in.
#[derive(Drop)]
pub struct Graph<'g> {
    pub hir: &'g HirFunction,
    pub env: &'g Environment,
    pub parts: Parts,
}

impl<'g> Graph<'g> {
    /// Fails only when out of memory.
    pub fn new(
        alloc: Global,
        hir: &'g HirFunction,
        env: &'g Environment,
    ) -> Result<Graph<'g>, AllocError> {
        Ok(Graph {
            hir,
            env,
            parts: Parts::new(alloc, &hir.body)?,
        })
    }

    /// The block under a key.
    pub fn block(&self, key: BlockId) -> Option<&'g BasicBlock> {
        self.hir.body.blocks.get(key)
    }

    /// The terminal of the block under a key.
    pub fn terminal(&self, key: BlockId) -> Option<&'g Terminal> {
        match self.hir.body.blocks.get(key) {
            Some(block) => Some(&block.terminal),
            None => None,
        }
    }

    /// The terminal of the block at a position.
    pub fn terminal_at(&self, place: usize) -> Option<&'g Terminal> {
        match self.hir.body.blocks.at(place) {
            Some((_, block)) => Some(&block.terminal),
            None => None,
        }
    }

    /// The row with a number.
    pub fn row(&self, number: InstructionId) -> Option<&'g Instruction> {
        self.hir.instructions.get(number.0 as usize)
    }

    /// The declaration of an identifier.
    pub fn declaration(&self, number: IdentifierId) -> DeclarationId {
        match self.env.identifiers.get(number) {
            Some(identifier) => identifier.declaration_id,
            None => DeclarationId::new(number.0),
        }
    }

    /// Whether the identifier of a place has no name.
    pub fn is_unnamed(&self, place: Place) -> bool {
        match self.env.identifiers.get(place.identifier) {
            Some(identifier) => identifier.name.is_none(),
            None => false,
        }
    }

    /// Whether the operands of cheap rows are recorded too.
    pub fn memoizes_cheap(&self) -> bool {
        let config = self.env.config;
        config.enable_forest || config.enable_preserve_existing_memoization_guarantees
    }

    /// The scope of an identifier, if it has one.
    pub fn scope_of(&self, number: IdentifierId) -> Option<ScopeId> {
        match self.env.identifiers.get(number) {
            Some(identifier) => identifier.scope,
            None => None,
        }
    }

    /// The innermost part that the block under a key is in.
    pub fn part_of(&self, key: BlockId) -> Option<Part> {
        match self.hir.body.blocks.position(key) {
            Some(place) => self.parts.get(place),
            None => None,
        }
    }

    /// The parts that the block under a key is in, the innermost first. Fails only when out of memory.
    pub fn parts_around(&self, alloc: Global, key: BlockId) -> Result<List<Part>, AllocError> {
        let mut around = List::new(alloc);
        let mut innermost = self.part_of(key);
        for _ in 0..self.hir.body.blocks.len() {
            let Some(part) = innermost else { break };
            around.push(part)?;
            innermost = self.parts.get(part.statement);
        }
        Ok(around)
    }

    /// Whether the block under a key ends in `Unreachable`.
    pub fn ends_unreachable(&self, key: BlockId) -> bool {
        matches!(self.terminal(key), Some(Terminal::Unreachable { .. }))
    }

    /// Writes a block with its kind, its place in the document and its span: "block 5 (`Goto`, hir.body.blocks[5])".
    pub fn write_block(&self, line: &mut Line, key: BlockId) -> Result<(), AllocError> {
        line.number("block ", key.0)?;
        let Some(place) = self.hir.body.blocks.position(key) else {
            return Ok(());
        };
        let Some(terminal) = self.terminal_at(place) else {
            return Ok(());
        };
        line.push(" (`")?;
        line.push(kind_of(terminal))?;
        line.index("`, hir.body.blocks[", place)?;
        line.push("]")?;
        write_span(line, span_of(terminal))?;
        line.push(")")
    }

    /// Writes the block at a position, as above.
    pub fn write_block_at(&self, line: &mut Line, place: usize) -> Result<(), AllocError> {
        match self.hir.body.blocks.at(place) {
            Some((key, _)) => self.write_block(line, key),
            None => Ok(()),
        }
    }

    /// Writes a part: "the `test` of block 0 (`While`, hir.body.blocks[0])".
    pub fn write_part(&self, line: &mut Line, part: Part) -> Result<(), AllocError> {
        self.write_role(line, part.role, part.statement)
    }

    /// Writes what a block is to the terminal of the block at a position, as above.
    pub fn write_role(
        &self,
        line: &mut Line,
        role: Role,
        statement: usize,
    ) -> Result<(), AllocError> {
        line.push("the `")?;
        line.push(role.field())?;
        if let Role::Case(index) = role {
            line.index("[", index)?;
            line.push("].block")?;
        }
        line.push("` of ")?;
        self.write_block_at(line, statement)
    }

    /// Writes a row with its kind and its span: "hir.instructions[4] (`CallExpression`)".
    pub fn write_row(&self, line: &mut Line, number: InstructionId) -> Result<(), AllocError> {
        line.number("hir.instructions[", number.0)?;
        line.push("]")?;
        let Some(row) = self.row(number) else {
            return Ok(());
        };
        line.push(" (`")?;
        line.push(instructions::kind_of(&row.value))?;
        line.push("`")?;
        write_span(line, row.span)?;
        line.push(")")
    }

    /// Writes a scope with its range: "scope 0 (range 1..4)".
    pub fn write_scope(&self, line: &mut Line, number: ScopeId) -> Result<(), AllocError> {
        line.number("scope ", number.0)?;
        if let Some(scope) = self.env.scopes.get(number) {
            line.number(" (range ", scope.range.start.0)?;
            line.number("..", scope.range.end.0)?;
            line.push(")")?;
        }
        Ok(())
    }

    /// The position of the first block that opens a scope, kept or pruned.
    pub fn opener(&self, scope: ScopeId) -> Option<usize> {
        let blocks = self.hir.body.blocks.values();
        blocks
            .iter()
            .position(|block| scope_named(&block.terminal) == Some(scope))
    }

    /// Writes an identifier with its declaration, where that has another number.
    pub fn write_identifier(
        &self,
        line: &mut Line,
        number: IdentifierId,
    ) -> Result<(), AllocError> {
        line.number("identifier ", number.0)?;
        let declaration = self.declaration(number);
        if declaration.0 == number.0 {
            return Ok(());
        }
        line.number(" of declaration ", declaration.0)
    }
}

/// A span, where there is one.
fn write_span(line: &mut Line, span: Option<Span>) -> Result<(), AllocError> {
    match span {
        None => Ok(()),
        Some(span) => {
            line.number(", at ", span.start)?;
            line.number("..", span.end)
        }
    }
}
