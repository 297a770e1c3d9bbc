//! What the builder reads and keeps, and what the functions that build statements share.

ghost use Rattle.std.specs.Prelude.{◌≡◌, ◌<◌, ◌++◌, ◌∷◌, [], true, IfOk, OnOk, Some, is_some, length, not, slice_get};
ghost use Rattle.rc_hir.specs.declared.fault.Fault.TheVariants as faults;
ghost use Rattle.rc_runs.specs.Fallthrough as spec;
ghost use Rattle.rc_build.specs.inside.Marks as marking;
ghost use Rattle.rc_build.specs.inside.Setting as settings;
ghost use Rattle.rc_build.specs.inside.Task as tasks;

use crate::frames::FrameStack;
use crate::places::place_of;
use crate::unreachable::ends_unreachable;
use rc_hir::{Environment, Fault, HirFunction, Rule};
use rc_names::{BitRow, BlockId, Boxed, KeySet, List, ScopeId};
use rc_runs::Frame;
use rc_tree::{ReactiveLabel, ReactiveStatement, ReactiveTerminal, ReactiveTerminalStatement};
use std::alloc::{AllocError, Global};

/// The used blocks and the scopes that they open, in the order in which they were marked.
#[derive(Drop)]
pub struct Marks {
    /// There is room for all blocks of the graph, so a mark takes no memory.
    pub used: List<BlockId>,
    /// Whether a block of the graph is used, by its position there.
    pub bits: BitRow,
    pub scopes: KeySet<ScopeId>,
}

/// Where statements are put.
#[derive(Clone, Copy)]
pub struct Site {
    /// The block that asks for them.
    pub block: BlockId,
    /// The block that falling off their list reaches.
    pub next: Option<BlockId>,
    /// The block that handles what they throw.
    pub handler: Option<BlockId>,
}

/// Builds the lists of a graph, one inside the other.
#[derive(Drop)]
pub struct Builder<'g> {
    pub alloc: Global,
    pub hir: &'g HirFunction,
    pub env: &'g Environment,
    pub marks: Marks,
    pub frames: FrameStack<'g>,
    /// The statements of the list that is built.
    pub out: List<ReactiveStatement>,
    /// How many bytes of stack nesting may still take. That only decides when to give up: no contract speaks of it.
    pub stack: usize,
}

impl Marks {
    /// Nothing is marked, of that many blocks. The only error is out of memory.
    fn new(alloc: Global, blocks: usize) -> Result<Marks, AllocError>
        ensures { IfOk result (λ marks. marks ≡ tasks.no_marks blocks) }
    {
        Ok(Marks {
            used: List::with_capacity(alloc, blocks)?,
            bits: BitRow::new(alloc, blocks)?,
            scopes: KeySet::new(alloc),
        })
    }

    /// Puts a block at a position of the graph after the used ones, unless it is one of them, and returns whether it is
    /// new. The only error is out of memory.
    pub fn put_used(&mut self, key: BlockId, place: usize) -> Result<bool, AllocError>
        requires { place < length self.old.bits }
        ensures added { IfOk result (λ added. slice_get self.old.bits place ≡ Some (not added)) }
        ensures put { IfOk result (λ added. added ≡ true → self.new ≡ marking.with_used key place self.old) }
    {
        if self.bits.get(place).unwrap_or(false) {
            return Ok(false);
        }
        self.used.push(key)?;
        self.bits.set(place, true);
        Ok(true)
    }
}

impl Site {
    /// The site of a part of a statement, whose frame is around it where the statement's fallthrough is opened.
    pub fn inside(self, part: BlockId, frame: Frame, opened: Option<BlockId>) -> Site
        ensures { result ≡ settings.site_inside opened frame part self }
    {
        let next = match opened {
            Some(_) => frame.fall_block(),
            None => self.next,
        };
        Site {
            block: part,
            next,
            handler: self.handler,
        }
    }

    /// The site of what a handler protects.
    pub fn protected_by(self, handler: BlockId) -> Site
        ensures { result ≡ settings.site_protected handler self }
    {
        Site {
            block: self.block,
            next: self.next,
            handler: Some(handler),
        }
    }

    /// The site of another block in the same list.
    pub fn at(self, block: BlockId) -> Site
        ensures { result ≡ settings.site_at block self }
    {
        Site {
            block,
            next: self.next,
            handler: self.handler,
        }
    }
}

impl<'g> Builder<'g> {
    /// Nothing is used, no statement is built, no frame is around the list, and nesting may take that many bytes of
    /// stack. The only error is out of memory.
    pub fn new(
        alloc: Global,
        hir: &'g HirFunction,
        env: &'g Environment,
        stack: usize,
    ) -> Result<Builder<'g>, AllocError>
        ensures hir { IfOk result (λ builder. builder.hir.now ≡ hir.now) }
        ensures env { IfOk result (λ builder. builder.env.now ≡ env.now) }
        ensures frames { IfOk result (λ builder. builder.frames ≡ []) }
        ensures progress { IfOk result (λ builder. tasks.progress_of builder ≡ tasks.no_progress hir.now) }
    {
        Ok(Builder {
            alloc,
            hir,
            env,
            marks: Marks::new(alloc, hir.body.blocks.len())?,
            frames: FrameStack::new(alloc, &hir.body.blocks)?,
            out: List::new(alloc),
            stack,
        })
    }

    /// Where the block that is taken next may be: most graphs have their blocks in the order in which they are taken.
    pub fn next_place(&self) -> usize {
        self.marks.used.len()
    }

    /// The fallthrough of a scope, where it is opened: no jump can name it already.
    pub fn open(&self, fallthrough: BlockId) -> Option<BlockId>
        ensures { result ≡ settings.open_block (spec.opens self.now.frames fallthrough) fallthrough }
    {
        if self.frames.is_jump_target(fallthrough) {
            None
        } else {
            Some(fallthrough)
        }
    }

    /// The fallthrough of any other statement, where it is opened: one that ends in `Unreachable` isn't.
    pub fn open_reachable(&self, fallthrough: BlockId) -> Option<BlockId>
        ensures { result ≡
            settings.open_block (spec.opens_reachable self.now.hir.now self.now.frames fallthrough) fallthrough }
    {
        let place = place_of(&self.hir.body.blocks, Some(fallthrough));
        if self.frames.is_jump_target_at(fallthrough, place)
            || ends_unreachable(self.hir, fallthrough, place)
        {
            None
        } else {
            Some(fallthrough)
        }
    }
}

/// The fault of a block that breaks a rule.
pub fn malformed(block: BlockId, rule: Rule) -> Fault
    ensures { result ≡ faults.Malformed block rule }
{
    Fault::Malformed { block, rule }
}

/// Whether falling off reaches the block.
pub fn is_next(next: Option<BlockId>, block: BlockId) -> bool
    ensures { result ≡ spec.is_next next block }
{
    next == Some(block)
}

/// Whether leaving a statement leads to its fallthrough, in the tree as in the graph.
pub fn falls_to(opened: Option<BlockId>, fallthrough: BlockId, next: Option<BlockId>) -> bool
    ensures { result ≡ spec.falls_to (is_some opened) fallthrough next }
{
    opened.is_some() || is_next(next, fallthrough)
}

/// The label of a statement: its fallthrough where that is opened.
pub fn label_at(opened: Option<BlockId>) -> Option<ReactiveLabel>
    ensures { result ≡ settings.label_at opened }
{
    match opened {
        Some(id) => Some(ReactiveLabel {
            id,
            implicit: false,
        }),
        None => None,
    }
}

/// Drops a part that was built before a fault.
// It isn't inlined: the frames of nested calls then have no room for what is taken out of the part to let it go.
#[inline(never)]
pub fn let_go<T: Drop>(_part: T) {}

/// Appends the statement of a terminal with a label. The only error is out of memory.
// It isn't inlined, nor are the functions that put one kind of statement: a statement takes no room in the frames of
// nested calls.
#[inline(never)]
pub fn put_terminal(
    alloc: Global,
    out: &mut List<ReactiveStatement>,
    terminal: ReactiveTerminal,
    label: Option<ReactiveLabel>,
) -> Result<(), AllocError>
    ensures { OnOk result (out.new ≡ out.old ++ settings.terminal_statement terminal label ∷ []) }
{
    let stmt = Boxed::new(alloc, ReactiveTerminalStatement { terminal, label })?;
    out.push(ReactiveStatement::Terminal(stmt))
}
