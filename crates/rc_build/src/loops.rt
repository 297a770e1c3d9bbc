//! Loops: the values of their turns are built first, and then the body inside the loop's frame.
//!
//! No jump in a value can name the loop, so its values are built outside of the frame.
//!
//! After the loops of oxc's build_reactive_function.

ghost use Rattle.std.specs.Prelude.{◌≡◌, ◌&&◌, ◌||◌, Some, IsSome, OnOk};
ghost use Rattle.rc_runs.specs.Frames.{is_jump_target};
ghost use Rattle.rc_runs.specs.Graph.{ends_unreachable};
ghost use Rattle.rc_runs.specs.LoopParts.{loop_frame, turn_start};
ghost use Rattle.rc_build.specs.inside.LoopKinds as kinds;
ghost use Rattle.rc_build.specs.declared.loops.LoopTerminal.{LoopTerminal};
ghost use Rattle.rc_build.specs.inside.Loops as spec;
ghost use Rattle.rc_build.specs.inside.Setting.{setting_of};
ghost use Rattle.rc_build.specs.inside.Task.{FromTerminal, left, progress_of};
ghost use Rattle.rc_build.specs.inside.CanBuild.{CanBuildTerminal};
ghost use Rattle.rc_build.specs.inside.Built.{Builds, BuildsTask, Refused};

use crate::builder::{Builder, Site, label_at, let_go, malformed, put_terminal};
use crate::places::place_of;
use crate::unreachable::ends_unreachable;
use crate::values::Showing;
use rc_hir::{Fault, Rule, Terminal};
use rc_names::{BlockId, Boxed, EvaluationOrder, List, Span};
use rc_runs::Frame;
use rc_tree::{ReactiveBlock, ReactiveStatement, ReactiveTerminal, ReactiveValue};
use std::alloc::{AllocError, Global};

/// A loop of the graph.
#[derive(Clone, Copy)]
pub struct LoopTerminal {
    pub kind: LoopKind,
    /// The block of its test; in a `for..in` that of its init, which is tested.
    pub test: BlockId,
    pub body: BlockId,
    pub fallthrough: BlockId,
    pub id: EvaluationOrder,
    pub span: Option<Span>,
}

#[derive(Clone, Copy)]
pub enum LoopKind {
    While,
    DoWhile,
    For {
        init: BlockId,
        update: Option<BlockId>,
    },
    ForOf {
        init: BlockId,
    },
    ForIn,
}

/// The values of a loop, which are built before its body.
#[derive(Drop)]
pub struct LoopValues {
    /// The value that runs once, before all turns.
    init: Option<Boxed<ReactiveValue>>,
    turn: TurnValues,
}

/// The values of a loop's turns: the test, and what runs before it.
#[derive(Drop)]
pub struct TurnValues {
    before: Option<Boxed<ReactiveValue>>,
    test: Boxed<ReactiveValue>,
}

/// The block and the frame of a loop's body, and the loop's fallthrough.
#[derive(Clone, Copy)]
pub struct LoopBody {
    pub block: BlockId,
    pub frame: Frame,
    pub fallthrough: BlockId,
}

impl LoopKind {
    /// The loop of this kind with these parts.
    fn looping(
        self,
        test: BlockId,
        body: BlockId,
        fallthrough: BlockId,
        id: EvaluationOrder,
        span: Option<Span>,
    ) -> LoopTerminal
        ensures { result ≡ kinds.loop_with self test body fallthrough id span }
    {
        LoopTerminal {
            kind: self,
            test,
            body,
            fallthrough,
            id,
            span,
        }
    }
}

impl LoopTerminal {
    /// The block of the value that runs once, before all turns.
    fn init(self) -> Option<BlockId>
        ensures { result ≡ kinds.init_of self.kind }
    {
        match self.kind {
            LoopKind::For { init, .. } => Some(init),
            LoopKind::While | LoopKind::DoWhile | LoopKind::ForOf { .. } | LoopKind::ForIn => None,
        }
    }

    /// The block of the value with which each turn begins, before its test.
    fn before(self) -> Option<BlockId>
        ensures { result ≡ kinds.before_of self.kind }
    {
        match self.kind {
            LoopKind::For { update, .. } => update,
            LoopKind::ForOf { init } => Some(init),
            LoopKind::While | LoopKind::DoWhile | LoopKind::ForIn => None,
        }
    }

    /// Whether the values of its turns are flattened.
    fn is_flat(self) -> bool
        ensures { result ≡ kinds.is_flat self.kind }
    {
        match self.kind {
            LoopKind::ForOf { .. } | LoopKind::ForIn => true,
            LoopKind::While | LoopKind::DoWhile | LoopKind::For { .. } => false,
        }
    }

    /// Whether it is a while, whose fallthrough mustn't end in `Unreachable`.
    fn is_while(self) -> bool
        ensures { result ≡ kinds.is_while_kind self.kind }
    {
        match self.kind {
            LoopKind::While => true,
            LoopKind::DoWhile | LoopKind::For { .. } | LoopKind::ForOf { .. } | LoopKind::ForIn => {
                false
            }
        }
    }

    /// The block with which each turn begins, to which a continue goes.
    fn start(self) -> BlockId
        ensures { result ≡ turn_start (kinds.blocks_of self) }
    {
        match self.before() {
            Some(before) => before,
            None => self.test,
        }
    }

    /// The frame of its body.
    fn frame(self) -> Frame
        ensures { result ≡ loop_frame (kinds.blocks_of self) }
    {
        Frame::Loop {
            block: self.fallthrough,
            continue_block: self.start(),
        }
    }
}

impl<'g> Builder<'g> {
    /// Builds the loop that a terminal is: its values, and then its body inside the loop's frame; returns where the
    /// list goes on.
    ///
    /// `Malformed`, `Todo`, `BadName`: as for its values and its body.
    // Not inlined, so that the frames of other statements have no room for its parts.
    #[inline(never)]
    #[cycle(builder)]
    pub fn build_loop(&mut self, site: Site, terminal: &Terminal) -> Result<Option<BlockId>, Fault>
        requires { CanBuildTerminal self.old.hir.now self.old.marks site.handler self.old.frames site.block terminal.now
            × IsSome (kinds.loop_of terminal.now) }
        ensures { BuildsTask self.old self.new site (FromTerminal terminal.now) left result }
    {
        let values = self.build_values_of(site, terminal)?;
        let LoopBody {
            block,
            frame,
            fallthrough,
        } = body_of(terminal);
        match self.build_part(site, block, frame, Some(fallthrough)) {
            Ok(body) => {
                put_loop(self.alloc, &mut self.out, terminal, values, body)?;
                Ok(Some(fallthrough))
            }
            Err(fault) => {
                let_go(values);
                Err(fault)
            }
        }
    }

    /// Builds the values of the loop that a terminal is. The faults are those of `build_values`.
    // Not inlined, so that the frames of nested loops have no room for the parts of the terminal; and boxed, so that
    // they have little for the values.
    #[inline(never)]
    fn build_values_of(
        &mut self,
        site: Site,
        terminal: &Terminal,
    ) -> Result<Boxed<LoopValues>, Fault>
        requires { CanBuildTerminal self.old.hir.now self.old.marks site.handler self.old.frames site.block terminal.now
            × IsSome (kinds.loop_of terminal.now) }
        ensures { (t : LoopTerminal) → kinds.loop_of terminal.now ≡ Some t → spec.BuildsLoopValues self.old self.new site t
            result }
    {
        let found = loop_of(terminal).unwrap();
        let values = self.build_values(site, &found)?;
        Ok(Boxed::new(self.alloc, values)?)
    }

    /// Builds the values of a loop: first the one that runs before all turns, where there is one.
    ///
    /// - `Malformed` with `LoopLive`: a jump can name its fallthrough already, or the block with which its turns begin,
    ///   or it is a while whose fallthrough ends in `Unreachable`.
    /// - `Malformed`, `Todo`, `BadName`: as for its values.
    fn build_values(&mut self, site: Site, terminal: &LoopTerminal) -> Result<LoopValues, Fault>
        requires { CanBuildTerminal self.old.hir.now self.old.marks site.handler self.old.frames site.block
            (kinds.terminal_of terminal.now) }
        ensures { spec.BuildsLoopValues self.old self.new site terminal.now result }
    {
        if self.is_live(terminal) {
            return Err(malformed(site.block, Rule::LoopLive));
        }
        let init = self.build_before(site, terminal, terminal.init(), true)?;
        match self.build_turn_values(site, terminal) {
            Ok(turn) => Ok(LoopValues { init, turn }),
            Err(fault) => {
                let_go(init);
                Err(fault)
            }
        }
    }

    /// Builds the values of a loop's turns: the test, and then what runs before it.
    fn build_turn_values(
        &mut self,
        site: Site,
        terminal: &LoopTerminal,
    ) -> Result<TurnValues, Fault>
        requires { spec.CanBuildTurns self.old.hir.now self.old.marks site.handler self.old.frames terminal.now }
        ensures { Builds self.old self.new site
            (λ turn. spec.TurnValuesBuilt (setting_of self.old site) terminal.now turn (progress_of self.old)
            (progress_of self.new))
            (Refused self.old.hir.now (spec.SpellsTurnsOf (setting_of self.old site) terminal.now) self.old.marks.used)
            result }
    {
        let showing = Showing {
            flat: terminal.is_flat(),
            span: terminal.span,
        };
        let test = self.build_test(
            site,
            terminal.test,
            terminal.body,
            terminal.fallthrough,
            showing,
        )?;
        match self.build_before(site, terminal, terminal.before(), showing.flat) {
            Ok(before) => Ok(TurnValues { before, test }),
            Err(fault) => {
                let_go(test);
                Err(fault)
            }
        }
    }

    /// Builds the value that goes on at a loop's test, where there is one.
    fn build_before(
        &mut self,
        site: Site,
        terminal: &LoopTerminal,
        key: Option<BlockId>,
        flat: bool,
    ) -> Result<Option<Boxed<ReactiveValue>>, Fault>
        requires { spec.CanBuildBefore self.old.hir.now self.old.marks key }
        ensures { spec.BuildsBefore self.old self.new site terminal.now flat key result }
    {
        let Some(key) = key else { return Ok(None) };
        let showing = Showing {
            flat,
            span: terminal.span,
        };
        Ok(Some(self.build_going(site, key, terminal.test, showing)?))
    }

    /// Whether a jump can name the fallthrough of a loop already, or the block with which its turns begin, or it is a
    /// while whose fallthrough ends in `Unreachable`.
    fn is_live(&self, terminal: &LoopTerminal) -> bool
        ensures { result ≡ (is_jump_target self.now.frames terminal.now.fallthrough
            || (is_jump_target self.now.frames (turn_start (kinds.blocks_of terminal.now))
            || (kinds.is_while_kind terminal.now.kind
            && ends_unreachable self.now.hir.now terminal.now.fallthrough))) }
    {
        let place = place_of(&self.hir.body.blocks, Some(terminal.fallthrough));
        self.frames.is_jump_target_at(terminal.fallthrough, place)
            || self.frames.is_jump_target(terminal.start())
            || terminal.is_while() && ends_unreachable(self.hir, terminal.fallthrough, place)
    }
}

/// The loop of a terminal, if it is one.
fn loop_of(terminal: &Terminal) -> Option<LoopTerminal>
    ensures { result ≡ kinds.loop_of terminal.now }
{
    match terminal {
        Terminal::While {
            test,
            loop_block,
            fallthrough,
            id,
            span,
        } => Some(LoopKind::While.looping(*test, *loop_block, *fallthrough, *id, *span)),
        Terminal::DoWhile {
            loop_block,
            test,
            fallthrough,
            id,
            span,
        } => Some(LoopKind::DoWhile.looping(*test, *loop_block, *fallthrough, *id, *span)),
        _ => for_of(terminal),
    }
}

/// The loop of a terminal, if it is one of the three that have an init.
fn for_of(terminal: &Terminal) -> Option<LoopTerminal>
    ensures { result ≡ kinds.for_of terminal.now }
{
    match terminal {
        Terminal::For {
            init,
            test,
            update,
            loop_block,
            fallthrough,
            id,
            span,
        } => {
            let kind = LoopKind::For {
                init: *init,
                update: *update,
            };
            Some(kind.looping(*test, *loop_block, *fallthrough, *id, *span))
        }
        Terminal::ForOf {
            init,
            test,
            loop_block,
            fallthrough,
            id,
            span,
        } => {
            let kind = LoopKind::ForOf { init: *init };
            Some(kind.looping(*test, *loop_block, *fallthrough, *id, *span))
        }
        Terminal::ForIn {
            init,
            loop_block,
            fallthrough,
            id,
            span,
        } => Some(LoopKind::ForIn.looping(*init, *loop_block, *fallthrough, *id, *span)),
        _ => None,
    }
}

/// The body of the loop that a terminal is.
// Not inlined, so that the frames of nested loops have no room for the parts of the terminal.
#[inline(never)]
fn body_of(terminal: &Terminal) -> LoopBody
    requires { IsSome (kinds.loop_of terminal.now) }
    ensures { (t : LoopTerminal) → kinds.loop_of terminal.now ≡ Some t → result ≡ spec.body_of t }
{
    let found = loop_of(terminal).unwrap();
    LoopBody {
        block: found.body,
        frame: found.frame(),
        fallthrough: found.fallthrough,
    }
}

/// Appends the statement of the loop that a terminal is, whose parts are built. The only error is out of memory.
#[inline(never)]
fn put_loop(
    alloc: Global,
    out: &mut List<ReactiveStatement>,
    terminal: &Terminal,
    values: Boxed<LoopValues>,
    body: List<ReactiveStatement>,
) -> Result<(), AllocError>
    requires { (t : LoopTerminal) × (kinds.loop_of terminal.now ≡ Some t) × IsSome (spec.tree_of t values body) }
    ensures { (t : LoopTerminal) → kinds.loop_of terminal.now ≡ Some t
        → OnOk result (spec.PutsLoop out.old out.new t values body) }
{
    let found = loop_of(terminal).unwrap();
    let tree = loop_tree(found, values.into_inner(), body);
    let label = label_at(Some(found.fallthrough));
    put_terminal(alloc, out, tree, label)
}

/// The tree of a loop whose parts are built.
fn loop_tree(
    terminal: LoopTerminal,
    values: LoopValues,
    body: List<ReactiveStatement>,
) -> ReactiveTerminal
    requires { IsSome (spec.tree_of terminal values body) }
    ensures { spec.tree_of terminal values body ≡ Some result }
{
    let LoopTerminal { kind, id, span, .. } = terminal;
    let LoopValues { init, turn } = values;
    let TurnValues { before, test } = turn;
    let loop_block = ReactiveBlock { statements: body };
    match kind {
        LoopKind::While => ReactiveTerminal::While {
            test,
            loop_block,
            id,
        },
        LoopKind::DoWhile => ReactiveTerminal::DoWhile {
            loop_block,
            test,
            id,
        },
        LoopKind::For { .. } => ReactiveTerminal::For {
            init: init.unwrap(),
            test,
            update: before,
            loop_block,
            id,
        },
        LoopKind::ForOf { .. } => ReactiveTerminal::ForOf {
            init: before.unwrap(),
            test,
            loop_block,
            span,
            id,
        },
        LoopKind::ForIn => ReactiveTerminal::ForIn {
            init: test,
            loop_block,
            span,
            id,
        },
    }
}
