//! Value terminals: sequences, ternaries, logicals and optionals, whose parts are values.
//!
//! After the value blocks of oxc's build_reactive_function.

ghost use Rattle.std.specs.Prelude.{◌≡◌, Option, None, Some, IfOk};
ghost use Rattle.rc_names.specs.Numbers.{BlockId};
ghost use Rattle.rc_hir.specs.Model.{LogicalOperator, HirFunction};
ghost use Rattle.rc_tree.specs.declared.value.ReactiveValue.TheVariants as reactive;
ghost use Rattle.rc_runs.specs.PlainTree.{NoRows, Row, Sequence, Value};
ghost use Rattle.rc_runs.specs.TreeOf.{value_of};
ghost use Rattle.rc_runs.specs.ValueEnd.{ValueEnd};
ghost use Rattle.rc_build.specs.declared.builder.Site.{Site};
ghost use Rattle.rc_build.specs.declared.value_terminals.ValueKind.TheVariants as kinds;
ghost use Rattle.rc_build.specs.inside.ValueKinds as spec;
ghost use Rattle.rc_build.specs.inside.ValueTerminals.{BuildsNested, CanBuildNested};
ghost use Rattle.rc_build.specs.inside.ValueSteps.{around_parts};
ghost use Rattle.rc_build.specs.inside.ShortArms.{other_arm_of};
ghost use Rattle.rc_build.specs.inside.Values.{IsBuilt};

use crate::builder::{Builder, let_go, malformed};
use crate::short_arms::ShortArm;
use crate::values::{Around, BuiltValue, Condition};
use rc_hir::{Fault, LogicalOperator, Place, Rule, Terminal};
use rc_names::{BlockId, Boxed, EvaluationOrder, List, Span};
use rc_tree::{ReactiveInstruction, ReactiveValue};
use std::alloc::{AllocError, Global};

/// A value terminal of the graph.
#[derive(Clone, Copy)]
pub struct ValueTerminal {
    pub kind: ValueKind,
    pub fallthrough: BlockId,
    pub id: EvaluationOrder,
    pub span: Option<Span>,
}

#[derive(Clone, Copy)]
pub enum ValueKind {
    Sequence {
        block: BlockId,
    },
    Ternary {
        test: BlockId,
    },
    Logical {
        operator: LogicalOperator,
        test: BlockId,
    },
    Optional {
        optional: bool,
        test: BlockId,
    },
}

/// What is built of a value terminal.
#[derive(Drop)]
pub struct NestedValue {
    pub value: Boxed<ReactiveValue>,
    /// The place with which it answers.
    pub answer: Place,
    /// The arm of its short end, if it has one.
    pub short: Option<ShortArm>,
}

impl ValueKind {
    /// The value terminal of this kind with these parts.
    fn leading_to(
        self,
        fallthrough: BlockId,
        id: EvaluationOrder,
        span: Option<Span>,
    ) -> ValueTerminal
        ensures { result ≡ spec.with_kind self fallthrough id span }
    {
        ValueTerminal {
            kind: self,
            fallthrough,
            id,
            span,
        }
    }
}

impl ValueTerminal {
    /// What is around the parts of the value terminal.
    fn around(self, handler: Option<BlockId>) -> Around
        ensures { result ≡ around_parts self handler }
    {
        Around {
            span: self.span,
            handler,
        }
    }
}

impl<'g> Builder<'g> {
    /// Builds the value of a value terminal, whose parts meet at its fallthrough.
    ///
    /// `Malformed`, `Todo`, `BadName`: as for its parts.
    // Inlined, so that a level of nested values has a frame less.
    #[inline(always)]
    #[cycle(values)]
    pub fn build_nested(
        &mut self,
        terminal: ValueTerminal,
        handler: Option<BlockId>,
    ) -> Result<Boxed<NestedValue>, Fault>
        requires { CanBuildNested self.old.hir.now self.old.marks terminal }
        ensures { (site : Site) → BuildsNested self.old self.new site handler terminal result }
    {
        match terminal.kind {
            ValueKind::Sequence { block } => self.build_sequence(terminal, block, handler),
            ValueKind::Ternary { test } => self.build_ternary(terminal, test, handler),
            ValueKind::Logical { operator, test } => self.build_logical(
                terminal, operator, test, handler,
            ),
            ValueKind::Optional { optional, test } => self.build_optional(
                terminal, optional, test, handler,
            ),
        }
    }

    /// Builds the one value of a sequence.
    // Not inlined, so that the frames of other value terminals have no room for its parts; so the others.
    #[inline(never)]
    #[cycle(values)]
    fn build_sequence(
        &mut self,
        terminal: ValueTerminal,
        block: BlockId,
        handler: Option<BlockId>,
    ) -> Result<Boxed<NestedValue>, Fault>
        requires { CanBuildNested self.old.hir.now self.old.marks (record terminal { kind = kinds.Sequence block }) }
        ensures { (site : Site) →
            BuildsNested self.old self.new site handler (record terminal { kind = kinds.Sequence block }) result }
    {
        let around = terminal.around(handler);
        let built = self.build_arm(block, terminal.fallthrough, around)?;
        Ok(in_sequence(self.alloc, built)?)
    }

    /// Builds a test and the two arms between which it chooses.
    #[inline(never)]
    #[cycle(values)]
    fn build_ternary(
        &mut self,
        terminal: ValueTerminal,
        test: BlockId,
        handler: Option<BlockId>,
    ) -> Result<Boxed<NestedValue>, Fault>
        requires { CanBuildNested self.old.hir.now self.old.marks (record terminal { kind = kinds.Ternary test }) }
        ensures { (site : Site) →
            BuildsNested self.old self.new site handler (record terminal { kind = kinds.Ternary test }) result }
    {
        let around = terminal.around(handler);
        let condition = self.build_condition(test, around, false)?;
        let arms = condition.get().arms;
        let first = match self.build_arm(arms.consequent, terminal.fallthrough, around) {
            Ok(first) => first,
            Err(fault) => {
                let_go(condition);
                return Err(fault);
            }
        };
        match self.build_arm(arms.alternate, terminal.fallthrough, around) {
            Ok(second) => Ok(conditional(self.alloc, condition, first, second)?),
            Err(fault) => {
                let_go(condition);
                let_go(first);
                Err(fault)
            }
        }
    }

    /// Builds a test and two arms, of which the first only hands the answer of the test on.
    ///
    /// `Malformed` with `LoudArm`: the first arm does more.
    #[inline(never)]
    #[cycle(values)]
    fn build_logical(
        &mut self,
        terminal: ValueTerminal,
        operator: LogicalOperator,
        test: BlockId,
        handler: Option<BlockId>,
    ) -> Result<Boxed<NestedValue>, Fault>
        requires { CanBuildNested self.old.hir.now self.old.marks
            (record terminal { kind = kinds.Logical operator test }) }
        ensures { (site : Site) →
            BuildsNested self.old self.new site handler (record terminal { kind = kinds.Logical operator test }) result }
    {
        let around = terminal.around(handler);
        let condition = self.build_condition(test, around, false)?;
        let arms = condition.get().arms;
        let before = self.marks.used.len();
        let first = match self.build_arm(arms.consequent, terminal.fallthrough, around) {
            Ok(first) => first,
            Err(fault) => {
                let_go(condition);
                return Err(fault);
            }
        };
        if let Err(fault) = self.check_silent_since(before, arms.consequent) {
            let_go(condition);
            let_go(first);
            return Err(fault);
        }
        match self.build_arm(arms.alternate, terminal.fallthrough, around) {
            Ok(second) => Ok(logical(self.alloc, operator, around.span, condition, first, second)?),
            Err(fault) => {
                let_go(condition);
                let_go(first);
                Err(fault)
            }
        }
    }

    /// Builds a test and one arm; the other one is its short arm.
    ///
    /// `Malformed` with `ShortArm`: the test leaves another arm open.
    #[inline(never)]
    #[cycle(values)]
    fn build_optional(
        &mut self,
        terminal: ValueTerminal,
        optional: bool,
        test: BlockId,
        handler: Option<BlockId>,
    ) -> Result<Boxed<NestedValue>, Fault>
        requires { CanBuildNested self.old.hir.now self.old.marks
            (record terminal { kind = kinds.Optional optional test }) }
        ensures { (site : Site) →
            BuildsNested self.old self.new site handler (record terminal { kind = kinds.Optional optional test }) result }
    {
        let around = terminal.around(handler);
        let condition = self.build_condition(test, around, true)?;
        if let Some(branch) = other_arm(condition.get()) {
            let_go(condition);
            return Err(malformed(branch, Rule::ShortArm));
        }
        let consequent = condition.get().arms.consequent;
        match self.build_arm(consequent, terminal.fallthrough, around) {
            Ok(first) => Ok(optional_value(self.alloc, optional, condition, first)?),
            Err(fault) => {
                let_go(condition);
                Err(fault)
            }
        }
    }
}

/// The block of the `Branch` that leaves another arm open than the condition's alternate, if there is one.
fn other_arm(condition: &Condition<'_>) -> Option<BlockId>
    ensures { result ≡ other_arm_of condition.now.tested.left_open condition.now.arms.alternate }
{
    match condition.tested.get().left_open {
        Some(left) => if left.alternate == condition.arms.alternate {
            None
        } else {
            Some(left.branch)
        },
        None => None,
    }
}

/// What is built of a sequence. The only error is out of memory.
// It isn't inlined, nor are the functions for other value terminals: what is in a box takes no room in the frames of
// nested values.
#[inline(never)]
fn in_sequence(
    alloc: Global,
    built: Boxed<BuiltValue<'_>>,
) -> Result<Boxed<NestedValue>, AllocError>
    ensures { IfOk result (λ made. made ≡ record {
      value = built.entry.value;
      answer = built.entry.answer;
      short = None;
    }) }
{
    let BuiltValue { value, answer, .. } = built.into_inner();
    let nested = NestedValue {
        value,
        answer,
        short: None,
    };
    Boxed::new(alloc, nested)
}

/// What is built of a ternary. The only error is out of memory.
#[inline(never)]
fn conditional(
    alloc: Global,
    condition: Boxed<Condition<'_>>,
    first: Boxed<BuiltValue<'_>>,
    second: Boxed<BuiltValue<'_>>,
) -> Result<Boxed<NestedValue>, AllocError>
    ensures { IfOk result (λ made. made ≡ record {
      value = reactive.ConditionalExpression condition.entry.tested.value first.entry.value second.entry.value;
      answer = first.entry.answer;
      short = None;
    }) }
{
    let Condition { tested, .. } = condition.into_inner();
    let BuiltValue { value, answer, .. } = first.into_inner();
    let whole = ReactiveValue::ConditionalExpression {
        test: value_in(tested),
        consequent: value,
        alternate: value_in(second),
    };
    boxed_nested(alloc, whole, answer, None)
}

/// What is built of a logical with that span. The only error is out of memory.
#[inline(never)]
fn logical(
    alloc: Global,
    operator: LogicalOperator,
    span: Option<Span>,
    condition: Boxed<Condition<'_>>,
    first: Boxed<BuiltValue<'_>>,
    second: Boxed<BuiltValue<'_>>,
) -> Result<Boxed<NestedValue>, AllocError>
    ensures { (hir : HirFunction) (test value : Value) (test_end end : ValueEnd) →
        IsBuilt hir test test_end condition.entry.tested → IsBuilt hir value end first.entry →
        IfOk result (λ made. made ≡ record {
          value = reactive.LogicalExpression operator
              (value_of (Sequence (Row test_end.id (Some test_end.answer) test span NoRows) end.id value))
              second.entry.value;
          answer = first.entry.answer;
          short = None;
        }) }
{
    let Condition { tested, .. } = condition.into_inner();
    let answer = first.get().answer;
    let whole = ReactiveValue::LogicalExpression {
        operator,
        left: tested_then(alloc, tested, span, first)?,
        right: value_in(second),
    };
    boxed_nested(alloc, whole, answer, None)
}

/// What is built of an optional. The only error is out of memory.
#[inline(never)]
fn optional_value(
    alloc: Global,
    optional: bool,
    condition: Boxed<Condition<'_>>,
    first: Boxed<BuiltValue<'_>>,
) -> Result<Boxed<NestedValue>, AllocError>
    ensures { (hir : HirFunction) (test value : Value) (test_end end : ValueEnd) →
        IsBuilt hir test test_end condition.entry.tested → IsBuilt hir value end first.entry →
        IfOk result (λ made. made ≡ record {
          value = reactive.OptionalExpression
              (value_of (Sequence (Row test_end.id (Some test_end.answer) test condition.entry.arms.span NoRows) end.id
              value)) optional;
          answer = first.entry.answer;
          short = Some (record {
            alternate = condition.entry.arms.alternate;
            branch = condition.entry.tested.block;
          });
        }) }
{
    let Condition { tested, arms } = condition.into_inner();
    let answer = first.get().answer;
    let short = ShortArm {
        alternate: arms.alternate,
        branch: tested.get().block,
    };
    let whole = ReactiveValue::OptionalExpression {
        value: tested_then(alloc, tested, arms.span, first)?,
        optional,
    };
    boxed_nested(alloc, whole, answer, Some(short))
}

/// The value that was built.
fn value_in(built: Boxed<BuiltValue<'_>>) -> Boxed<ReactiveValue>
    ensures { result ≡ built.entry.value }
{
    let BuiltValue { value, .. } = built.into_inner();
    value
}

/// What is built of a value terminal with that value. The only error is out of memory.
fn boxed_nested(
    alloc: Global,
    whole: ReactiveValue,
    answer: Place,
    short: Option<ShortArm>,
) -> Result<Boxed<NestedValue>, AllocError>
    ensures { IfOk result (λ made. made ≡ record { value = whole; answer = answer; short = short }) }
{
    let nested = NestedValue {
        value: Boxed::new(alloc, whole)?,
        answer,
        short,
    };
    Boxed::new(alloc, nested)
}

/// The sequence of a test, as its only row, and the value after it. The only error is out of memory.
fn tested_then(
    alloc: Global,
    tested: Boxed<BuiltValue<'_>>,
    span: Option<Span>,
    behind: Boxed<BuiltValue<'_>>,
) -> Result<Boxed<ReactiveValue>, AllocError>
    ensures { (hir : HirFunction) (condition value : Value) (condition_end end : ValueEnd) →
        IsBuilt hir condition condition_end tested.entry → IsBuilt hir value end behind.entry →
        IfOk result (λ whole. whole ≡ value_of
        (Sequence (Row condition_end.id (Some condition_end.answer) condition span NoRows) end.id value)) }
{
    let tested = tested.into_inner();
    let mut instructions = List::new(alloc);
    instructions.push(ReactiveInstruction {
        id: tested.id,
        lvalue: Some(tested.answer),
        value: tested.value.into_inner(),
        span,
    })?;
    let behind = behind.into_inner();
    let sequence = ReactiveValue::SequenceExpression {
        instructions,
        id: behind.id,
        value: behind.value,
    };
    Boxed::new(alloc, sequence)
}

/// The value terminal that the terminal is, if it is one.
pub fn value_terminal(terminal: &Terminal) -> Option<ValueTerminal>
    ensures { result ≡ spec.value_terminal terminal.now }
{
    match terminal {
        Terminal::Sequence {
            block,
            fallthrough,
            id,
            span,
        } => {
            let kind = ValueKind::Sequence { block: *block };
            Some(kind.leading_to(*fallthrough, *id, *span))
        }
        Terminal::Ternary {
            test,
            fallthrough,
            id,
            span,
        } => {
            let kind = ValueKind::Ternary { test: *test };
            Some(kind.leading_to(*fallthrough, *id, *span))
        }
        Terminal::Logical {
            operator,
            test,
            fallthrough,
            id,
            span,
        } => {
            let kind = ValueKind::Logical {
                operator: *operator,
                test: *test,
            };
            Some(kind.leading_to(*fallthrough, *id, *span))
        }
        Terminal::Optional {
            optional,
            test,
            fallthrough,
            id,
            span,
        } => {
            let kind = ValueKind::Optional {
                optional: *optional,
                test: *test,
            };
            Some(kind.leading_to(*fallthrough, *id, *span))
        }
        _ => None,
    }
}
