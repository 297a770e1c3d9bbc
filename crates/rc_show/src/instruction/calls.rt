//! The printing form of the kinds that call, that make functions, and that mark a place in the source.

ghost use Rattle.std.specs.Prelude.{OnOk};
ghost use Rattle.rc_hir.specs.declared.instruction.InstructionValue.TheVariants as kinds;
ghost use Rattle.rc_show.specs.ShownKinds.{IsReadBack, value_data};
ghost use Rattle.rc_show.specs.Sending.{Sends};

use crate::fields::{Fields, NoFields};
use rc_hir::{LoweredFunction, Place, PlaceOrSpread};
use rc_names::{List, Span, Text};
use serde::Serializer;

#[tactic(auto, using(crate::proofs::KindsReadBack::Calls::new_expression_again))]
pub(super) fn new_expression<S: Serializer>(
    out: &mut S,
    callee: &Place,
    args: &List<PlaceOrSpread>,
    span: &Option<Span>,
) -> Result<(), S::Error>
    ensures sends { OnOk result
        (Sends (value_data (kinds.NewExpression callee.now args.now span.now))
        (S.written out.old) (S.written out.new)) }
    ensures again { OnOk result (IsReadBack (kinds.NewExpression callee.now args.now span.now)) }
{
    NoFields
        .with("args", args)
        .with("callee", callee)
        .tagged("NewExpression")
        .with_some("span", span)
        .send(out)
}

#[tactic(auto, using(crate::proofs::KindsReadBack::Calls::call_expression_again))]
pub(super) fn call_expression<S: Serializer>(
    out: &mut S,
    callee: &Place,
    args: &List<PlaceOrSpread>,
    span: &Option<Span>,
) -> Result<(), S::Error>
    ensures sends { OnOk result
        (Sends (value_data (kinds.CallExpression callee.now args.now span.now))
        (S.written out.old) (S.written out.new)) }
    ensures again { OnOk result (IsReadBack (kinds.CallExpression callee.now args.now span.now)) }
{
    NoFields
        .with("args", args)
        .with("callee", callee)
        .tagged("CallExpression")
        .with_some("span", span)
        .send(out)
}

#[tactic(auto, using(crate::proofs::KindsReadBack::Calls::method_call_again))]
pub(super) fn method_call<S: Serializer>(
    out: &mut S,
    receiver: &Place,
    property: &Place,
    args: &List<PlaceOrSpread>,
    span: &Option<Span>,
) -> Result<(), S::Error>
    ensures sends { OnOk result
        (Sends (value_data (kinds.MethodCall receiver.now property.now args.now span.now))
        (S.written out.old) (S.written out.new)) }
    ensures again { OnOk result (IsReadBack (kinds.MethodCall receiver.now property.now args.now span.now)) }
{
    NoFields
        .with("args", args)
        .tagged("MethodCall")
        .with("property", property)
        .with("receiver", receiver)
        .with_some("span", span)
        .send(out)
}

#[tactic(auto, using(crate::proofs::KindsReadBack::Calls::object_method_again))]
pub(super) fn object_method<S: Serializer>(
    out: &mut S,
    lowered_func: &LoweredFunction,
    span: &Option<Span>,
) -> Result<(), S::Error>
    ensures sends { OnOk result
        (Sends (value_data (kinds.ObjectMethod lowered_func.now span.now)) (S.written out.old) (S.written out.new)) }
    ensures again { OnOk result (IsReadBack (kinds.ObjectMethod lowered_func.now span.now)) }
{
    NoFields
        .tagged("ObjectMethod")
        .with("lowered_func", lowered_func)
        .with_some("span", span)
        .send(out)
}

#[tactic(auto, using(crate::proofs::KindsReadBack::Calls::function_expression_again))]
pub(super) fn function_expression<S: Serializer>(
    out: &mut S,
    name: &Option<Text>,
    lowered_func: &LoweredFunction,
    span: &Option<Span>,
) -> Result<(), S::Error>
    ensures sends { OnOk result
        (Sends (value_data (kinds.FunctionExpression name.now lowered_func.now span.now))
        (S.written out.old) (S.written out.new)) }
    ensures again { OnOk result (IsReadBack (kinds.FunctionExpression name.now lowered_func.now span.now)) }
{
    NoFields
        .tagged("FunctionExpression")
        .with("lowered_func", lowered_func)
        .with_some("name", name)
        .with_some("span", span)
        .send(out)
}

#[tactic(auto, using(crate::proofs::KindsReadBack::Calls::debugger_again))]
pub(super) fn debugger<S: Serializer>(out: &mut S, span: &Option<Span>) -> Result<(), S::Error>
    ensures sends { OnOk result
        (Sends (value_data (kinds.Debugger span.now)) (S.written out.old) (S.written out.new)) }
    ensures again { OnOk result (IsReadBack (kinds.Debugger span.now)) }
{
    NoFields
        .tagged("Debugger")
        .with_some("span", span)
        .send(out)
}

#[tactic(auto, using(crate::proofs::KindsReadBack::Calls::start_memoize_again))]
pub(super) fn start_memoize<S: Serializer>(
    out: &mut S,
    manual_memo_id: u32,
    deps: &List<Place>,
    span: &Option<Span>,
) -> Result<(), S::Error>
    ensures sends { OnOk result
        (Sends (value_data (kinds.StartMemoize manual_memo_id deps.now span.now))
        (S.written out.old) (S.written out.new)) }
    ensures again { OnOk result (IsReadBack (kinds.StartMemoize manual_memo_id deps.now span.now)) }
{
    NoFields
        .with("deps", deps)
        .tagged("StartMemoize")
        .with("manual_memo_id", &manual_memo_id)
        .with_some("span", span)
        .send(out)
}

#[tactic(auto, using(crate::proofs::KindsReadBack::Calls::finish_memoize_again))]
pub(super) fn finish_memoize<S: Serializer>(
    out: &mut S,
    manual_memo_id: u32,
    decl: &Place,
    pruned: bool,
    span: &Option<Span>,
) -> Result<(), S::Error>
    ensures sends { OnOk result
        (Sends (value_data (kinds.FinishMemoize manual_memo_id decl.now pruned span.now))
        (S.written out.old) (S.written out.new)) }
    ensures again { OnOk result (IsReadBack (kinds.FinishMemoize manual_memo_id decl.now pruned span.now)) }
{
    NoFields
        .with("decl", decl)
        .tagged("FinishMemoize")
        .with("manual_memo_id", &manual_memo_id)
        .with("pruned", &pruned)
        .with_some("span", span)
        .send(out)
}
