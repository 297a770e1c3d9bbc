//! The printing form of the kinds that read, declare and write variables.

ghost use Rattle.std.specs.Prelude.{OnOk};
ghost use Rattle.rc_hir.specs.declared.instruction.InstructionValue.TheVariants as kinds;
ghost use Rattle.rc_show.specs.ShownKinds.{IsReadBack, value_data};
ghost use Rattle.rc_show.specs.Sending.{Sends};

use crate::fields::{Fields, NoFields};
use rc_hir::{LValue, LValuePattern, NonLocalBinding, Place};
use rc_names::{Span, Text};
use serde::Serializer;

#[tactic(auto, using(crate::proofs::KindsReadBack::Variables::load_local_again))]
pub(super) fn load_local<S: Serializer>(
    out: &mut S,
    place: &Place,
    span: &Option<Span>,
) -> Result<(), S::Error>
    ensures sends { OnOk result
        (Sends (value_data (kinds.LoadLocal place.now span.now)) (S.written out.old) (S.written out.new)) }
    ensures again { OnOk result (IsReadBack (kinds.LoadLocal place.now span.now)) }
{
    NoFields
        .tagged("LoadLocal")
        .with("place", place)
        .with_some("span", span)
        .send(out)
}

#[tactic(auto, using(crate::proofs::KindsReadBack::Variables::load_context_again))]
pub(super) fn load_context<S: Serializer>(
    out: &mut S,
    place: &Place,
    span: &Option<Span>,
) -> Result<(), S::Error>
    ensures sends { OnOk result
        (Sends (value_data (kinds.LoadContext place.now span.now)) (S.written out.old) (S.written out.new)) }
    ensures again { OnOk result (IsReadBack (kinds.LoadContext place.now span.now)) }
{
    NoFields
        .tagged("LoadContext")
        .with("place", place)
        .with_some("span", span)
        .send(out)
}

#[tactic(auto, using(crate::proofs::KindsReadBack::Variables::declare_local_again))]
pub(super) fn declare_local<S: Serializer>(
    out: &mut S,
    lvalue: &LValue,
    span: &Option<Span>,
) -> Result<(), S::Error>
    ensures sends { OnOk result
        (Sends (value_data (kinds.DeclareLocal lvalue.now span.now)) (S.written out.old) (S.written out.new)) }
    ensures again { OnOk result (IsReadBack (kinds.DeclareLocal lvalue.now span.now)) }
{
    NoFields
        .tagged("DeclareLocal")
        .with("lvalue", lvalue)
        .with_some("span", span)
        .send(out)
}

#[tactic(auto, using(crate::proofs::KindsReadBack::Variables::declare_context_again))]
pub(super) fn declare_context<S: Serializer>(
    out: &mut S,
    lvalue: &LValue,
    span: &Option<Span>,
) -> Result<(), S::Error>
    ensures sends { OnOk result
        (Sends (value_data (kinds.DeclareContext lvalue.now span.now)) (S.written out.old) (S.written out.new)) }
    ensures again { OnOk result (IsReadBack (kinds.DeclareContext lvalue.now span.now)) }
{
    NoFields
        .tagged("DeclareContext")
        .with("lvalue", lvalue)
        .with_some("span", span)
        .send(out)
}

#[tactic(auto, using(crate::proofs::KindsReadBack::Variables::store_local_again))]
pub(super) fn store_local<S: Serializer>(
    out: &mut S,
    lvalue: &LValue,
    value: &Place,
    span: &Option<Span>,
) -> Result<(), S::Error>
    ensures sends { OnOk result
        (Sends (value_data (kinds.StoreLocal lvalue.now value.now span.now)) (S.written out.old) (S.written out.new)) }
    ensures again { OnOk result (IsReadBack (kinds.StoreLocal lvalue.now value.now span.now)) }
{
    NoFields
        .tagged("StoreLocal")
        .with("lvalue", lvalue)
        .with_some("span", span)
        .with("value", value)
        .send(out)
}

#[tactic(auto, using(crate::proofs::KindsReadBack::Variables::store_context_again))]
pub(super) fn store_context<S: Serializer>(
    out: &mut S,
    lvalue: &LValue,
    value: &Place,
    span: &Option<Span>,
) -> Result<(), S::Error>
    ensures sends { OnOk result
        (Sends (value_data (kinds.StoreContext lvalue.now value.now span.now))
        (S.written out.old) (S.written out.new)) }
    ensures again { OnOk result (IsReadBack (kinds.StoreContext lvalue.now value.now span.now)) }
{
    NoFields
        .tagged("StoreContext")
        .with("lvalue", lvalue)
        .with_some("span", span)
        .with("value", value)
        .send(out)
}

#[tactic(auto, using(crate::proofs::KindsReadBack::Variables::destructure_again))]
pub(super) fn destructure<S: Serializer>(
    out: &mut S,
    lvalue: &LValuePattern,
    value: &Place,
    span: &Option<Span>,
) -> Result<(), S::Error>
    ensures sends { OnOk result
        (Sends (value_data (kinds.Destructure lvalue.now value.now span.now)) (S.written out.old) (S.written out.new)) }
    ensures again { OnOk result (IsReadBack (kinds.Destructure lvalue.now value.now span.now)) }
{
    NoFields
        .tagged("Destructure")
        .with("lvalue", lvalue)
        .with_some("span", span)
        .with("value", value)
        .send(out)
}

#[tactic(auto, using(crate::proofs::KindsReadBack::Variables::load_global_again))]
pub(super) fn load_global<S: Serializer>(
    out: &mut S,
    binding: &NonLocalBinding,
    span: &Option<Span>,
) -> Result<(), S::Error>
    ensures sends { OnOk result
        (Sends (value_data (kinds.LoadGlobal binding.now span.now)) (S.written out.old) (S.written out.new)) }
    ensures again { OnOk result (IsReadBack (kinds.LoadGlobal binding.now span.now)) }
{
    NoFields
        .with("binding", binding)
        .tagged("LoadGlobal")
        .with_some("span", span)
        .send(out)
}

#[tactic(auto, using(crate::proofs::KindsReadBack::Variables::store_global_again))]
pub(super) fn store_global<S: Serializer>(
    out: &mut S,
    name: &Text,
    value: &Place,
    span: &Option<Span>,
) -> Result<(), S::Error>
    ensures sends { OnOk result
        (Sends (value_data (kinds.StoreGlobal name.now value.now span.now)) (S.written out.old) (S.written out.new)) }
    ensures again { OnOk result (IsReadBack (kinds.StoreGlobal name.now value.now span.now)) }
{
    NoFields
        .tagged("StoreGlobal")
        .with("name", name)
        .with_some("span", span)
        .with("value", value)
        .send(out)
}

#[tactic(auto, using(crate::proofs::KindsReadBack::Variables::prefix_update_again))]
pub(super) fn prefix_update<S: Serializer>(
    out: &mut S,
    lvalue: &Place,
    operation: &Text,
    value: &Place,
    span: &Option<Span>,
) -> Result<(), S::Error>
    ensures sends { OnOk result
        (Sends (value_data (kinds.PrefixUpdate lvalue.now operation.now value.now span.now))
        (S.written out.old) (S.written out.new)) }
    ensures again { OnOk result (IsReadBack (kinds.PrefixUpdate lvalue.now operation.now value.now span.now)) }
{
    NoFields
        .tagged("PrefixUpdate")
        .with("lvalue", lvalue)
        .with("operation", operation)
        .with_some("span", span)
        .with("value", value)
        .send(out)
}

#[tactic(auto, using(crate::proofs::KindsReadBack::Variables::postfix_update_again))]
pub(super) fn postfix_update<S: Serializer>(
    out: &mut S,
    lvalue: &Place,
    operation: &Text,
    value: &Place,
    span: &Option<Span>,
) -> Result<(), S::Error>
    ensures sends { OnOk result
        (Sends (value_data (kinds.PostfixUpdate lvalue.now operation.now value.now span.now))
        (S.written out.old) (S.written out.new)) }
    ensures again { OnOk result (IsReadBack (kinds.PostfixUpdate lvalue.now operation.now value.now span.now)) }
{
    NoFields
        .tagged("PostfixUpdate")
        .with("lvalue", lvalue)
        .with("operation", operation)
        .with_some("span", span)
        .with("value", value)
        .send(out)
}
