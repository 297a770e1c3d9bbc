//! Equality of the kinds that are variables.

ghost use Rattle.std.specs.Prelude.{◌≡◌, ◌↔◌, IsTrue};

use crate::Equals;
use rc_hir::{
    InstructionValue, InstructionValue as Kind, LValue, LValuePattern, NonLocalBinding, Place,
};
use rc_names::{Span, Text};

/// Whether a value is a `LoadLocal` with these parts.
pub(super) fn is_load_local(other: &InstructionValue, place: &Place, span: &Option<Span>) -> bool
    ensures { IsTrue result ↔ (other.now ≡ InstructionValue.LoadLocal place.now span.now) }
{
    match other {
        Kind::LoadLocal {
            place: its_place,
            span: its_span,
        } => place.equals(its_place) && span == its_span,
        _ => false,
    }
}

/// Whether a value is a `LoadContext` with these parts.
pub(super) fn is_load_context(other: &InstructionValue, place: &Place, span: &Option<Span>) -> bool
    ensures { IsTrue result ↔ (other.now ≡ InstructionValue.LoadContext place.now span.now) }
{
    match other {
        Kind::LoadContext {
            place: its_place,
            span: its_span,
        } => place.equals(its_place) && span == its_span,
        _ => false,
    }
}

/// Whether a value is a `DeclareLocal` with these parts.
pub(super) fn is_declare_local(
    other: &InstructionValue,
    lvalue: &LValue,
    span: &Option<Span>,
) -> bool
    ensures { IsTrue result ↔ (other.now ≡ InstructionValue.DeclareLocal lvalue.now span.now) }
{
    match other {
        Kind::DeclareLocal {
            lvalue: its_lvalue,
            span: its_span,
        } => lvalue.equals(its_lvalue) && span == its_span,
        _ => false,
    }
}

/// Whether a value is a `DeclareContext` with these parts.
pub(super) fn is_declare_context(
    other: &InstructionValue,
    lvalue: &LValue,
    span: &Option<Span>,
) -> bool
    ensures { IsTrue result ↔ (other.now ≡ InstructionValue.DeclareContext lvalue.now span.now) }
{
    match other {
        Kind::DeclareContext {
            lvalue: its_lvalue,
            span: its_span,
        } => lvalue.equals(its_lvalue) && span == its_span,
        _ => false,
    }
}

/// Whether a value is a `StoreLocal` with these parts.
pub(super) fn is_store_local(
    other: &InstructionValue,
    lvalue: &LValue,
    value: &Place,
    span: &Option<Span>,
) -> bool
    ensures { IsTrue result ↔ (other.now ≡ InstructionValue.StoreLocal lvalue.now value.now span.now) }
{
    match other {
        Kind::StoreLocal {
            lvalue: its_lvalue,
            value: its_value,
            span: its_span,
        } => lvalue.equals(its_lvalue) && value.equals(its_value) && span == its_span,
        _ => false,
    }
}

/// Whether a value is a `StoreContext` with these parts.
pub(super) fn is_store_context(
    other: &InstructionValue,
    lvalue: &LValue,
    value: &Place,
    span: &Option<Span>,
) -> bool
    ensures { IsTrue result ↔ (other.now ≡ InstructionValue.StoreContext lvalue.now value.now span.now) }
{
    match other {
        Kind::StoreContext {
            lvalue: its_lvalue,
            value: its_value,
            span: its_span,
        } => lvalue.equals(its_lvalue) && value.equals(its_value) && span == its_span,
        _ => false,
    }
}

/// Whether a value is a `Destructure` with these parts.
pub(super) fn is_destructure(
    other: &InstructionValue,
    lvalue: &LValuePattern,
    value: &Place,
    span: &Option<Span>,
) -> bool
    ensures { IsTrue result ↔ (other.now ≡ InstructionValue.Destructure lvalue.now value.now span.now) }
{
    match other {
        Kind::Destructure {
            lvalue: its_lvalue,
            value: its_value,
            span: its_span,
        } => value.equals(its_value) && span == its_span && lvalue.equals(its_lvalue),
        _ => false,
    }
}

/// Whether a value is a `LoadGlobal` with these parts.
pub(super) fn is_load_global(
    other: &InstructionValue,
    binding: &NonLocalBinding,
    span: &Option<Span>,
) -> bool
    ensures { IsTrue result ↔ (other.now ≡ InstructionValue.LoadGlobal binding.now span.now) }
{
    match other {
        Kind::LoadGlobal {
            binding: its_binding,
            span: its_span,
        } => span == its_span && binding.equals(its_binding),
        _ => false,
    }
}

/// Whether a value is a `StoreGlobal` with these parts.
pub(super) fn is_store_global(
    other: &InstructionValue,
    name: &Text,
    value: &Place,
    span: &Option<Span>,
) -> bool
    ensures { IsTrue result ↔ (other.now ≡ InstructionValue.StoreGlobal name.now value.now span.now) }
{
    match other {
        Kind::StoreGlobal {
            name: its_name,
            value: its_value,
            span: its_span,
        } => value.equals(its_value) && span == its_span && name.equals(its_name),
        _ => false,
    }
}

/// Whether a value is a `PrefixUpdate` with these parts.
pub(super) fn is_prefix_update(
    other: &InstructionValue,
    lvalue: &Place,
    operation: &Text,
    value: &Place,
    span: &Option<Span>,
) -> bool
    ensures { IsTrue result ↔ (other.now ≡ InstructionValue.PrefixUpdate lvalue.now operation.now value.now span.now) }
{
    match other {
        Kind::PrefixUpdate {
            lvalue: its_lvalue,
            operation: its_operation,
            value: its_value,
            span: its_span,
        } => lvalue.equals(its_lvalue)
            && value.equals(its_value)
            && span == its_span
            && operation.equals(its_operation),
        _ => false,
    }
}

/// Whether a value is a `PostfixUpdate` with these parts.
pub(super) fn is_postfix_update(
    other: &InstructionValue,
    lvalue: &Place,
    operation: &Text,
    value: &Place,
    span: &Option<Span>,
) -> bool
    ensures { IsTrue result ↔ (other.now ≡ InstructionValue.PostfixUpdate lvalue.now operation.now value.now span.now) }
{
    match other {
        Kind::PostfixUpdate {
            lvalue: its_lvalue,
            operation: its_operation,
            value: its_value,
            span: its_span,
        } => lvalue.equals(its_lvalue)
            && value.equals(its_value)
            && span == its_span
            && operation.equals(its_operation),
        _ => false,
    }
}
