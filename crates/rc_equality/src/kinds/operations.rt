//! Equality of the kinds that are operations.

ghost use Rattle.std.specs.Prelude.{◌≡◌, ◌↔◌, IsTrue};

use crate::Equals;
use rc_hir::{InstructionValue, InstructionValue as Kind, Place, PlaceOrSpread, PropertyLiteral};
use rc_names::{List, Span, Text};

/// Whether a value is a `BinaryExpression` with these parts.
pub(super) fn is_binary_expression(
    other: &InstructionValue,
    operator: &Text,
    left: &Place,
    right: &Place,
    span: &Option<Span>,
) -> bool
    ensures { IsTrue result ↔ (other.now ≡ InstructionValue.BinaryExpression operator.now left.now right.now span.now) }
{
    match other {
        Kind::BinaryExpression {
            operator: its_operator,
            left: its_left,
            right: its_right,
            span: its_span,
        } => left.equals(its_left)
            && right.equals(its_right)
            && span == its_span
            && operator.equals(its_operator),
        _ => false,
    }
}

/// Whether a value is an `UnaryExpression` with these parts.
pub(super) fn is_unary_expression(
    other: &InstructionValue,
    operator: &Text,
    value: &Place,
    span: &Option<Span>,
) -> bool
    ensures { IsTrue result ↔ (other.now ≡ InstructionValue.UnaryExpression operator.now value.now span.now) }
{
    match other {
        Kind::UnaryExpression {
            operator: its_operator,
            value: its_value,
            span: its_span,
        } => value.equals(its_value) && span == its_span && operator.equals(its_operator),
        _ => false,
    }
}

/// Whether a value is a `TypeCastExpression` with these parts.
pub(super) fn is_type_cast_expression(
    other: &InstructionValue,
    value: &Place,
    annotation: &Text,
    span: &Option<Span>,
) -> bool
    ensures { IsTrue result ↔ (other.now ≡ InstructionValue.TypeCastExpression value.now annotation.now span.now) }
{
    match other {
        Kind::TypeCastExpression {
            value: its_value,
            annotation: its_annotation,
            span: its_span,
        } => value.equals(its_value) && span == its_span && annotation.equals(its_annotation),
        _ => false,
    }
}

/// Whether a value is an `Await` with these parts.
pub(super) fn is_await(other: &InstructionValue, value: &Place, span: &Option<Span>) -> bool
    ensures { IsTrue result ↔ (other.now ≡ InstructionValue.Await value.now span.now) }
{
    match other {
        Kind::Await {
            value: its_value,
            span: its_span,
        } => value.equals(its_value) && span == its_span,
        _ => false,
    }
}

/// Whether a value is a `NewExpression` with these parts.
pub(super) fn is_new_expression(
    other: &InstructionValue,
    callee: &Place,
    args: &List<PlaceOrSpread>,
    span: &Option<Span>,
) -> bool
    ensures { IsTrue result ↔ (other.now ≡ InstructionValue.NewExpression callee.now args.now span.now) }
{
    match other {
        Kind::NewExpression {
            callee: its_callee,
            args: its_args,
            span: its_span,
        } => callee.equals(its_callee) && span == its_span && args.equals(its_args),
        _ => false,
    }
}

/// Whether a value is a `CallExpression` with these parts.
pub(super) fn is_call_expression(
    other: &InstructionValue,
    callee: &Place,
    args: &List<PlaceOrSpread>,
    span: &Option<Span>,
) -> bool
    ensures { IsTrue result ↔ (other.now ≡ InstructionValue.CallExpression callee.now args.now span.now) }
{
    match other {
        Kind::CallExpression {
            callee: its_callee,
            args: its_args,
            span: its_span,
        } => callee.equals(its_callee) && span == its_span && args.equals(its_args),
        _ => false,
    }
}

/// Whether a value is a `MethodCall` with these parts.
pub(super) fn is_method_call(
    other: &InstructionValue,
    receiver: &Place,
    property: &Place,
    args: &List<PlaceOrSpread>,
    span: &Option<Span>,
) -> bool
    ensures { IsTrue result ↔ (other.now ≡ InstructionValue.MethodCall receiver.now property.now args.now span.now) }
{
    match other {
        Kind::MethodCall {
            receiver: its_receiver,
            property: its_property,
            args: its_args,
            span: its_span,
        } => receiver.equals(its_receiver)
            && property.equals(its_property)
            && span == its_span
            && args.equals(its_args),
        _ => false,
    }
}

/// Whether a value is a `PropertyLoad` with these parts.
pub(super) fn is_property_load(
    other: &InstructionValue,
    object: &Place,
    property: &PropertyLiteral,
    span: &Option<Span>,
) -> bool
    ensures { IsTrue result ↔ (other.now ≡ InstructionValue.PropertyLoad object.now property.now span.now) }
{
    match other {
        Kind::PropertyLoad {
            object: its_object,
            property: its_property,
            span: its_span,
        } => object.equals(its_object) && span == its_span && property.equals(its_property),
        _ => false,
    }
}

/// Whether a value is a `PropertyDelete` with these parts.
pub(super) fn is_property_delete(
    other: &InstructionValue,
    object: &Place,
    property: &PropertyLiteral,
    span: &Option<Span>,
) -> bool
    ensures { IsTrue result ↔ (other.now ≡ InstructionValue.PropertyDelete object.now property.now span.now) }
{
    match other {
        Kind::PropertyDelete {
            object: its_object,
            property: its_property,
            span: its_span,
        } => object.equals(its_object) && span == its_span && property.equals(its_property),
        _ => false,
    }
}

/// Whether a value is a `PropertyStore` with these parts.
pub(super) fn is_property_store(
    other: &InstructionValue,
    object: &Place,
    property: &PropertyLiteral,
    value: &Place,
    span: &Option<Span>,
) -> bool
    ensures { IsTrue result ↔ (other.now ≡ InstructionValue.PropertyStore object.now property.now value.now span.now) }
{
    match other {
        Kind::PropertyStore {
            object: its_object,
            property: its_property,
            value: its_value,
            span: its_span,
        } => object.equals(its_object)
            && value.equals(its_value)
            && span == its_span
            && property.equals(its_property),
        _ => false,
    }
}

/// Whether a value is a `ComputedLoad` with these parts.
pub(super) fn is_computed_load(
    other: &InstructionValue,
    object: &Place,
    property: &Place,
    span: &Option<Span>,
) -> bool
    ensures { IsTrue result ↔ (other.now ≡ InstructionValue.ComputedLoad object.now property.now span.now) }
{
    match other {
        Kind::ComputedLoad {
            object: its_object,
            property: its_property,
            span: its_span,
        } => object.equals(its_object) && property.equals(its_property) && span == its_span,
        _ => false,
    }
}

/// Whether a value is a `ComputedDelete` with these parts.
pub(super) fn is_computed_delete(
    other: &InstructionValue,
    object: &Place,
    property: &Place,
    span: &Option<Span>,
) -> bool
    ensures { IsTrue result ↔ (other.now ≡ InstructionValue.ComputedDelete object.now property.now span.now) }
{
    match other {
        Kind::ComputedDelete {
            object: its_object,
            property: its_property,
            span: its_span,
        } => object.equals(its_object) && property.equals(its_property) && span == its_span,
        _ => false,
    }
}

/// Whether a value is a `ComputedStore` with these parts.
pub(super) fn is_computed_store(
    other: &InstructionValue,
    object: &Place,
    property: &Place,
    value: &Place,
    span: &Option<Span>,
) -> bool
    ensures { IsTrue result ↔ (other.now ≡ InstructionValue.ComputedStore object.now property.now value.now span.now) }
{
    match other {
        Kind::ComputedStore {
            object: its_object,
            property: its_property,
            value: its_value,
            span: its_span,
        } => object.equals(its_object)
            && property.equals(its_property)
            && value.equals(its_value)
            && span == its_span,
        _ => false,
    }
}

/// Whether a value is a `GetIterator` with these parts.
pub(super) fn is_get_iterator(
    other: &InstructionValue,
    collection: &Place,
    span: &Option<Span>,
) -> bool
    ensures { IsTrue result ↔ (other.now ≡ InstructionValue.GetIterator collection.now span.now) }
{
    match other {
        Kind::GetIterator {
            collection: its_collection,
            span: its_span,
        } => collection.equals(its_collection) && span == its_span,
        _ => false,
    }
}

/// Whether a value is an `IteratorNext` with these parts.
pub(super) fn is_iterator_next(
    other: &InstructionValue,
    iterator: &Place,
    collection: &Place,
    span: &Option<Span>,
) -> bool
    ensures { IsTrue result ↔ (other.now ≡ InstructionValue.IteratorNext iterator.now collection.now span.now) }
{
    match other {
        Kind::IteratorNext {
            iterator: its_iterator,
            collection: its_collection,
            span: its_span,
        } => iterator.equals(its_iterator) && collection.equals(its_collection) && span == its_span,
        _ => false,
    }
}

/// Whether a value is a `NextPropertyOf` with these parts.
pub(super) fn is_next_property_of(
    other: &InstructionValue,
    value: &Place,
    span: &Option<Span>,
) -> bool
    ensures { IsTrue result ↔ (other.now ≡ InstructionValue.NextPropertyOf value.now span.now) }
{
    match other {
        Kind::NextPropertyOf {
            value: its_value,
            span: its_span,
        } => value.equals(its_value) && span == its_span,
        _ => false,
    }
}

/// Whether a value is a `Debugger` with these parts.
pub(super) fn is_debugger(other: &InstructionValue, span: &Option<Span>) -> bool
    ensures { IsTrue result ↔ (other.now ≡ InstructionValue.Debugger span.now) }
{
    match other {
        Kind::Debugger { span: its_span } => span == its_span,
        _ => false,
    }
}

/// Whether a value is a `StartMemoize` with these parts.
pub(super) fn is_start_memoize(
    other: &InstructionValue,
    manual_memo_id: u32,
    deps: &List<Place>,
    span: &Option<Span>,
) -> bool
    ensures { IsTrue result ↔ (other.now ≡ InstructionValue.StartMemoize manual_memo_id deps.now span.now) }
{
    match other {
        Kind::StartMemoize {
            manual_memo_id: its_manual_memo_id,
            deps: its_deps,
            span: its_span,
        } => manual_memo_id == *its_manual_memo_id && span == its_span && deps.equals(its_deps),
        _ => false,
    }
}

/// Whether a value is a `FinishMemoize` with these parts.
pub(super) fn is_finish_memoize(
    other: &InstructionValue,
    manual_memo_id: u32,
    decl: &Place,
    pruned: bool,
    span: &Option<Span>,
) -> bool
    ensures { IsTrue result ↔ (other.now ≡ InstructionValue.FinishMemoize manual_memo_id decl.now pruned span.now) }
{
    match other {
        Kind::FinishMemoize {
            manual_memo_id: its_manual_memo_id,
            decl: its_decl,
            pruned: its_pruned,
            span: its_span,
        } => manual_memo_id == *its_manual_memo_id
            && decl.equals(its_decl)
            && pruned == *its_pruned
            && span == its_span,
        _ => false,
    }
}
