//! The printing form of instruction values: one function a kind, in families.

mod calls;
mod expressions;
mod objects;
mod variables;

ghost use Rattle.std.specs.Prelude.{◌≡◌, ◌++◌, IfOk, OnOk, false, string_bytes, refl};
ghost use Rattle.serde_json.specs.View.{view};
ghost use Rattle.serde_json.specs.Written.{compact_text, has_float};
ghost use Rattle.rc_doc.specs.Kinds.{instruction_value_of};
ghost use Rattle.rc_show.specs.ShownKinds.{IsReadBack, value_data};

use crate::fields::Show;
use crate::shown::{to_json, to_text};
use rc_hir::InstructionValue;
use serde::Serializer;
use serde_json::Value;
use std::alloc::{AllocError, Global};

/// Returns the compact text of an instruction value's printing form. Fails only when out of memory.
#[tactic(auto, using(crate::proofs::PlainForms::plain_value))]
pub fn value_text(alloc: Global, value: &InstructionValue) -> Result<String, AllocError>
    ensures { IfOk result (λ text. string_bytes text ≡ compact_text (value_data value.now)) }
{
    to_text(alloc, value)
}

/// Writes the compact text of an instruction value's printing form. Fails only when out of memory.
pub fn write_value(out: &mut String, value: &InstructionValue) -> Result<(), AllocError>
    ensures { OnOk result (string_bytes out.new ≡ string_bytes out.old ++ compact_text (value_data value.now)) }
{
    let text = value_text(*out.allocator(), value)?;
    out.push_str(text.as_str())
}

/// Returns the printing form of an instruction value, which reads as that value again. It has no float, so its text is
/// its compact text. Fails only when out of memory.
#[tactic(auto, using(crate::proofs::PlainForms::plain_value, crate::proofs::PlainValues::plain_has_no_float))]
pub fn value_json(alloc: Global, value: &InstructionValue) -> Result<Value, AllocError>
    ensures value { IfOk result (λ shown. view shown ≡ value_data value.now) }
    ensures again { OnOk result (IsReadBack value.now) }
    ensures no_float { has_float (value_data value.now) ≡ false }
{
    to_json(alloc, value)
}

impl Show for InstructionValue {
    ghost reads = { instruction_value_of };

    ghost shows = { value_data };

    fn send<S: Serializer>(&self, out: &mut S) -> Result<(), S::Error> {
        match self {
            InstructionValue::LoadLocal { place, span } => variables::load_local(out, place, span),
            InstructionValue::LoadContext { place, span } => variables::load_context(
                out, place, span,
            ),
            InstructionValue::DeclareLocal { lvalue, span } => variables::declare_local(
                out, lvalue, span,
            ),
            InstructionValue::DeclareContext { lvalue, span } => variables::declare_context(
                out, lvalue, span,
            ),
            InstructionValue::StoreLocal {
                lvalue,
                value,
                span,
            } => variables::store_local(out, lvalue, value, span),
            InstructionValue::StoreContext {
                lvalue,
                value,
                span,
            } => variables::store_context(out, lvalue, value, span),
            InstructionValue::Destructure {
                lvalue,
                value,
                span,
            } => variables::destructure(out, lvalue, value, span),
            InstructionValue::Primitive { value, span } => expressions::primitive(out, value, span),
            InstructionValue::JSXText { value, span } => expressions::jsx_text(out, value, span),
            InstructionValue::BinaryExpression {
                operator,
                left,
                right,
                span,
            } => expressions::binary_expression(out, operator, left, right, span),
            InstructionValue::UnaryExpression {
                operator,
                value,
                span,
            } => expressions::unary_expression(out, operator, value, span),
            InstructionValue::TypeCastExpression {
                value,
                annotation,
                span,
            } => expressions::type_cast_expression(out, value, annotation, span),
            InstructionValue::Await { value, span } => expressions::await_value(out, value, span),
            InstructionValue::NewExpression { callee, args, span } => calls::new_expression(
                out, callee, args, span,
            ),
            InstructionValue::CallExpression { callee, args, span } => calls::call_expression(
                out, callee, args, span,
            ),
            InstructionValue::MethodCall {
                receiver,
                property,
                args,
                span,
            } => calls::method_call(out, receiver, property, args, span),
            InstructionValue::ObjectExpression { properties, span } => objects::object_expression(
                out, properties, span,
            ),
            InstructionValue::ObjectMethod { lowered_func, span } => calls::object_method(
                out,
                lowered_func,
                span,
            ),
            InstructionValue::FunctionExpression {
                name,
                lowered_func,
                span,
            } => calls::function_expression(out, name, lowered_func, span),
            InstructionValue::ArrayExpression { elements, span } => objects::array_expression(
                out, elements, span,
            ),
            InstructionValue::JsxExpression {
                tag,
                props,
                children,
                span,
            } => objects::jsx_expression(out, tag, props, children, span),
            InstructionValue::JsxFragment { children, span } => objects::jsx_fragment(
                out, children, span,
            ),
            InstructionValue::RegExpLiteral {
                pattern,
                flags,
                span,
            } => expressions::regexp_literal(out, pattern, flags, span),
            InstructionValue::MetaProperty {
                meta,
                property,
                span,
            } => expressions::meta_property(out, meta, property, span),
            InstructionValue::PropertyLoad {
                object,
                property,
                span,
            } => objects::property_load(out, object, property, span),
            InstructionValue::PropertyDelete {
                object,
                property,
                span,
            } => objects::property_delete(out, object, property, span),
            InstructionValue::PropertyStore {
                object,
                property,
                value,
                span,
            } => objects::property_store(out, object, property, value, span),
            InstructionValue::ComputedLoad {
                object,
                property,
                span,
            } => objects::computed_load(out, object, property, span),
            InstructionValue::ComputedDelete {
                object,
                property,
                span,
            } => objects::computed_delete(out, object, property, span),
            InstructionValue::ComputedStore {
                object,
                property,
                value,
                span,
            } => objects::computed_store(out, object, property, value, span),
            InstructionValue::LoadGlobal { binding, span } => variables::load_global(
                out, binding, span,
            ),
            InstructionValue::StoreGlobal { name, value, span } => variables::store_global(
                out, name, value, span,
            ),
            InstructionValue::TaggedTemplateExpression { tag, quasi, span } =>
                expressions::tagged_template_expression(out, tag, quasi, span),
            InstructionValue::TemplateLiteral {
                subexprs,
                quasis,
                span,
            } => expressions::template_literal(out, subexprs, quasis, span),
            InstructionValue::GetIterator { collection, span } => expressions::get_iterator(
                out, collection, span,
            ),
            InstructionValue::IteratorNext {
                iterator,
                collection,
                span,
            } => expressions::iterator_next(out, iterator, collection, span),
            InstructionValue::NextPropertyOf { value, span } => expressions::next_property_of(
                out, value, span,
            ),
            InstructionValue::PrefixUpdate {
                lvalue,
                operation,
                value,
                span,
            } => variables::prefix_update(out, lvalue, operation, value, span),
            InstructionValue::PostfixUpdate {
                lvalue,
                operation,
                value,
                span,
            } => variables::postfix_update(out, lvalue, operation, value, span),
            InstructionValue::Debugger { span } => calls::debugger(out, span),
            InstructionValue::StartMemoize {
                manual_memo_id,
                deps,
                span,
            } => calls::start_memoize(out, *manual_memo_id, deps, span),
            InstructionValue::FinishMemoize {
                manual_memo_id,
                decl,
                pruned,
                span,
            } => calls::finish_memoize(out, *manual_memo_id, decl, *pruned, span),
        }
    }

    ghost not_null = { λ x. refl };
}
