//! Equality of the 42 kinds, with a function for each.

mod literals;
mod operations;
mod variables;

use crate::Equals;
use literals::{
    is_array_expression, is_function_expression, is_jsx_expression, is_jsx_fragment, is_jsx_text,
    is_meta_property, is_object_expression, is_object_method, is_primitive, is_regexp_literal,
    is_tagged_template_expression, is_template_literal,
};
use operations::{
    is_await, is_binary_expression, is_call_expression, is_computed_delete, is_computed_load,
    is_computed_store, is_debugger, is_finish_memoize, is_get_iterator, is_iterator_next,
    is_method_call, is_new_expression, is_next_property_of, is_property_delete, is_property_load,
    is_property_store, is_start_memoize, is_type_cast_expression, is_unary_expression,
};
use rc_hir::{InstructionValue, InstructionValue as Kind};
use variables::{
    is_declare_context, is_declare_local, is_destructure, is_load_context, is_load_global,
    is_load_local, is_postfix_update, is_prefix_update, is_store_context, is_store_global,
    is_store_local,
};

impl Equals for InstructionValue {
    fn equals(&self, other: &InstructionValue) -> bool {
        match self {
            Kind::LoadLocal { place, span } => is_load_local(other, place, span),
            Kind::LoadContext { place, span } => is_load_context(other, place, span),
            Kind::DeclareLocal { lvalue, span } => is_declare_local(other, lvalue, span),
            Kind::DeclareContext { lvalue, span } => is_declare_context(other, lvalue, span),
            Kind::StoreLocal {
                lvalue,
                value,
                span,
            } => is_store_local(other, lvalue, value, span),
            Kind::StoreContext {
                lvalue,
                value,
                span,
            } => is_store_context(other, lvalue, value, span),
            Kind::Destructure {
                lvalue,
                value,
                span,
            } => is_destructure(other, lvalue, value, span),
            Kind::Primitive { value, span } => is_primitive(other, value, span),
            Kind::JSXText { value, span } => is_jsx_text(other, value, span),
            Kind::BinaryExpression {
                operator,
                left,
                right,
                span,
            } => is_binary_expression(other, operator, left, right, span),
            Kind::UnaryExpression {
                operator,
                value,
                span,
            } => is_unary_expression(other, operator, value, span),
            Kind::TypeCastExpression {
                value,
                annotation,
                span,
            } => is_type_cast_expression(other, value, annotation, span),
            Kind::Await { value, span } => is_await(other, value, span),
            Kind::NewExpression { callee, args, span } => is_new_expression(
                other, callee, args, span,
            ),
            Kind::CallExpression { callee, args, span } => is_call_expression(
                other, callee, args, span,
            ),
            Kind::MethodCall {
                receiver,
                property,
                args,
                span,
            } => is_method_call(other, receiver, property, args, span),
            Kind::ObjectExpression { properties, span } => is_object_expression(
                other, properties, span,
            ),
            Kind::ObjectMethod { lowered_func, span } => is_object_method(
                other,
                lowered_func,
                span,
            ),
            Kind::FunctionExpression {
                name,
                lowered_func,
                span,
            } => is_function_expression(other, name, lowered_func, span),
            Kind::ArrayExpression { elements, span } => is_array_expression(other, elements, span),
            Kind::JsxExpression {
                tag,
                props,
                children,
                span,
            } => is_jsx_expression(other, tag, props, children, span),
            Kind::JsxFragment { children, span } => is_jsx_fragment(other, children, span),
            Kind::RegExpLiteral {
                pattern,
                flags,
                span,
            } => is_regexp_literal(other, pattern, flags, span),
            Kind::MetaProperty {
                meta,
                property,
                span,
            } => is_meta_property(other, meta, property, span),
            Kind::PropertyLoad {
                object,
                property,
                span,
            } => is_property_load(other, object, property, span),
            Kind::PropertyDelete {
                object,
                property,
                span,
            } => is_property_delete(other, object, property, span),
            Kind::PropertyStore {
                object,
                property,
                value,
                span,
            } => is_property_store(other, object, property, value, span),
            Kind::ComputedLoad {
                object,
                property,
                span,
            } => is_computed_load(other, object, property, span),
            Kind::ComputedDelete {
                object,
                property,
                span,
            } => is_computed_delete(other, object, property, span),
            Kind::ComputedStore {
                object,
                property,
                value,
                span,
            } => is_computed_store(other, object, property, value, span),
            Kind::LoadGlobal { binding, span } => is_load_global(other, binding, span),
            Kind::StoreGlobal { name, value, span } => is_store_global(other, name, value, span),
            Kind::TaggedTemplateExpression { tag, quasi, span } => is_tagged_template_expression(
                other, tag, quasi, span,
            ),
            Kind::TemplateLiteral {
                subexprs,
                quasis,
                span,
            } => is_template_literal(other, subexprs, quasis, span),
            Kind::GetIterator { collection, span } => is_get_iterator(other, collection, span),
            Kind::IteratorNext {
                iterator,
                collection,
                span,
            } => is_iterator_next(other, iterator, collection, span),
            Kind::NextPropertyOf { value, span } => is_next_property_of(other, value, span),
            Kind::PrefixUpdate {
                lvalue,
                operation,
                value,
                span,
            } => is_prefix_update(other, lvalue, operation, value, span),
            Kind::PostfixUpdate {
                lvalue,
                operation,
                value,
                span,
            } => is_postfix_update(other, lvalue, operation, value, span),
            Kind::Debugger { span } => is_debugger(other, span),
            Kind::StartMemoize {
                manual_memo_id,
                deps,
                span,
            } => is_start_memoize(other, *manual_memo_id, deps, span),
            Kind::FinishMemoize {
                manual_memo_id,
                decl,
                pruned,
                span,
            } => is_finish_memoize(other, *manual_memo_id, decl, *pruned, span),
        }
    }
}
