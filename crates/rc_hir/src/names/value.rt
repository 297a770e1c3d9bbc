//! The check of the numbers of the 42 instruction kinds.

#![tactic(auto, using(crate::proofs::NamesLemmas::judging))]

ghost use Rattle.rc_hir.specs.ValueNames.{value_names};

use super::Lengths;
use super::parts::{HoldsNames, check_both, check_three};
use crate::fault::Fault;
use crate::instruction::{InstructionValue, InstructionValue as Kind};

impl HoldsNames for InstructionValue {
    ghost names = { value_names };

    fn check(&self, tables: Lengths) -> Result<(), Fault> {
        match self {
            Kind::LoadLocal { place, .. } => place.check(tables),
            Kind::LoadContext { place, .. } => place.check(tables),
            Kind::DeclareLocal { lvalue, .. } => lvalue.check(tables),
            Kind::DeclareContext { lvalue, .. } => lvalue.check(tables),
            Kind::StoreLocal { lvalue, value, .. } => check_both(lvalue, value, tables),
            Kind::StoreContext { lvalue, value, .. } => check_both(lvalue, value, tables),
            Kind::Destructure { lvalue, value, .. } => check_both(&lvalue.pattern, value, tables),
            Kind::Primitive { .. } | Kind::JSXText { .. } => Ok(()),
            Kind::BinaryExpression { left, right, .. } => check_both(left, right, tables),
            Kind::UnaryExpression { value, .. } => value.check(tables),
            Kind::TypeCastExpression { value, .. } => value.check(tables),
            Kind::Await { value, .. } => value.check(tables),
            Kind::NewExpression { callee, args, .. } => check_both(callee, args, tables),
            Kind::CallExpression { callee, args, .. } => check_both(callee, args, tables),
            Kind::MethodCall {
                receiver,
                property,
                args,
                ..
            } => check_three(receiver, property, args, tables),
            Kind::ObjectExpression { properties, .. } => properties.check(tables),
            Kind::ObjectMethod { lowered_func, .. } => lowered_func.check(tables),
            Kind::FunctionExpression { lowered_func, .. } => lowered_func.check(tables),
            Kind::ArrayExpression { elements, .. } => elements.check(tables),
            Kind::JsxExpression {
                tag,
                props,
                children,
                ..
            } => check_three(tag, props, children, tables),
            Kind::JsxFragment { children, .. } => children.check(tables),
            Kind::RegExpLiteral { .. } | Kind::MetaProperty { .. } => Ok(()),
            Kind::PropertyLoad { object, .. } => object.check(tables),
            Kind::PropertyDelete { object, .. } => object.check(tables),
            Kind::PropertyStore { object, value, .. } => check_both(object, value, tables),
            Kind::ComputedLoad {
                object,
                property,
                ..
            } => check_both(object, property, tables),
            Kind::ComputedDelete {
                object,
                property,
                ..
            } => check_both(object, property, tables),
            Kind::ComputedStore {
                object,
                property,
                value,
                ..
            } => check_three(object, property, value, tables),
            Kind::LoadGlobal { .. } => Ok(()),
            Kind::StoreGlobal { value, .. } => value.check(tables),
            Kind::TaggedTemplateExpression { tag, .. } => tag.check(tables),
            Kind::TemplateLiteral { subexprs, .. } => subexprs.check(tables),
            Kind::GetIterator { collection, .. } => collection.check(tables),
            Kind::IteratorNext {
                iterator,
                collection,
                ..
            } => check_both(iterator, collection, tables),
            Kind::NextPropertyOf { value, .. } => value.check(tables),
            Kind::PrefixUpdate { lvalue, value, .. } => check_both(lvalue, value, tables),
            Kind::PostfixUpdate { lvalue, value, .. } => check_both(lvalue, value, tables),
            Kind::Debugger { .. } => Ok(()),
            Kind::StartMemoize { deps, .. } => deps.check(tables),
            Kind::FinishMemoize { decl, .. } => decl.check(tables),
        }
    }
}
