//! The numbers of the 42 instruction kinds.

use crate::names::parts::{Seeks, seek_both, seek_in, seek_three};
use crate::names::seeker::Seeker;
use rc_hir::{InstructionValue, InstructionValue as Kind};
use std::alloc::AllocError;

impl Seeks for InstructionValue {
    fn seek(&self, seeker: &mut Seeker) -> Result<bool, AllocError> {
        match self {
            Kind::LoadLocal { place, .. } => seek_in("place", place, seeker),
            Kind::LoadContext { place, .. } => seek_in("place", place, seeker),
            Kind::DeclareLocal { lvalue, .. } => seek_in("lvalue", lvalue, seeker),
            Kind::DeclareContext { lvalue, .. } => seek_in("lvalue", lvalue, seeker),
            Kind::StoreLocal { lvalue, value, .. } => {
                seek_both(("lvalue", "value"), lvalue, value, seeker)
            }
            Kind::StoreContext { lvalue, value, .. } => {
                seek_both(("lvalue", "value"), lvalue, value, seeker)
            }
            Kind::Destructure { lvalue, value, .. } => {
                seek_both(("lvalue", "value"), lvalue, value, seeker)
            }
            Kind::Primitive { .. } | Kind::JSXText { .. } => Ok(false),
            Kind::BinaryExpression { left, right, .. } => {
                seek_both(("left", "right"), left, right, seeker)
            }
            Kind::UnaryExpression { value, .. } => seek_in("value", value, seeker),
            Kind::TypeCastExpression { value, .. } => seek_in("value", value, seeker),
            Kind::Await { value, .. } => seek_in("value", value, seeker),
            Kind::NewExpression { callee, args, .. } => {
                seek_both(("callee", "args"), callee, args, seeker)
            }
            Kind::CallExpression { callee, args, .. } => {
                seek_both(("callee", "args"), callee, args, seeker)
            }
            Kind::MethodCall {
                receiver,
                property,
                args,
                ..
            } => seek_three(
                ("receiver", "property", "args"),
                receiver,
                property,
                args,
                seeker,
            ),
            Kind::ObjectExpression { properties, .. } => seek_in("properties", properties, seeker),
            Kind::ObjectMethod { lowered_func, .. } => seek_in(
                "lowered_func",
                lowered_func,
                seeker,
            ),
            Kind::FunctionExpression { lowered_func, .. } => {
                seek_in("lowered_func", lowered_func, seeker)
            }
            Kind::ArrayExpression { elements, .. } => seek_in("elements", elements, seeker),
            Kind::JsxExpression {
                tag,
                props,
                children,
                ..
            } => seek_three(("tag", "props", "children"), tag, props, children, seeker),
            Kind::JsxFragment { children, .. } => seek_in("children", children, seeker),
            Kind::RegExpLiteral { .. } | Kind::MetaProperty { .. } => Ok(false),
            Kind::PropertyLoad { object, .. } => seek_in("object", object, seeker),
            Kind::PropertyDelete { object, .. } => seek_in("object", object, seeker),
            Kind::PropertyStore { object, value, .. } => {
                seek_both(("object", "value"), object, value, seeker)
            }
            Kind::ComputedLoad {
                object,
                property,
                ..
            } => seek_both(("object", "property"), object, property, seeker),
            Kind::ComputedDelete {
                object,
                property,
                ..
            } => seek_both(("object", "property"), object, property, seeker),
            Kind::ComputedStore {
                object,
                property,
                value,
                ..
            } => seek_three(
                ("object", "property", "value"),
                object,
                property,
                value,
                seeker,
            ),
            Kind::LoadGlobal { .. } => Ok(false),
            Kind::StoreGlobal { value, .. } => seek_in("value", value, seeker),
            Kind::TaggedTemplateExpression { tag, .. } => seek_in("tag", tag, seeker),
            Kind::TemplateLiteral { subexprs, .. } => seek_in("subexprs", subexprs, seeker),
            Kind::GetIterator { collection, .. } => seek_in("collection", collection, seeker),
            Kind::IteratorNext {
                iterator,
                collection,
                ..
            } => seek_both(("iterator", "collection"), iterator, collection, seeker),
            Kind::NextPropertyOf { value, .. } => seek_in("value", value, seeker),
            Kind::PrefixUpdate { lvalue, value, .. } => {
                seek_both(("lvalue", "value"), lvalue, value, seeker)
            }
            Kind::PostfixUpdate { lvalue, value, .. } => {
                seek_both(("lvalue", "value"), lvalue, value, seeker)
            }
            Kind::Debugger { .. } => Ok(false),
            Kind::StartMemoize { deps, .. } => seek_in("deps", deps, seeker),
            Kind::FinishMemoize { decl, .. } => seek_in("decl", decl, seeker),
        }
    }
}
