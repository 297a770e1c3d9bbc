//! Copies of the 42 kinds and of their parts.

ghost use Rattle.std.specs.Prelude.{◌≡◌, IfOk};

use crate::instruction::{
    InstructionValue, InstructionValue as Kind, JsxAttribute, JsxTag, NonLocalBinding,
    PrimitiveValue,
};
use crate::place::Place;
use rc_names::{CloneIn, List};
use std::alloc::{AllocError, Global};

impl CloneIn for PrimitiveValue {
    fn clone_in(&self, alloc: Global) -> Result<PrimitiveValue, AllocError> {
        match *self {
            PrimitiveValue::Null => Ok(PrimitiveValue::Null),
            PrimitiveValue::Undefined => Ok(PrimitiveValue::Undefined),
            PrimitiveValue::Boolean(value) => Ok(PrimitiveValue::Boolean(value)),
            PrimitiveValue::Number(ref text) => Ok(PrimitiveValue::Number(text.clone_in(alloc)?)),
            PrimitiveValue::String(ref text) => Ok(PrimitiveValue::String(text.clone_in(alloc)?)),
        }
    }
}

impl CloneIn for NonLocalBinding {
    fn clone_in(&self, alloc: Global) -> Result<NonLocalBinding, AllocError> {
        match self {
            NonLocalBinding::Global { name } => Ok(NonLocalBinding::Global {
                name: name.clone_in(alloc)?,
            }),
            NonLocalBinding::Module { name, module } => Ok(NonLocalBinding::Module {
                name: name.clone_in(alloc)?,
                module: module.clone_in(alloc)?,
            }),
        }
    }
}

impl CloneIn for JsxTag {
    fn clone_in(&self, alloc: Global) -> Result<JsxTag, AllocError> {
        match self {
            JsxTag::Place(place) => Ok(JsxTag::Place(*place)),
            JsxTag::Builtin(name) => Ok(JsxTag::Builtin(name.clone_in(alloc)?)),
        }
    }
}

impl CloneIn for JsxAttribute {
    fn clone_in(&self, alloc: Global) -> Result<JsxAttribute, AllocError> {
        match self {
            JsxAttribute::Attribute { name, place } => Ok(JsxAttribute::Attribute {
                name: name.clone_in(alloc)?,
                place: *place,
            }),
            JsxAttribute::SpreadAttribute { argument } => Ok(JsxAttribute::SpreadAttribute {
                argument: *argument,
            }),
        }
    }
}

impl CloneIn for InstructionValue {
    fn clone_in(&self, alloc: Global) -> Result<InstructionValue, AllocError> {
        match *self {
            Kind::LoadLocal { place, span } => Ok(Kind::LoadLocal { place, span }),
            Kind::LoadContext { place, span } => Ok(Kind::LoadContext { place, span }),
            Kind::DeclareLocal { lvalue, span } => Ok(Kind::DeclareLocal { lvalue, span }),
            Kind::DeclareContext { lvalue, span } => Ok(Kind::DeclareContext { lvalue, span }),
            Kind::StoreLocal {
                lvalue,
                value,
                span,
            } => Ok(Kind::StoreLocal {
                lvalue,
                value,
                span,
            }),
            Kind::StoreContext {
                lvalue,
                value,
                span,
            } => Ok(Kind::StoreContext {
                lvalue,
                value,
                span,
            }),
            Kind::Destructure {
                ref lvalue,
                value,
                span,
            } => Ok(Kind::Destructure {
                lvalue: lvalue.clone_in(alloc)?,
                value,
                span,
            }),
            Kind::Primitive { ref value, span } => Ok(Kind::Primitive {
                value: value.clone_in(alloc)?,
                span,
            }),
            Kind::JSXText { ref value, span } => Ok(Kind::JSXText {
                value: value.clone_in(alloc)?,
                span,
            }),
            Kind::BinaryExpression {
                ref operator,
                left,
                right,
                span,
            } => Ok(Kind::BinaryExpression {
                operator: operator.clone_in(alloc)?,
                left,
                right,
                span,
            }),
            Kind::UnaryExpression {
                ref operator,
                value,
                span,
            } => Ok(Kind::UnaryExpression {
                operator: operator.clone_in(alloc)?,
                value,
                span,
            }),
            Kind::TypeCastExpression {
                value,
                ref annotation,
                span,
            } => Ok(Kind::TypeCastExpression {
                value,
                annotation: annotation.clone_in(alloc)?,
                span,
            }),
            Kind::Await { value, span } => Ok(Kind::Await { value, span }),
            Kind::NewExpression {
                callee,
                ref args,
                span,
            } => Ok(Kind::NewExpression {
                callee,
                args: args.copy_in(alloc)?,
                span,
            }),
            Kind::CallExpression {
                callee,
                ref args,
                span,
            } => Ok(Kind::CallExpression {
                callee,
                args: args.copy_in(alloc)?,
                span,
            }),
            Kind::MethodCall {
                receiver,
                property,
                ref args,
                span,
            } => Ok(Kind::MethodCall {
                receiver,
                property,
                args: args.copy_in(alloc)?,
                span,
            }),
            Kind::ObjectExpression {
                ref properties,
                span,
            } => Ok(Kind::ObjectExpression {
                properties: properties.clone_in(alloc)?,
                span,
            }),
            Kind::ObjectMethod { lowered_func, span } => Ok(Kind::ObjectMethod {
                lowered_func,
                span,
            }),
            Kind::FunctionExpression {
                ref name,
                lowered_func,
                span,
            } => Ok(Kind::FunctionExpression {
                name: name.clone_in(alloc)?,
                lowered_func,
                span,
            }),
            Kind::ArrayExpression { ref elements, span } => Ok(Kind::ArrayExpression {
                elements: elements.copy_in(alloc)?,
                span,
            }),
            Kind::JsxExpression {
                ref tag,
                ref props,
                ref children,
                span,
            } => Ok(Kind::JsxExpression {
                tag: tag.clone_in(alloc)?,
                props: props.clone_in(alloc)?,
                children: copy_children(alloc, children)?,
                span,
            }),
            Kind::JsxFragment { ref children, span } => Ok(Kind::JsxFragment {
                children: children.copy_in(alloc)?,
                span,
            }),
            Kind::RegExpLiteral {
                ref pattern,
                ref flags,
                span,
            } => Ok(Kind::RegExpLiteral {
                pattern: pattern.clone_in(alloc)?,
                flags: flags.clone_in(alloc)?,
                span,
            }),
            Kind::MetaProperty {
                ref meta,
                ref property,
                span,
            } => Ok(Kind::MetaProperty {
                meta: meta.clone_in(alloc)?,
                property: property.clone_in(alloc)?,
                span,
            }),
            Kind::PropertyLoad {
                object,
                ref property,
                span,
            } => Ok(Kind::PropertyLoad {
                object,
                property: property.clone_in(alloc)?,
                span,
            }),
            Kind::PropertyDelete {
                object,
                ref property,
                span,
            } => Ok(Kind::PropertyDelete {
                object,
                property: property.clone_in(alloc)?,
                span,
            }),
            Kind::PropertyStore {
                object,
                ref property,
                value,
                span,
            } => Ok(Kind::PropertyStore {
                object,
                property: property.clone_in(alloc)?,
                value,
                span,
            }),
            Kind::ComputedLoad {
                object,
                property,
                span,
            } => Ok(Kind::ComputedLoad {
                object,
                property,
                span,
            }),
            Kind::ComputedDelete {
                object,
                property,
                span,
            } => Ok(Kind::ComputedDelete {
                object,
                property,
                span,
            }),
            Kind::ComputedStore {
                object,
                property,
                value,
                span,
            } => Ok(Kind::ComputedStore {
                object,
                property,
                value,
                span,
            }),
            Kind::LoadGlobal { ref binding, span } => Ok(Kind::LoadGlobal {
                binding: binding.clone_in(alloc)?,
                span,
            }),
            Kind::StoreGlobal {
                ref name,
                value,
                span,
            } => Ok(Kind::StoreGlobal {
                name: name.clone_in(alloc)?,
                value,
                span,
            }),
            Kind::TaggedTemplateExpression {
                tag,
                ref quasi,
                span,
            } => Ok(Kind::TaggedTemplateExpression {
                tag,
                quasi: quasi.clone_in(alloc)?,
                span,
            }),
            Kind::TemplateLiteral {
                ref subexprs,
                ref quasis,
                span,
            } => Ok(Kind::TemplateLiteral {
                subexprs: subexprs.copy_in(alloc)?,
                quasis: quasis.clone_in(alloc)?,
                span,
            }),
            Kind::GetIterator { collection, span } => Ok(Kind::GetIterator { collection, span }),
            Kind::IteratorNext {
                iterator,
                collection,
                span,
            } => Ok(Kind::IteratorNext {
                iterator,
                collection,
                span,
            }),
            Kind::NextPropertyOf { value, span } => Ok(Kind::NextPropertyOf { value, span }),
            Kind::PrefixUpdate {
                lvalue,
                ref operation,
                value,
                span,
            } => Ok(Kind::PrefixUpdate {
                lvalue,
                operation: operation.clone_in(alloc)?,
                value,
                span,
            }),
            Kind::PostfixUpdate {
                lvalue,
                ref operation,
                value,
                span,
            } => Ok(Kind::PostfixUpdate {
                lvalue,
                operation: operation.clone_in(alloc)?,
                value,
                span,
            }),
            Kind::Debugger { span } => Ok(Kind::Debugger { span }),
            Kind::StartMemoize {
                manual_memo_id,
                ref deps,
                span,
            } => Ok(Kind::StartMemoize {
                manual_memo_id,
                deps: deps.copy_in(alloc)?,
                span,
            }),
            Kind::FinishMemoize {
                manual_memo_id,
                decl,
                pruned,
                span,
            } => Ok(Kind::FinishMemoize {
                manual_memo_id,
                decl,
                pruned,
                span,
            }),
        }
    }
}

fn copy_children(
    alloc: Global,
    children: &Option<List<Place>>,
) -> Result<Option<List<Place>>, AllocError>
    ensures { IfOk result (λ copy. copy ≡ children.now) }
{
    match children {
        Some(children) => Ok(Some(children.copy_in(alloc)?)),
        None => Ok(None),
    }
}
