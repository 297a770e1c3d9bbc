//! The 42 instruction kinds.

use crate::pattern::{
    ArrayElement, LValue, LValuePattern, ObjectPropertyOrSpread, PropertyLiteral,
};
use crate::place::{Place, PlaceOrSpread};
use rc_names::{FunctionId, List, Span, Text};

/// A literal of a primitive type.
#[derive(Drop)]
pub enum PrimitiveValue {
    Null,
    Undefined,
    Boolean(bool),
    /// The number as it is written in the source.
    Number(Text),
    String(Text),
}

/// A name from outside the function.
#[derive(Drop)]
pub enum NonLocalBinding {
    Global { name: Text },
    Module { name: Text, module: Text },
}

/// The tag of a JSX element.
#[derive(Drop)]
pub enum JsxTag {
    Place(Place),
    Builtin(Text),
}

/// An attribute of a JSX element.
#[derive(Drop)]
pub enum JsxAttribute {
    Attribute { name: Text, place: Place },
    SpreadAttribute { argument: Place },
}

/// An operator that may skip its right side.
#[derive(Clone, Copy, Debug, PartialEq, Eq)]
pub enum LogicalOperator {
    And,
    Or,
    Coalesce,
}

/// A nested function, by its number.
#[derive(Clone, Copy, Debug, PartialEq, Eq)]
pub struct LoweredFunction {
    pub func: FunctionId,
}

/// The computation of a row.
#[derive(Drop)]
pub enum InstructionValue {
    LoadLocal {
        place: Place,
        span: Option<Span>,
    },
    LoadContext {
        place: Place,
        span: Option<Span>,
    },
    DeclareLocal {
        lvalue: LValue,
        span: Option<Span>,
    },
    DeclareContext {
        lvalue: LValue,
        span: Option<Span>,
    },
    StoreLocal {
        lvalue: LValue,
        value: Place,
        span: Option<Span>,
    },
    StoreContext {
        lvalue: LValue,
        value: Place,
        span: Option<Span>,
    },
    Destructure {
        lvalue: LValuePattern,
        value: Place,
        span: Option<Span>,
    },
    Primitive {
        value: PrimitiveValue,
        span: Option<Span>,
    },
    JSXText {
        value: Text,
        span: Option<Span>,
    },
    BinaryExpression {
        operator: Text,
        left: Place,
        right: Place,
        span: Option<Span>,
    },
    UnaryExpression {
        operator: Text,
        value: Place,
        span: Option<Span>,
    },
    TypeCastExpression {
        value: Place,
        annotation: Text,
        span: Option<Span>,
    },
    Await {
        value: Place,
        span: Option<Span>,
    },
    NewExpression {
        callee: Place,
        args: List<PlaceOrSpread>,
        span: Option<Span>,
    },
    CallExpression {
        callee: Place,
        args: List<PlaceOrSpread>,
        span: Option<Span>,
    },
    MethodCall {
        receiver: Place,
        property: Place,
        args: List<PlaceOrSpread>,
        span: Option<Span>,
    },
    ObjectExpression {
        properties: List<ObjectPropertyOrSpread>,
        span: Option<Span>,
    },
    ObjectMethod {
        lowered_func: LoweredFunction,
        span: Option<Span>,
    },
    FunctionExpression {
        name: Option<Text>,
        lowered_func: LoweredFunction,
        span: Option<Span>,
    },
    ArrayExpression {
        elements: List<ArrayElement>,
        span: Option<Span>,
    },
    JsxExpression {
        tag: JsxTag,
        props: List<JsxAttribute>,
        children: Option<List<Place>>,
        span: Option<Span>,
    },
    JsxFragment {
        children: List<Place>,
        span: Option<Span>,
    },
    RegExpLiteral {
        pattern: Text,
        flags: Text,
        span: Option<Span>,
    },
    MetaProperty {
        meta: Text,
        property: Text,
        span: Option<Span>,
    },
    PropertyLoad {
        object: Place,
        property: PropertyLiteral,
        span: Option<Span>,
    },
    PropertyDelete {
        object: Place,
        property: PropertyLiteral,
        span: Option<Span>,
    },
    PropertyStore {
        object: Place,
        property: PropertyLiteral,
        value: Place,
        span: Option<Span>,
    },
    ComputedLoad {
        object: Place,
        property: Place,
        span: Option<Span>,
    },
    ComputedDelete {
        object: Place,
        property: Place,
        span: Option<Span>,
    },
    ComputedStore {
        object: Place,
        property: Place,
        value: Place,
        span: Option<Span>,
    },
    LoadGlobal {
        binding: NonLocalBinding,
        span: Option<Span>,
    },
    StoreGlobal {
        name: Text,
        value: Place,
        span: Option<Span>,
    },
    TaggedTemplateExpression {
        tag: Place,
        quasi: Text,
        span: Option<Span>,
    },
    TemplateLiteral {
        subexprs: List<Place>,
        quasis: List<Text>,
        span: Option<Span>,
    },
    GetIterator {
        collection: Place,
        span: Option<Span>,
    },
    IteratorNext {
        iterator: Place,
        collection: Place,
        span: Option<Span>,
    },
    NextPropertyOf {
        value: Place,
        span: Option<Span>,
    },
    PrefixUpdate {
        lvalue: Place,
        operation: Text,
        value: Place,
        span: Option<Span>,
    },
    PostfixUpdate {
        lvalue: Place,
        operation: Text,
        value: Place,
        span: Option<Span>,
    },
    Debugger {
        span: Option<Span>,
    },
    StartMemoize {
        manual_memo_id: u32,
        deps: List<Place>,
        span: Option<Span>,
    },
    FinishMemoize {
        manual_memo_id: u32,
        decl: Place,
        pruned: bool,
        span: Option<Span>,
    },
}
