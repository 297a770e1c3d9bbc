//! The words that a document may have where one of a few is expected.

use crate::form::Form;

/// The effects of a place.
pub(crate) const EFFECTS: &[&str] = &[
    "Unknown",
    "Freeze",
    "Read",
    "Capture",
    "ConditionallyMutateIterator",
    "ConditionallyMutate",
    "Mutate",
    "Store",
];

/// The variants of a form that are objects, by their names.
pub(crate) fn object_variants(form: Form) -> &'static [&'static str] {
    match form {
        Form::Param | Form::Argument | Form::PatternElement | Form::Element => &["Place", "Spread"],
        Form::PropertyLiteral => &["String", "Number"],
        Form::PropertyKey => &["Identifier", "String", "Number", "Computed"],
        Form::Property => &["Property", "Spread"],
        Form::Pattern => &["Array", "Object"],
        Form::PrimitiveValue => &["Boolean", "Number", "String"],
        Form::Binding => &["Global", "Module"],
        Form::JsxTag => &["Place", "Builtin"],
        Form::JsxAttribute => &["Attribute", "SpreadAttribute"],
        Form::InstructionValue => INSTRUCTION_VALUES,
        Form::Terminal => TERMINALS,
        Form::IdentifierName => &["Named", "Promoted"],
        Form::Shape => &["Row"],
        Form::Type => &["Object", "Function"],
        _ => &[],
    }
}

/// The words of a form that are texts without an object.
pub(crate) fn plain_words(form: Form) -> &'static [&'static str] {
    match form {
        Form::InstructionKind => &[
            "Const",
            "Let",
            "Reassign",
            "Catch",
            "Function",
            "HoistedConst",
            "HoistedLet",
            "HoistedFunction",
        ],
        Form::LogicalOperator => &["And", "Or", "Coalesce"],
        Form::GotoVariant => &["Break", "Continue", "Try"],
        Form::PatternElement | Form::Element => &["Hole"],
        Form::PrimitiveValue => &["Null", "Undefined"],
        Form::Shape => &[
            "Array",
            "Object",
            "Function",
            "Jsx",
            "UseRef",
            "SetState",
            "SetActionState",
            "Dispatch",
            "StartTransition",
            "SetOptimistic",
        ],
        Form::Type => &["Primitive", "Other"],
        _ => &[],
    }
}

/// The kinds of instruction values.
const INSTRUCTION_VALUES: &[&str] = &[
    "LoadLocal",
    "LoadContext",
    "DeclareLocal",
    "DeclareContext",
    "StoreLocal",
    "StoreContext",
    "Destructure",
    "Primitive",
    "JSXText",
    "BinaryExpression",
    "UnaryExpression",
    "TypeCastExpression",
    "Await",
    "NewExpression",
    "CallExpression",
    "MethodCall",
    "ObjectExpression",
    "ObjectMethod",
    "FunctionExpression",
    "ArrayExpression",
    "JsxExpression",
    "JsxFragment",
    "RegExpLiteral",
    "MetaProperty",
    "PropertyLoad",
    "PropertyDelete",
    "PropertyStore",
    "ComputedLoad",
    "ComputedDelete",
    "ComputedStore",
    "LoadGlobal",
    "StoreGlobal",
    "TaggedTemplateExpression",
    "TemplateLiteral",
    "GetIterator",
    "IteratorNext",
    "NextPropertyOf",
    "PrefixUpdate",
    "PostfixUpdate",
    "Debugger",
    "StartMemoize",
    "FinishMemoize",
];

/// The terminals.
const TERMINALS: &[&str] = &[
    "If",
    "Branch",
    "Logical",
    "Ternary",
    "Optional",
    "Sequence",
    "Throw",
    "Return",
    "Goto",
    "Switch",
    "DoWhile",
    "While",
    "For",
    "ForOf",
    "ForIn",
    "Label",
    "Unreachable",
    "MaybeThrow",
    "Scope",
    "PrunedScope",
    "Try",
];
