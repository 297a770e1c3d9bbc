//! What a part of a document is asked to be, and whether it is read as that.

ghost use Rattle.std.specs.Prelude.{◌≡◌, IfOk, is_some};
ghost use Rattle.serde_json.specs.View.{view};
ghost use Rattle.rc_misread.specs.Forms.{is_list, is_read, is_read_by, may_be_null};

use rc_doc::{Doc, Read, Refusal};
use rc_hir::{
    ArrayElement, ArrayPatternElement, BasicBlock, Case, Config, DeclarationEntry,
    DependencyPathEntry, Environment, GotoVariant, Hir, HirFunction, HirType, Identifier,
    IdentifierName, Instruction, InstructionKind, InstructionValue, JsxAttribute, JsxTag, LValue,
    LValuePattern, LogicalOperator, LoweredFunction, MutableRange, NonLocalBinding, ObjectProperty,
    ObjectPropertyKey, ObjectPropertyOrSpread, ParamPattern, Pattern, Place, PlaceOrSpread,
    PrimitiveValue, PropertyLiteral, ReactiveScope, ReactiveScopeDeclaration,
    ReactiveScopeDependency, ReactiveScopeEarlyReturn, Shape, ShapeRow, SpreadPattern, Terminal,
};
use rc_names::{BlockId, Keyed, List, Span, Text};
use serde_json::Value;
use std::alloc::{AllocError, Global};

/// The types of the parts of a document.
#[derive(Clone, Copy, Debug, PartialEq, Eq)]
pub enum Form {
    Number,
    Flag,
    Text,
    Span,
    Place,
    Spread,
    Param,
    Argument,
    InstructionKind,
    LValue,
    PropertyLiteral,
    PropertyKey,
    ObjectProperty,
    Property,
    PatternElement,
    Element,
    Pattern,
    LValuePattern,
    PrimitiveValue,
    Binding,
    JsxTag,
    JsxAttribute,
    LoweredFunction,
    InstructionValue,
    LogicalOperator,
    GotoVariant,
    Case,
    Terminal,
    Instruction,
    Block,
    Blocks,
    Graph,
    Function,
    IdentifierName,
    Identifier,
    Shape,
    Type,
    ShapeRow,
    Range,
    PathEntry,
    Dependency,
    Declaration,
    DeclarationEntry,
    EarlyReturn,
    Scope,
    Config,
    Environment,
    Document,
}

/// Whether an object must have a field.
#[derive(Clone, Copy, Debug, PartialEq, Eq)]
pub(crate) enum Need {
    /// It is there.
    Required,
    /// It may be left out or null.
    Optional,
    /// A list, which may be left out.
    List,
    /// A list, which may be left out or null.
    OptionalList,
    /// A flag, which may be left out.
    Flag,
}

impl Need {
    /// Returns whether the field is a list.
    pub(crate) fn is_list(self) -> bool
        ensures { result ≡ is_list self }
    {
        match self {
            Need::List | Need::OptionalList => true,
            Need::Required | Need::Optional | Need::Flag => false,
        }
    }

    /// Returns whether the field may be null.
    pub(crate) fn may_be_null(self) -> bool
        ensures { result ≡ may_be_null self }
    {
        match self {
            Need::Optional | Need::OptionalList => true,
            Need::Required | Need::List | Need::Flag => false,
        }
    }
}

/// A field: its name, whether it must be there, and its form or that of its items.
#[derive(Clone, Copy, Debug, PartialEq, Eq)]
pub(crate) struct Field(pub &'static str, pub Need, pub Form);

/// What is asked of a part: to be one value of a form, or a list of them.
#[derive(Clone, Copy, Debug, PartialEq, Eq)]
pub struct Asked {
    pub form: Form,
    pub is_list: bool,
}

/// Returns whether a value is read as it is asked. Fails only when out of memory.
pub(crate) fn is_read(alloc: Global, asked: Asked, value: &Value) -> Result<bool, AllocError>
    ensures { IfOk result (λ is. is ≡ is_read asked (view value.now)) }
{
    match asked.form {
        Form::Number => is_read_as::<u32>(alloc, asked.is_list, value),
        Form::Flag => is_read_as::<bool>(alloc, asked.is_list, value),
        Form::Text => is_read_as::<Text>(alloc, asked.is_list, value),
        Form::Span => is_read_as::<Span>(alloc, asked.is_list, value),
        Form::Place => is_read_as::<Place>(alloc, asked.is_list, value),
        Form::Spread => is_read_as::<SpreadPattern>(alloc, asked.is_list, value),
        Form::Param => is_read_as::<ParamPattern>(alloc, asked.is_list, value),
        Form::Argument => is_read_as::<PlaceOrSpread>(alloc, asked.is_list, value),
        Form::InstructionKind => is_read_as::<InstructionKind>(alloc, asked.is_list, value),
        Form::LValue => is_read_as::<LValue>(alloc, asked.is_list, value),
        Form::PropertyLiteral => is_read_as::<PropertyLiteral>(alloc, asked.is_list, value),
        Form::PropertyKey => is_read_as::<ObjectPropertyKey>(alloc, asked.is_list, value),
        Form::ObjectProperty => is_read_as::<ObjectProperty>(alloc, asked.is_list, value),
        Form::Property => is_read_as::<ObjectPropertyOrSpread>(alloc, asked.is_list, value),
        Form::PatternElement => is_read_as::<ArrayPatternElement>(alloc, asked.is_list, value),
        Form::Element => is_read_as::<ArrayElement>(alloc, asked.is_list, value),
        Form::Pattern => is_read_as::<Pattern>(alloc, asked.is_list, value),
        Form::LValuePattern => is_read_as::<LValuePattern>(alloc, asked.is_list, value),
        Form::PrimitiveValue => is_read_as::<PrimitiveValue>(alloc, asked.is_list, value),
        Form::Binding => is_read_as::<NonLocalBinding>(alloc, asked.is_list, value),
        Form::JsxTag => is_read_as::<JsxTag>(alloc, asked.is_list, value),
        Form::JsxAttribute => is_read_as::<JsxAttribute>(alloc, asked.is_list, value),
        Form::LoweredFunction => is_read_as::<LoweredFunction>(alloc, asked.is_list, value),
        Form::InstructionValue => is_read_as::<InstructionValue>(alloc, asked.is_list, value),
        Form::LogicalOperator => is_read_as::<LogicalOperator>(alloc, asked.is_list, value),
        Form::GotoVariant => is_read_as::<GotoVariant>(alloc, asked.is_list, value),
        Form::Case => is_read_as::<Case>(alloc, asked.is_list, value),
        Form::Terminal => is_read_as::<Terminal>(alloc, asked.is_list, value),
        Form::Instruction => is_read_as::<Instruction>(alloc, asked.is_list, value),
        Form::Block => is_read_as::<BasicBlock>(alloc, asked.is_list, value),
        Form::Blocks => is_read_as::<Keyed<BlockId, BasicBlock>>(alloc, asked.is_list, value),
        Form::Graph => is_read_as::<Hir>(alloc, asked.is_list, value),
        Form::Function => is_read_as::<HirFunction>(alloc, asked.is_list, value),
        Form::IdentifierName => is_read_as::<IdentifierName>(alloc, asked.is_list, value),
        Form::Identifier => is_read_as::<Identifier>(alloc, asked.is_list, value),
        Form::Shape => is_read_as::<Shape>(alloc, asked.is_list, value),
        Form::Type => is_read_as::<HirType>(alloc, asked.is_list, value),
        Form::ShapeRow => is_read_as::<ShapeRow>(alloc, asked.is_list, value),
        Form::Range => is_read_as::<MutableRange>(alloc, asked.is_list, value),
        Form::PathEntry => is_read_as::<DependencyPathEntry>(alloc, asked.is_list, value),
        Form::Dependency => is_read_as::<ReactiveScopeDependency>(alloc, asked.is_list, value),
        Form::Declaration => is_read_as::<ReactiveScopeDeclaration>(alloc, asked.is_list, value),
        Form::DeclarationEntry => is_read_as::<DeclarationEntry>(alloc, asked.is_list, value),
        Form::EarlyReturn => is_read_as::<ReactiveScopeEarlyReturn>(alloc, asked.is_list, value),
        Form::Scope => is_read_as::<ReactiveScope>(alloc, asked.is_list, value),
        Form::Config => is_read_as::<Config>(alloc, asked.is_list, value),
        Form::Environment => is_read_as::<Environment>(alloc, asked.is_list, value),
        Form::Document => is_read_as::<Doc>(alloc, asked.is_list, value),
    }
}

/// Whether a value is read as one value of a type, or as a list of them.
fn is_read_as<T: Read + Drop>(
    alloc: Global,
    is_list: bool,
    value: &Value,
) -> Result<bool, AllocError>
    ensures { IfOk result (λ is. is ≡ is_read_by T.reads is_list (view value.now)) }
{
    if is_list {
        succeeds::<List<T>>(alloc, value)
    } else {
        succeeds::<T>(alloc, value)
    }
}

/// Whether a value is read as one of a type.
fn succeeds<T: Read + Drop>(alloc: Global, value: &Value) -> Result<bool, AllocError>
    ensures { IfOk result (λ is. is ≡ is_some (T.reads (view value.now))) }
{
    match T::read(alloc, value) {
        Ok(_) => Ok(true),
        Err(Refusal::NotDoc) => Ok(false),
        Err(Refusal::Memory) => Err(AllocError),
    }
}
