//! Rows by what they do with names.

use rc_hir::{
    ArrayElement, ArrayPatternElement, Effect, InstructionKind, InstructionValue, JsxTag, LValue,
    LValuePattern, Pattern, Place, PropertyLiteral, SpreadPattern,
};
use rc_names::{EvaluationOrder, IdentifierId, List, Text};
use rc_tree::{ReactiveInstruction, ReactiveStatement, ReactiveValue};
use std::alloc::{AllocError, Global};

/// A row by the names that it reads and writes.
#[derive(Clone, Copy)]
pub enum Row {
    /// Awaits a name that is marked reactive, without a target.
    Reads(u32),
    /// A call whose target is marked reactive, as that of a hook is.
    Calls(u32),
    /// Awaits the first name for the second one.
    Awaits(u32, u32),
    /// Loads the first name for the second one.
    Loads(u32, u32),
    /// Stores the first name in the second one, for the third one.
    Stores(u32, u32, u32),
    /// Takes the first name apart into the second and, after three dots, the third one, for the fourth one.
    TakesApart(u32, u32, u32, u32),
    /// Loads a property of the first name for the second one.
    LoadsProperty(u32, u32),
    /// Loads the property of the first name that the second one tells, for the third one.
    LoadsComputed(u32, u32, u32),
    /// A new value of each kind that is new each time, for a name.
    Array(u32),
    Object(u32),
    Element(u32),
    Fragment(u32),
    New(u32),
}

/// A place that is read.
pub fn place(number: u32) -> Place {
    Place {
        identifier: IdentifierId::new(number),
        effect: Effect::Read,
        reactive: false,
        span: None,
    }
}

/// A place that is read and marked reactive.
pub fn marked(number: u32) -> Place {
    Place {
        identifier: IdentifierId::new(number),
        effect: Effect::Read,
        reactive: true,
        span: None,
    }
}

/// A row with this target and this value.
pub fn row_of(id: u32, lvalue: Option<Place>, value: InstructionValue) -> ReactiveInstruction {
    ReactiveInstruction {
        id: EvaluationOrder::new(id),
        lvalue,
        value: ReactiveValue::Instruction(value),
        span: None,
    }
}

/// The wait for a place.
fn wait(value: Place) -> InstructionValue {
    InstructionValue::Await { value, span: None }
}

/// The load of a place.
pub fn load(place: Place) -> InstructionValue {
    InstructionValue::LoadLocal { place, span: None }
}

/// An array of one place.
pub fn array(alloc: Global, element: Place) -> Result<InstructionValue, AllocError> {
    let elements = List::from_slice(alloc, &[ArrayElement::Place(element)])?;
    Ok(InstructionValue::ArrayExpression {
        elements,
        span: None,
    })
}

/// The store of a place in a name.
pub fn store(number: u32, value: Place) -> InstructionValue {
    InstructionValue::StoreLocal {
        lvalue: LValue {
            kind: InstructionKind::Const,
            place: place(number),
        },
        value,
        span: None,
    }
}

/// A pattern of two names with a hole between them, the second after three dots.
fn destructure(
    alloc: Global,
    value: u32,
    first: u32,
    rest: u32,
) -> Result<InstructionValue, AllocError> {
    let items = [
        ArrayPatternElement::Place(place(first)),
        ArrayPatternElement::Hole,
        ArrayPatternElement::Spread(SpreadPattern { place: place(rest) }),
    ];
    let items = List::from_slice(alloc, &items)?;
    Ok(InstructionValue::Destructure {
        lvalue: LValuePattern {
            kind: InstructionKind::Let,
            pattern: Pattern::Array { items },
        },
        value: place(value),
        span: None,
    })
}

/// The load of a property.
fn property(alloc: Global, object: u32) -> Result<InstructionValue, AllocError> {
    let name = Text::from_str(alloc, "a")?;
    Ok(InstructionValue::PropertyLoad {
        object: place(object),
        property: PropertyLiteral::String(name),
        span: None,
    })
}

/// An element of a tag, without attributes and children.
fn element(alloc: Global) -> Result<InstructionValue, AllocError> {
    let tag = JsxTag::Builtin(Text::from_str(alloc, "ul")?);
    Ok(InstructionValue::JsxExpression {
        tag,
        props: List::new(alloc),
        children: None,
        span: None,
    })
}

/// The instruction of a row.
fn instruction(alloc: Global, row: Row) -> Result<InstructionValue, AllocError> {
    match row {
        Row::Reads(name) => Ok(wait(marked(name))),
        Row::Calls(_) => Ok(InstructionValue::CallExpression {
            callee: place(9),
            args: List::new(alloc),
            span: None,
        }),
        Row::Awaits(from, _) => Ok(wait(place(from))),
        Row::Loads(from, _) => Ok(load(place(from))),
        Row::Stores(from, to, _) => Ok(store(to, place(from))),
        Row::TakesApart(from, first, rest, _) => destructure(alloc, from, first, rest),
        Row::LoadsProperty(from, _) => property(alloc, from),
        Row::LoadsComputed(from, key, _) => Ok(InstructionValue::ComputedLoad {
            object: place(from),
            property: place(key),
            span: None,
        }),
        Row::Array(_) => array(alloc, place(9)),
        Row::Object(_) => Ok(InstructionValue::ObjectExpression {
            properties: List::new(alloc),
            span: None,
        }),
        Row::Element(_) => element(alloc),
        Row::Fragment(_) => Ok(InstructionValue::JsxFragment {
            children: List::new(alloc),
            span: None,
        }),
        Row::New(_) => Ok(InstructionValue::NewExpression {
            callee: place(9),
            args: List::new(alloc),
            span: None,
        }),
    }
}

/// The target of a row.
fn target(row: Row) -> Option<Place> {
    match row {
        Row::Reads(_) => None,
        Row::Calls(name) => Some(marked(name)),
        Row::Awaits(_, name)
        | Row::Loads(_, name)
        | Row::Stores(_, _, name)
        | Row::TakesApart(_, _, _, name)
        | Row::LoadsProperty(_, name)
        | Row::LoadsComputed(_, _, name)
        | Row::Array(name)
        | Row::Object(name)
        | Row::Element(name)
        | Row::Fragment(name)
        | Row::New(name) => Some(place(name)),
    }
}

/// The rows.
pub fn rows(alloc: Global, rows: &[Row]) -> Result<List<ReactiveInstruction>, AllocError> {
    let mut list = List::new(alloc);
    for entry in rows {
        let value = instruction(alloc, *entry)?;
        list.push(row_of(1, target(*entry), value))?;
    }
    Ok(list)
}

/// The rows as statements.
pub fn statements(alloc: Global, rows: &[Row]) -> Result<List<ReactiveStatement>, AllocError> {
    let mut list = List::new(alloc);
    for entry in rows {
        let value = instruction(alloc, *entry)?;
        let row = row_of(1, target(*entry), value);
        list.push(ReactiveStatement::Instruction(row))?;
    }
    Ok(list)
}
