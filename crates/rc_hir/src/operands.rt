//! Readers of the places of a value, a pattern or a terminal, in the order in which they are read.
//!
//! The arms are the lines of the tables in `specs/Operands.antt` and `specs/TerminalOperands.antt`. Kinds with equal
//! lines share an arm.

ghost use Rattle.std.specs.Prelude.{◌≡◌, [], ◌∷◌, Ok};
ghost use Rattle.std.specs.List.{flat_map};
ghost use Rattle.rc_hir.specs.Fault.{IsExpected};
ghost use Rattle.rc_hir.specs.Operands as table;
ghost use Rattle.rc_hir.specs.TerminalOperands.{terminal_operands};

use crate::environment::Environment;
use crate::fault::{Fault, TableName};
use crate::held_places::{gathered, push_each};
use crate::instruction::{
    InstructionValue, InstructionValue as Kind, JsxAttribute, JsxTag, LoweredFunction,
};
use crate::pattern::{ObjectPropertyOrSpread, Pattern};
use crate::place::Place;
use crate::places::Places;
use crate::terminal::Terminal;
use rc_names::List;
use std::alloc::Global;

/// Returns the operands of a value, in order.
///
/// Returns `BadName` if the value names a nested function that is outside the environment's table, and `NoMemory` when
/// out of memory.
pub fn each_instruction_value_operand(
    alloc: Global,
    value: &InstructionValue,
    env: &Environment,
) -> Result<List<Place>, Fault>
    ensures { IsExpected (table.operands env.now.functions value.now) result }
{
    Ok(borrowed_operands(alloc, value, env)?.into_list(alloc)?)
}

/// Returns the places that a value writes besides its row's target, in order. The only fault is `NoMemory`.
pub fn each_instruction_value_lvalue(
    alloc: Global,
    value: &InstructionValue,
) -> Result<List<Place>, Fault>
    ensures { IsExpected (Ok (table.value_targets value.now)) result }
{
    Ok(borrowed_lvalues(alloc, value)?.into_list(alloc)?)
}

/// Returns the places of a pattern, in order; computed keys aren't among them. The only fault is `NoMemory`.
pub fn each_pattern_operand(alloc: Global, pattern: &Pattern) -> Result<List<Place>, Fault>
    ensures { IsExpected (Ok (table.pattern_places pattern.now)) result }
{
    Ok(borrowed_pattern_operands(alloc, pattern)?.into_list(alloc)?)
}

/// Returns the operands of a terminal, in order. The only fault is `NoMemory`.
pub fn each_terminal_operand(alloc: Global, terminal: &Terminal) -> Result<List<Place>, Fault>
    ensures { IsExpected (Ok (terminal_operands terminal.now)) result }
{
    Ok(borrowed_terminal_operands(alloc, terminal)?.into_list(alloc)?)
}

/// Does as `each_instruction_value_operand`, and leaves the places where they are as far as it can.
pub fn borrowed_operands<'p>(
    alloc: Global,
    value: &'p InstructionValue,
    env: &'p Environment,
) -> Result<Places<'p>, Fault>
    ensures { IsExpected (table.operands env.now.functions value.now) result }
{
    match value {
        Kind::LoadLocal { place, .. } | Kind::LoadContext { place, .. } => Ok(Places::one(place)),
        Kind::DeclareLocal { .. } | Kind::DeclareContext { .. } => Ok(Places::none()),
        Kind::StoreLocal { value, .. } => Ok(Places::one(value)),
        Kind::StoreContext { lvalue, value, .. } => Ok(Places::two(lvalue.place, *value)),
        Kind::Destructure { value, .. } => Ok(Places::one(value)),
        Kind::Primitive { .. } | Kind::JSXText { .. } => Ok(Places::none()),
        Kind::BinaryExpression { left, right, .. } => Ok(Places::two(*left, *right)),
        Kind::UnaryExpression { value, .. } => Ok(Places::one(value)),
        Kind::TypeCastExpression { value, .. } => Ok(Places::one(value)),
        Kind::Await { value, .. } => Ok(Places::one(value)),
        Kind::NewExpression { callee, args, .. } => gathered(alloc, Places::one(callee), args),
        Kind::CallExpression { callee, args, .. } => gathered(alloc, Places::one(callee), args),
        Kind::MethodCall {
            receiver,
            property,
            args,
            ..
        } => gathered(alloc, Places::two(*receiver, *property), args),
        Kind::ObjectExpression { properties, .. } => gathered(alloc, Places::none(), properties),
        Kind::ObjectMethod { lowered_func, .. } => of_context(*lowered_func, env),
        Kind::FunctionExpression { lowered_func, .. } => of_context(*lowered_func, env),
        Kind::ArrayExpression { elements, .. } => gathered(alloc, Places::none(), elements),
        Kind::JsxExpression {
            tag,
            props,
            children,
            ..
        } => of_jsx(alloc, tag, props, children),
        Kind::JsxFragment { children, .. } => Ok(Places::borrowed(children)),
        Kind::RegExpLiteral { .. } | Kind::MetaProperty { .. } => Ok(Places::none()),
        Kind::PropertyLoad { object, .. } => Ok(Places::one(object)),
        Kind::PropertyDelete { object, .. } => Ok(Places::one(object)),
        Kind::PropertyStore { object, value, .. } => Ok(Places::two(*object, *value)),
        Kind::ComputedLoad {
            object,
            property,
            ..
        } => Ok(Places::two(*object, *property)),
        Kind::ComputedDelete {
            object,
            property,
            ..
        } => Ok(Places::two(*object, *property)),
        Kind::ComputedStore {
            object,
            property,
            value,
            ..
        } => Ok(Places::three(*object, *property, *value)),
        Kind::LoadGlobal { .. } => Ok(Places::none()),
        Kind::StoreGlobal { value, .. } => Ok(Places::one(value)),
        Kind::TaggedTemplateExpression { tag, .. } => Ok(Places::one(tag)),
        Kind::TemplateLiteral { subexprs, .. } => Ok(Places::borrowed(subexprs)),
        Kind::GetIterator { collection, .. } => Ok(Places::one(collection)),
        Kind::IteratorNext {
            iterator,
            collection,
            ..
        } => Ok(Places::two(*iterator, *collection)),
        Kind::NextPropertyOf { value, .. } => Ok(Places::one(value)),
        Kind::PrefixUpdate { value, .. } => Ok(Places::one(value)),
        Kind::PostfixUpdate { value, .. } => Ok(Places::one(value)),
        Kind::Debugger { .. } => Ok(Places::none()),
        Kind::StartMemoize { deps, .. } => Ok(Places::borrowed(deps)),
        Kind::FinishMemoize { decl, .. } => Ok(Places::one(decl)),
    }
}

/// Does as `each_instruction_value_lvalue`, and leaves the places where they are as far as it can.
pub fn borrowed_lvalues(alloc: Global, value: &InstructionValue) -> Result<Places<'_>, Fault>
    ensures { IsExpected (Ok (table.value_targets value.now)) result }
{
    match value {
        Kind::DeclareLocal { lvalue, .. }
        | Kind::DeclareContext { lvalue, .. }
        | Kind::StoreLocal { lvalue, .. }
        | Kind::StoreContext { lvalue, .. } => Ok(Places::one(&lvalue.place)),
        Kind::Destructure { lvalue, .. } => borrowed_pattern_operands(alloc, &lvalue.pattern),
        Kind::PrefixUpdate { lvalue, .. } | Kind::PostfixUpdate { lvalue, .. } => Ok(Places::one(
            lvalue,
        )),
        Kind::LoadLocal { .. }
        | Kind::LoadContext { .. }
        | Kind::Primitive { .. }
        | Kind::JSXText { .. }
        | Kind::BinaryExpression { .. }
        | Kind::UnaryExpression { .. }
        | Kind::TypeCastExpression { .. }
        | Kind::Await { .. }
        | Kind::NewExpression { .. }
        | Kind::CallExpression { .. }
        | Kind::MethodCall { .. }
        | Kind::ObjectExpression { .. }
        | Kind::ObjectMethod { .. }
        | Kind::FunctionExpression { .. }
        | Kind::ArrayExpression { .. }
        | Kind::JsxExpression { .. }
        | Kind::JsxFragment { .. }
        | Kind::RegExpLiteral { .. }
        | Kind::MetaProperty { .. }
        | Kind::PropertyLoad { .. }
        | Kind::PropertyDelete { .. }
        | Kind::PropertyStore { .. }
        | Kind::ComputedLoad { .. }
        | Kind::ComputedDelete { .. }
        | Kind::ComputedStore { .. }
        | Kind::LoadGlobal { .. }
        | Kind::StoreGlobal { .. }
        | Kind::TaggedTemplateExpression { .. }
        | Kind::TemplateLiteral { .. }
        | Kind::GetIterator { .. }
        | Kind::IteratorNext { .. }
        | Kind::NextPropertyOf { .. }
        | Kind::Debugger { .. }
        | Kind::StartMemoize { .. }
        | Kind::FinishMemoize { .. } => Ok(Places::none()),
    }
}

/// Does as `each_pattern_operand`, and leaves the places where they are as far as it can.
pub fn borrowed_pattern_operands(alloc: Global, pattern: &Pattern) -> Result<Places<'_>, Fault>
    ensures { IsExpected (Ok (table.pattern_places pattern.now)) result }
{
    match pattern {
        Pattern::Array { items } => gathered(alloc, Places::none(), items),
        Pattern::Object { properties } => of_object_pattern(alloc, properties),
    }
}

/// Does as `each_terminal_operand`, and leaves the places where they are as far as it can.
pub fn borrowed_terminal_operands(alloc: Global, terminal: &Terminal) -> Result<Places<'_>, Fault>
    ensures { IsExpected (Ok (terminal_operands terminal.now)) result }
{
    match terminal {
        Terminal::If { test, .. } | Terminal::Branch { test, .. } => Ok(Places::one(test)),
        Terminal::Logical { .. }
        | Terminal::Ternary { .. }
        | Terminal::Optional { .. }
        | Terminal::Sequence { .. } => Ok(Places::none()),
        Terminal::Throw { value, .. } | Terminal::Return { value, .. } => Ok(Places::one(value)),
        Terminal::Goto { .. } => Ok(Places::none()),
        Terminal::Switch { test, cases, .. } => gathered(alloc, Places::one(test), cases),
        Terminal::DoWhile { .. }
        | Terminal::While { .. }
        | Terminal::For { .. }
        | Terminal::ForOf { .. }
        | Terminal::ForIn { .. }
        | Terminal::Label { .. }
        | Terminal::Unreachable { .. }
        | Terminal::MaybeThrow { .. }
        | Terminal::Scope { .. }
        | Terminal::PrunedScope { .. } => Ok(Places::none()),
        Terminal::Try {
            handler_binding,
            ..
        } => match handler_binding {
            Some(place) => Ok(Places::one(place)),
            None => Ok(Places::none()),
        },
    }
}

fn of_tag(tag: &JsxTag) -> Places<'_>
    ensures { result ≡ table.tag_places tag.now }
{
    match tag {
        JsxTag::Place(place) => Places::one(place),
        JsxTag::Builtin(_) => Places::none(),
    }
}

fn of_jsx<'p>(
    alloc: Global,
    tag: &'p JsxTag,
    props: &List<JsxAttribute>,
    children: &'p Option<List<Place>>,
) -> Result<Places<'p>, Fault>
    ensures { IsExpected (Ok (table.jsx_places tag.now props.now children.now)) result }
{
    let mut places = of_tag(tag);
    push_each(alloc, &mut places, props)?;
    if let Some(children) = children {
        places.append(alloc, children)?;
    }
    Ok(places)
}

fn of_context(lowered: LoweredFunction, env: &Environment) -> Result<Places<'_>, Fault>
    ensures { IsExpected (table.context_places env.now.functions lowered) result }
{
    match env.functions.get(lowered.func) {
        Some(function) => Ok(Places::borrowed(&function.context)),
        None => Err(Fault::BadName {
            table: TableName::Functions,
            index: lowered.func.0,
        }),
    }
}

fn of_object_pattern<'p>(
    alloc: Global,
    properties: &List<ObjectPropertyOrSpread>,
) -> Result<Places<'p>, Fault>
    ensures { IsExpected (Ok (flat_map table.written_places properties.now)) result }
{
    let mut places = Places::none();
    for property in properties.as_slice() {
        places.push(alloc, written_place(property))?;
    }
    Ok(places)
}

fn written_place(property: &ObjectPropertyOrSpread) -> Place
    ensures { table.written_places property.now ≡ result ∷ [] }
{
    match property {
        ObjectPropertyOrSpread::Property(property) => property.place,
        ObjectPropertyOrSpread::Spread(spread) => spread.place,
    }
}
