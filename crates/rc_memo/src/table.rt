//! The memo table: what each kind of instruction asks of its places.
//!
//! The kinds belong to twelve lines, and the rest is said of the lines.

ghost use Rattle.std.specs.Prelude.{◌≡◌, ◌∷◌, ◌++◌, [], OnOk, if◌then◌else◌};
ghost use Rattle.std.specs.List.{flat_map};
ghost use Rattle.rc_memo.specs.Table as spec;
ghost use Rattle.rc_memo.specs.declared.level.MemoizationLevel.TheVariants as levels;

use crate::MemoizationLevel;
use rc_hir::{
    ArrayPatternElement, Environment, InstructionValue, InstructionValue as Kind,
    ObjectPropertyOrSpread, Pattern, Place, Places,
};
use rc_names::List;
use std::alloc::AllocError;
use std::slice;

/// A line of the memo table, with the places that it names.
#[derive(Clone, Copy)]
pub enum MemoRule {
    /// An element of JSX.
    Element,
    /// A value that is cheap to compute, or that isn't read.
    Cheap,
    /// A value that is one of its operands, or a part of one.
    Follows,
    /// A declaration of a name that functions share.
    DeclaresContext { lvalue: Place },
    /// A declaration of a name.
    Declares { lvalue: Place },
    /// A name or an object takes a value.
    Stores { lvalue: Place, value: Place },
    /// A name that functions share takes a value.
    StoresContext { lvalue: Place, value: Place },
    /// A value leaves the function by a global name.
    StoresGlobal { value: Place },
    /// A pattern takes a value apart.
    Destructures { value: Place },
    /// A property is read.
    Reads { object: Place },
    /// A call.
    Calls { callee: Place },
    /// A new value, which the operands may be part of.
    Creates,
}

/// Returns the line that a kind belongs to.
pub fn memo_rule(value: &InstructionValue) -> MemoRule
    ensures { result ≡ spec.memo_rule value.now }
{
    match value {
        Kind::JsxExpression { .. } | Kind::JsxFragment { .. } => MemoRule::Element,
        Kind::NextPropertyOf { .. }
        | Kind::StartMemoize { .. }
        | Kind::FinishMemoize { .. }
        | Kind::Debugger { .. }
        | Kind::ComputedDelete { .. }
        | Kind::PropertyDelete { .. }
        | Kind::LoadGlobal { .. }
        | Kind::MetaProperty { .. }
        | Kind::TemplateLiteral { .. }
        | Kind::Primitive { .. }
        | Kind::JSXText { .. }
        | Kind::BinaryExpression { .. }
        | Kind::UnaryExpression { .. } => MemoRule::Cheap,
        Kind::Await { .. }
        | Kind::TypeCastExpression { .. }
        | Kind::IteratorNext { .. }
        | Kind::GetIterator { .. }
        | Kind::LoadLocal { .. }
        | Kind::LoadContext { .. } => MemoRule::Follows,
        Kind::DeclareContext { lvalue, .. } => MemoRule::DeclaresContext {
            lvalue: lvalue.place,
        },
        Kind::DeclareLocal { lvalue, .. } => MemoRule::Declares {
            lvalue: lvalue.place,
        },
        Kind::PrefixUpdate { lvalue, value, .. } => MemoRule::Stores {
            lvalue: *lvalue,
            value: *value,
        },
        Kind::PostfixUpdate { lvalue, value, .. } => MemoRule::Stores {
            lvalue: *lvalue,
            value: *value,
        },
        Kind::StoreLocal { lvalue, value, .. } => MemoRule::Stores {
            lvalue: lvalue.place,
            value: *value,
        },
        Kind::StoreContext { lvalue, value, .. } => {
            MemoRule::StoresContext {
                lvalue: lvalue.place,
                value: *value,
            }
        }
        Kind::StoreGlobal { value, .. } => MemoRule::StoresGlobal { value: *value },
        Kind::Destructure { value, .. } => MemoRule::Destructures { value: *value },
        Kind::ComputedLoad { object, .. } => MemoRule::Reads { object: *object },
        Kind::PropertyLoad { object, .. } => MemoRule::Reads { object: *object },
        Kind::ComputedStore { object, value, .. } => MemoRule::Stores {
            lvalue: *object,
            value: *value,
        },
        Kind::TaggedTemplateExpression { tag, .. } => MemoRule::Calls { callee: *tag },
        Kind::CallExpression { callee, .. } => MemoRule::Calls { callee: *callee },
        Kind::MethodCall { property, .. } => MemoRule::Calls { callee: *property },
        Kind::RegExpLiteral { .. }
        | Kind::ArrayExpression { .. }
        | Kind::NewExpression { .. }
        | Kind::ObjectExpression { .. }
        | Kind::PropertyStore { .. }
        | Kind::ObjectMethod { .. }
        | Kind::FunctionExpression { .. } => MemoRule::Creates,
    }
}

/// A place with the level that a row gives it.
#[derive(Clone, Copy)]
pub struct LevelGiven {
    pub place: Place,
    pub level: MemoizationLevel,
}

/// Adds a place with its level.
fn push_level(
    levels: &mut List<LevelGiven>,
    place: Place,
    level: MemoizationLevel,
) -> Result<(), AllocError>
    ensures { OnOk result (levels.new ≡ levels.old ++ spec.gives place level ∷ []) }
{
    levels.push(LevelGiven { place, level })
}

/// Adds the level of the row's own target, where there is one. Fails only when out of memory.
pub fn push_own(
    levels: &mut List<LevelGiven>,
    target: Option<Place>,
    level: MemoizationLevel,
) -> Result<(), AllocError>
    ensures { OnOk result (levels.new ≡ levels.old ++ spec.own target level) }
{
    match target {
        Some(place) => push_level(levels, place, level),
        None => Ok(()),
    }
}

/// Adds the level of a place, and then that of the row's own target.
fn push_both(
    levels: &mut List<LevelGiven>,
    place: Place,
    level: MemoizationLevel,
    target: Option<Place>,
    own: MemoizationLevel,
) -> Result<(), AllocError>
    ensures { OnOk result (levels.new ≡ levels.old ++ spec.gives place level ∷ spec.own target own) }
{
    push_level(levels, place, level)?;
    push_own(levels, target, own)
}

/// Adds the level of an operand, if the row may change it.
fn push_if_mutable(levels: &mut List<LevelGiven>, operand: Place) -> Result<(), AllocError>
    ensures { OnOk result (levels.new ≡ levels.old ++ spec.if_mutable operand) }
{
    if operand.effect.is_mutable() {
        push_level(levels, operand, MemoizationLevel::Memoized)
    } else {
        Ok(())
    }
}

/// Adds the level of each operand that the row may change.
fn push_mutable(levels: &mut List<LevelGiven>, operands: &[Place]) -> Result<(), AllocError>
    ensures { OnOk result (levels.new ≡ levels.old ++ flat_map spec.if_mutable operands.now) }
{
    for operand in operands {
        push_if_mutable(levels, *operand)?;
    }
    Ok(())
}

fn push_item(levels: &mut List<LevelGiven>, item: &ArrayPatternElement) -> Result<(), AllocError>
    ensures { OnOk result (levels.new ≡ levels.old ++ spec.item_levels item.now) }
{
    match item {
        ArrayPatternElement::Place(place) => push_level(
            levels,
            *place,
            MemoizationLevel::Conditional,
        ),
        ArrayPatternElement::Spread(spread) => push_level(
            levels,
            spread.place,
            MemoizationLevel::Memoized,
        ),
        ArrayPatternElement::Hole => Ok(()),
    }
}

fn push_entry(
    levels: &mut List<LevelGiven>,
    entry: &ObjectPropertyOrSpread,
) -> Result<(), AllocError>
    ensures { OnOk result (levels.new ≡ levels.old ++ spec.entry_levels entry.now) }
{
    match entry {
        ObjectPropertyOrSpread::Property(property) => push_level(
            levels,
            property.place,
            MemoizationLevel::Conditional,
        ),
        ObjectPropertyOrSpread::Spread(spread) => push_level(
            levels,
            spread.place,
            MemoizationLevel::Memoized,
        ),
    }
}

fn push_items(
    levels: &mut List<LevelGiven>,
    items: &List<ArrayPatternElement>,
) -> Result<(), AllocError>
    ensures { OnOk result (levels.new ≡ levels.old ++ flat_map spec.item_levels items.now) }
{
    for item in items.as_slice() {
        push_item(levels, item)?;
    }
    Ok(())
}

fn push_entries(
    levels: &mut List<LevelGiven>,
    entries: &List<ObjectPropertyOrSpread>,
) -> Result<(), AllocError>
    ensures { OnOk result (levels.new ≡ levels.old ++ flat_map spec.entry_levels entries.now) }
{
    for entry in entries.as_slice() {
        push_entry(levels, entry)?;
    }
    Ok(())
}

fn push_pattern(levels: &mut List<LevelGiven>, pattern: &Pattern) -> Result<(), AllocError>
    ensures { OnOk result (levels.new ≡ levels.old ++ spec.pattern_levels pattern.now) }
{
    match pattern {
        Pattern::Array { items } => push_items(levels, items),
        Pattern::Object { properties } => push_entries(levels, properties),
    }
}

/// Adds the levels of the places of the instruction's pattern, if it has one.
fn push_written(levels: &mut List<LevelGiven>, value: &InstructionValue) -> Result<(), AllocError>
    ensures { OnOk result (levels.new ≡ levels.old ++ spec.written_levels value.now) }
{
    match value {
        Kind::Destructure { lvalue, .. } => push_pattern(levels, &lvalue.pattern),
        _ => Ok(()),
    }
}

/// Adds the levels that a line gives. Fails only when out of memory.
#[tactic(auto, unfolding(crate::specs::Table::levels_of))]
pub fn push_levels(
    levels: &mut List<LevelGiven>,
    env: &Environment,
    value: &InstructionValue,
    line: MemoRule,
    target: Option<Place>,
    operands: &Places<'_>,
) -> Result<(), AllocError>
    ensures { OnOk result (levels.new ≡ levels.old
        ++ spec.levels_of env.now line target operands.now (spec.written_levels value.now)) }
{
    match line {
        MemoRule::Element => push_own(levels, target, element_level(env)),
        MemoRule::Cheap => push_own(levels, target, cheap_level(env)),
        MemoRule::Follows => push_own(levels, target, MemoizationLevel::Conditional),
        MemoRule::DeclaresContext { lvalue } => push_both(
            levels,
            lvalue,
            MemoizationLevel::Memoized,
            target,
            MemoizationLevel::Unmemoized,
        ),
        MemoRule::Declares { lvalue } => push_both(
            levels,
            lvalue,
            MemoizationLevel::Unmemoized,
            target,
            MemoizationLevel::Unmemoized,
        ),
        MemoRule::Stores { lvalue, .. } => push_both(
            levels,
            lvalue,
            MemoizationLevel::Conditional,
            target,
            MemoizationLevel::Conditional,
        ),
        MemoRule::StoresContext { lvalue, .. } => push_both(
            levels,
            lvalue,
            MemoizationLevel::Memoized,
            target,
            MemoizationLevel::Conditional,
        ),
        MemoRule::StoresGlobal { .. } => push_own(levels, target, MemoizationLevel::Unmemoized),
        MemoRule::Destructures { .. } => {
            push_own(levels, target, MemoizationLevel::Conditional)?;
            push_written(levels, value)
        }
        MemoRule::Reads { .. } => push_own(levels, target, MemoizationLevel::Conditional),
        MemoRule::Calls { callee } => {
            push_own(levels, target, MemoizationLevel::Memoized)?;
            if env.has_no_alias_signature(callee.identifier) {
                return Ok(());
            }
            push_mutable(levels, operands.as_slice())
        }
        MemoRule::Creates => {
            push_mutable(levels, operands.as_slice())?;
            push_own(levels, target, MemoizationLevel::Memoized)
        }
    }
}

/// Returns the level of an element of JSX.
fn element_level(env: &Environment) -> MemoizationLevel
    ensures { result ≡ (if env.now.config.enable_forest then levels.Unmemoized else levels.Memoized) }
{
    if env.config.enable_forest {
        MemoizationLevel::Unmemoized
    } else {
        MemoizationLevel::Memoized
    }
}

/// Returns the level of a cheap value.
fn cheap_level(env: &Environment) -> MemoizationLevel
    ensures { result ≡ (if spec.memoizes_cheap env.now.config then levels.Conditional else levels.Never) }
{
    if memoizes_cheap(env) {
        MemoizationLevel::Conditional
    } else {
        MemoizationLevel::Never
    }
}

/// Returns whether cheap values are memoized too.
fn memoizes_cheap(env: &Environment) -> bool
    ensures { result ≡ spec.memoizes_cheap env.now.config }
{
    env.config.enable_forest || env.config.enable_preserve_existing_memoization_guarantees
}

/// Returns the operands of an instruction that are recorded, from all of them.
#[tactic(auto, unfolding(crate::specs::Table::recorded_of))]
pub fn recorded<'p>(env: &Environment, line: &'p MemoRule, operands: &'p Places<'_>) -> &'p [Place]
    ensures { result.now ≡ spec.recorded_of env.now line.now operands.now }
{
    match line {
        MemoRule::Element | MemoRule::Follows | MemoRule::Creates => operands.as_slice(),
        MemoRule::Cheap => if memoizes_cheap(env) {
            operands.as_slice()
        } else {
            &[]
        },
        MemoRule::DeclaresContext { .. } | MemoRule::Declares { .. } => &[],
        MemoRule::Stores { value, .. } => slice::from_ref(value),
        MemoRule::StoresContext { value, .. } => slice::from_ref(value),
        MemoRule::StoresGlobal { value } => slice::from_ref(value),
        MemoRule::Destructures { value } => slice::from_ref(value),
        MemoRule::Reads { object } => slice::from_ref(object),
        MemoRule::Calls { callee } => if env.has_no_alias_signature(callee.identifier) {
            &[]
        } else {
            operands.as_slice()
        },
    }
}
