//! Small trees of scope blocks, and the environment with their scopes.

use rc_hir::{
    DeclarationEntry, Effect, Environment, InstructionValue, LoweredFunction, MutableRange, Place,
    ReactiveScope, ReactiveScopeDeclaration,
};
use rc_names::{EvaluationOrder, FunctionId, IdentifierId, List, ScopeId};
use rc_tree::{
    ReactiveBlock, ReactiveFunction, ReactiveInstruction, ReactiveScopeBlock, ReactiveStatement,
    ReactiveValue,
};
use std::alloc::{AllocError, Global};

/// Where the range of a scope ends, and the names that it declares. It depends on nothing.
#[derive(Clone, Copy)]
pub struct Made<'a> {
    pub end: u32,
    pub declares: &'a [u32],
}

/// The declarations of names by a scope.
fn declarations(alloc: Global, names: &[u32]) -> Result<List<DeclarationEntry>, AllocError> {
    let mut list = List::new(alloc);
    for name in names {
        list.push(DeclarationEntry {
            key: IdentifierId::new(*name),
            value: ReactiveScopeDeclaration {
                identifier: IdentifierId::new(*name),
                scope: ScopeId::new(0),
            },
        })?;
    }
    Ok(list)
}

fn scope(alloc: Global, made: Made) -> Result<ReactiveScope, AllocError> {
    Ok(ReactiveScope {
        range: MutableRange {
            start: EvaluationOrder::new(1),
            end: EvaluationOrder::new(made.end),
        },
        dependencies: List::new(alloc),
        declarations: declarations(alloc, made.declares)?,
        reassignments: List::new(alloc),
        early_return_value: None,
        merged: List::new(alloc),
    })
}

/// The environment with these scopes alone.
pub fn environment(alloc: Global, made: &[Made]) -> Result<Environment, AllocError> {
    let mut env = Environment::empty(alloc);
    for made in made {
        if !env.scopes.is_full() {
            env.scopes.push(scope(alloc, *made)?)?;
        }
    }
    Ok(env)
}

fn row(id: u32, value: InstructionValue) -> ReactiveStatement {
    ReactiveStatement::Instruction(ReactiveInstruction {
        id: EvaluationOrder::new(id),
        lvalue: None,
        value: ReactiveValue::Instruction(value),
        span: None,
    })
}

/// A row of that id that loads a name.
pub fn load(id: u32, name: u32) -> ReactiveStatement {
    let place = Place {
        identifier: IdentifierId::new(name),
        effect: Effect::Read,
        reactive: false,
        span: None,
    };
    row(id, InstructionValue::LoadLocal { place, span: None })
}

/// A row that makes the nested function of that number.
pub fn nested_function(function: u32) -> ReactiveStatement {
    let lowered_func = LoweredFunction {
        func: FunctionId::new(function),
    };
    let value = InstructionValue::FunctionExpression {
        name: None,
        lowered_func,
        span: None,
    };
    row(1, value)
}

/// The block of a scope around statements.
pub fn scope_around(number: u32, statements: List<ReactiveStatement>) -> ReactiveStatement {
    ReactiveStatement::Scope(ReactiveScopeBlock {
        scope: ScopeId::new(number),
        instructions: ReactiveBlock { statements },
    })
}

/// A list of one statement.
pub fn only(
    alloc: Global,
    statement: ReactiveStatement,
) -> Result<List<ReactiveStatement>, AllocError> {
    let mut statements = List::new(alloc);
    statements.push(statement)?;
    Ok(statements)
}

/// A function with that body and nothing else.
pub fn function(alloc: Global, statements: List<ReactiveStatement>) -> ReactiveFunction {
    ReactiveFunction {
        span: None,
        id: None,
        name_hint: None,
        params: List::new(alloc),
        generator: false,
        is_async: false,
        body: ReactiveBlock { statements },
        directives: List::new(alloc),
    }
}
