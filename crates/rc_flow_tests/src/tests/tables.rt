//! The environment of the tests: identifiers of each type that a rule asks for, and scopes.

use rc_hir::{
    DeclarationEntry, Environment, HirType, Identifier, MutableRange, ReactiveScope,
    ReactiveScopeDeclaration, ReactiveScopeDependency, Shape,
};
use rc_names::{DeclarationId, EvaluationOrder, IdentifierId, List, ScopeId, TypeId};
use std::alloc::{AllocError, Global};

/// What a scope depends on, declares, under a key each, and reassigns.
#[derive(Clone, Copy)]
pub struct Known<'a> {
    pub dependencies: &'a [u32],
    pub declarations: &'a [(u32, u32)],
    pub reassignments: &'a [u32],
}

/// A name of a primitive value.
pub const PRIMITIVE: u32 = 6;

/// A name of a ref, which is of a stable type.
pub const REF: u32 = 7;

/// A name of a setter of state, which is of a stable type and no ref.
pub const SETTER: u32 = 8;

/// A name that has one declaration with the name 0.
pub const ZERO_AGAIN: u32 = 9;

/// The type of a name: the number of an entry of the table of types.
fn type_of(name: u32) -> TypeId {
    match name {
        PRIMITIVE => TypeId::new(1),
        REF => TypeId::new(2),
        SETTER => TypeId::new(3),
        _ => TypeId::new(0),
    }
}

/// An identifier of this type, with the declaration of that number.
fn identifier(declaration: u32, type_: TypeId) -> Identifier {
    Identifier {
        declaration_id: DeclarationId::new(declaration),
        name: None,
        scope: None,
        type_,
        span: None,
    }
}

/// A dependency on a name itself.
fn dependency(alloc: Global, name: u32) -> ReactiveScopeDependency {
    ReactiveScopeDependency {
        identifier: IdentifierId::new(name),
        reactive: false,
        path: List::new(alloc),
        span: None,
    }
}

/// The entries of the names on which a scope depends.
fn dependencies(alloc: Global, names: &[u32]) -> Result<List<ReactiveScopeDependency>, AllocError> {
    let mut list = List::new(alloc);
    for name in names {
        list.push(dependency(alloc, *name))?;
    }
    Ok(list)
}

/// The declarations of these keys and identifiers.
fn declarations(
    alloc: Global,
    entries: &[(u32, u32)],
) -> Result<List<DeclarationEntry>, AllocError> {
    let mut list = List::new(alloc);
    for (key, identifier) in entries {
        list.push(DeclarationEntry {
            key: IdentifierId::new(*key),
            value: ReactiveScopeDeclaration {
                identifier: IdentifierId::new(*identifier),
                scope: ScopeId::new(0),
            },
        })?;
    }
    Ok(list)
}

/// The identifiers of these numbers.
fn names(alloc: Global, numbers: &[u32]) -> Result<List<IdentifierId>, AllocError> {
    let mut list = List::new(alloc);
    for number in numbers {
        list.push(IdentifierId::new(*number))?;
    }
    Ok(list)
}

/// A scope.
fn scope(alloc: Global, known: Known) -> Result<ReactiveScope, AllocError> {
    Ok(ReactiveScope {
        range: MutableRange {
            start: EvaluationOrder::new(1),
            end: EvaluationOrder::new(9),
        },
        dependencies: dependencies(alloc, known.dependencies)?,
        declarations: declarations(alloc, known.declarations)?,
        reassignments: names(alloc, known.reassignments)?,
        early_return_value: None,
        merged: List::new(alloc),
    })
}

/// Adds the types.
fn add_types(env: &mut Environment) -> Result<(), AllocError> {
    let types = [
        HirType::Other,
        HirType::Primitive,
        HirType::Object {
            shape: Some(Shape::UseRef),
        },
        HirType::Function {
            shape: Some(Shape::SetState),
        },
    ];
    for type_ in types {
        if !env.types.is_full() {
            env.types.push(type_)?;
        }
    }
    Ok(())
}

/// Adds ten identifiers; the last one has the declaration of the first.
fn add_identifiers(env: &mut Environment) -> Result<(), AllocError> {
    for name in 0u32..10 {
        let declaration = if name == ZERO_AGAIN { 0 } else { name };
        if !env.identifiers.is_full() {
            env.identifiers
                .push(identifier(declaration, type_of(name)))?;
        }
    }
    Ok(())
}

/// Adds the scopes.
fn add_scopes(alloc: Global, env: &mut Environment, all: &[Known]) -> Result<(), AllocError> {
    for known in all {
        let scope = scope(alloc, *known)?;
        if !env.scopes.is_full() {
            env.scopes.push(scope)?;
        }
    }
    Ok(())
}

/// The environment of ten identifiers and these scopes.
pub fn environment(alloc: Global, scopes: &[Known]) -> Result<Environment, AllocError> {
    let mut env = Environment::empty(alloc);
    add_types(&mut env)?;
    add_identifiers(&mut env)?;
    add_scopes(alloc, &mut env, scopes)?;
    Ok(env)
}

/// Whether the scope of that number depends on these names, in this order, and on no others.
pub fn depends_on(env: &Environment, number: u32, names: &[u32]) -> bool {
    let Some(scope) = env.scopes.get(ScopeId::new(number)) else {
        return false;
    };
    let dependencies = scope.dependencies.as_slice();
    if dependencies.len() != names.len() {
        return false;
    }
    dependencies
        .iter()
        .zip(names)
        .all(|(dependency, name)| dependency.identifier.0 == *name)
}
