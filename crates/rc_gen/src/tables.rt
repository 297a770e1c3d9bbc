//! The tables of the environment.

ghost use Rattle.std.specs.Prelude.{◌≡◌, ◌∷◌, [], ◌++◌, ◌*◌, ◌+◌, ◌≤◌, ◌<◌, ◌^◌, IfOk, OnOk, length, map};
ghost use Rattle.rc_names.specs.Numbers.{to_id};
ghost use Rattle.rc_gen.specs.Units as spec;
ghost use Rattle.rc_gen.specs.Generated as whole;

use crate::kind::Kind;
use rc_hir::{
    Config, DeclarationEntry, Environment, HirType, Identifier, MutableRange, ReactiveScope,
    ReactiveScopeDeclaration, ReactiveScopeDependency, Shape,
};
use rc_names::{DeclarationId, EvaluationOrder, IdentifierId, List, ScopeId, Table, TypeId};
use std::alloc::{AllocError, Global};

/// The environment of a number of units. Fails only when out of memory.
pub fn environment(alloc: Global, units: u32) -> Result<Environment, AllocError>
    requires { units ≤ whole.most_units }
    ensures { IfOk result (λ env. env ≡ whole.generated_environment units) }
{
    let mut env = Environment::empty(alloc);
    env.types.push(HirType::Other)?;
    env.types.push(HirType::Object {
        shape: Some(Shape::Array),
    })?;
    env.identifiers = identifiers(alloc, units)?;
    env.scopes = scopes(alloc, units)?;
    env.next_block = 4 * units + 1;
    Ok(env)
}

/// The identifiers: the three of the whole function, and two for each unit.
#[tactic(auto, using(crate::proofs::SizeLemmas::identifier_count))]
fn identifiers(alloc: Global, units: u32) -> Result<Table<IdentifierId, Identifier>, AllocError>
    requires { units ≤ whole.most_units }
    ensures { IfOk result (λ table. table ≡ whole.identifiers units) }
{
    let mut table = Table::new(alloc);
    table.push(identifier(0, 0, None))?;
    table.push(identifier(1, 1, None))?;
    table.push(identifier(2, 0, None))?;
    for unit in 0..units {
        add_identifiers(&mut table, unit)?;
    }
    Ok(table)
}

/// Adds the two identifiers of a unit.
fn add_identifiers(table: &mut Table<IdentifierId, Identifier>, unit: u32) -> Result<(), AllocError>
    requires number { unit ≤ whole.most_units }
    requires room { length table.old < 2 ^ 31 }
    ensures { OnOk result (table.new ≡ table.old ++ spec.unit_identifiers unit) }
{
    table.push(identifier(3 + 2 * unit, 1, Some(ScopeId::new(unit))))?;
    table.push(identifier(4 + 2 * unit, 0, None))?;
    Ok(())
}

/// An identifier whose declaration has its own number.
fn identifier(number: u32, type_: u32, scope: Option<ScopeId>) -> Identifier
    ensures { result ≡ spec.identifier number type_ scope }
{
    Identifier {
        declaration_id: DeclarationId::new(number),
        name: None,
        scope,
        type_: TypeId::new(type_),
        span: None,
    }
}

/// The scopes: one for each unit.
#[tactic(auto, using(crate::proofs::SizeLemmas::scope_count, crate::proofs::SizeLemmas::scope_id_small))]
fn scopes(alloc: Global, units: u32) -> Result<Table<ScopeId, ReactiveScope>, AllocError>
    requires { units ≤ whole.most_units }
    ensures { IfOk result (λ table. table ≡ whole.scopes units) }
{
    let mut table = Table::new(alloc);
    let mut id = 2;
    for unit in 0..units {
        table.push(scope(alloc, unit, id)?)?;
        id += Kind::of(unit).ids();
    }
    Ok(table)
}

/// The scope of a unit, from the id of its terminal.
fn scope(alloc: Global, unit: u32, id: u32) -> Result<ReactiveScope, AllocError>
    requires number { unit ≤ whole.most_units }
    requires id { id < 2 ^ 31 }
    ensures { IfOk result (λ scope. scope ≡ spec.unit_scope unit id) }
{
    let kind = Kind::of(unit);
    Ok(ReactiveScope {
        range: MutableRange {
            start: EvaluationOrder::new(id),
            end: EvaluationOrder::new(id + 3),
        },
        dependencies: dependencies(alloc, kind)?,
        declarations: declarations(alloc, kind, unit)?,
        reassignments: List::new(alloc),
        early_return_value: None,
        merged: List::new(alloc),
    })
}

/// The dependencies of a scope of that kind.
fn dependencies(alloc: Global, kind: Kind) -> Result<List<ReactiveScopeDependency>, AllocError>
    ensures { IfOk result (λ list. list ≡ spec.dependencies kind) }
{
    let mut list = List::new(alloc);
    if kind != Kind::Unused {
        list.push(ReactiveScopeDependency {
            identifier: IdentifierId::new(kind.source()),
            reactive: true,
            path: List::new(alloc),
            span: None,
        })?;
    }
    Ok(list)
}

/// The declarations of a unit's scope.
fn declarations(alloc: Global, kind: Kind, unit: u32) -> Result<List<DeclarationEntry>, AllocError>
    requires { unit ≤ whole.most_units }
    ensures { IfOk result (λ list. list ≡ spec.declarations kind unit) }
{
    let mut list = List::new(alloc);
    if kind != Kind::Unused {
        let identifier = IdentifierId::new(3 + 2 * unit);
        list.push(DeclarationEntry {
            key: identifier,
            value: ReactiveScopeDeclaration {
                identifier,
                scope: ScopeId::new(unit),
            },
        })?;
    }
    Ok(list)
}
