//! The lists that facts hold, by numbers.

use rc_hir::{DependencyPathEntry, PropertyLiteral};
use rc_names::{DeclarationId, EvaluationOrder, List, ScopeId, Text};
use rc_tree::Fate;
use rc_why::{DepPair, Facts, NotedUse, Reason, check_reason};
use std::alloc::{AllocError, Global};

/// A step to the property of that name.
#[derive(Clone, Copy)]
pub struct Step<'a> {
    pub name: &'a str,
    pub is_number: bool,
    pub optional: bool,
}

/// The step `.name`.
pub fn plain(name: &str) -> Step<'_> {
    Step {
        name,
        is_number: false,
        optional: false,
    }
}

fn property(alloc: Global, step: Step) -> Result<PropertyLiteral, AllocError> {
    let text = Text::from_str(alloc, step.name)?;
    if step.is_number {
        Ok(PropertyLiteral::Number(text))
    } else {
        Ok(PropertyLiteral::String(text))
    }
}

fn path(alloc: Global, steps: &[Step]) -> Result<List<DependencyPathEntry>, AllocError> {
    let mut path = List::new(alloc);
    for step in steps {
        path.push(DependencyPathEntry {
            property: property(alloc, *step)?,
            optional: step.optional,
        })?;
    }
    Ok(path)
}

/// The pair of a declaration and a path.
pub fn pair(alloc: Global, declaration: u32, steps: &[Step]) -> Result<DepPair, AllocError> {
    Ok(DepPair {
        declaration: DeclarationId::new(declaration),
        path: path(alloc, steps)?,
    })
}

/// The list of one pair.
pub fn one(alloc: Global, declaration: u32, steps: &[Step]) -> Result<List<DepPair>, AllocError> {
    let mut list = List::new(alloc);
    list.push(pair(alloc, declaration, steps)?)?;
    Ok(list)
}

/// Whole values of declarations.
pub fn whole(alloc: Global, declarations: &[u32]) -> Result<List<DepPair>, AllocError> {
    let mut list = List::new(alloc);
    for declaration in declarations {
        list.push(pair(alloc, *declaration, &[])?)?;
    }
    Ok(list)
}

pub fn names(alloc: Global, numbers: &[u32]) -> Result<List<DeclarationId>, AllocError> {
    let mut list = List::new(alloc);
    for number in numbers {
        list.push(DeclarationId::new(*number))?;
    }
    Ok(list)
}

pub fn scopes(alloc: Global, numbers: &[u32]) -> Result<List<ScopeId>, AllocError> {
    let mut list = List::new(alloc);
    for number in numbers {
        list.push(ScopeId::new(*number))?;
    }
    Ok(list)
}

/// A name for each last use, with its number; with 0 the name isn't used.
pub fn uses(alloc: Global, last: &[u32]) -> Result<List<NotedUse>, AllocError> {
    let mut list = List::new(alloc);
    for id in last {
        list.push(NotedUse {
            declaration: DeclarationId::new(*id),
            last: if *id == 0 {
                None
            } else {
                Some(EvaluationOrder::new(*id))
            },
        })?;
    }
    Ok(list)
}

/// Whether the facts fit that fate of scope 1.
pub fn fits(fate: Fate, facts: Facts) -> bool {
    check_reason(&Reason {
        scope: ScopeId::new(1),
        fate,
        facts,
    })
}
