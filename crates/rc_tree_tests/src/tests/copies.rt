//! Each part of a tree can be copied, and its copy equals it in all parts: spans, effects, labels, kinds of jumps and
//! operators count.

use crate::tests::order::{rows, statements};
use crate::tests::parts::{ForOrder, Written, for_loop};
use crate::tests::trees::{SPAN, empty, function, load, place, returning, row, statement};
use rc_equality::Equals;
use rc_hir::{ParamPattern, SpreadPattern};
use rc_names::{BlockId, CloneIn, List, ScopeId, Text};
use rc_tree::{
    PrunedReactiveScopeBlock, ReactiveBlock, ReactiveFunction, ReactiveLabel, ReactiveScopeBlock,
    ReactiveSwitchCase, ReactiveTerminalStatement,
};
use std::alloc::{AllocError, Global};
use std::test::Fail;

/// Whether a part equals its copy.
fn equals_its_copy<T: CloneIn + Equals + Drop>(alloc: Global, part: T) -> Result<bool, AllocError> {
    Ok(part.clone_in(alloc)?.equals(&part))
}

/// A list with one text.
fn texts(alloc: Global, text: &str) -> Result<List<Text>, AllocError> {
    let mut texts = List::new(alloc);
    texts.push(Text::from_str(alloc, text)?)?;
    Ok(texts)
}

/// A parameter and a rest parameter.
fn params(alloc: Global) -> Result<List<ParamPattern>, AllocError> {
    let params = [
        ParamPattern::Place(place(1)),
        ParamPattern::Spread(SpreadPattern { place: place(2) }),
    ];
    List::from_slice(alloc, &params)
}

/// A function with that body, and with every other part.
fn whole_function(alloc: Global, body: ReactiveBlock) -> Result<ReactiveFunction, AllocError> {
    let mut func = function(alloc, body);
    func.span = SPAN;
    func.id = Some(Text::from_str(alloc, "name")?);
    func.name_hint = Some(Text::from_str(alloc, "hint")?);
    func.params = params(alloc)?;
    func.generator = true;
    func.is_async = true;
    func.directives = texts(alloc, "use strict")?;
    Ok(func)
}

/// Whether a body equals its copy.
fn body_equals_its_copy(alloc: Global, written: Written) -> Result<bool, AllocError> {
    let Written { body, visits: _ } = written;
    equals_its_copy(alloc, body)
}

/// Whether a function with the body equals its copy.
fn function_equals_its_copy(alloc: Global, written: Written) -> Result<bool, AllocError> {
    let Written { body, visits: _ } = written;
    equals_its_copy(alloc, whole_function(alloc, body)?)
}

#[test]
fn a_copy_of_every_statement_equals_its_source(rt: HostRuntime) -> Result<(), Fail> {
    let alloc = rt.alloc();
    assert!(rt; body_equals_its_copy(alloc, statements(alloc, ForOrder::BodyFirst)?)?);
    Ok(())
}

#[test]
fn a_copy_of_every_value_equals_its_source(rt: HostRuntime) -> Result<(), Fail> {
    let alloc = rt.alloc();
    assert!(rt; function_equals_its_copy(alloc, rows(alloc)?)?);
    Ok(())
}

/// The statement of a `for` with a label.
fn labeled_for(alloc: Global) -> Result<ReactiveTerminalStatement, AllocError> {
    Ok(ReactiveTerminalStatement {
        terminal: for_loop(alloc)?,
        label: Some(ReactiveLabel {
            id: BlockId::new(7),
            implicit: true,
        }),
    })
}

/// A case that returns a place.
fn case(alloc: Global) -> Result<ReactiveSwitchCase, AllocError> {
    Ok(ReactiveSwitchCase {
        test: Some(place(1)),
        block: Some(returning(alloc, 2, 3)?),
    })
}

/// An empty scope block.
fn scope(alloc: Global) -> ReactiveScopeBlock {
    ReactiveScopeBlock {
        scope: ScopeId::new(1),
        instructions: empty(alloc),
    }
}

/// An empty pruned scope block.
fn pruned_scope(alloc: Global) -> PrunedReactiveScopeBlock {
    PrunedReactiveScopeBlock {
        scope: ScopeId::new(1),
        instructions: empty(alloc),
    }
}

#[test]
fn a_copy_of_each_part_equals_its_source(rt: HostRuntime) -> Result<(), Fail> {
    let alloc = rt.alloc();
    assert!(rt; equals_its_copy(alloc, load(1))?);
    assert!(rt; equals_its_copy(alloc, row(1, load(1)))?);
    assert!(rt; equals_its_copy(alloc, statement(alloc, for_loop(alloc)?)?)?);
    assert!(rt; equals_its_copy(alloc, labeled_for(alloc)?)?);
    assert!(rt; equals_its_copy(alloc, case(alloc)?)?);
    assert!(rt; equals_its_copy(alloc, scope(alloc))?);
    assert!(rt; equals_its_copy(alloc, pruned_scope(alloc))?);
    Ok(())
}
