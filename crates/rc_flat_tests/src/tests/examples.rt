//! The answers of `examples/answers` are read.

use super::answers::{
    CASES_THAT_FALL_THROUGH, CONDITIONAL, EACH_ROW, FOR_WITH_A_DO_WHILE, HEADER, OPTIONAL_CHAIN,
    SCOPE, SCOPE_WITH_A_DECLARATION, SEARCH_RESULTS, TRY,
};
use super::parts::read;
use std::alloc::Global;
use std::test::Fail;

/// How many statements the body has that a text gives, if it gives one.
fn statements(alloc: Global, text: &str) -> Result<Option<usize>, Fail> {
    match read(alloc, text)? {
        Some(func) => Ok(Some(func.body.statements.len())),
        None => Ok(None),
    }
}

#[test]
fn small_answers_are_read(rt: HostRuntime) -> Result<(), Fail> {
    let alloc = rt.alloc();
    assert_eq!(rt; statements(alloc, CASES_THAT_FALL_THROUGH)?, Some(2));
    assert_eq!(rt; statements(alloc, CONDITIONAL)?, Some(2));
    assert_eq!(rt; statements(alloc, EACH_ROW)?, Some(5));
    assert_eq!(rt; statements(alloc, FOR_WITH_A_DO_WHILE)?, Some(3));
    assert_eq!(rt; statements(alloc, HEADER)?, Some(1));
    assert_eq!(rt; statements(alloc, OPTIONAL_CHAIN)?, Some(2));
    assert_eq!(rt; statements(alloc, SCOPE)?, Some(2));
    assert_eq!(rt; statements(alloc, SCOPE_WITH_A_DECLARATION)?, Some(2));
    assert_eq!(rt; statements(alloc, TRY)?, Some(2));
    Ok(())
}

#[test]
fn the_answer_of_a_component_is_read(rt: HostRuntime) -> Result<(), Fail> {
    assert_eq!(rt; statements(rt.alloc(), SEARCH_RESULTS)?, Some(30));
    Ok(())
}
