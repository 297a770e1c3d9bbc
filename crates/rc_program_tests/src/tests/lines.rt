//! The printed lines of a tree and of fates that no graph gives, compared with a text written by hand from the table of
//! printed lines. The lines that a graph gives are in `tests/documents` and in `examples`.

mod parts;
mod statements;

use parts::{empty, explicit, function, implicit};
use rc_names::{List, ScopeId, Text};
use rc_pipe::{Fate, ScopeFate};
use rc_program::lines;
use rc_tree::{ReactiveBlock, ReactiveTerminalTargetKind};
use statements::{put_ends, put_for, put_for_in, put_for_of, put_jumps, put_rows, put_switch};
use std::alloc::{AllocError, Global};
use std::test::Fail;

/// The lines.
const LINES: &str = r#"function null hint null generator false async true
body
  1 _ = {"k":"LoadLocal","place":2}
  3 _ = seq(4, [5 _ = {"k":"LoadLocal","place":6}], {"k":"LoadLocal","place":7})
  break bb11 labeled id 12 as bb15
  continue bb13 labeled id 14 as bb15
  break bb11 unlabeled id 12 as bb16 implicit
  continue bb13 unlabeled id 14 as bb16 implicit
  return 18 id 19 as bb20
  throw 21 id 24 as bb25 implicit
  switch 47 id 48
    case 44 none
    default none
  for id 59
    init {"k":"LoadLocal","place":60}
    test {"k":"LoadLocal","place":61}
    body
  forof id 71
    init {"k":"LoadLocal","place":72}
    test {"k":"LoadLocal","place":73}
    body
  forin id 79
    init {"k":"LoadLocal","place":80}
    body
fates
  scope 11 merged into 12
  scope 13 dissolved into 14
"#;

/// A body with each such statement.
fn body(alloc: Global) -> Result<ReactiveBlock, AllocError> {
    let mut body = empty(alloc);
    put_rows(alloc, &mut body)?;
    put_jumps(
        alloc,
        &mut body,
        ReactiveTerminalTargetKind::Labeled,
        explicit(15),
    )?;
    put_jumps(
        alloc,
        &mut body,
        ReactiveTerminalTargetKind::Unlabeled,
        implicit(16),
    )?;
    put_ends(alloc, &mut body)?;
    put_switch(alloc, &mut body)?;
    put_for(alloc, &mut body)?;
    put_for_of(alloc, &mut body)?;
    put_for_in(alloc, &mut body)?;
    Ok(body)
}

/// The two fates that no pass decides on yet.
fn fates(alloc: Global) -> Result<List<ScopeFate>, AllocError> {
    let fates = [
        (11, Fate::MergedInto(ScopeId::new(12))),
        (13, Fate::DissolvedInto(ScopeId::new(14))),
    ];
    let mut list = List::new(alloc);
    for (scope, fate) in fates {
        let scope = ScopeId::new(scope);
        list.push(ScopeFate { scope, fate })?;
    }
    Ok(list)
}

/// The lines of a function with that body and of those fates.
fn printed(alloc: Global) -> Result<Text, AllocError> {
    let fates = fates(alloc)?;
    lines(alloc, &function(alloc, body(alloc)?), &fates)
}

#[test]
fn each_form_that_no_graph_gives_has_its_lines(rt: HostRuntime) -> Result<(), Fail> {
    assert_eq!(rt; printed(rt.alloc())?.as_str(), LINES);
    Ok(())
}
