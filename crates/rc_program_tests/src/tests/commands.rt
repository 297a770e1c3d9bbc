//! The words of commands, and what the commands beside `tree` print.

use super::DOCUMENT;
use rc_gen::generate;
use rc_names::{List, Text};
use rc_program::{MemorySink, MemorySource, Status, USUAL_STACK, Words, program};
use std::alloc::{AllocError, Global};
use std::test::Fail;

/// A scope whose array the next scope takes as its only input.
const MERGED: &str = r#"{"hir":{"params":[{"k":"Place","v":0}],"body":{"entry":0,"blocks":[
{"id":0,"terminal":{"k":"Scope","block":1,"fallthrough":2,"scope":0,"id":1}},
{"id":1,"instructions":[0],"terminal":{"k":"Goto","variant":"Break","block":2,"id":3}},
{"id":2,"instructions":[1],"terminal":{"k":"Scope","block":3,"fallthrough":4,"scope":1,"id":5}},
{"id":3,"instructions":[2],"terminal":{"k":"Goto","variant":"Break","block":4,"id":7}},
{"id":4,"terminal":{"k":"Return","value":3,"id":8}}]},"instructions":[
{"id":2,"lvalue":1,"value":{"k":"ArrayExpression","elements":[{"k":"Place","v":[0,"Read",true]}]}},
{"id":4,"lvalue":4,"value":{"k":"StoreLocal","lvalue":{"kind":"Const","place":2},"value":1}},
{"id":6,"lvalue":3,"value":{"k":"ArrayExpression","elements":[{"k":"Place","v":2}]}}]},
"env":{"identifiers":[{"declaration_id":0,"type_":0},{"declaration_id":1,"type_":1,"scope":0},
{"declaration_id":2,"type_":1},{"declaration_id":3,"type_":1,"scope":1},{"declaration_id":4,"type_":0}],
"types":["Other",{"k":"Object","shape":"Array"}],"scopes":[
{"range":{"start":1,"end":4},"dependencies":[{"identifier":0}],
"declarations":[{"key":1,"value":{"identifier":1,"scope":0}}]},
{"range":{"start":5,"end":8},"dependencies":[{"identifier":2}],
"declarations":[{"key":3,"value":{"identifier":3,"scope":1}}]}],"config":{},"next_block":5}}"#;

/// The lines of the answer for it, which is one line.
const MERGED_ANSWER: &str = r#"{"env":{"config":{"enable_forest":false,
"enable_preserve_existing_memoization_guarantees":false},"functions":[],"identifiers":[{"declaration_id":0,"type_":0},
{"declaration_id":1,"scope":0,"type_":1},{"declaration_id":2,"type_":1},{"declaration_id":3,"scope":1,"type_":1},
{"declaration_id":4,"type_":0}],"next_block":5,"scopes":[
{"declarations":[{"key":3,"value":{"identifier":3,"scope":1}}],
"dependencies":[{"identifier":0,"path":[],"reactive":false}],"merged":[1],"range":{"end":8,"start":1},
"reassignments":[]},
{"declarations":[{"key":3,"value":{"identifier":3,"scope":1}}],
"dependencies":[{"identifier":2,"path":[],"reactive":false}],"merged":[],"range":{"end":8,"start":5},
"reassignments":[]}],
"shapes":[],"types":["Other",{"k":"Object","shape":"Array"}]},
"fates":[{"fate":"Kept","scope":0},{"fate":{"k":"MergedInto","v":0},"scope":1}],
"func":{"blocks":[[{"k":"Scope","v":{"instructions":1,"scope":0}},
{"k":"Terminal","v":{"terminal":{"id":8,"k":"Return","value":3}}}],
[{"k":"Instruction","v":{"id":2,"lvalue":1,
"value":{"elements":[{"k":"Place","v":[0,"Read",true]}],"k":"ArrayExpression"}}},
{"k":"Instruction","v":{"id":4,"lvalue":4,"value":{"k":"StoreLocal","lvalue":{"kind":"Const","place":2},"value":1}}},
{"k":"Instruction","v":{"id":6,"lvalue":3,"value":{"elements":[{"k":"Place","v":2}],"k":"ArrayExpression"}}}]],
"directives":[],"generator":false,"is_async":false,"params":[{"k":"Place","v":0}],"values":[]}}"#;

/// The lines of the answer for `DOCUMENT`.
const ANSWER: &str = r#"{"env":{"config":{"enable_forest":false,
"enable_preserve_existing_memoization_guarantees":false},"functions":[],"identifiers":[{"declaration_id":0,"type_":0}],
"next_block":1,"scopes":[],"shapes":[],"types":["Other"]},"fates":[],
"func":{"blocks":[[{"k":"Terminal","v":{"terminal":{"id":1,"k":"Return","value":0}}}]],"directives":[],
"generator":false,"is_async":false,"params":[{"k":"Place","v":0}],"values":[]}}"#;

/// A command line of these words.
fn words(alloc: Global, line: &[&str]) -> Result<Words, AllocError> {
    let mut words = List::new(alloc);
    for word in line {
        words.push(Text::from_str(alloc, word)?)?;
    }
    Ok(words)
}

/// A list of these bytes.
fn bytes(alloc: Global, text: &str) -> Result<List<u8>, AllocError> {
    List::from_slice(alloc, text.as_bytes())
}

/// Whether the program ends with that status for these words, and writes that text. Where the document is left out, a
/// read fails.
pub fn ends(
    alloc: Global,
    line: &[&str],
    document: Option<&str>,
    due: Status,
    text: &str,
) -> Result<bool, AllocError> {
    let mut failing = List::new(alloc);
    if document.is_none() {
        failing.push(0)?;
    }
    let mut source = MemorySource::new(bytes(alloc, document.unwrap_or(""))?, failing);
    let mut sink = MemorySink::new(alloc, 2000, 10, List::new(alloc))?;
    let words = words(alloc, line)?;
    let status = program(
        alloc,
        &words,
        &mut source,
        &mut sink,
        &mut None,
        USUAL_STACK,
    );
    Ok(status == due && sink.bytes() == text.as_bytes())
}

#[test]
fn other_words_read_and_write_nothing(rt: HostRuntime) -> Result<(), Fail> {
    let alloc = rt.alloc();
    let alone = [
        "", "Tree", "tree ", " tree", "fate", "wh", "slot", "JSON", "replays", "gen", "gen 1", "1",
        "--help",
    ];
    for word in alone {
        assert!(rt;
            ends(alloc, &[word], None, Status::Usage, "")?,
            "the word '{word}'"
        );
    }
    let numbers = [
        "",
        "0",
        "00",
        "01",
        "007",
        "+1",
        "-1",
        "-0",
        "1 ",
        " 1",
        "1.0",
        "1e0",
        "0x1",
        "2001",
        "20000",
        "4294967296",
        "4294967297",
        "18446744073709551617",
        "x",
        "1x",
        "tree",
        "\u{661}",
    ];
    for number in numbers {
        assert!(rt;
            ends(alloc, &["gen", number], None, Status::Usage, "")?,
            "gen '{number}'"
        );
    }
    for word in [
        "tree", "fates", "why", "slots", "json", "replay", "", "Gen", "1",
    ] {
        assert!(rt;
            ends(alloc, &[word, "1"], None, Status::Usage, "")?,
            "'{word}' and a number"
        );
    }
    assert!(rt; ends(alloc, &[], None, Status::Usage, "")?, "no word");
    assert!(rt;
        ends(alloc, &["gen", "1", "1"], None, Status::Usage, "")?,
        "two numbers"
    );
    Ok(())
}

#[test]
fn fates_are_printed_alone(rt: HostRuntime) -> Result<(), Fail> {
    let alloc = rt.alloc();
    let fates = "scope 0 kept\nscope 1 merged into 0\n";
    assert!(rt; ends(alloc, &["fates"], Some(MERGED), Status::Done, fates)?);
    assert!(rt; ends(alloc, &["fates"], Some(DOCUMENT), Status::Done, "")?);
    assert!(rt; ends(alloc, &["fates"], None, Status::ReadFault, "")?);
    assert!(rt; ends(alloc, &["fates"], Some("{}"), Status::NotDoc, "")?);
    Ok(())
}

#[test]
fn fates_are_printed_with_reasons(rt: HostRuntime) -> Result<(), Fail> {
    let alloc = rt.alloc();
    let reasons = "scope 0 kept output 1\nscope 1 merged into 0 by sources end 8\n";
    assert!(rt; ends(alloc, &["why"], Some(MERGED), Status::Done, reasons)?);
    assert!(rt; ends(alloc, &["why"], Some(DOCUMENT), Status::Done, "")?);
    assert!(rt; ends(alloc, &["why"], None, Status::ReadFault, "")?);
    assert!(rt; ends(alloc, &["why"], Some("{}"), Status::NotDoc, "")?);
    Ok(())
}

#[test]
fn slots_are_printed_for_each_scope_block(rt: HostRuntime) -> Result<(), Fail> {
    let alloc = rt.alloc();
    let slots = "scope 0 first 0 dependencies 1 declarations 1 reassignments 0\ntotal 2\n";
    assert!(rt; ends(alloc, &["slots"], Some(MERGED), Status::Done, slots)?);
    assert!(rt; ends(alloc, &["slots"], Some(DOCUMENT), Status::Done, "total 0\n")?);
    assert!(rt; ends(alloc, &["slots"], None, Status::ReadFault, "")?);
    assert!(rt; ends(alloc, &["slots"], Some("{}"), Status::NotDoc, "")?);
    Ok(())
}

/// Lines as one line.
fn joined(alloc: Global, lines: &str) -> Result<String, AllocError> {
    let mut text = String::new(alloc);
    for line in lines.lines() {
        text.push_str(line)?;
    }
    text.push('\n')?;
    Ok(text)
}

#[test]
fn an_answer_is_printed_as_json(rt: HostRuntime) -> Result<(), Fail> {
    let alloc = rt.alloc();
    let merged = joined(alloc, MERGED_ANSWER)?;
    assert!(rt; ends(alloc, &["json"], Some(MERGED), Status::Done, &merged)?);
    let plain = joined(alloc, ANSWER)?;
    assert!(rt; ends(alloc, &["json"], Some(DOCUMENT), Status::Done, &plain)?);
    assert!(rt; ends(alloc, &["json"], None, Status::ReadFault, "")?);
    assert!(rt; ends(alloc, &["json"], Some("{}"), Status::NotDoc, "")?);
    Ok(())
}

#[test]
fn a_generated_graph_is_counted_without_a_source(rt: HostRuntime) -> Result<(), Fail> {
    let alloc = rt.alloc();
    let one =
        "blocks 3\nstatements 5\nkept 1\nnot-escaping 0\nunused 0\nmerged 0\ndissolved 0\nalways-invalidating 0\n";
    let five =
        "blocks 19\nstatements 23\nkept 1\nnot-escaping 1\nunused 1\nmerged 1\ndissolved 0\nalways-invalidating 1\n";
    assert!(rt;
        ends(alloc, &["gen", "1"], None, Status::Done, one)?,
        "one unit"
    );
    assert!(rt;
        ends(alloc, &["gen", "5"], None, Status::Done, five)?,
        "five units"
    );
    Ok(())
}

#[test]
fn a_generated_document_has_its_tables(rt: HostRuntime) -> Result<(), Fail> {
    let doc = generate(rt.alloc(), 2)?;
    assert!(rt; doc.hir.body.blocks.len() == 7, "blocks");
    assert!(rt; doc.hir.instructions.len() == 5, "rows");
    assert!(rt; doc.env.identifiers.len() == 7, "identifiers");
    assert!(rt; doc.env.scopes.len() == 2, "scopes");
    assert!(rt; doc.env.next_block == 9, "the next block");
    Ok(())
}
