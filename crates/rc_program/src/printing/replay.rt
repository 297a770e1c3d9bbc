//! The lines of a replay.

ghost use Rattle.std.specs.Prelude.{◌≡◌, ◌++◌, IfOk, OnOk};
ghost use Rattle.rc_lines.specs.LineText.{line};
ghost use Rattle.rc_program.specs.ReplayLines.{body_word, replay_lines, yes_or_no};

use rc_lines::Page;
use std::alloc::{AllocError, Global};

/// The two lines for the answers on the graph and on the body. Fails only when out of memory.
pub fn replay_lines(
    alloc: Global,
    in_graph: bool,
    in_body: Option<bool>,
) -> Result<Page, AllocError>
    ensures { IfOk result (λ page. page ≡ replay_lines in_graph in_body) }
{
    let mut page = Page::new(alloc);
    write_answer(&mut page, "graph ", yes_or_no(in_graph))?;
    write_answer(&mut page, "body ", body_word(in_body))?;
    Ok(page)
}

/// The line of an answer after its name.
fn write_answer(page: &mut Page, name: &str, word: &str) -> Result<(), AllocError>
    ensures { OnOk result (page.new ≡ page.old ++ line 0 (name.now ++ word.now)) }
{
    page.push(name)?;
    page.push(word)?;
    page.push("\n")
}

/// The answer for a body, which is asked of runs without a throw alone.
fn body_word(in_body: Option<bool>) -> &'static str
    ensures { result.now ≡ body_word in_body }
{
    match in_body {
        Some(answer) => yes_or_no(answer),
        None => "skipped",
    }
}

fn yes_or_no(answer: bool) -> &'static str
    ensures { result.now ≡ yes_or_no answer }
{
    if answer { "yes" } else { "no" }
}
