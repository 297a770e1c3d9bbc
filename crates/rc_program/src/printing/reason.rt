//! The reason of each scope's fate, a line each.

ghost use Rattle.std.specs.Prelude.{◌≡◌, ◌++◌, IfOk, OnOk, codes, flat_map, map};
ghost use Rattle.rc_program.specs.ReasonLines.{condition_text, dependency_text, facts_text, further_text, list_text};
ghost use Rattle.rc_program.specs.ReasonLines.{output_text, pair_text, property_text, reason_line, reason_lines};
ghost use Rattle.rc_program.specs.ReasonLines.{reason_text, step_text, unused_text};

use rc_hir::{DependencyPathEntry, PropertyLiteral};
use rc_lines::{Page, write_number, write_scope_fate};
use rc_names::{DeclarationId, Id, IdentifierId, List, ScopeId};
use rc_tree::ScopeFate;
use rc_why::{DepPair, Facts, MergeCondition, Reason};
use std::alloc::{AllocError, Global};

/// The lines of reasons. Fails only when out of memory.
pub fn reason_lines(alloc: Global, reasons: &List<Reason>) -> Result<Page, AllocError>
    ensures { IfOk result (λ page. page ≡ reason_lines reasons.now) }
{
    let mut page = Page::new(alloc);
    write_reasons(&mut page, reasons.as_slice())?;
    Ok(page)
}

/// A line for each reason.
fn write_reasons(page: &mut Page, reasons: &[Reason]) -> Result<(), AllocError>
    ensures { OnOk result (page.new ≡ page.old ++ flat_map reason_line reasons.now) }
{
    for reason in reasons {
        write_reason(page, reason)?;
        page.push("\n")?;
    }
    Ok(())
}

/// A scope with its fate, and what the rule of that fate read.
fn write_reason(page: &mut Page, reason: &Reason) -> Result<(), AllocError>
    ensures { OnOk result (page.new ≡ page.old ++ reason_text reason.now) }
{
    let fate = ScopeFate {
        scope: reason.scope,
        fate: reason.fate,
    };
    write_scope_fate(page, fate)?;
    page.push(" ")?;
    write_facts(page, &reason.facts)
}

/// What a rule read; of what merging compared, the condition alone.
fn write_facts(page: &mut Page, facts: &Facts) -> Result<(), AllocError>
    ensures { OnOk result (page.new ≡ page.old ++ facts_text facts.now) }
{
    match facts {
        Facts::Kept { output } => write_output(page, *output),
        Facts::NotEscaping { outputs, memoized } => {
            write_list(page, "outputs ", outputs.as_slice())?;
            write_list(page, " memoized ", memoized.as_slice())
        }
        Facts::Unused {
            declared_by,
            reassignments,
            returns,
        } => write_unused(page, declared_by, *reassignments, *returns),
        Facts::Dissolved { own, parent } => {
            write_list(page, "own ", own.as_slice())?;
            write_list(page, " parent ", parent.as_slice())
        }
        Facts::Merged { condition, end, .. } => {
            page.push("by ")?;
            page.push(condition_word(*condition))?;
            write_number(page, " end ", end.0)
        }
        Facts::AlwaysInvalidating { dependency } => write_dependency(page, *dependency),
    }
}

/// The first output that is memoized, if there is one.
fn write_output(page: &mut Page, output: Option<DeclarationId>) -> Result<(), AllocError>
    ensures { OnOk result (page.new ≡ page.old ++ (codes "output " ++ output_text output)) }
{
    match output {
        Some(output) => write_number(page, "output ", output.0),
        None => page.push("output none"),
    }
}

/// By which scopes the values of a scope were declared, and how many names it reassigns and how many `Return`s it has.
fn write_unused(
    page: &mut Page,
    declared_by: &List<ScopeId>,
    reassignments: u32,
    returns: u32,
) -> Result<(), AllocError>
    ensures { OnOk result (page.new ≡ page.old ++ unused_text declared_by.now reassignments returns) }
{
    write_list(page, "declared-by ", declared_by.as_slice())?;
    write_number(page, " reassignments ", reassignments)?;
    write_number(page, " returns ", returns)
}

/// The dependency that is new each time.
fn write_dependency(page: &mut Page, dependency: IdentifierId) -> Result<(), AllocError>
    ensures { OnOk result (page.new ≡ page.old ++ dependency_text dependency) }
{
    write_number(page, "dependency ", dependency.0)
}

fn condition_word(condition: MergeCondition) -> &'static str
    ensures { result.now ≡ condition_text condition }
{
    match condition {
        MergeCondition::Same => "same",
        MergeCondition::Outputs => "outputs",
        MergeCondition::Sources => "sources",
    }
}

/// An entry of a list.
trait Entry {
    ghost use Rattle.std.specs.Prelude.{List as Codes, ℕ};

    /// The text of an entry.
    ghost text: { Self → Codes ℕ };

    /// Writes the entry. Fails only when out of memory.
    fn write(&self, page: &mut Page) -> Result<(), AllocError>
        ensures { OnOk result (page.new ≡ page.old ++ Self.text self.now) };
}

impl<K> Entry for Id<K> {
    ghost use Rattle.rc_program.specs.ReasonLines.{number_text};

    ghost text = { number_text };

    fn write(&self, page: &mut Page) -> Result<(), AllocError> {
        page.number(self.0)
    }
}

impl Entry for DepPair {
    ghost text = { pair_text };

    fn write(&self, page: &mut Page) -> Result<(), AllocError> {
        page.number(self.declaration.0)?;
        write_path(page, self.path.as_slice())
    }
}

/// A name, and then the entries of a list with commas between them, or `none` where there is no entry.
fn write_list<T: Entry>(page: &mut Page, name: &str, entries: &[T]) -> Result<(), AllocError>
    ensures { OnOk result (page.new ≡ page.old ++ (name.now ++ list_text (map T.text entries.now))) }
{
    page.push(name)?;
    let Some((first, rest)) = entries.split_first() else {
        return page.push("none");
    };
    first.write(page)?;
    write_further(page, rest)
}

/// The entries of a list after the first, each after a comma.
fn write_further<T: Entry>(page: &mut Page, entries: &[T]) -> Result<(), AllocError>
    ensures { OnOk result (page.new ≡ page.old ++ flat_map further_text (map T.text entries.now)) }
{
    for entry in entries {
        page.push(",")?;
        entry.write(page)?;
    }
    Ok(())
}

/// The steps of a path.
fn write_path(page: &mut Page, path: &[DependencyPathEntry]) -> Result<(), AllocError>
    ensures { OnOk result (page.new ≡ page.old ++ flat_map step_text path.now) }
{
    for step in path {
        write_step(page, step)?;
    }
    Ok(())
}

/// A step of a path: its sign, and its property in JSON's quotes.
fn write_step(page: &mut Page, step: &DependencyPathEntry) -> Result<(), AllocError>
    ensures { OnOk result (page.new ≡ page.old ++ step_text step.now) }
{
    page.push(if step.optional { "?." } else { "." })?;
    page.quoted(property_text(&step.property))
}

fn property_text(property: &PropertyLiteral) -> &str
    ensures { result.now ≡ property_text property.now }
{
    match property {
        PropertyLiteral::String(text) => text.as_str(),
        PropertyLiteral::Number(text) => text.as_str(),
    }
}
