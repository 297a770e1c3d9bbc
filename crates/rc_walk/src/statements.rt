//! Statements that are moved from one list to another.
#![tactic(auto)]

ghost use Rattle.std.specs.Prelude.{◌≡◌, ◌+◌, ◌-◌, ◌++◌, ◌∷◌, [], drop, length, reverse, take, IsOk, IsTrue};
ghost use Rattle.std.specs.Prelude.{OnErr, OnOk};
ghost use Rattle.rc_tree.specs.Model.{ReactiveStatement as Statement};
ghost use Rattle.rc_walk.specs.Statements.{AreTornAt, TreeStatements, added_if};

use rc_names::List;
use rc_tree::ReactiveStatement;
use std::alloc::AllocError;

/// Takes the last statement that is left; one that stays is put at the end of those that are done. Where none is left,
/// nothing changes. The only error is out of memory, and then the taken statement is gone, and the others stay.
#[inline(never)]
pub fn put_last(
    left: &mut List<ReactiveStatement>,
    stays: bool,
    done: &mut List<ReactiveStatement>,
) -> Result<(), AllocError>
    ensures put { (rest : TreeStatements) (last : Statement) → left.old ≡ rest ++ last ∷ []
        → OnOk result ((left.new ≡ rest) × (done.new ≡ done.old ++ added_if stays last)) }
    ensures none { left.old ≡ [] → IsOk result × (left.new ≡ []) × (done.new ≡ done.old) }
    ensures no_memory { (rest : TreeStatements) (last : Statement) → left.old ≡ rest ++ last ∷ []
        → OnErr result ((left.new ≡ rest) × (done.new ≡ done.old)) }
    ensures lets_go { ¬ IsTrue stays → IsOk result }
{
    match left.pop() {
        Some(last) if stays => done.push(last),
        Some(last) => let_go(last),
        None => Ok(()),
    }
}

/// Lets a statement go.
fn let_go(_statement: ReactiveStatement) -> Result<(), AllocError>
    ensures { IsOk result }
{
    Ok(())
}

/// Puts a replacement in the place of the statement at an index. The list of the replacement has the statements after
/// that one then, reversed. The only error is out of memory; then the replacement is gone, and so is a statement at
/// that index or after it: those before it stay, and those after it are in the other list.
#[inline(never)]
pub fn replace_at(
    statements: &mut List<ReactiveStatement>,
    place: usize,
    replacement: &mut List<ReactiveStatement>,
) -> Result<(), AllocError>
    ensures front { OnOk result (statements.new ≡ take place statements.old ++ replacement.old) }
    ensures behind { OnOk result (replacement.new ≡ reverse (drop (place + 1) statements.old)) }
    ensures no_memory { OnErr result (AreTornAt place statements.old statements.new [] replacement.new) }
{
    let mut put = replacement.take();
    take_off(replacement, statements, place)?;
    drop_last(replacement)?;
    statements.take_from(&mut put)
}

/// Takes the last statement off, where there is one, and lets it go.
#[tactic(auto, using(crate::proofs::LastStatements::before_last))]
fn drop_last(statements: &mut List<ReactiveStatement>) -> Result<(), AllocError>
    ensures left { OnOk result (statements.new ≡ take (length statements.old - 1) statements.old) }
    ensures done { IsOk result }
{
    match statements.pop() {
        Some(statement) => let_go(statement),
        None => Ok(()),
    }
}

/// Moves the statements from the start on to the end of those that are taken, reversed. The only error is out of
/// memory; then one statement is gone: those before it stay, and those after it are taken.
#[inline(never)]
pub fn take_off(
    taken: &mut List<ReactiveStatement>,
    all: &mut List<ReactiveStatement>,
    start: usize,
) -> Result<(), AllocError>
    ensures taken { OnOk result (taken.new ≡ taken.old ++ reverse (drop start all.old)) }
    ensures left { OnOk result (all.new ≡ take start all.old) }
    ensures no_memory { OnErr result (AreTornAt start all.old all.new taken.old taken.new) }
{
    while all.len() > start {
        if let Some(last) = all.pop() {
            taken.push(last)?;
        }
    }
    Ok(())
}
