//! The walk over a record, by a stack of visits that aren't done.
//!
//! The walk takes no call of its own on the way down, so a long chain of dependencies takes memory and no stack. A name
//! depends on the operands of its rows. The operands of a row are visited once, however many names depend on the
//! row: each of these names goes on where the one before it has stopped.

ghost use Rattle.std.specs.Prelude.{◌≡◌, ◌<◌, ◌≤◌, ◌+◌, ◌||◌, nat_eq, None, Some, length, reverse, slice_get};
ghost use Rattle.std.specs.Prelude.{ℕ, false, true, slice_set, IfOk, MatchOption, OnOk};
ghost use Rattle.std.specs.List.{list_any};
ghost use Rattle.rc_memo.specs.RowRecord.{operands_at, record_of_rows};
ghost use Rattle.rc_escape.specs.MemoWalk.{dependencies_of, memoizes, node_of, nothing_met};
ghost use Rattle.rc_escape.specs.inside.WalkFrames.{BeginsDecision, BeginsScope, BeginsVisit};
ghost use Rattle.rc_escape.specs.inside.WalkFrames.{Finishes, FitsRecord, IsMet, ResumesFrame, passed_of};
ghost use Rattle.rc_escape.specs.inside.RowUsers.{is_user};
ghost use Rattle.rc_escape.specs.inside.WalkPlaces.{IsNodeAt, IsScopeAt, entry_or, is_set, progress};
ghost use Rattle.rc_escape.specs.inside.WalkWork.{steps_left, work};
ghost use Rattle.rc_escape.specs.declared.walk_state.NodeMark.TheVariants as marks;
ghost use Rattle.rc_escape.specs.declared.walk_state.VisitFrame.TheVariants as frames;

use crate::MemoizationLevel;
use crate::row_users::row_users;
use crate::walk_state::{NodeMark, VisitFrame, WalkState};
use rc_memo::{RowNode, RowRecord};
use rc_names::{BitRow, DeclarationId, FixedList, KeySet, List, Name, ScopeId};
use std::alloc::{AllocError, Global};

/// Returns the node of a name with its position, and `None` if the name has no node.
#[tactic(auto, using(crate::proofs::RecordPlaces::node_at, crate::proofs::RecordPlaces::node_absent))]
fn find_node(rows: &RowRecord, name: DeclarationId) -> Option<(usize, &RowNode)>
    ensures { MatchOption result (node_of (record_of_rows rows.now) name ≡ None)
        (λ found. IsNodeAt rows.now name found.0 found.1.now) }
{
    match rows.nodes.position(name) {
        Some(place) => match rows.nodes.at(place) {
            Some((_, node)) => Some((place, node)),
            None => None,
        },
        None => None,
    }
}

/// Returns the names that a scope depends on with the position of its record, and `None` if the scope has no record.
#[tactic(auto, using(crate::proofs::RecordPlaces::scope_at, crate::proofs::RecordPlaces::scope_absent))]
fn find_scope(rows: &RowRecord, scope: ScopeId) -> Option<(usize, &List<DeclarationId>)>
    ensures { MatchOption result (dependencies_of (record_of_rows rows.now) scope ≡ None)
        (λ found. IsScopeAt rows.now scope found.0 found.1.now) }
{
    match rows.scopes.position(scope) {
        Some(place) => match rows.scopes.at(place) {
            Some((_, names)) => Some((place, names)),
            None => None,
        },
        None => None,
    }
}

/// Returns whether a truth value is true at a place.
#[tactic(auto, unfolding(crate::specs::inside::WalkPlaces::is_set))]
fn is_true(bits: &BitRow, place: usize) -> bool
    ensures { result ≡ is_set bits.now place }
{
    match bits.get(place) {
        Some(bit) => bit,
        None => false,
    }
}

/// Returns the key at a place and the next place, and `None` past the end.
fn key_at<K: Name>(keys: &KeySet<K>, place: usize) -> Option<(K, usize)>
    ensures { MatchOption result (slice_get keys.now place ≡ None)
        (λ found. (slice_get keys.now place ≡ Some found.0) × (found.1 ≡ place + 1)) }
{
    let count = keys.len();
    match keys.at(place) {
        Some(key) => if place < count {
            Some((key, place + 1))
        } else {
            None
        },
        None => None,
    }
}

/// Returns the entry at a place and the next place, and `None` past the end.
fn entry_at<T: Copy>(entries: &List<T>, place: usize) -> Option<(T, usize)>
    ensures { MatchOption result (slice_get entries.now place ≡ None)
        (λ found. (slice_get entries.now place ≡ Some found.0) × (found.1 ≡ place + 1)) }
{
    let count = entries.len();
    match entries.get(place) {
        Some(entry) => if place < count {
            Some((*entry, place + 1))
        } else {
            None
        },
        None => None,
    }
}

/// Sets the truth value at a place, and changes nothing past the end.
fn set_bit(bits: &mut BitRow, place: usize)
    ensures { bits.new ≡ slice_set bits.old place true }
{
    if place < bits.len() {
        bits.set(place, true);
    }
}

/// Sets the truth values at places, as far as there are any.
fn set_all(bits: &mut BitRow, places: &[usize])
    ensures lengths { length bits.new ≡ length bits.old }
    ensures values { (place : ℕ) → place < length bits.old
        → is_set bits.new place ≡ (list_any (nat_eq place) places.now || is_set bits.old place) }
{
    for place in places {
        set_bit(bits, *place);
    }
}

/// Returns whether a node of a level is memoized by a visit that is forced or not, where one of its dependencies is
/// memoized or none is.
fn is_memoized(level: MemoizationLevel, forced: bool, needs_one: bool) -> bool
    ensures { result ≡ memoizes level forced needs_one }
{
    match level {
        MemoizationLevel::Memoized => true,
        MemoizationLevel::Conditional => needs_one || forced,
        MemoizationLevel::Unmemoized => forced,
        MemoizationLevel::Never => false,
    }
}

impl WalkState {
    /// Returns a state that has met nothing. Fails only when out of memory.
    #[tactic(auto, using(crate::proofs::StepRules::begin))]
    pub(crate) fn new(alloc: Global, rows: &RowRecord) -> Result<WalkState, AllocError>
        ensures fits { IfOk result (λ state. FitsRecord rows.now state) }
        ensures nothing { IfOk result (λ state. progress rows.now state ≡ nothing_met) }
    {
        let nodes = rows.nodes.len();
        let operands = rows.operands.len();
        Ok(WalkState {
            marks: FixedList::new(alloc, NodeMark::Unseen, nodes)?,
            taken: BitRow::new(alloc, rows.scopes.len())?,
            passed: FixedList::new(alloc, 0, operands)?,
            answered: BitRow::new(alloc, operands)?,
            users: row_users(alloc, rows)?,
        })
    }

    /// Returns what the walk has made of the node at a place so far.
    pub(crate) fn mark(&self, place: usize) -> NodeMark
        ensures { result ≡ entry_or marks.Unseen self.now.marks place }
    {
        self.marks.get(place).unwrap_or(NodeMark::Unseen)
    }

    /// Returns the next operand of a row that isn't visited through the row yet, with the place after it, and `None`
    /// where each of them is.
    fn operand_left(&self, rows: &RowRecord, row: usize) -> Option<(DeclarationId, usize)>
        ensures { MatchOption result (slice_get (operands_at rows.now.operands row) (passed_of self.now row) ≡ None)
            (λ found. (slice_get (operands_at rows.now.operands row) (passed_of self.now row) ≡ Some found.0)
            × (found.1 ≡ passed_of self.now row + 1)) }
    {
        let passed = self.passed.get(row).unwrap_or(0);
        match rows.operands.get(row) {
            Some(operands) => entry_at(operands, passed),
            None => None,
        }
    }

    /// Returns whether one of the rows has a memoized operand.
    fn has_answered(&self, node_rows: &List<usize>) -> bool
        ensures { result ≡ list_any (is_set self.now.answered) node_rows.now }
    {
        let mut rows = node_rows.as_slice().iter();
        rows.any(|row| is_true(&self.answered, *row))
    }

    /// Marks a node as memoized, and each row that its name is an operand of.
    fn memoize(&mut self, place: usize)
        ensures marks { self.new.marks ≡ slice_set self.old.marks place marks.Memoized }
        ensures answered { (row : ℕ) → row < length self.old.answered
            → is_set self.new.answered row ≡ (is_user self.old.users place row || is_set self.old.answered row) }
        ensures answers { length self.new.answered ≡ length self.old.answered }
        ensures taken { self.new.taken ≡ self.old.taken }
        ensures passed { self.new.passed ≡ self.old.passed }
        ensures users { self.new.users ≡ self.old.users }
    {
        self.marks.set(place, NodeMark::Memoized);
        if let Some(users) = self.users.get(place) {
            set_all(&mut self.answered, users.as_slice());
        }
    }

    /// Visits a name: pushes the frame of its node, unless the name has none or was visited before. Fails only when out
    /// of memory.
    #[tactic(auto, using(crate::proofs::FrameLemmas::visited_absent, crate::proofs::FrameLemmas::visited_again))]
    fn visit(
        &mut self,
        rows: &RowRecord,
        stack: &mut List<VisitFrame>,
        name: DeclarationId,
        forced: bool,
    ) -> Result<(), AllocError>
        requires { FitsRecord rows.now self.old }
        ensures fits { OnOk result (FitsRecord rows.now self.new) }
        ensures visits { OnOk result (BeginsVisit rows.now (reverse stack.new) (progress rows.now self.new)
            name forced (reverse stack.old) (progress rows.now self.old)) }
        ensures met { OnOk result (IsMet (record_of_rows rows.now) (progress rows.now self.new) name) }
        ensures passed { self.new.passed ≡ self.old.passed }
        ensures less { OnOk result (work rows.now self.new stack.new ≤ work rows.now self.old stack.old) }
    {
        match find_node(rows, name) {
            Some((place, node)) => match self.mark(place) {
                NodeMark::Unseen => self.enter(rows, stack, name, place, node, forced),
                NodeMark::Seen | NodeMark::Memoized => Ok(()),
            },
            None => Ok(()),
        }
    }

    /// Marks a node as seen, and pushes the frame of its dependencies. Fails only when out of memory.
    #[tactic(auto, using(crate::proofs::StepRules::enter))]
    fn enter(
        &mut self,
        rows: &RowRecord,
        stack: &mut List<VisitFrame>,
        name: DeclarationId,
        place: usize,
        node: &RowNode,
        forced: bool,
    ) -> Result<(), AllocError>
        requires fits { FitsRecord rows.now self.old }
        requires found { IsNodeAt rows.now name place node.now }
        requires unseen { entry_or marks.Unseen self.old.marks place ≡ marks.Unseen }
        ensures fits { OnOk result (FitsRecord rows.now self.new) }
        ensures visits { OnOk result (BeginsVisit rows.now (reverse stack.new) (progress rows.now self.new)
            name forced (reverse stack.old) (progress rows.now self.old)) }
        ensures met { OnOk result (IsMet (record_of_rows rows.now) (progress rows.now self.new) name) }
        ensures passed { self.new.passed ≡ self.old.passed }
        ensures less { OnOk result (work rows.now self.new stack.new ≤ work rows.now self.old stack.old) }
    {
        self.marks.set(place, NodeMark::Seen);
        stack.push(VisitFrame::Dependencies {
            node: place,
            forced,
            next: 0,
        })
    }

    /// Marks a node that is memoized, and pushes the frame of its scopes. Fails only when out of memory.
    #[tactic(auto, using(crate::proofs::StepRules::decide))]
    fn decide(
        &mut self,
        rows: &RowRecord,
        stack: &mut List<VisitFrame>,
        name: DeclarationId,
        place: usize,
        node: &RowNode,
        memoized: bool,
    ) -> Result<(), AllocError>
        requires fits { FitsRecord rows.now self.old }
        requires found { slice_get rows.now.nodes place ≡ Some (name, node.now) }
        ensures fits { OnOk result (FitsRecord rows.now self.new) }
        ensures decides { OnOk result (BeginsDecision rows.now (reverse stack.new) (progress rows.now self.new)
            name node.now memoized (reverse stack.old) (progress rows.now self.old)) }
        ensures less { OnOk result (work rows.now self.new stack.new
            < work rows.now self.old stack.old + (length node.now.scopes + 2)) }
    {
        if memoized {
            self.memoize(place);
            stack.push(VisitFrame::Scopes {
                node: place,
                next: 0,
            })?;
        }
        Ok(())
    }

    /// Takes a scope that wasn't taken before. Fails only when out of memory.
    #[tactic(auto, using(crate::proofs::FrameLemmas::taken_unknown, crate::proofs::FrameLemmas::taken_earlier))]
    fn take_scope(
        &mut self,
        rows: &RowRecord,
        stack: &mut List<VisitFrame>,
        scope: ScopeId,
    ) -> Result<(), AllocError>
        requires { FitsRecord rows.now self.old }
        ensures fits { OnOk result (FitsRecord rows.now self.new) }
        ensures takes { OnOk result (BeginsScope rows.now (reverse stack.new) (progress rows.now self.new)
            scope (reverse stack.old) (progress rows.now self.old)) }
        ensures less { OnOk result (work rows.now self.new stack.new ≤ work rows.now self.old stack.old) }
    {
        match find_scope(rows, scope) {
            Some((place, names)) => {
                if is_true(&self.taken, place) {
                    Ok(())
                } else {
                    self.open_scope(rows, stack, scope, place, names)
                }
            }
            None => Ok(()),
        }
    }

    /// Marks a scope as taken, and pushes the frame of its dependencies. Fails only when out of memory.
    #[tactic(auto, using(crate::proofs::StepRules::open_scope))]
    fn open_scope(
        &mut self,
        rows: &RowRecord,
        stack: &mut List<VisitFrame>,
        scope: ScopeId,
        place: usize,
        names: &List<DeclarationId>,
    ) -> Result<(), AllocError>
        requires fits { FitsRecord rows.now self.old }
        requires found { IsScopeAt rows.now scope place names.now }
        requires untaken { is_set self.old.taken place ≡ false }
        ensures fits { OnOk result (FitsRecord rows.now self.new) }
        ensures takes { OnOk result (BeginsScope rows.now (reverse stack.new) (progress rows.now self.new)
            scope (reverse stack.old) (progress rows.now self.old)) }
        ensures less { OnOk result (work rows.now self.new stack.new ≤ work rows.now self.old stack.old) }
    {
        set_bit(&mut self.taken, place);
        stack.push(VisitFrame::ScopeDependencies {
            scope: place,
            next: 0,
        })
    }

    /// Visits the next escaping name. Fails only when out of memory.
    #[tactic(auto, using(crate::proofs::StepRules::resume_escaping))]
    fn resume_escaping(
        &mut self,
        rows: &RowRecord,
        stack: &mut List<VisitFrame>,
        next: usize,
    ) -> Result<(), AllocError>
        requires { FitsRecord rows.now self.old }
        ensures fits { OnOk result (FitsRecord rows.now self.new) }
        ensures resumes { OnOk result (ResumesFrame rows.now (reverse stack.new) (progress rows.now self.new)
            (frames.Escaping next) (reverse stack.old) (progress rows.now self.old)) }
        ensures less { OnOk result (work rows.now self.new stack.new
            < work rows.now self.old stack.old + steps_left rows.now (frames.Escaping next)) }
    {
        match key_at(&rows.escaping, next) {
            Some((name, after)) => {
                stack.push(VisitFrame::Escaping { next: after })?;
                self.visit(rows, stack, name, false)
            }
            None => Ok(()),
        }
    }

    /// Visits the next operand of a row, which the row has then passed. Fails only when out of memory.
    fn visit_operand(
        &mut self,
        rows: &RowRecord,
        stack: &mut List<VisitFrame>,
        row: usize,
        operand: DeclarationId,
        after: usize,
    ) -> Result<(), AllocError>
        requires fits { FitsRecord rows.now self.old }
        requires found { slice_get (operands_at rows.now.operands row) (passed_of self.old row) ≡ Some operand }
        requires next { after ≡ passed_of self.old row + 1 }
        ensures fits { OnOk result (FitsRecord rows.now self.new) }
        ensures visits { OnOk result (BeginsVisit rows.now (reverse stack.new) (progress rows.now self.new)
            operand false (reverse stack.old) (progress rows.now self.old)) }
        ensures less { OnOk result (work rows.now self.new stack.new < work rows.now self.old stack.old) }
    {
        self.visit(rows, stack, operand, false)?;
        self.passed.set(row, after);
        Ok(())
    }

    /// Goes on with the next row of a node, or decides the node after the last one. Fails only when out of memory.
    #[tactic(auto, using(crate::proofs::StepRules::resume_dependencies))]
    fn resume_dependencies(
        &mut self,
        rows: &RowRecord,
        stack: &mut List<VisitFrame>,
        place: usize,
        forced: bool,
        next: usize,
    ) -> Result<(), AllocError>
        requires { FitsRecord rows.now self.old }
        ensures fits { OnOk result (FitsRecord rows.now self.new) }
        ensures resumes { OnOk result (ResumesFrame rows.now (reverse stack.new) (progress rows.now self.new)
            (frames.Dependencies place forced next) (reverse stack.old) (progress rows.now self.old)) }
        ensures less { OnOk result (work rows.now self.new stack.new
            < work rows.now self.old stack.old + steps_left rows.now (frames.Dependencies place forced next)) }
    {
        match rows.nodes.at(place) {
            Some((name, node)) => match entry_at(&node.rows, next) {
                Some((row, after)) => match self.operand_left(rows, row) {
                    Some((operand, passed)) => {
                        stack.push(VisitFrame::Dependencies {
                            node: place,
                            forced,
                            next,
                        })?;
                        self.visit_operand(rows, stack, row, operand, passed)
                    }
                    None => stack.push(VisitFrame::Dependencies {
                        node: place,
                        forced,
                        next: after,
                    }),
                },
                None => {
                    let memoized = is_memoized(node.level, forced, self.has_answered(&node.rows));
                    self.decide(rows, stack, name, place, node, memoized)
                }
            },
            None => Ok(()),
        }
    }

    /// Takes the next scope of a memoized node. Fails only when out of memory.
    #[tactic(auto, using(crate::proofs::StepRules::resume_scopes))]
    fn resume_scopes(
        &mut self,
        rows: &RowRecord,
        stack: &mut List<VisitFrame>,
        place: usize,
        next: usize,
    ) -> Result<(), AllocError>
        requires { FitsRecord rows.now self.old }
        ensures fits { OnOk result (FitsRecord rows.now self.new) }
        ensures resumes { OnOk result (ResumesFrame rows.now (reverse stack.new) (progress rows.now self.new)
            (frames.Scopes place next) (reverse stack.old) (progress rows.now self.old)) }
        ensures less { OnOk result (work rows.now self.new stack.new
            < work rows.now self.old stack.old + steps_left rows.now (frames.Scopes place next)) }
    {
        match rows.nodes.at(place) {
            Some((_, node)) => match key_at(&node.scopes, next) {
                Some((scope, after)) => {
                    stack.push(VisitFrame::Scopes {
                        node: place,
                        next: after,
                    })?;
                    self.take_scope(rows, stack, scope)
                }
                None => Ok(()),
            },
            None => Ok(()),
        }
    }

    /// Visits the next dependency of a scope, forced. Fails only when out of memory.
    #[tactic(auto, using(crate::proofs::StepRules::resume_scope_dependencies))]
    fn resume_scope_dependencies(
        &mut self,
        rows: &RowRecord,
        stack: &mut List<VisitFrame>,
        place: usize,
        next: usize,
    ) -> Result<(), AllocError>
        requires { FitsRecord rows.now self.old }
        ensures fits { OnOk result (FitsRecord rows.now self.new) }
        ensures resumes { OnOk result (ResumesFrame rows.now (reverse stack.new) (progress rows.now self.new)
            (frames.ScopeDependencies place next) (reverse stack.old) (progress rows.now self.old)) }
        ensures less { OnOk result (work rows.now self.new stack.new
            < work rows.now self.old stack.old + steps_left rows.now (frames.ScopeDependencies place next)) }
    {
        match rows.scopes.at(place) {
            Some((_, names)) => match entry_at(names, next) {
                Some((name, after)) => {
                    stack.push(VisitFrame::ScopeDependencies {
                        scope: place,
                        next: after,
                    })?;
                    self.visit(rows, stack, name, true)
                }
                None => Ok(()),
            },
            None => Ok(()),
        }
    }

    /// Resumes the innermost frame. Fails only when out of memory.
    fn resume(
        &mut self,
        rows: &RowRecord,
        stack: &mut List<VisitFrame>,
        frame: VisitFrame,
    ) -> Result<(), AllocError>
        requires { FitsRecord rows.now self.old }
        ensures fits { OnOk result (FitsRecord rows.now self.new) }
        ensures resumes { OnOk result (ResumesFrame rows.now (reverse stack.new) (progress rows.now self.new)
            frame (reverse stack.old) (progress rows.now self.old)) }
        ensures less { OnOk result (work rows.now self.new stack.new
            < work rows.now self.old stack.old + steps_left rows.now frame) }
    {
        match frame {
            VisitFrame::Escaping { next } => self.resume_escaping(rows, stack, next),
            VisitFrame::Dependencies { node, forced, next } => self.resume_dependencies(
                rows, stack, node, forced, next,
            ),
            VisitFrame::Scopes { node, next } => self.resume_scopes(rows, stack, node, next),
            VisitFrame::ScopeDependencies { scope, next } => self.resume_scope_dependencies(
                rows, stack, scope, next,
            ),
        }
    }

    /// Resumes frames until none is left. Fails only when out of memory.
    #[tactic(auto, using(crate::proofs::StepRules::run))]
    pub(crate) fn run(
        &mut self,
        rows: &RowRecord,
        stack: &mut List<VisitFrame>,
    ) -> Result<(), AllocError>
        requires { FitsRecord rows.now self.old }
        ensures ends { OnOk result (Finishes rows.now (reverse stack.old) (progress rows.now self.old)
            (progress rows.now self.new)) }
    {
        while let Some(frame) = stack.pop() {
            self.resume(rows, stack, frame)?;
        }
        Ok(())
    }
}
