//! The members of an object by their names, found by one walk over the members and the names side by side. Both are in
//! byte order, so a member that was passed can't have a name that comes later.

ghost use Rattle.std.specs.Prelude.{◌≡◌, [], ◌∷◌, true, IfOk, Some, None, IfErr};
ghost use Rattle.rc_doc.specs.declared.refusal.Refusal.TheVariants as refusals;
ghost use Rattle.serde_json.specs.Find.{as_object};
ghost use Rattle.serde_json.specs.View.{view};
ghost use Rattle.rc_doc.specs.Reading.{IsRead};
ghost use Rattle.rc_doc.specs.inside.Names.{are_ascending};
ghost use Rattle.rc_doc.specs.inside.Found.{Finds, after_named, first_named, found_data, if_none, keys, left};

use crate::refusal::Refusal;
use serde_json::Value;
use std::collections::btree_map::Iter;

/// The value of a member, if the object has it.
type Member<'v> = Option<&'v Value>;

/// The members of an object that are still to be found.
#[derive(Drop)]
struct Remaining<'v> {
    next: Option<(&'v String, &'v Value)>,
    later: Iter<'v, String, Value>,
}

impl<'v> Remaining<'v> {
    /// All members of an object; refuses a value that isn't one.
    fn of(value: &'v Value) -> Result<Remaining<'v>, Refusal>
        ensures ok { IfOk result (λ members. as_object (view value.now) ≡ Some (left members)) }
        ensures err { IfErr result (λ refusal. (refusal ≡ refusals.NotDoc) × (as_object (view value.now) ≡ None)) }
        ensures ascend { IfOk result (λ members. are_ascending (keys (left members)) ≡ true) }
    {
        match value.as_object() {
            Some(members) => {
                let mut later = members.iter();
                let next = later.next();
                Ok(Remaining { next, later })
            }
            None => Err(Refusal::NotDoc),
        }
    }

    /// The member with this name, if it is the next one, which is then passed.
    fn take(&mut self, name: &str) -> Member<'v>
        ensures found { found_data result ≡ first_named name.now (left self.old) }
        ensures rest { left self.new ≡ after_named name.now (left self.old) }
    {
        match self.next {
            Some((key, value)) if key.as_str() == name => {
                self.next = self.later.next();
                Some(value)
            }
            _ => None,
        }
    }

    /// Refuses if a member is left.
    fn end(self) -> Result<(), Refusal>
        ensures { IsRead result (if_none (left self.entry)) }
    {
        match self.next {
            Some(_) => Err(Refusal::NotDoc),
            None => Ok(()),
        }
    }
}

/// The member with this name of an object that has no other one.
pub(crate) fn one_field<'v>(value: &'v Value, first: &str) -> Result<Member<'v>, Refusal>
    requires { are_ascending (first.now ∷ []) ≡ true }
    ensures { Finds result (λ found. found_data found ∷ []) (first.now ∷ []) (view value.now) }
{
    let mut members = Remaining::of(value)?;
    let first = members.take(first);
    members.end()?;
    Ok(first)
}

/// The members with these names, in byte order, of an object that has no other one.
pub(crate) fn two_fields<'v>(
    value: &'v Value,
    first: &str,
    second: &str,
) -> Result<(Member<'v>, Member<'v>), Refusal>
    requires { are_ascending (first.now ∷ second.now ∷ []) ≡ true }
    ensures { Finds result (λ found. found_data found.0 ∷ found_data found.1 ∷ [])
        (first.now ∷ second.now ∷ []) (view value.now) }
{
    let mut members = Remaining::of(value)?;
    let first = members.take(first);
    let second = members.take(second);
    members.end()?;
    Ok((first, second))
}

/// The members with these names, in byte order, of an object that has no other one.
pub(crate) fn three_fields<'v>(
    value: &'v Value,
    first: &str,
    second: &str,
    third: &str,
) -> Result<(Member<'v>, Member<'v>, Member<'v>), Refusal>
    requires { are_ascending (first.now ∷ second.now ∷ third.now ∷ []) ≡ true }
    ensures { Finds result (λ found. found_data found.0 ∷ found_data found.1 ∷ found_data found.2 ∷ [])
        (first.now ∷ second.now ∷ third.now ∷ []) (view value.now) }
{
    let mut members = Remaining::of(value)?;
    let first = members.take(first);
    let second = members.take(second);
    let third = members.take(third);
    members.end()?;
    Ok((first, second, third))
}

/// The members with these names, in byte order, of an object that has no other one.
pub(crate) fn four_fields<'v>(
    value: &'v Value,
    first: &str,
    second: &str,
    third: &str,
    fourth: &str,
) -> Result<(Member<'v>, Member<'v>, Member<'v>, Member<'v>), Refusal>
    requires { are_ascending (first.now ∷ second.now ∷ third.now ∷ fourth.now ∷ []) ≡ true }
    ensures { Finds result (λ found. found_data found.0 ∷ found_data found.1 ∷ found_data found.2
        ∷ found_data found.3 ∷ [])
        (first.now ∷ second.now ∷ third.now ∷ fourth.now ∷ []) (view value.now) }
{
    let mut members = Remaining::of(value)?;
    let first = members.take(first);
    let second = members.take(second);
    let third = members.take(third);
    let fourth = members.take(fourth);
    members.end()?;
    Ok((first, second, third, fourth))
}

/// The members with these names, in byte order, of an object that has no other one.
pub(crate) fn five_fields<'v>(
    value: &'v Value,
    first: &str,
    second: &str,
    third: &str,
    fourth: &str,
    fifth: &str,
) -> Result<(Member<'v>, Member<'v>, Member<'v>, Member<'v>, Member<'v>), Refusal>
    requires { are_ascending (first.now ∷ second.now ∷ third.now ∷ fourth.now ∷ fifth.now ∷ []) ≡ true }
    ensures { Finds result (λ found. found_data found.0 ∷ found_data found.1 ∷ found_data found.2
        ∷ found_data found.3 ∷ found_data found.4 ∷ [])
        (first.now ∷ second.now ∷ third.now ∷ fourth.now ∷ fifth.now ∷ []) (view value.now) }
{
    let mut members = Remaining::of(value)?;
    let first = members.take(first);
    let second = members.take(second);
    let third = members.take(third);
    let fourth = members.take(fourth);
    let fifth = members.take(fifth);
    members.end()?;
    Ok((first, second, third, fourth, fifth))
}

/// The members with these names, in byte order, of an object that has no other one.
pub(crate) fn six_fields<'v>(
    value: &'v Value,
    first: &str,
    second: &str,
    third: &str,
    fourth: &str,
    fifth: &str,
    sixth: &str,
) -> Result<
    (
        Member<'v>,
        Member<'v>,
        Member<'v>,
        Member<'v>,
        Member<'v>,
        Member<'v>,
    ),
    Refusal,
>
    requires { are_ascending (first.now ∷ second.now ∷ third.now ∷ fourth.now ∷ fifth.now ∷ sixth.now ∷ []) ≡ true }
    ensures { Finds result (λ found. found_data found.0 ∷ found_data found.1 ∷ found_data found.2
        ∷ found_data found.3 ∷ found_data found.4 ∷ found_data found.5 ∷ [])
        (first.now ∷ second.now ∷ third.now ∷ fourth.now ∷ fifth.now ∷ sixth.now ∷ []) (view value.now) }
{
    let mut members = Remaining::of(value)?;
    let first = members.take(first);
    let second = members.take(second);
    let third = members.take(third);
    let fourth = members.take(fourth);
    let fifth = members.take(fifth);
    let sixth = members.take(sixth);
    members.end()?;
    Ok((first, second, third, fourth, fifth, sixth))
}

/// The members with these names, in byte order, of an object that has no other one.
pub(crate) fn seven_fields<'v>(
    value: &'v Value,
    first: &str,
    second: &str,
    third: &str,
    fourth: &str,
    fifth: &str,
    sixth: &str,
    seventh: &str,
) -> Result<
    (
        Member<'v>,
        Member<'v>,
        Member<'v>,
        Member<'v>,
        Member<'v>,
        Member<'v>,
        Member<'v>,
    ),
    Refusal,
>
    requires { are_ascending (first.now ∷ second.now ∷ third.now ∷ fourth.now ∷ fifth.now ∷ sixth.now
        ∷ seventh.now ∷ []) ≡ true }
    ensures { Finds result (λ found. found_data found.0 ∷ found_data found.1 ∷ found_data found.2
        ∷ found_data found.3 ∷ found_data found.4 ∷ found_data found.5 ∷ found_data found.6 ∷ [])
        (first.now ∷ second.now ∷ third.now ∷ fourth.now ∷ fifth.now ∷ sixth.now ∷ seventh.now ∷ []) (view value.now) }
{
    let mut members = Remaining::of(value)?;
    let first = members.take(first);
    let second = members.take(second);
    let third = members.take(third);
    let fourth = members.take(fourth);
    let fifth = members.take(fifth);
    let sixth = members.take(sixth);
    let seventh = members.take(seventh);
    members.end()?;
    Ok((first, second, third, fourth, fifth, sixth, seventh))
}

/// The members with these names, in byte order, of an object that has no other one.
pub(crate) fn eight_fields<'v>(
    value: &'v Value,
    first: &str,
    second: &str,
    third: &str,
    fourth: &str,
    fifth: &str,
    sixth: &str,
    seventh: &str,
    eighth: &str,
) -> Result<
    (
        Member<'v>,
        Member<'v>,
        Member<'v>,
        Member<'v>,
        Member<'v>,
        Member<'v>,
        Member<'v>,
        Member<'v>,
    ),
    Refusal,
>
    requires { are_ascending (first.now ∷ second.now ∷ third.now ∷ fourth.now ∷ fifth.now ∷ sixth.now
        ∷ seventh.now ∷ eighth.now ∷ []) ≡ true }
    ensures { Finds result (λ found. found_data found.0 ∷ found_data found.1 ∷ found_data found.2
        ∷ found_data found.3 ∷ found_data found.4 ∷ found_data found.5 ∷ found_data found.6 ∷ found_data found.7
        ∷ [])
        (first.now ∷ second.now ∷ third.now ∷ fourth.now ∷ fifth.now ∷ sixth.now ∷ seventh.now ∷ eighth.now ∷ [])
        (view value.now) }
{
    let mut members = Remaining::of(value)?;
    let first = members.take(first);
    let second = members.take(second);
    let third = members.take(third);
    let fourth = members.take(fourth);
    let fifth = members.take(fifth);
    let sixth = members.take(sixth);
    let seventh = members.take(seventh);
    let eighth = members.take(eighth);
    members.end()?;
    Ok((first, second, third, fourth, fifth, sixth, seventh, eighth))
}

/// The members with these names, in byte order, of an object that has no other one.
pub(crate) fn ten_fields<'v>(
    value: &'v Value,
    first: &str,
    second: &str,
    third: &str,
    fourth: &str,
    fifth: &str,
    sixth: &str,
    seventh: &str,
    eighth: &str,
    ninth: &str,
    tenth: &str,
) -> Result<
    (
        Member<'v>,
        Member<'v>,
        Member<'v>,
        Member<'v>,
        Member<'v>,
        Member<'v>,
        Member<'v>,
        Member<'v>,
        Member<'v>,
        Member<'v>,
    ),
    Refusal,
>
    requires { are_ascending (first.now ∷ second.now ∷ third.now ∷ fourth.now ∷ fifth.now ∷ sixth.now
        ∷ seventh.now ∷ eighth.now ∷ ninth.now ∷ tenth.now ∷ []) ≡ true }
    ensures { Finds result (λ found. found_data found.0 ∷ found_data found.1 ∷ found_data found.2
        ∷ found_data found.3 ∷ found_data found.4 ∷ found_data found.5 ∷ found_data found.6 ∷ found_data found.7
        ∷ found_data found.8 ∷ found_data found.9 ∷ [])
        (first.now ∷ second.now ∷ third.now ∷ fourth.now ∷ fifth.now ∷ sixth.now ∷ seventh.now ∷ eighth.now
        ∷ ninth.now ∷ tenth.now ∷ []) (view value.now) }
{
    let mut members = Remaining::of(value)?;
    let first = members.take(first);
    let second = members.take(second);
    let third = members.take(third);
    let fourth = members.take(fourth);
    let fifth = members.take(fifth);
    let sixth = members.take(sixth);
    let seventh = members.take(seventh);
    let eighth = members.take(eighth);
    let ninth = members.take(ninth);
    let tenth = members.take(tenth);
    members.end()?;
    Ok((
        first, second, third, fourth, fifth, sixth, seventh, eighth, ninth, tenth,
    ))
}
