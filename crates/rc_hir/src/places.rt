//! The places of a part, in order, with no list of their own where none is needed.

ghost use Rattle.std.specs.Prelude.{◌≡◌, ℕ, [], ◌∷◌, ◌++◌, take, IfOk, OnErr, OnOk};
ghost use Rattle.rc_hir.specs.inside.PlaceForms.{places_in};

use crate::place::Place;
use rc_names::List;
use std::alloc::{AllocError, Global};
use std::marker::Model;
use std::slice;

/// Places in order, which contracts see as their list. Those that are in a list already, and a single one, are
/// borrowed; up to three others take no memory.
#[derive(Drop)]
pub struct Places<'p> {
    form: Form<'p>,
}

impl<'p> Model for Places<'p> {
    ghost use Rattle.std.specs.Prelude.{List as Entries};
    ghost use Rattle.rc_hir.specs.Model.{Place};

    ghost Value = { Entries Place };

    ghost use Rattle.rc_hir.specs.inside.PlaceForms.{places_in};

    ghost view = { λ it. places_in it.form };
}

impl<'p> Places<'p> {
    /// Returns no places.
    pub fn none() -> Places<'p>
        ensures { result ≡ [] }
    {
        Places {
            form: Form::Borrowed(&[]),
        }
    }

    /// Returns a place, which stays where it is.
    pub fn one(place: &'p Place) -> Places<'p>
        ensures { result ≡ place.now ∷ [] }
    {
        Places {
            form: Form::Borrowed(slice::from_ref(place)),
        }
    }

    /// Returns two places.
    pub fn two(first: Place, second: Place) -> Places<'p>
        ensures { result ≡ first ∷ second ∷ [] }
    {
        Places {
            form: Form::Two([first, second]),
        }
    }

    /// Returns three places.
    pub fn three(first: Place, second: Place, third: Place) -> Places<'p>
        ensures { result ≡ first ∷ second ∷ third ∷ [] }
    {
        Places {
            form: Form::Three([first, second, third]),
        }
    }

    /// Returns the places of a list, which stay where they are.
    pub fn borrowed(places: &'p List<Place>) -> Places<'p>
        ensures { result ≡ places.now }
    {
        Places {
            form: Form::Borrowed(places.as_slice()),
        }
    }

    /// Appends a place. Fails only when out of memory, and then nothing has changed.
    pub fn push(&mut self, alloc: Global, place: Place) -> Result<(), AllocError>
        ensures ok { OnOk result (self.new ≡ self.old ++ place ∷ []) }
        ensures err { OnErr result (self.new ≡ self.old) }
    {
        self.form.push(alloc, place)
    }

    /// Appends the places of a list. Fails only when out of memory, after which the first of them may be there.
    pub fn append(&mut self, alloc: Global, more: &'p List<Place>) -> Result<(), AllocError>
        ensures ok { OnOk result (self.new ≡ self.old ++ more.now) }
        ensures err { OnErr result ((n : ℕ) × (self.new ≡ self.old ++ take n more.now)) }
    {
        if self.as_slice().is_empty() {
            *self = Places::borrowed(more);
            return Ok(());
        }
        for place in more.as_slice() {
            self.push(alloc, *place)?;
        }
        Ok(())
    }

    /// Returns the places, for a loop over them.
    pub fn as_slice(&self) -> &[Place]
        ensures { result.now ≡ self.now }
    {
        self.form.as_slice()
    }

    /// Returns the places in a list of their own. Fails only when out of memory.
    pub fn into_list(self, alloc: Global) -> Result<List<Place>, AllocError>
        ensures { IfOk result (λ list. list ≡ self.entry) }
    {
        match self.form {
            Form::Gathered(places) => Ok(places),
            form => List::from_slice(alloc, form.as_slice()),
        }
    }
}

#[derive(Drop)]
enum Form<'p> {
    Borrowed(&'p [Place]),
    One([Place; 1]),
    Two([Place; 2]),
    Three([Place; 3]),
    Gathered(List<Place>),
}

impl<'p> Form<'p> {
    fn as_slice(&self) -> &[Place]
        ensures { result.now ≡ places_in self.now }
    {
        match self {
            Form::Borrowed(places) => *places,
            Form::One(places) => places.as_slice(),
            Form::Two(places) => places.as_slice(),
            Form::Three(places) => places.as_slice(),
            Form::Gathered(places) => places.as_slice(),
        }
    }

    fn push(&mut self, alloc: Global, place: Place) -> Result<(), AllocError>
        ensures ok { OnOk result (places_in self.new ≡ places_in self.old ++ place ∷ []) }
        ensures err { OnErr result (places_in self.new ≡ places_in self.old) }
    {
        if let Form::Gathered(places) = self {
            return places.push(place);
        }
        *self = appended(alloc, self.as_slice(), place)?;
        Ok(())
    }
}

/// These places and one more after them.
fn appended<'p>(alloc: Global, places: &[Place], place: Place) -> Result<Form<'p>, AllocError>
    ensures { IfOk result (λ form. places_in form ≡ places.now ++ place ∷ []) }
{
    match places {
        [] => Ok(Form::One([place])),
        [first] => Ok(Form::Two([*first, place])),
        [first, second] => Ok(Form::Three([*first, *second, place])),
        _ => {
            let mut list = List::from_slice(alloc, places)?;
            list.push(place)?;
            Ok(Form::Gathered(list))
        }
    }
}
