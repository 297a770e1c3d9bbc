//! Sending a printing form part by part: `Show` for types, and `Fields` for the fields of an object.

ghost use Rattle.std.specs.Prelude.{◌≡◌, Option, OnOk, Some, codes, refl, ⊤};
ghost use Rattle.serde_json.specs.Data.{Data, Members, boolean, no_members, object, string};
ghost use Rattle.rc_doc.specs.Numbers.{id_of};
ghost use Rattle.rc_doc.specs.Reading.{flag_of, list_of, number_of, table_of, text_of};
ghost use Rattle.rc_show.specs.Showing.{add, add_some, id_data, list_data, number_data, IsReadAgain, NeverNull};
ghost use Rattle.rc_show.specs.Showing.{tagged, variant_data};
ghost use Rattle.rc_show.specs.Sending.{Sends, SendsFields};

use rc_names::{Boxed, Id, List, Name, Table, Text};
use serde::Serializer;

/// A type that has a printing form.
pub trait Show: Sized {
    /// The value of this type that a document's JSON value gives, if it gives one.
    ghost reads: { Data → Option Self };

    /// The printing form.
    ghost shows: { Self → Data };

    /// Sends the printing form of a value, which reads as that value again. Fails only when the serializer does.
    fn send<S: Serializer>(&self, out: &mut S) -> Result<(), S::Error>
        ensures sends { OnOk result (Sends (shows self.now) (S.written out.old) (S.written out.new)) }
        ensures again { OnOk result (Self.reads (shows self.now) ≡ Some self.now) };

    /// No printing form is null, which would read as a field that is left out.
    ghost not_null: { NeverNull shows };
}

impl Show for u32 {
    ghost reads = { number_of };

    ghost shows = { number_data };

    #[tactic(auto, using(crate::proofs::ReadsBack::number_again, crate::proofs::SendingLemmas::number_sent))]
    fn send<S: Serializer>(&self, out: &mut S) -> Result<(), S::Error> {
        out.u64(u64::from(*self))
    }

    ghost not_null = { λ x. refl };
}

impl Show for bool {
    ghost reads = { flag_of };

    ghost shows = { boolean };

    #[tactic(auto, using(crate::proofs::SendingLemmas::flag_sent))]
    fn send<S: Serializer>(&self, out: &mut S) -> Result<(), S::Error> {
        out.bool(*self)
    }

    ghost not_null = { λ x. refl };
}

impl Show for Text {
    ghost reads = { text_of };

    ghost shows = { string };

    #[tactic(auto, using(crate::proofs::SendingLemmas::text_sent))]
    fn send<S: Serializer>(&self, out: &mut S) -> Result<(), S::Error> {
        out.str(self.as_str())
    }

    ghost not_null = { λ x. refl };
}

impl<K> Show for Id<K> {
    ghost reads = { id_of };

    ghost shows = { id_data };

    #[tactic(auto, using(crate::proofs::ReadsBack::id_again))]
    fn send<S: Serializer>(&self, out: &mut S) -> Result<(), S::Error> {
        self.0.send(out)
    }

    ghost not_null = { λ x. refl };
}

/// Sends items as a list, which read as these again. Fails only when the serializer does.
fn send_items<S: Serializer, T: Show>(out: &mut S, items: &[T]) -> Result<(), S::Error>
    ensures sends { OnOk result (Sends (list_data T.shows items.now) (S.written out.old) (S.written out.new)) }
    ensures again { OnOk result (list_of T.reads (list_data T.shows items.now) ≡ Some items.now) }
{
    out.begin_seq(None)?;
    for item in items {
        item.send(out)?;
    }
    out.end_seq()
}

impl<T: Show> Show for List<T> {
    ghost reads = { list_of T.reads };

    ghost shows = { list_data T.shows };

    fn send<S: Serializer>(&self, out: &mut S) -> Result<(), S::Error> {
        send_items(out, self.as_slice())
    }

    ghost not_null = { λ x. refl };
}

impl<I: Name, T: Show> Show for Table<I, T> {
    ghost reads = { table_of T.reads };

    ghost shows = { list_data T.shows };

    #[tactic(auto, using(crate::proofs::ShownLists::table_again))]
    fn send<S: Serializer>(&self, out: &mut S) -> Result<(), S::Error> {
        // Its number of entries has 32 bits.
        let _entries = self.len();
        send_items(out, self.as_slice())
    }

    ghost not_null = { λ x. refl };
}

impl<T: Show> Show for Boxed<T> {
    ghost reads = { T.reads };

    ghost shows = { T.shows };

    fn send<S: Serializer>(&self, out: &mut S) -> Result<(), S::Error> {
        self.get().send(out)
    }

    ghost not_null = { T.not_null };
}

/// The fields of an object, in the order in which they are sent.
pub trait Fields: Sized + Drop {
    /// The fields.
    ghost members: { Self → Members };

    /// Each field reads as itself again.
    ghost again: { Self → Type 0 };

    /// Sends the fields. Fails only when the serializer does.
    fn send_fields<S: Serializer>(self, out: &mut S) -> Result<(), S::Error>
        ensures sends { OnOk result (SendsFields (members self) (S.written out.old) (S.written out.new)) }
        ensures again { OnOk result (again self) };

    /// Adds a field at the end.
    final fn with<'a, T: Show>(self, name: &'a str, value: &'a T) -> With<'a, Self, T>
        ensures { result ≡ record { before = self; name = name.entry; value = value.entry } }
    {
        With {
            before: self,
            name,
            value,
        }
    }

    /// Adds a field at the end, if it isn't `None`.
    final fn with_some<'a, T: Show>(
        self,
        name: &'a str,
        value: &'a Option<T>,
    ) -> WithSome<'a, Self, T>
        ensures { result ≡ record { before = self; name = name.entry; value = value.entry } }
    {
        WithSome {
            before: self,
            name,
            value,
        }
    }

    /// Adds the name of a variant at the end.
    final fn tagged<'a>(self, variant: &'a str) -> Tagged<'a, Self>
        ensures { result ≡ record { before = self; variant = variant.entry } }
    {
        Tagged {
            before: self,
            variant,
        }
    }

    /// Sends the object with these fields. Fails only when the serializer does.
    #[tactic(auto, using(crate::proofs::SendingLemmas::object_sent))]
    final fn send<S: Serializer>(self, out: &mut S) -> Result<(), S::Error>
        ensures sends { OnOk result
            (Sends (object (Self.members self)) (S.written out.old) (S.written out.new)) }
        ensures again { OnOk result (Self.again self) }
    {
        out.begin_map(None)?;
        self.send_fields(out)?;
        out.end_map()
    }
}

/// No fields.
#[derive(Drop)]
pub struct NoFields;

impl Fields for NoFields {
    ghost members = { λ _. no_members };

    ghost again = { λ _. ⊤ };

    #[tactic(auto, using(crate::proofs::SendingLemmas::no_fields_sent))]
    fn send_fields<S: Serializer>(self, _out: &mut S) -> Result<(), S::Error> {
        Ok(())
    }
}

/// Fields, and one more.
#[derive(Drop)]
pub struct With<'a, F, T> {
    before: F,
    name: &'a str,
    value: &'a T,
}

impl<F: Fields, T: Show> Fields for With<'_, F, T> {
    ghost members = { λ fields. add fields.name.now (T.shows fields.value.now) (F.members fields.before) };

    ghost again = { λ fields. F.again fields.before
        × (T.reads (T.shows fields.value.now) ≡ Some fields.value.now) };

    #[tactic(auto, using(crate::proofs::SendingLemmas::field_sent))]
    fn send_fields<S: Serializer>(self, out: &mut S) -> Result<(), S::Error> {
        let With {
            before,
            name,
            value,
        } = self;
        before.send_fields(out)?;
        out.key(name)?;
        value.send(out)
    }
}

/// Fields, and one more if it isn't `None`.
#[derive(Drop)]
pub struct WithSome<'a, F, T> {
    before: F,
    name: &'a str,
    value: &'a Option<T>,
}

impl<F: Fields, T: Show> Fields for WithSome<'_, F, T> {
    ghost members = { λ fields.
        add_some T.shows fields.name.now fields.value.now (F.members fields.before) };

    ghost again = { λ fields. F.again fields.before × IsReadAgain T.reads T.shows fields.value.now };

    #[tactic(auto, unfolding(crate::specs::Showing::add_some))]
    fn send_fields<S: Serializer>(self, out: &mut S) -> Result<(), S::Error> {
        let WithSome {
            before,
            name,
            value,
        } = self;
        match value {
            Some(value) => before.with(name, value).send_fields(out),
            None => before.send_fields(out),
        }
    }
}

/// Fields, and the name of a variant.
#[derive(Drop)]
pub struct Tagged<'a, F> {
    before: F,
    variant: &'a str,
}

impl<F: Fields> Fields for Tagged<'_, F> {
    ghost members = { λ fields. tagged fields.variant.now (F.members fields.before) };

    ghost again = { λ fields. F.again fields.before };

    #[tactic(auto, using(crate::proofs::SendingLemmas::field_sent, crate::proofs::SendingLemmas::text_sent))]
    fn send_fields<S: Serializer>(self, out: &mut S) -> Result<(), S::Error> {
        let Tagged { before, variant } = self;
        before.send_fields(out)?;
        out.key("k")?;
        out.str(variant)
    }
}

/// Sends a variant whose one field has no name of its own. Fails only when the serializer does.
pub fn send_variant<S: Serializer, T: Show>(
    out: &mut S,
    name: &str,
    content: &T,
) -> Result<(), S::Error>
    ensures sends { OnOk result
        (Sends (variant_data name.now (T.shows content.now)) (S.written out.old) (S.written out.new)) }
    ensures again { OnOk result (T.reads (T.shows content.now) ≡ Some content.now) }
{
    NoFields.tagged(name).with("v", content).send(out)
}
