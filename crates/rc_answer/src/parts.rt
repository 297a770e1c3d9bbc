//! Sending parts whose types are those of crates below, field by field.

ghost use Rattle.std.specs.Prelude.{◌≡◌, Option, OnOk, Some};
ghost use Rattle.serde_json.specs.Data.{Data};
ghost use Rattle.rc_doc.specs.Reading.{list_of, table_of};
ghost use Rattle.rc_show.specs.Showing.{add, add_some, list_data, variant_data, IsReadAgain};
ghost use Rattle.rc_show.specs.Sending.{Sends, SendsFields};

use rc_names::{List, Name, Table};
use rc_show::{Fields, NoFields};
use serde::Serializer;

/// A type of a crate below that has a printing form.
pub trait Part: Sized {
    /// The value of this type that a document's JSON value gives, if it gives one.
    ghost reads: { Data → Option Self };

    /// The printing form.
    ghost shows: { Self → Data };

    /// Sends the printing form of a part, which reads as that part again. Fails only when the serializer does.
    fn send<S: Serializer>(&self, out: &mut S) -> Result<(), S::Error>
        ensures sends { OnOk result (Sends (shows self.now) (S.written out.old) (S.written out.new)) }
        ensures again { OnOk result (Self.reads (shows self.now) ≡ Some self.now) };
}

/// Sends parts as a list, which read as these again. Fails only when the serializer does.
pub fn send_parts<S: Serializer, T: Part>(out: &mut S, parts: &[T]) -> Result<(), S::Error>
    ensures sends { OnOk result (Sends (list_data T.shows parts.now) (S.written out.old) (S.written out.new)) }
    ensures again { OnOk result (list_of T.reads (list_data T.shows parts.now) ≡ Some parts.now) }
{
    out.begin_seq(None)?;
    for part in parts {
        part.send(out)?;
    }
    out.end_seq()
}

impl<T: Part> Part for List<T> {
    ghost reads = { list_of T.reads };

    ghost shows = { list_data T.shows };

    fn send<S: Serializer>(&self, out: &mut S) -> Result<(), S::Error> {
        send_parts(out, self.as_slice())
    }
}

impl<I: Name, T: Part> Part for Table<I, T> {
    ghost reads = { table_of T.reads };

    ghost shows = { list_data T.shows };

    #[tactic(auto, using(crate::proofs::Cited::table_again))]
    fn send<S: Serializer>(&self, out: &mut S) -> Result<(), S::Error> {
        // Its number of entries has 32 bits.
        let _entries = self.len();
        send_parts(out, self.as_slice())
    }
}

/// Fields whose values are parts.
pub trait PartFields: Fields {
    /// Adds a field at the end.
    final fn with_part<'a, T: Part>(self, name: &'a str, part: &'a T) -> WithPart<'a, Self, T>
        ensures { result ≡ record { before = self; name = name.entry; part = part.entry } }
    {
        WithPart {
            before: self,
            name,
            part,
        }
    }

    /// Adds a field at the end, if it isn't `None`.
    final fn with_some_part<'a, T: Part>(
        self,
        name: &'a str,
        part: &'a Option<T>,
    ) -> WithSomePart<'a, Self, T>
        ensures { result ≡ record { before = self; name = name.entry; part = part.entry } }
    {
        WithSomePart {
            before: self,
            name,
            part,
        }
    }
}

impl<F: Fields> PartFields for F {}

/// Fields, and one more.
#[derive(Drop)]
pub struct WithPart<'a, F, T> {
    before: F,
    name: &'a str,
    part: &'a T,
}

impl<F: Fields, T: Part> Fields for WithPart<'_, F, T> {
    ghost members = { λ fields. add fields.name.now (T.shows fields.part.now) (F.members fields.before) };

    ghost again = { λ fields. F.again fields.before
        × (T.reads (T.shows fields.part.now) ≡ Some fields.part.now) };

    #[tactic(auto, using(crate::proofs::Cited::field_sent))]
    fn send_fields<S: Serializer>(self, out: &mut S) -> Result<(), S::Error> {
        let WithPart { before, name, part } = self;
        before.send_fields(out)?;
        out.key(name)?;
        part.send(out)
    }
}

/// Fields, and one more if it isn't `None`.
#[derive(Drop)]
pub struct WithSomePart<'a, F, T> {
    before: F,
    name: &'a str,
    part: &'a Option<T>,
}

impl<F: Fields, T: Part> Fields for WithSomePart<'_, F, T> {
    ghost members = { λ fields.
        add_some T.shows fields.name.now fields.part.now (F.members fields.before) };

    ghost again = { λ fields. F.again fields.before × IsReadAgain T.reads T.shows fields.part.now };

    #[tactic(auto, unfolding(crate::specs::inside::Cited::add_some))]
    fn send_fields<S: Serializer>(self, out: &mut S) -> Result<(), S::Error> {
        let WithSomePart { before, name, part } = self;
        match part {
            Some(part) => before.with_part(name, part).send_fields(out),
            None => before.send_fields(out),
        }
    }
}

/// Sends a variant whose one field is a part without a name of its own. Fails only when the serializer does.
pub fn send_part_variant<S: Serializer, T: Part>(
    out: &mut S,
    name: &str,
    content: &T,
) -> Result<(), S::Error>
    ensures sends { OnOk result
        (Sends (variant_data name.now (T.shows content.now)) (S.written out.old) (S.written out.new)) }
    ensures again { OnOk result (T.reads (T.shows content.now) ≡ Some content.now) }
{
    NoFields.tagged(name).with_part("v", content).send(out)
}
