//! The text that is being written.
//!
//! Lines begin with spaces, more of them the deeper they are, so the spaces of a deep tree would be most of its text. A
//! page keeps few spaces in the text and more as a number, so that a line's room doesn't grow with its depth.

ghost use Rattle.std.specs.Prelude.{◌≡◌, [], ◌++◌, replicate, decimal, IfOk, OnOk, OnErr, string_bytes, ◌≤◌};
ghost use Rattle.std.specs.Io.KnownBytes.{Appends};
ghost use Rattle.serde_json.specs.Written.{compact_text};
ghost use Rattle.rc_show.specs.ShownKinds.{value_data};
ghost use Rattle.rc_lines.specs.LineText.{deeper, place_text, quoted_text};
ghost use Rattle.rc_lines.specs.inside.Pieces.{piece_text, text_of};
ghost use Rattle.rc_lines.specs.Sink.{HasAppendedPrefix, HasRisen};
ghost use Rattle.rc_lines.specs.inside.Sent.{HasSent, HasSentSome};

use crate::blank::{MOST_SPACES, push_spaces};
use crate::buffer::Buffer;
use crate::sink::{Failed, Sink};
use rc_hir::{InstructionValue, Place};
use rc_names::Text;
use rc_show::{write_number, write_place, write_quoted, write_value};
use std::alloc::{AllocError, Global};
use std::marker::Model;
use std::mem;

/// A text after so many spaces.
#[derive(Drop)]
pub struct Piece {
    pub spaces: usize,
    pub text: String,
}

/// A text that grows, which contracts see as its bytes.
#[derive(Drop)]
pub struct Page {
    above: Vec<Piece>,
    last: Piece,
}

impl Model for Page {
    ghost use Rattle.std.specs.Prelude.{List, ℕ, ◌++◌};
    ghost use Rattle.rc_lines.specs.inside.Pieces.{piece_text, text_of};

    ghost Value = { List ℕ };

    ghost view = { λ page. text_of page.above.items ++ piece_text page.last };
}

impl Page {
    /// An empty page, which takes no memory.
    pub fn new(alloc: Global) -> Page
        ensures { result ≡ [] }
    {
        Page::from(String::new(alloc))
    }

    /// A page with this text.
    pub fn from(text: String) -> Page
        ensures { result ≡ string_bytes text }
    {
        let alloc = *text.allocator();
        Page {
            above: Vec::new(alloc),
            last: Piece { spaces: 0, text },
        }
    }

    /// Writes a text.
    pub fn push(&mut self, piece: &str) -> Result<(), AllocError>
        ensures { OnOk result (self.new ≡ self.old ++ piece.now) }
    {
        self.last.text.push_str(piece)
    }

    /// Writes a number's digits.
    pub fn number(&mut self, n: u32) -> Result<(), AllocError>
        ensures { OnOk result (self.new ≡ self.old ++ decimal n) }
    {
        write_number(&mut self.last.text, n)
    }

    /// Writes a text in JSON's quotes.
    pub fn quoted(&mut self, text: &str) -> Result<(), AllocError>
        ensures { OnOk result (self.new ≡ self.old ++ quoted_text text.now) }
    {
        write_quoted(&mut self.last.text, text)
    }

    /// Writes a place in the shortest of its three forms.
    pub fn place(&mut self, place: &Place) -> Result<(), AllocError>
        ensures { OnOk result (self.new ≡ self.old ++ place_text place.now) }
    {
        write_place(&mut self.last.text, place)
    }

    /// Writes the compact text of an instruction's printing form.
    // Not inlined, so that a level of nested values has no room for what a text needs.
    #[inline(never)]
    pub fn base_value(&mut self, value: &InstructionValue) -> Result<(), AllocError>
        ensures { OnOk result (self.new ≡ self.old ++ compact_text (value_data value.now)) }
    {
        write_value(&mut self.last.text, value)
    }

    /// Writes the spaces that a line begins with.
    // Not inlined, so that a level of nested statements has no room for what a piece needs.
    #[inline(never)]
    pub fn indent(&mut self, width: usize) -> Result<(), AllocError>
        ensures { OnOk result (self.new ≡ self.old ++ replicate width 32) }
    {
        if width <= MOST_SPACES {
            return push_spaces(&mut self.last.text, width);
        }
        let next = Piece {
            spaces: width,
            text: String::new(*self.last.text.allocator()),
        };
        self.above.push(mem::replace(&mut self.last, next))?;
        Ok(())
    }

    /// The whole text, with its spaces. Fails only when out of memory.
    pub fn finish(self) -> Result<Text, AllocError>
        ensures { IfOk result (λ text. text ≡ self) }
    {
        let mut text = String::new(*self.last.text.allocator());
        push_pieces(&mut text, self.above.as_slice())?;
        push_piece(&mut text, &self.last)?;
        Ok(Text::from(text))
    }

    /// Writes the whole text through a buffer of fixed size, in which the spaces are made. Returns `Failed` if a call
    /// of the sink fails, and then a prefix of the text was written. This takes no memory.
    // Not inlined, so that the buffer is on the stack only as long as this runs.
    #[inline(never)]
    pub fn write_to<K: Sink>(&self, sink: &mut K) -> Result<(), Failed>
        ensures ok { OnOk result (Appends (K.written sink.old) (K.written sink.new) self.now) }
        ensures err { OnErr result (HasAppendedPrefix (K.written sink.old) (K.written sink.new) self.now) }
        ensures later { K.faults sink.old ≤ K.faults sink.new }
        ensures cause { OnErr result (HasRisen (K.faults sink.old) (K.faults sink.new)) }
    {
        let mut buffer = Buffer::new();
        put_pieces(&mut buffer, sink, self.above.as_slice())?;
        put_piece(&mut buffer, sink, &self.last)?;
        buffer.flush(sink)
    }
}

/// Appends pieces. Fails only when out of memory.
fn push_pieces(text: &mut String, pieces: &[Piece]) -> Result<(), AllocError>
    ensures { OnOk result (string_bytes text.new ≡ string_bytes text.old ++ text_of pieces.now) }
{
    for piece in pieces {
        push_piece(text, piece)?;
    }
    Ok(())
}

/// Appends a piece.
fn push_piece(text: &mut String, piece: &Piece) -> Result<(), AllocError>
    ensures { OnOk result (string_bytes text.new ≡ string_bytes text.old ++ piece_text piece.now) }
{
    push_spaces(text, piece.spaces)?;
    text.push_str(piece.text.as_str())
}

/// Puts pieces into a buffer.
fn put_pieces<K: Sink>(buffer: &mut Buffer, sink: &mut K, pieces: &[Piece]) -> Result<(), Failed>
    ensures ok { OnOk result
        (HasSent (K.written sink.old) (K.written sink.new) (buffer.old ++ text_of pieces.now) buffer.new) }
    ensures err { OnErr result
        (HasSentSome (K.written sink.old) (K.written sink.new) (buffer.old ++ text_of pieces.now)) }
    ensures later { K.faults sink.old ≤ K.faults sink.new }
    ensures cause { OnErr result (HasRisen (K.faults sink.old) (K.faults sink.new)) }
{
    for piece in pieces {
        put_piece(buffer, sink, piece)?;
    }
    Ok(())
}

/// Puts a piece into a buffer.
fn put_piece<K: Sink>(buffer: &mut Buffer, sink: &mut K, piece: &Piece) -> Result<(), Failed>
    ensures ok { OnOk result
        (HasSent (K.written sink.old) (K.written sink.new) (buffer.old ++ piece_text piece.now) buffer.new) }
    ensures err { OnErr result
        (HasSentSome (K.written sink.old) (K.written sink.new) (buffer.old ++ piece_text piece.now)) }
    ensures later { K.faults sink.old ≤ K.faults sink.new }
    ensures cause { OnErr result (HasRisen (K.faults sink.old) (K.faults sink.new)) }
{
    buffer.put_spaces(sink, piece.spaces)?;
    buffer.put(sink, piece.text.as_str().as_bytes())
}

/// The spaces of a line one level below. Fails only when out of memory: no line has more than 2^64 spaces.
pub fn deeper(indent: usize) -> Result<usize, AllocError>
    ensures { IfOk result (λ width. width ≡ deeper indent) }
{
    indent.checked_add(2).ok_or(AllocError)
}
