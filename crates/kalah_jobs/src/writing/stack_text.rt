//! A short text that is put together on the stack.
ghost use Rattle.std.specs.{Prelude.{◌≡◌, ◌+◌, ◌≤◌, [], ◌++◌, IsUtf8, length, replicate, decimal}, Fmt.{signed_decimal}};
ghost use Rattle.kalah_jobs.specs.{Line.Line.{space}, Writing.Sink.{WasGiven}};

use crate::writing::sink::{Sink, write_unless_failed};
use itoa::write_digits;
use std::marker::Model;
use std::str;

/// The most bytes of such a text.
pub(crate) const ROOM: usize = 128;

/// A text of at most 128 bytes, which needs no allocation. It is built from its end: each piece is put in front
/// of those that are there. Contracts see it as its bytes, which are UTF-8.
#[derive(Drop)]
pub(crate) struct StackText {
    bytes: [u8; ROOM],
    start: usize,
}

impl Model for StackText {
    ghost use Rattle.std.specs.Prelude.{◌≡◌, ◌≤◌, ℕ, List, IsUtf8, length, drop};
    ghost use Rattle.kalah_jobs.specs.declared.writing.stack_text.TheConstants.{ROOM};

    ghost Value = { List ℕ };

    ghost view = { λ t. drop t.start t.bytes };

    ghost invariant = { λ t. (length t.bytes ≡ ROOM) × (t.start ≤ ROOM) × IsUtf8 (drop t.start t.bytes) };
}

impl StackText {
    /// Makes an empty text.
    pub(crate) fn new() -> StackText
        ensures { result ≡ [] }
    {
        StackText {
            bytes: [0; ROOM],
            start: ROOM,
        }
    }

    /// Makes a text of this piece.
    #[inline]
    pub(crate) fn of(piece: &str) -> StackText
        requires { length piece.now ≤ ROOM }
        ensures { result ≡ piece.now }
    {
        let mut text = StackText::new();
        text.prepend(piece);
        text
    }

    /// Returns the bytes.
    pub(crate) fn bytes(&self) -> &[u8]
        ensures bytes { result.now ≡ self.now }
        ensures text { IsUtf8 result.now }
    {
        &self.bytes[self.start..]
    }

    /// Returns the text.
    pub(crate) fn as_str(&self) -> &str
        ensures { result.now ≡ self.now }
    {
        str::from_utf8(self.bytes()).unwrap()
    }

    /// Writes the text by one call of the sink, unless that has failed.
    #[inline(always)]
    pub(crate) fn write_to<W: Sink>(&self, out: &mut W)
        ensures { WasGiven W.state out.old out.new self.now }
    {
        write_unless_failed(out, self.bytes());
    }

    /// Returns how many more bytes there is room for.
    pub(crate) fn room(&self) -> usize
        ensures { length self.now + result ≡ ROOM }
    {
        self.start
    }

    /// Returns the number of bytes.
    pub(crate) fn len(&self) -> usize
        ensures { result ≡ length self.now }
    {
        self.bytes().len()
    }

    /// Puts a piece in front of the text.
    #[inline]
    pub(crate) fn prepend(&mut self, piece: &str)
        requires { length piece.now + length self.old ≤ ROOM }
        ensures piece { self.new ≡ piece.now ++ self.old }
        ensures longer { length self.new ≡ length piece.now + length self.old }
    {
        let end = self.start;
        self.start = end - piece.len();
        self.bytes[self.start..end].copy_from_slice(piece.as_bytes());
    }

    /// Puts `n` blanks in front of the text.
    pub(crate) fn prepend_blanks(&mut self, n: usize)
        requires { n + length self.old ≤ ROOM }
        ensures blanks { self.new ≡ replicate n space ++ self.old }
        ensures longer { length self.new ≡ n + length self.old }
    {
        let end = self.start;
        self.start = end - n;
        self.bytes[self.start..end].fill(b' ');
    }

    /// Puts a number in digits in front of the text.
    pub(crate) fn prepend_number(&mut self, n: u64)
        requires { length (decimal n) + length self.old ≤ ROOM }
        ensures number { self.new ≡ decimal n ++ self.old }
        ensures longer { length self.new ≡ length (decimal n) + length self.old }
    {
        self.start = write_digits(n, &mut self.bytes, self.start);
    }

    /// Puts a small number in digits in front of the text.
    #[tactic(auto, using(crate::proofs::TextLemmas::u8_length))]
    pub(crate) fn prepend_u8(&mut self, n: u8)
        requires { length self.old + 3 ≤ ROOM }
        ensures number { self.new ≡ decimal n ++ self.old }
        ensures short { length self.new ≤ length self.old + 3 }
    {
        self.prepend_number(u64::from(n));
    }

    /// Puts a margin in digits, with `-` before it if it is negative, in front of the text.
    #[tactic(auto, using(crate::proofs::TextLemmas::u32_length))]
    #[inline]
    pub(crate) fn prepend_margin(&mut self, margin: i32)
        requires { length self.old + 11 ≤ ROOM }
        ensures margin { self.new ≡ signed_decimal margin ++ self.old }
        ensures short { length self.new ≤ length self.old + 11 }
    {
        self.prepend_number(u64::from(margin.unsigned_abs()));
        if margin < 0 {
            self.prepend("-");
        }
    }
}
