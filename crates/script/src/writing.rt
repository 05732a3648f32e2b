// Bytes written one behind the other to a lent buffer, as far as they fit.
ghost use Rattle.std.specs.Prelude.{◌≡◌, ◌+◌, ◌<◌, [], ◌∷◌};
ghost use Rattle.script.specs.Answers.{numeral, signed, listed, call_words};
ghost use Rattle.script.specs.Inner.Writing.{Puts};

use crate::{Cause, LINE_END};

// A lent buffer, and the end of what is written to it.
#[derive(Drop)]
pub(crate) struct Writer<'a> {
    out: &'a mut [u8],
    pub(crate) at: usize,
}

impl<'a> Writer<'a> {
    // Nothing is written yet.
    pub(crate) fn new(out: &'a mut [u8]) -> Writer<'a>
        ensures same_buffer { result.out.ghost_name ≡ out.entry.ghost_name }
        ensures bytes { result.out.now ≡ out.old }
        ensures end { result.at ≡ 0 }
    {
        Writer { out, at: 0 }
    }

    // One byte; a full buffer stays as it is.
    pub(crate) fn put(&mut self, byte: u8)
        ensures { Puts self.old self.new (byte ∷ []) }
    {
        if self.at < self.out.len() {
            self.out[self.at] = byte;
            self.at += 1;
        }
    }

    // Bytes as they stand.
    pub(crate) fn put_all(&mut self, bytes: &[u8])
        ensures { Puts self.old self.new bytes.now }
    {
        for &byte in bytes {
            self.put(byte);
        }
    }

    // A number in decimal.
    pub(crate) fn put_number(&mut self, n: u64)
        ensures { Puts self.old self.new (numeral n) }
    {
        if n >= 10 {
            self.put_number(n / 10);
        }
        self.put(b'0' + (n % 10) as u8);
    }

    // A literal as a signed variable.
    pub(crate) fn put_literal(&mut self, literal: u32)
        ensures { Puts self.old self.new (signed literal) }
    {
        let negative = literal % 2 == 1;
        if negative {
            self.put(b'-');
        }
        self.put_number(u64::from(literal / 2));
    }

    // Literals, each behind one blank, and the end of the line.
    pub(crate) fn put_listed(&mut self, literals: &[u32])
        ensures { Puts self.old self.new (listed literals.now) }
    {
        for &literal in literals {
            self.put(b' ');
            self.put_literal(literal);
        }
        self.put(LINE_END);
    }

    // The words that begin the line of a call that propagated.
    pub(crate) fn put_cause(&mut self, cause: Cause)
        ensures { Puts self.old self.new (call_words cause) }
    {
        match cause {
            Cause::Opening => self.put_all(b"open"),
            Cause::Decision(literal) => {
                self.put_all(b"choose ");
                self.put_literal(literal);
            }
        }
    }
}
