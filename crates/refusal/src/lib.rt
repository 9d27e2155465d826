// Why a call is refused: every cause, its number, and its text for people.
#![tactic(auto)]

ghost use Rattle.std.specs.Prelude.{◌≡◌, Some};
ghost use Rattle.refusal.specs.Causes.{number_of, text_of, ToldApart};

use std::error::Error;
use std::fmt;

// Every cause for which a call of this repository is refused, with the number under which it is reported. A refused call alters nothing.
#[derive(Clone, Copy, PartialEq, Eq, Debug)]
pub enum Refusal {
    // A size is 0 or above 10,000.
    Size = 1,
    // A name breaks the rule of names.
    Name = 2,
    // A lease is out.
    LeaseOut = 3,
    // The book has 1,024 jobs already.
    BookFull = 4,
    // The clock is 16,777,215, the last tick there is.
    ClockEnd = 5,
    // Nobody is present, or a heap is empty.
    Nobody = 6,
    // Somebody is present when an empty tick is asked for.
    Somebody = 7,
    // The lease handed in is not the one that is out.
    NotTheLease = 8,
    // A job number is above 1,023, or a handle is not below the capacity.
    OutOfRange = 9,
    // A job number or a handle is held already.
    Held = 10,
    // A job number or a handle is not held, or a line was not entered.
    NotHeld = 11,
    // A quantum is 0 or above 10,000.
    Quantum = 12,
    // A trace has more than 65,536 bytes.
    TraceTooLong = 13,
    // A line has neither form, or no end.
    LineForm = 14,
    // A tick is below that of the line before, or equal to it after a lost line.
    TickOrder = 15,
    // A report's buffer has fewer than 65,536 bytes.
    BufferTooShort = 16,
}

impl Refusal {
    // The number under which the cause is reported.
    pub fn number(&self) -> u8
        ensures { result ≡ number_of self.now }
    {
        *self as u8
    }

    // The cause in words.
    fn text(&self) -> &'static str
        ensures { result.now ≡ text_of self.now }
    {
        match self {
            Refusal::Size => "the size is 0 or above 10,000",
            Refusal::Name => "the name is not 1 to 8 bytes of a-z, 0-9 and hyphen",
            Refusal::LeaseOut => "a lease is out",
            Refusal::BookFull => "the book has 1,024 jobs already",
            Refusal::ClockEnd => "the clock is at its last tick",
            Refusal::Nobody => "nobody is present",
            Refusal::Somebody => "somebody is present",
            Refusal::NotTheLease => "not the lease that is out",
            Refusal::OutOfRange => "the number is out of range",
            Refusal::Held => "the number is held already",
            Refusal::NotHeld => "the number is not held",
            Refusal::Quantum => "the quantum is 0 or above 10,000",
            Refusal::TraceTooLong => "the trace has more than 65,536 bytes",
            Refusal::LineForm => "the line has neither form or no end",
            Refusal::TickOrder => "the tick is out of order",
            Refusal::BufferTooShort => "the buffer has fewer than 65,536 bytes",
        }
    }
}

impl fmt::Display for Refusal {
    ghost output = { λ cause. Some (text_of cause) };

    fn fmt<W: fmt::Write>(&self, f: &mut fmt::Formatter<W>) -> fmt::Result {
        f.write_str(self.text())
    }
}

impl Error for Refusal {}

// A law: a cause can be told from its number.
pub fn numbers_differ()
    ensures { ToldApart }
{}
