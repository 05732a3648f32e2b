// Why a call is refused: document 01's table of refusal numbers, with those of the change requests.
#![tactic(auto)]

ghost use Rattle.std.specs.Prelude.{◌≡◌};
ghost use Rattle.refusals.specs.Refusals.{number_of};

use std::error::Error;
use std::fmt;

/// Why a call is refused. Each variant is one number of the table; 7 and 21 are never given.
#[derive(Clone, Copy, Debug, PartialEq, Eq)]
pub enum Refusal {
    /// 1: the text is too long.
    LongText,
    /// 2: there is no header, or it is malformed.
    Header,
    /// 3: the number of variables or of clauses is outside its limits.
    Counts,
    /// 4: a word is no number.
    Word,
    /// 5: a variable is over the number of variables.
    LargeVariable,
    /// 6: a clause has no literal, or too many.
    ClauseLength,
    /// 8: there are more or fewer clauses than the header says.
    ClauseCount,
    /// 9: there are too many literals.
    LiteralCount,
    /// 10: what is lent is too short.
    ShortMemory,
    /// 11: the book numbers are not those of a book.
    Book,
    /// 12: the session numbers are not those of a session on this book.
    Session,
    /// 13: there is no such variable.
    NoVariable,
    /// 14: the session is in conflict.
    InConflict,
    /// 15: the variable is assigned already.
    AssignedAlready,
    /// 16: so many decisions cannot be taken back.
    BacktrackRange,
    /// 17: there are too many backtracks.
    BacktrackCount,
    /// 18: a line of a script has no meaning.
    Line,
    /// 19: a base, a rate list, a table or an age is outside its range.
    PriceInput,
    /// 20: the running amount is outside its range.
    RunningAmount,
    /// 22: so many decisions cannot be fixed.
    FixingRange,
    /// 23: a packed field or a quote record is malformed.
    PackedForm,
    /// 24: a value has more digits than its field.
    PackedDigits,
    /// 25: an age lies in no band.
    AgeGap,
    /// 26: an age lies in more than one band.
    AgeOverlap,
}

impl Refusal {
    /// The number of the table.
    pub fn number(self) -> u32
        ensures { result ≡ number_of self }
    {
        match self {
            Refusal::LongText => 1,
            Refusal::Header => 2,
            Refusal::Counts => 3,
            Refusal::Word => 4,
            Refusal::LargeVariable => 5,
            Refusal::ClauseLength => 6,
            Refusal::ClauseCount => 8,
            Refusal::LiteralCount => 9,
            Refusal::ShortMemory => 10,
            Refusal::Book => 11,
            Refusal::Session => 12,
            Refusal::NoVariable => 13,
            Refusal::InConflict => 14,
            Refusal::AssignedAlready => 15,
            Refusal::BacktrackRange => 16,
            Refusal::BacktrackCount => 17,
            Refusal::Line => 18,
            Refusal::PriceInput => 19,
            Refusal::RunningAmount => 20,
            Refusal::FixingRange => 22,
            Refusal::PackedForm => 23,
            Refusal::PackedDigits => 24,
            Refusal::AgeGap => 25,
            Refusal::AgeOverlap => 26,
        }
    }
}

/// As the program says it: `refused` and the number.
impl fmt::Display for Refusal {
    fn fmt<W: fmt::Write>(&self, f: &mut fmt::Formatter<W>) -> fmt::Result {
        write!(f, "refused {}", self.number())
    }
}

impl Error for Refusal {}
