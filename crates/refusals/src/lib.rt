// Why a call is refused: the questions of documents 01 and 02, by their numbers. A call asks some of them, one after the other; the first "no" is its
// error.
#![tactic(auto)]

ghost use Rattle.std.specs.Prelude.{◌≡◌};
ghost use Rattle.refusals.specs.Refusals.{number};

use std::fmt;

// The question that said no. (Number 9 is not asked: a pair of jobs may stand twice.)
#[derive(Clone, Copy, Debug, PartialEq, Eq)]
pub enum Refusal {
    // A buffer is too short.
    ShortBuffer = 1,
    // The job file is too long.
    LongFile = 2,
    // Head or value of a field is not whole.
    CutField = 3,
    // The tag is none of a job file.
    UnknownTag = 4,
    // The field does not stand where its tag may.
    MisplacedTag = 5,
    // The length or the value is none that the tag may have.
    BadValue = 6,
    // There are more jobs than a file may have.
    TooManyJobs = 7,
    // A need is not between two different jobs that stand before it.
    BadNeed = 8,
    // Header, limit or job is missing.
    Incomplete = 10,
    // The needs have a circle.
    Circle = 11,
    // More windows hold one slot than there are places.
    TooWide = 12,
    // No start list satisfies P within the limit.
    NoPlan = 13,
    // The table is not the fields that it has to be.
    BadTable = 14,
    // A row has not its job's name and level.
    BadLabel = 15,
    // Slots or boards are not those of the rows, or out of bounds.
    BadSize = 16,
    // Two jobs share slot and board.
    SharedCell = 17,
    // A need is not kept.
    BrokenNeed = 18,
    // The most boards are given twice.
    BoardsTwice = 21,
}

impl Refusal {
    // The number of the question.
    pub fn number(self) -> u8
        ensures { result ≡ number self }
    {
        self as u8
    }
}

impl fmt::Display for Refusal {
    fn fmt<W: fmt::Write>(&self, f: &mut fmt::Formatter<W>) -> fmt::Result {
        write!(f, "refused {}", self.number())
    }
}
