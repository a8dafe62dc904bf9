// Why a call is refused.
ghost use Rattle.std.specs.Prelude.{◌≡◌, Some};
ghost use Rattle.rules.specs.Calls.{number_of};
ghost use Rattle.sheet.specs.Faults.{sheet_refusal, answer_refusal, sheet_words, answer_words};
ghost use Rattle.sheet.specs.Raised.{searching, improving};

use moves::improve::MoveFault;
use search::best::SearchFault;
use std::error::Error;
use std::fmt;

// Which of the two labels handed to a call.
#[derive(Clone, Copy, PartialEq, Eq, Debug)]
pub enum Label {
    First,
    Second,
}

// Why a sheet is not opened or changed.
#[derive(Clone, Copy, PartialEq, Eq, Debug)]
pub enum SheetFault {
    // a sheet has 2 to 20 units
    Size,
    // the label is none of the units'
    Stranger(Label),
    // both labels are the same
    Itself(u64, u64),
    // a mark is at most 10,000
    High,
}

impl SheetFault {
    // The number that a refusal goes by. It is no conversion, since a number does not say which label or pair.
    pub fn number(self) -> u8
        ensures { result ≡ number_of (sheet_refusal self) }
    {
        match self {
            SheetFault::Size => 1,
            SheetFault::Stranger(_) => 2,
            SheetFault::Itself(_, _) => 3,
            SheetFault::High => 4,
        }
    }
}

// What a refused change prints: the number.
impl fmt::Display for SheetFault {
    ghost output = { λ f. Some (sheet_words f) };

    fn fmt<W: fmt::Write>(&self, f: &mut fmt::Formatter<W>) -> fmt::Result {
        write!(f, "refused {}", self.number())
    }
}

impl Error for SheetFault {}

// Why there is no answer from the marks.
#[derive(Clone, Copy, PartialEq, Eq, Debug)]
pub enum AnswerFault {
    // a table, row or list is too short
    Short,
    // the row's first labels are no order
    NoRow,
    // the pair is a gap
    Gap(usize, usize),
    // no order keeps the ties
    Circle,
    // the order breaks a tie
    Against,
    // no best order has the number
    Number,
}

impl AnswerFault {
    // The number that a refusal goes by. It is no conversion, since a number does not say which pair.
    pub fn number(self) -> u8
        ensures { result ≡ number_of (answer_refusal self) }
    {
        match self {
            AnswerFault::Short => 5,
            AnswerFault::NoRow => 6,
            AnswerFault::Gap(_, _) => 7,
            AnswerFault::Circle => 8,
            AnswerFault::Against => 9,
            AnswerFault::Number => 10,
        }
    }
}

// What a refused answer prints: the number, and the pair if it is a gap.
impl fmt::Display for AnswerFault {
    ghost output = { λ f. Some (answer_words f) };

    fn fmt<W: fmt::Write>(&self, f: &mut fmt::Formatter<W>) -> fmt::Result {
        let number = self.number();
        match self {
            AnswerFault::Gap(a, b) => write!(f, "refused {number}: the pair {a}, {b} is a gap"),
            _ => write!(f, "refused {number}"),
        }
    }
}

impl Error for AnswerFault {}

// A sheet's marks and ties are of the same units, so the search does not answer that they differ.
impl From<SearchFault> for AnswerFault {
    ghost from_gives = { λ f r. r ≡ searching f };

    fn from(f: SearchFault) -> AnswerFault {
        match f {
            SearchFault::Units | SearchFault::Short => AnswerFault::Short,
            SearchFault::Circle => AnswerFault::Circle,
            SearchFault::Number => AnswerFault::Number,
        }
    }
}

// Likewise for improving.
impl From<MoveFault> for AnswerFault {
    ghost from_gives = { λ f r. r ≡ improving f };

    fn from(f: MoveFault) -> AnswerFault {
        match f {
            MoveFault::Units | MoveFault::Short => AnswerFault::Short,
            MoveFault::NoOrder => AnswerFault::NoRow,
            MoveFault::Against => AnswerFault::Against,
        }
    }
}
