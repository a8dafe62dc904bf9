ghost use Rattle.std.specs.Prelude.{◌≡◌, Some};
ghost use Rattle.logreport.specs.Counts.{kind_of, kind_words, count_of};

use loglines::command::{Command, Mark};
use loglines::read::Reading;
use std::fmt;

// The kinds of line that a report counts.
#[derive(Clone, Copy, PartialEq, Eq, Debug)]
pub enum Kind {
    Opening,
    Number,
    Gap,
    Tie,
    Untie,
    Ranking,
    Refusal,
}

impl Kind {
    // The kinds in the order of a report.
    pub const ALL: [Kind; 7] = [
        Kind::Opening,
        Kind::Number,
        Kind::Gap,
        Kind::Tie,
        Kind::Untie,
        Kind::Ranking,
        Kind::Refusal,
    ];

    // The kind's name in a report, for callers that want the text itself; `Display` writes it.
    pub fn words(self) -> &'static str
        ensures { result.now ≡ kind_words self }
    {
        match self {
            Kind::Opening => "sheets opened",
            Kind::Number => "marks written",
            Kind::Gap => "gaps",
            Kind::Tie => "ties",
            Kind::Untie => "ties taken away",
            Kind::Ranking => "rankings asked",
            Kind::Refusal => "refusals",
        }
    }
}

// A kind is shown by its name.
impl fmt::Display for Kind {
    ghost output = { λ x. Some (kind_words x) };

    fn fmt<W: fmt::Write>(&self, f: &mut fmt::Formatter<W>) -> fmt::Result {
        f.write_str(self.words())
    }
}

// The kind of a line, by what was read of it. It is no conversion, since a kind drops what the line asks for.
pub fn kind_of(reading: Reading) -> Kind
    ensures { result ≡ kind_of reading }
{
    match reading {
        Ok(Command::Open { .. }) => Kind::Opening,
        Ok(
            Command::Pair {
                mark: Mark::Number(_),
                ..
            },
        ) => Kind::Number,
        Ok(
            Command::Pair {
                mark: Mark::Gap,
                ..
            },
        ) => Kind::Gap,
        Ok(Command::Tie { .. }) => Kind::Tie,
        Ok(Command::Untie { .. }) => Kind::Untie,
        Ok(Command::Rank { .. }) => Kind::Ranking,
        Err(_) => Kind::Refusal,
    }
}

// How many lines are of a kind.
pub fn count(readings: &[Reading], wanted: Kind) -> usize
    ensures { result ≡ count_of wanted readings.now }
{
    readings.iter().filter(|r| kind_of(**r) == wanted).count()
}
