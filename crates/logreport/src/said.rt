ghost use Rattle.std.specs.Prelude.{Some};
ghost use Rattle.logreport.specs.Said.{yardstick_name, asked, said};

use loglines::command::{Command, Mark, YardstickLetter};
use loglines::read::Reading;
use std::fmt;

// A yardstick by its name. A wrapper, since the letter's own text is what a log writes for it.
#[derive(Clone, Copy, PartialEq, Eq, Debug)]
pub struct Name(pub YardstickLetter);

impl fmt::Display for Name {
    ghost output = { λ x. Some (yardstick_name x.0) };

    fn fmt<W: fmt::Write>(&self, f: &mut fmt::Formatter<W>) -> fmt::Result {
        match self.0 {
            YardstickLetter::Spread => write!(f, "spread"),
            YardstickLetter::Gradient => write!(f, "gradient"),
            YardstickLetter::Target => write!(f, "target"),
        }
    }
}

// What a command asks, in plain words. A wrapper, since the command's own text is its line in a log.
#[derive(Clone, Copy, PartialEq, Eq, Debug)]
pub struct Asked(pub Command);

impl fmt::Display for Asked {
    ghost output = { λ x. Some (asked x.0) };

    fn fmt<W: fmt::Write>(&self, f: &mut fmt::Formatter<W>) -> fmt::Result {
        match self.0 {
            Command::Open { units } => write!(f, "opens a sheet of {units} units"),
            Command::Pair {
                a,
                b,
                mark: Mark::Number(d),
            } => write!(f, "writes {d} for the pair {a} {b}"),
            Command::Pair {
                a,
                b,
                mark: Mark::Gap,
            } => write!(f, "makes the pair {a} {b} a gap"),
            Command::Tie { a, b } => write!(f, "ties {a} earlier than {b}"),
            Command::Untie { a, b } => write!(f, "unties {a} earlier than {b}"),
            Command::Rank { by, number } => write!(f, "asks for order {number} by {}", Name(by)),
        }
    }
}

// What is said of a line: its number in the log, and what it asks or by which number it is refused.
#[derive(Clone, Copy, PartialEq, Eq, Debug)]
pub struct Said {
    pub line: usize,
    pub reading: Reading,
}

impl fmt::Display for Said {
    ghost output = { λ x. Some (said x.line x.reading) };

    fn fmt<W: fmt::Write>(&self, f: &mut fmt::Formatter<W>) -> fmt::Result {
        let line = self.line;
        match self.reading {
            Ok(command) => write!(f, "line {line} {}", Asked(command)),
            Err(fault) => write!(f, "line {line} refused {}", fault.number()),
        }
    }
}
