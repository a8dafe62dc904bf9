ghost use Rattle.std.specs.Prelude.{◌≡◌, MatchResult};
ghost use Rattle.loglines.specs.Text.{text_of, Form, Asks};
ghost use Rattle.loglines.specs.Readers.{Whole};
ghost use Rattle.loglines.specs.Readings.{Sized, Reads};

use crate::command::Command;
use crate::fault::LogFault;
use crate::value::{last_two, last_value, next_value};

// The longest line that has a form.
pub const LONGEST_LINE: usize = 64;

// The command that a line writes, if the session's state has it.
fn command(line: &[u8], opened: bool) -> Option<Command>
    ensures { Whole text_of (Asks opened) line.now result }
{
    match (line, opened) {
        ([b'U', words @ ..], false) => {
            let units = last_value(words)?;
            Some(Command::Open { units })
        }
        ([b'P', words @ ..], true) => {
            let (a, rest) = next_value(words)?;
            let (b, mark) = last_two(rest)?;
            Some(Command::Pair { a, b, mark })
        }
        ([b'T', words @ ..], true) => {
            let (a, b) = last_two(words)?;
            Some(Command::Tie { a, b })
        }
        ([b'F', words @ ..], true) => {
            let (a, b) = last_two(words)?;
            Some(Command::Untie { a, b })
        }
        ([b'R', words @ ..], true) => {
            let (by, number) = last_two(words)?;
            Some(Command::Rank { by, number })
        }
        _ => None,
    }
}

// What a line asks for, in a session that has a sheet or has none.
// The state of a session is a flag, since all that a line's form depends on is whether a sheet is open.
pub fn read(line: &[u8], opened: bool) -> Result<Command, LogFault>
    ensures { MatchResult result (λ c. Form line.now opened c) (λ f. (f ≡ LogFault.Form) × ((c : Command) → Form line.now opened c → ⊥)) }
{
    if line.len() > LONGEST_LINE {
        return Err(LogFault::Form);
    }
    command(line, opened).ok_or(LogFault::Form)
}

// What a line asks for, or why it is refused.
pub type Reading = Result<Command, LogFault>;

// The command, unless it opens a sheet outside 2 to 11 units.
fn sized(command: Command) -> Result<Command, LogFault>
    ensures { MatchResult result (λ c. (c ≡ command) × Sized command) (λ f. (f ≡ LogFault.Size) × (Sized command → ⊥)) }
{
    match command {
        Command::Open { units } if !(2..=11).contains(&units) => Err(LogFault::Size),
        _ => Ok(command),
    }
}

// What a line asks for, its form tested first and then the number of units that it opens.
pub fn read_line(line: &[u8], opened: bool) -> Reading
    ensures { Reads opened line.now result }
{
    sized(read(line, opened)?)
}
