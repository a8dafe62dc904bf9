ghost use Rattle.std.specs.Prelude.{◌≡◌, Some};
ghost use Rattle.loglines.specs.declared.fault.LogError.TheVariants as error;
ghost use Rattle.loglines.specs.Faults.{number_of, fault_words, error_words};

use std::alloc::{AllocError, AllocFailed};
use std::error::Error;
use std::fmt;

// Why this layer refuses a line or a log.
#[derive(Clone, Copy, PartialEq, Eq, Debug)]
pub enum LogFault {
    // an opening outside 2 to 11 units
    Size,
    // the line has no form, or none for a session in this state
    Form,
    // the log has more than 32,768 bytes
    Long,
}

impl LogFault {
    // The number that the refusal is answered by. It is no conversion, since two faults have one number.
    pub fn number(self) -> u8
        ensures { result ≡ number_of self }
    {
        match self {
            LogFault::Size => 1,
            LogFault::Form | LogFault::Long => 11,
        }
    }
}

impl fmt::Display for LogFault {
    ghost output = { λ x. Some (fault_words x) };

    fn fmt<W: fmt::Write>(&self, f: &mut fmt::Formatter<W>) -> fmt::Result {
        match self {
            LogFault::Size => write!(f, "a log opens a sheet of 2 to 11 units"),
            LogFault::Form => write!(f, "the line has no form in this state"),
            LogFault::Long => write!(f, "the log has more than 32,768 bytes"),
        }
    }
}

impl Error for LogFault {}

// Why a whole log is not read: it is refused, or there is no memory for its lines.
#[derive(Clone, Copy, PartialEq, Eq, Debug)]
pub enum LogError {
    Refused(LogFault),
    NoMemory,
}

impl fmt::Display for LogError {
    ghost output = { λ x. Some (error_words x) };

    fn fmt<W: fmt::Write>(&self, f: &mut fmt::Formatter<W>) -> fmt::Result {
        match self {
            LogError::Refused(fault) => write!(f, "refused: {fault}"),
            LogError::NoMemory => write!(f, "no memory for the log"),
        }
    }
}

impl Error for LogError {}

impl From<AllocError> for LogError {
    ghost from_gives = { λ _ r. r ≡ error.NoMemory };

    fn from(_e: AllocError) -> LogError {
        LogError::NoMemory
    }
}

impl<T: Drop> From<AllocFailed<T>> for LogError {
    ghost from_gives = { λ _ r. r ≡ error.NoMemory };

    fn from(_e: AllocFailed<T>) -> LogError {
        LogError::NoMemory
    }
}
