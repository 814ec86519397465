//! Why a script is refused.
ghost use Rattle.std.specs.Prelude.{◌≡◌};
ghost use Rattle.route_lang.specs.Fault.{reason_text};

use std::alloc::{AllocError, AllocFailed};
use std::fmt;
use thiserror::Error;

/// Why a script is refused.
#[derive(Clone, Copy, Debug, PartialEq, Eq)]
pub enum Reason {
    /// The script has more than [`INPUT_MAX`](crate::INPUT_MAX) bytes.
    TooLarge = 1,
    /// The line is past the [`LINES_MAX`](crate::LINES_MAX) that a script may have.
    TooManyLines = 2,
    /// The line has more than [`LINE_MAX`](crate::LINE_MAX) bytes.
    LineTooLong = 3,
    /// A byte is neither a blank nor of the printable ones of ASCII.
    BadByte = 4,
    /// The command word names no command.
    UnknownCommand = 5,
    /// The command has no such option.
    UnknownOption = 6,
    /// An option, or the other one of its pair, is given twice.
    Repeated = 7,
    /// A word that is needed is missing.
    MissingWord = 8,
    /// A number is not in its form or not in its range.
    BadNumber = 9,
    /// A word is more than the command has.
    ExtraWord = 10,
    /// A destination, an address or a gateway is none of the family.
    BadAddress = 11,
    /// `-net` or `-host` does not agree with the destination.
    BadLength = 12,
    /// A route leads nowhere: no gateway, no interface, and not to be dropped.
    NoTarget = 13,
    /// The word names no module, or one that is not for the family.
    NoModule = 14,
    /// A profile is set behind a line that is neither blank nor a comment.
    NotFirst = 16,
}

impl Reason {
    /// The reason in words.
    pub fn text(&self) -> &'static str
        ensures { result.now ≡ reason_text self.now }
    {
        match self {
            Reason::TooLarge => "input too large",
            Reason::TooManyLines => "too many lines",
            Reason::LineTooLong => "line too long",
            Reason::BadByte => "bad byte",
            Reason::UnknownCommand => "unknown command",
            Reason::UnknownOption => "unknown option",
            Reason::Repeated => "repeated option",
            Reason::MissingWord => "missing word",
            Reason::BadNumber => "bad number",
            Reason::ExtraWord => "extra word",
            Reason::BadAddress => "bad address",
            Reason::BadLength => "bad length",
            Reason::NoTarget => "no target",
            Reason::NoModule => "no such module",
            Reason::NotFirst => "profile not first",
        }
    }
}

impl fmt::Display for Reason {
    fn fmt<W: fmt::Write>(&self, f: &mut fmt::Formatter<W>) -> fmt::Result {
        write!(f, "{}", self.text())
    }
}

/// The first line of a script that is refused, counted from 1, and why. Line 0 speaks of the
/// script as a whole.
#[derive(Clone, Copy, Debug, PartialEq, Eq, Error)]
#[error("line {line}: {reason}")]
pub struct LineFault {
    pub line: u32,
    pub reason: Reason,
}

/// Why bytes gave no script.
#[derive(Clone, Copy, Debug, PartialEq, Eq, Error)]
pub enum ScriptError {
    /// The bytes are refused.
    #[error("{0}")]
    Fault(LineFault),
    /// Memory is wanting.
    #[error("out of memory")]
    OutOfMemory,
}

impl From<LineFault> for ScriptError {
    ghost use Rattle.std.specs.Prelude.{◌≡◌};
    ghost use Rattle.route_lang.specs.declared.fault.ScriptError.TheVariants.{Fault};

    ghost from_gives = { λ fault e. e ≡ Fault fault };

    fn from(fault: LineFault) -> Self {
        ScriptError::Fault(fault)
    }
}

impl From<AllocError> for ScriptError {
    ghost use Rattle.std.specs.Prelude.{◌≡◌};
    ghost use Rattle.route_lang.specs.declared.fault.ScriptError.TheVariants.{OutOfMemory};

    ghost from_gives = { λ _ e. e ≡ OutOfMemory };

    fn from(_: AllocError) -> Self {
        ScriptError::OutOfMemory
    }
}

impl<T: Drop> From<AllocFailed<T>> for ScriptError {
    ghost use Rattle.std.specs.Prelude.{◌≡◌};
    ghost use Rattle.route_lang.specs.declared.fault.ScriptError.TheVariants.{OutOfMemory};

    ghost from_gives = { λ _ e. e ≡ OutOfMemory };

    fn from(_: AllocFailed<T>) -> Self {
        ScriptError::OutOfMemory
    }
}
