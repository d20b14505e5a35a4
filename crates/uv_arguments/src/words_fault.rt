//! Why the arguments of a command line give no job, and the text about it.
ghost use Rattle.std.specs.Prelude.{◌≡◌};
ghost use Rattle.clap.specs.Words.{kind_of};
ghost use Rattle.clap.specs.declared.error.kind.ErrorKind.TheVariants as kind;
ghost use Rattle.uv_arguments.specs.Requests.{reason_of};

use clap::Error;
use clap::error::ErrorKind;
use std::alloc::{AllocError, Global};
use std::io;

/// Why arguments give no job.
#[derive(Clone, Copy, PartialEq, Eq)]
pub enum Reason {
    /// An allocation failed.
    Memory,
    /// They ask for help or the version.
    Shown,
    /// There are none, and help is shown.
    NoWords,
    /// The first one isn't a command.
    NoCommand,
    /// One is an option that the command doesn't take, or one text too many.
    Unexpected,
    /// A text or a file is missing.
    Missing,
    /// An option is given without its value.
    NoValue,
    /// Something else is wrong with them.
    Other,
}

/// Why arguments give no job, with the text about it.
#[derive(Drop)]
pub struct WordsFault {
    error: Error,
}

impl WordsFault {
    // The fault that an error of `clap` is.
    pub(crate) fn new(error: Error) -> WordsFault
        ensures { result.error ≡ error }
    {
        WordsFault { error }
    }

    /// Why there is no job.
    pub fn reason(&self) -> Reason
        ensures { result ≡ reason_of self.now }
    {
        match self.error.kind() {
            ErrorKind::OutOfMemory => Reason::Memory,
            ErrorKind::DisplayHelp | ErrorKind::DisplayVersion => Reason::Shown,
            ErrorKind::DisplayHelpOnMissingArgumentOrSubcommand => Reason::NoWords,
            ErrorKind::InvalidSubcommand => Reason::NoCommand,
            ErrorKind::UnknownArgument => Reason::Unexpected,
            ErrorKind::MissingRequiredArgument => Reason::Missing,
            ErrorKind::InvalidValue => Reason::NoValue,
            _ => Reason::Other,
        }
    }

    /// The text to show.
    pub fn text(&self, alloc: Global) -> Result<String, AllocError> {
        self.error.to_string(alloc)
    }

    /// Prints the text: help that is asked for, and the version, to standard output, and all else to standard error.
    pub fn print<R: Print + Eprint>(&self, rt: &R) -> io::Result<()> {
        self.error.print(rt)
    }
}

impl From<AllocError> for WordsFault {
    ghost from_gives = { λ _ fault. kind_of fault.error ≡ kind.OutOfMemory };

    fn from(error: AllocError) -> WordsFault {
        WordsFault {
            error: Error::from(error),
        }
    }
}
