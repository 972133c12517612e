//! Why the program ends before its work is done.

ghost use Rattle.std.specs.Prelude.{◌≡◌, ◌≢◌};
ghost use Rattle.std.specs.IoError.{error_kind};
ghost use Rattle.ringrun_service.specs.Fault.{status_of};
ghost use Rattle.ringrun_service.specs.declared.fault.Fault.TheVariants.{NoMemory};

use ringbuffer::Refused;
use std::alloc::{AllocError, AllocFailed};
use std::io::ErrorKind;
use std::{fmt, io};

/// Why the program ends before its work is done. Its text is the line for standard error.
#[derive(Clone, Copy, Debug, PartialEq, Eq)]
pub enum Fault {
    /// This line of the input, counted from 1, has words that are no command.
    NotACommand { line: usize },
    /// The program's arguments ask for no ring that it has.
    BadArguments,
    /// Memory was refused.
    NoMemory,
    /// Reading the input or writing the output failed.
    InputOrOutput,
}

impl Fault {
    /// Returns `NoMemory` where `error` says that memory was refused, as one of `read_to_end` may, and else `failed`.
    pub fn from_error(error: &io::Error, failed: Fault) -> Fault
        ensures memory { error_kind error.now ≡ ErrorKind.OutOfMemory → result ≡ Fault.NoMemory }
        ensures other { error_kind error.now ≢ ErrorKind.OutOfMemory → result ≡ failed }
    {
        if error.kind() == ErrorKind::OutOfMemory {
            Fault::NoMemory
        } else {
            failed
        }
    }

    /// Returns the status that the program ends with.
    pub fn status(self) -> u8
        ensures { result ≡ status_of self }
    {
        match self {
            Fault::NotACommand { .. } => 1,
            Fault::BadArguments => 2,
            Fault::NoMemory => 3,
            Fault::InputOrOutput => 4,
        }
    }
}

impl fmt::Display for Fault {
    ghost use Rattle.std.specs.Prelude.{Some};
    ghost use Rattle.ringrun_service.specs.Fault.{text_of};

    ghost output = { λ fault. Some (text_of fault) };

    fn fmt<W: fmt::Write>(&self, f: &mut fmt::Formatter<W>) -> fmt::Result {
        match self {
            Fault::NotACommand { line } => write!(f, "ringrun: line {line}: not a command"),
            Fault::BadArguments => write!(f, "usage: ringrun array|heap|grow CAPACITY"),
            Fault::NoMemory => write!(f, "ringrun: no memory"),
            Fault::InputOrOutput => write!(f, "ringrun: input or output failed"),
        }
    }
}

impl From<AllocError> for Fault {
    ghost from_gives = { λ _ fault. fault ≡ NoMemory };

    fn from(_: AllocError) -> Fault {
        Fault::NoMemory
    }
}

impl<T: Drop> From<AllocFailed<T>> for Fault {
    ghost from_gives = { λ _ fault. fault ≡ NoMemory };

    fn from(_: AllocFailed<T>) -> Fault {
        Fault::NoMemory
    }
}

impl<T: Drop> From<Refused<T>> for Fault {
    ghost from_gives = { λ _ fault. fault ≡ NoMemory };

    fn from(_: Refused<T>) -> Fault {
        Fault::NoMemory
    }
}
