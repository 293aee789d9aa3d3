ghost use Rattle.std.specs.Prelude.{◌≡◌};
ghost use Rattle.gateway_options.specs.LineFault.{IsFaultOf};
ghost use Rattle.gateway_options.specs.declared.line_fault.LineFault.TheVariants.{NoMemory};

use clap::Error;
use clap::error::ErrorKind;
use std::alloc::AllocError;
use std::fmt;

/// Why a command line has no options.
#[derive(Debug, Drop)]
pub enum LineFault {
    /// The line is faulty, or asks for help. Holds the text for the user.
    Line(Error),
    /// Out of memory.
    NoMemory,
}

impl From<Error> for LineFault {
    ghost from_gives = { IsFaultOf };

    fn from(error: Error) -> LineFault {
        match error.kind() {
            ErrorKind::OutOfMemory => LineFault::NoMemory,
            _ => LineFault::Line(error),
        }
    }
}

impl From<AllocError> for LineFault {
    ghost from_gives = { λ error fault. fault ≡ NoMemory };

    fn from(_error: AllocError) -> LineFault {
        LineFault::NoMemory
    }
}

impl fmt::Display for LineFault {
    fn fmt<W: fmt::Write>(&self, f: &mut fmt::Formatter<W>) -> fmt::Result {
        match self {
            LineFault::Line(error) => write!(f, "{error}"),
            LineFault::NoMemory => f.write_str("gateway: no memory\n"),
        }
    }
}
