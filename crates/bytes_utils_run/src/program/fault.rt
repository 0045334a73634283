//! Why a run of the program ended early.

use bytes_utils::Reason;
use std::error::Error;
use std::fmt;

/// Why a run of the program ended early.
#[derive(Clone, Copy, Debug, Eq, PartialEq)]
pub enum Fault {
    /// The input doesn't begin with a command, or a line after `buf` isn't a call.
    UnknownCommand,
    /// The input isn't UTF-8.
    NotUtf8,
    /// A request for memory was refused.
    OutOfMemory,
    /// A read, a write or a flush failed, a write took no byte, or the input hadn't ended after
    /// 1,048,576 reads.
    Io,
}

impl Fault {
    ghost use Rattle.std.specs.Prelude.{◌≡◌};
    ghost use Rattle.bytes_utils_run.specs.Fault.{fault_status};

    /// Returns the exit status of the program: 2 to 5, in the order of the cases above.
    pub fn status(&self) -> u8
        ensures { result ≡ fault_status self.now }
    {
        match self {
            Fault::UnknownCommand => 2,
            Fault::NotUtf8 => 3,
            Fault::OutOfMemory => 4,
            Fault::Io => 5,
        }
    }
}

impl fmt::Display for Fault {
    ghost use Rattle.std.specs.Prelude.{Some};
    ghost use Rattle.bytes_utils_run.specs.Fault.{fault_text};

    ghost output = { λ fault. Some (fault_text fault) };

    fn fmt<W: fmt::Write>(&self, f: &mut fmt::Formatter<W>) -> fmt::Result {
        match self {
            Fault::UnknownCommand => f.write_str("unknown command"),
            Fault::NotUtf8 => f.write_str("not UTF-8"),
            Fault::OutOfMemory => f.write_str("out of memory"),
            Fault::Io => f.write_str("read or write failed"),
        }
    }
}

impl Error for Fault {}

/// With either reason there is no room for what was to be held, so it is `OutOfMemory`.
impl From<Reason> for Fault {
    ghost use Rattle.std.specs.Prelude.{◌≡◌};
    ghost use Rattle.bytes_utils_run.specs.declared.program.fault.Fault.TheVariants.{OutOfMemory};

    ghost from_gives = { λ _ fault. fault ≡ OutOfMemory };

    fn from(_reason: Reason) -> Fault {
        Fault::OutOfMemory
    }
}
