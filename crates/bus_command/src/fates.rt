//! How a program ends: where its words can't be gathered, and with which number.
ghost use Rattle.std.specs.Prelude.{◌≡◌, ◌≢◌};
ghost use Rattle.std.specs.declared.io.ErrorKind.TheVariants.{OutOfMemory};
ghost use Rattle.bus_command.specs.Fates as fates;

use crate::status::Status;
use std::io;

/// How the program ends where its words can't be gathered: with `NoMemory` for want of memory, else with `Usage`, since then a word
/// isn't UTF-8.
pub fn fate_of(kind: io::ErrorKind) -> Status
    ensures memory { kind ≡ OutOfMemory → result ≡ Status.NoMemory }
    ensures words { kind ≢ OutOfMemory → result ≡ Status.Usage }
{
    match kind {
        io::ErrorKind::OutOfMemory => Status::NoMemory,
        _ => Status::Usage,
    }
}

/// The number with which the process ends: that of the command's status, or of why no command began.
pub fn exit_number(end: Result<Status, Status>) -> u8
    ensures { result ≡ fates.exit_number end }
{
    match end {
        Ok(status) | Err(status) => status.number(),
    }
}
