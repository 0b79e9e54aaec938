//! What a command comes to once its answer is written.
ghost use Rattle.std.specs.Prelude.{◌≡◌};
ghost use Rattle.bus_command.specs.Acts.{written};

use crate::outcome::Outcome;
use crate::refusal::Refusal;
use bus_outer::WriteFault;

/// What a command comes to whose text was written so, where this is its answer.
pub fn after_writing<R: Refusal>(writing: Result<(), WriteFault>, answer: Outcome<R>) -> Outcome<R>
    ensures { result ≡ written writing answer }
{
    match writing {
        Ok(()) => answer,
        Err(WriteFault) => Outcome::WriteFault,
    }
}
