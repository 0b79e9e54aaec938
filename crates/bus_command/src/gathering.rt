//! The words of the command line.
ghost use Rattle.std.specs.Prelude.{◌≡◌, ◌≢◌, drop, Err, IfOk, IfErr};
ghost use Rattle.std.specs.IoError.{error_kind};
ghost use Rattle.std.specs.Vec.Iter.{into_iter_items};
ghost use Rattle.std.specs.declared.io.ErrorKind.TheVariants.{OutOfMemory};

use crate::fates::fate_of;
use crate::status::Status;
use std::alloc::{AllocError, Global};
use std::env::Args;
use std::io;

/// The words behind the first, which is the program's name.
fn behind_name(alloc: Global, mut args: Args<Global>) -> Result<Vec<String>, AllocError>
    ensures { IfOk result (λ words. words.items ≡ drop 1 (into_iter_items args)) }
{
    let _name = args.next();
    let mut words = Vec::new(alloc);
    for word in args {
        words.push(word)?;
    }
    Ok(words)
}

/// The words behind the program's name, in their order, of all the words that the process was given.
///
/// # Errors
///
/// `Usage` where one isn't UTF-8, and `NoMemory` for want of memory.
pub fn words(alloc: Global, args: io::Result<Args<Global>>) -> Result<Vec<String>, Status>
    ensures given { IfOk args (λ args. IfOk result (λ words. words.items ≡ drop 1 (into_iter_items args))) }
    ensures refused { IfOk args (λ _. IfErr result (λ status. status ≡ Status.NoMemory)) }
    ensures no_memory { IfErr args (λ error. error_kind error ≡ OutOfMemory → result ≡ Err Status.NoMemory) }
    ensures no_text { IfErr args (λ error. error_kind error ≢ OutOfMemory → result ≡ Err Status.Usage) }
{
    match args {
        Ok(args) => behind_name(alloc, args).map_err(|_| Status::NoMemory),
        Err(error) => Err(fate_of(error.kind())),
    }
}
