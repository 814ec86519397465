//! The words of the command line.
ghost use Rattle.std.specs.Prelude.{IfErr};
ghost use Rattle.std.specs.Option.{SomeIff};
ghost use Rattle.bench_kit.specs.Fault.{IsWordFault};
ghost use Rattle.bench_kit.specs.Words.{IsNumberTo, number_of};

use crate::fault::Fault;
use std::rt::Env;
use std::{env, io};

/// The words behind the program's name. [`Fault::Usage`] where they can't be read as text.
pub fn words_of<R: Env + AllocGlobal>(rt: &R) -> Result<Vec<String>, Fault>
    ensures { IfErr result IsWordFault }
{
    let args = match env::args(rt) {
        Ok(args) => args,
        Err(error) if error.kind() == io::ErrorKind::OutOfMemory => return Err(Fault::OutOfMemory),
        Err(_) => return Err(Fault::Usage),
    };
    let words = args.skip(1).collect(rt.alloc())?;
    Ok(words)
}

/// The number from 1 to `most` that the text writes in decimal digits, `None` where it writes none.
pub fn number_in(text: &str, most: u64) -> Option<u64>
    ensures { SomeIff result (IsNumberTo most text.now) (number_of text.now) }
{
    match text.parse::<u64>() {
        Ok(number) if 1 <= number && number <= most => Some(number),
        _ => None,
    }
}
