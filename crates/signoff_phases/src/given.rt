// The words that the system gives.
ghost use Rattle.std.specs.Prelude.{◌≡◌, ◌↔◌, IfOk, IsTrue, drop};
ghost use Rattle.std.specs.IoError.{error_kind};
ghost use Rattle.std.specs.Vec.Iter.{into_iter_items};
ghost use Rattle.signoff_phases.specs.Given.{WordsOf};

use std::alloc::{AllocError, Global};
use std::env::Args;
use std::io::{self, ErrorKind};

fn is_want(error: &io::Error) -> bool
    ensures { IsTrue result ↔ (error_kind error.now ≡ ErrorKind.OutOfMemory) }
{
    error.kind() == ErrorKind::OutOfMemory
}

// The words that are left after the first.
fn without_first(alloc: Global, args: Args) -> Result<Vec<String>, AllocError>
    ensures { IfOk result (λ words. words.items ≡ drop 1 (into_iter_items args)) }
{
    let mut left = args;
    let _ = left.next();
    let mut words = Vec::new(alloc);
    for word in left {
        words.push(word)?;
    }
    Ok(words)
}

/// The words after the program's name. Words of which one isn't text are none.
pub fn words_of(alloc: Global, args: io::Result<Args>) -> Result<Vec<String>, AllocError>
    ensures { WordsOf args result }
{
    match args {
        Ok(args) => without_first(alloc, args),
        Err(error) if is_want(&error) => Err(AllocError),
        Err(_) => Ok(Vec::new(alloc)),
    }
}
