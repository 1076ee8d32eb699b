//! The words of the command line.
ghost use Rattle.std.specs.Prelude.{◌≡◌, IfOk, drop, map, string_bytes};
ghost use Rattle.std.specs.Vec.Iter.{into_iter_items};

use kn_base::{List, NoMemory, Octets};
use std::alloc::Global;
use std::env::{self, Args};
use std::io::ErrorKind;

/// The words after the program's name. There are none where one of them isn't UTF-8, and no command is
/// spelled so.
pub(crate) fn words(rt: &HostRuntime) -> Result<List<Octets>, NoMemory> {
    match env::args(rt) {
        Ok(args) => behind_first(rt.alloc(), args),
        Err(error) if error.kind() == ErrorKind::OutOfMemory => Err(NoMemory),
        Err(_) => Ok(List::new(rt.alloc())),
    }
}

/// The texts behind the first, as bytes.
fn behind_first(alloc: Global, texts: Args) -> Result<List<Octets>, NoMemory>
    ensures { IfOk result (λ words. words ≡ map string_bytes (drop 1 (into_iter_items texts))) }
{
    let mut texts = texts;
    let _program = texts.next();
    let mut words = List::new(alloc);
    for text in texts {
        let word = Octets::from_slice(alloc, text.as_bytes())?;
        words.add(word)?;
    }
    Ok(words)
}
