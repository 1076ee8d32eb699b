//! The key file of a command.
ghost use Rattle.std.specs.Prelude.{◌∷◌, [], Some, IsSomeAnd, OnOk, IfOk, IfErr};
ghost use Rattle.std.specs.Prelude.{option_map, option_to_list};
ghost use Rattle.kn_outside.specs.Asked.{HasAsked};
ghost use Rattle.kn_inputs.specs.Held.{AreKeys};
ghost use Rattle.kn_inputs.specs.Inputs.{StopsAtKeys};

use crate::content::read_file;
use crate::input_fault::InputFault;
use kn_auth::{KeyFault, KeyFile, read_keys};
use kn_outside::Files;
use std::alloc::Global;

/// What the key file of this name says; where none is named, no key and no digest is known, and the secret is empty.
/// The fault says why there is none: the file can't be read or is too large, a line of it is malformed, or memory ran
/// out.
pub fn keys_of<F: Files>(
    alloc: Global,
    name: Option<&[u8]>,
    files: &mut F,
) -> Result<KeyFile, InputFault>
    ensures known { IfOk result (λ keys. AreKeys (F.seen files.old) (option_map (λ n. n.now) name.entry) keys) }
    ensures asked { OnOk result (HasAsked (option_to_list (option_map (λ n. n.now) name.entry))
        (F.seen files.old) (F.seen files.new)) }
    ensures err { IfErr result (λ stop. IsSomeAnd (option_map (λ n. n.now) name.entry)
        (λ n. StopsAtKeys (F.seen files.old) (F.seen files.new) [] n stop)) }
{
    match name {
        Some(name) => read_key_file(alloc, name, files),
        None => Ok(KeyFile::empty(alloc)),
    }
}

/// What the key file of this name says.
fn read_key_file<F: Files>(alloc: Global, name: &[u8], files: &mut F) -> Result<KeyFile, InputFault>
    ensures known { IfOk result (λ keys. AreKeys (F.seen files.old) (Some name.now) keys) }
    ensures asked { OnOk result (HasAsked (name.now ∷ []) (F.seen files.old) (F.seen files.new)) }
    ensures err { IfErr result (λ stop. StopsAtKeys (F.seen files.old) (F.seen files.new) [] name.now stop) }
{
    let text = read_file(files, name)?;
    match read_keys(alloc, text.as_slice()) {
        Ok(keys) => Ok(keys),
        Err(KeyFault::Line { line }) => Err(InputFault::KeyLine { line }),
        Err(KeyFault::NoMemory) => Err(InputFault::Memory),
    }
}
