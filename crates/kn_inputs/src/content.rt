//! Reading the files of a command.
ghost use Rattle.std.specs.Prelude.{◌∷◌, [], OnOk, IfOk, IfErr};
ghost use Rattle.kn_outside.specs.Asked.{HasAsked};
ghost use Rattle.kn_inputs.specs.Held.{HasContent};
ghost use Rattle.kn_inputs.specs.Stopping.{IsUnread};

use crate::input_fault::InputFault;
use kn_base::Octets;
use kn_outside::{FileFault, Files};

/// The content of the file of this name. The fault says why there is none: the file can't be read or is too large, or
/// memory ran out.
pub fn read_file<F: Files>(files: &mut F, name: &[u8]) -> Result<Octets, InputFault>
    ensures content { IfOk result (λ bytes. HasContent (F.seen files.old) name.now bytes) }
    ensures asked { OnOk result (HasAsked (name.now ∷ []) (F.seen files.old) (F.seen files.new)) }
    ensures err { IfErr result (λ stop. IsUnread (F.seen files.old) (F.seen files.new) name.now stop) }
{
    match files.read(name) {
        Ok(bytes) => Ok(bytes),
        Err(FileFault::Failed) => Err(InputFault::FileFailed),
        Err(FileFault::TooLarge) => Err(InputFault::FileTooLarge),
        Err(FileFault::NoMemory) => Err(InputFault::Memory),
    }
}
