//! How `serve` ends.
ghost use Rattle.std.specs.Prelude.{◌≡◌};

use kn_inputs::InputFault;
use kn_workers::AddressEnding;

/// Why `serve` ends.
#[derive(Clone, Copy, PartialEq, Eq)]
pub(crate) enum ServeEnding {
    /// The policy file could not be read or loaded.
    PolicyStopped(InputFault),
    /// The key file could not be read.
    KeysStopped(InputFault),
    /// The address was served so.
    Ended(AddressEnding),
}

impl ServeEnding {
    ghost use Rattle.keynoted.specs.ServeEndings.{status_of_serve};

    /// The exit status.
    pub(crate) fn status(self) -> u8
        ensures { result ≡ status_of_serve self }
    {
        match self {
            ServeEnding::PolicyStopped(stop) | ServeEnding::KeysStopped(stop) => stop.status(),
            ServeEnding::Ended(ending) => match ending {
                AddressEnding::BindMemory | AddressEnding::WorkMemory => 5,
                AddressEnding::Unbound | AddressEnding::DoorFailed => 7,
                AddressEnding::Served { .. } => 0,
            },
        }
    }
}
