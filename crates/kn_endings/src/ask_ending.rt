//! How serving a link over a policy ends.
ghost use Rattle.std.specs.Prelude.{◌≡◌};
ghost use Rattle.kn_endings.specs.AskEndings.{status_of_ended};

use kn_daemon::ended::Ended;
use kn_inputs::InputFault;

/// Why `ask` ends.
#[derive(Clone, Copy, PartialEq, Eq)]
pub enum AskEnding {
    /// The policy file could not be read or loaded.
    PolicyStopped(InputFault),
    /// The key file could not be read.
    KeysStopped(InputFault),
    /// The link was served, and its connection ended so.
    Served(Ended),
}

impl AskEnding {
    ghost use Rattle.kn_endings.specs.AskEndings.{status_of_ask};

    /// The exit status.
    pub fn status(self) -> u8
        ensures { result ≡ status_of_ask self }
    {
        match self {
            AskEnding::PolicyStopped(stop) | AskEnding::KeysStopped(stop) => stop.status(),
            AskEnding::Served(ended) => ended_status(ended),
        }
    }
}

fn ended_status(ended: Ended) -> u8
    ensures { result ≡ status_of_ended ended }
{
    match ended {
        Ended::Done => 0,
        Ended::Memory => 5,
        Ended::ReadFault
        | Ended::WriteFault
        | Ended::Cut { .. }
        | Ended::Block { .. }
        | Ended::Budget => 4,
    }
}
