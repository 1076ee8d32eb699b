//! How verifying a transcript ends.
ghost use Rattle.std.specs.Prelude.{◌≡◌};
ghost use Rattle.kn_endings.specs.VerifyEndings.{status_of_transcript};

use kn_inputs::InputFault;
use kn_transcript::TranscriptFault;

/// Why `verify` ends.
#[derive(Clone, Copy, PartialEq, Eq)]
pub enum VerifyEnding {
    /// The policy file could not be read or loaded.
    PolicyStopped(InputFault),
    /// The file of the script could not be read.
    ScriptStopped(InputFault),
    /// The file of the replies could not be read.
    RepliesStopped(InputFault),
    /// The transcript isn't accepted, or memory ran out.
    Faulty(TranscriptFault),
    /// It is accepted: `answers` replies give a value, and there are `version` updates behind it.
    Verified { answers: u32, version: u32 },
}

impl VerifyEnding {
    ghost use Rattle.kn_endings.specs.VerifyEndings.{status_of_verify};

    /// The exit status.
    pub fn status(self) -> u8
        ensures { result ≡ status_of_verify self }
    {
        match self {
            VerifyEnding::PolicyStopped(stop)
            | VerifyEnding::ScriptStopped(stop)
            | VerifyEnding::RepliesStopped(stop) => stop.status(),
            VerifyEnding::Faulty(fault) => fault_status(fault),
            VerifyEnding::Verified { .. } => 0,
        }
    }
}

fn fault_status(fault: TranscriptFault) -> u8
    ensures { result ≡ status_of_transcript fault }
{
    match fault {
        TranscriptFault::Missing { .. }
        | TranscriptFault::Text { .. }
        | TranscriptFault::Wrong { .. }
        | TranscriptFault::Rest { .. }
        | TranscriptFault::Foreign { .. } => 12,
        TranscriptFault::NoMemory => 5,
    }
}
