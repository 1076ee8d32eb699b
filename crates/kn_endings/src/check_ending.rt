//! How checking a reply ends.
ghost use Rattle.std.specs.Prelude.{◌≡◌};

use kn_base::Octets;
use kn_check::Reject;
use kn_inputs::InputFault;
use kn_words::Source;

/// Why checking a reply ends.
#[derive(Drop)]
pub enum CheckEnding {
    /// This file could not be read, or the policy in it could not be loaded.
    Stopped { source: Source, stop: InputFault },
    /// The script has no query that is answered.
    NoQuery,
    /// The text of the reply has the fault of this number in this line, counted from 1; of a wrong count of rows,
    /// `line` is the number of ROW lines.
    Faulty { fault: u8, line: usize },
    /// The rows prove no such value: the first item that fails.
    Rejected(Reject),
    /// The rows prove that the query has this value, counted from the lowest, 0, of this name.
    Proved { value: u8, name: Octets },
}

impl CheckEnding {
    ghost use Rattle.kn_endings.specs.CheckEndings.{status_of_check};

    /// The exit status.
    pub fn status(&self) -> u8
        ensures { result ≡ status_of_check self.now }
    {
        match self {
            CheckEnding::Stopped { stop, .. } => stop.status(),
            CheckEnding::NoQuery => 10,
            CheckEnding::Faulty { .. } | CheckEnding::Rejected(_) => 6,
            CheckEnding::Proved { .. } => 0,
        }
    }
}
