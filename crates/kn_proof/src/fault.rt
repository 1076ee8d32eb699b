//! The faults of a text that is no reply with a value.
ghost use Rattle.std.specs.Prelude.{◌≡◌};
ghost use Rattle.kn_proof.specs.Reading.{fault_number, fault_line};

/// Why a text is no `VALUE` reply: what is wrong with the first line that is wrong. Lines are counted from 1. The
/// faults, their numbers and their order are keynoted's own.
#[derive(Clone, Copy, PartialEq, Eq)]
pub enum ProofFault {
    /// Fault 1: line `n` isn't of its form, is missing, or stands behind `END`.
    Line { n: usize },
    /// Fault 2: a number in line `n` has more than nine digits, or a compliance value in it is above 255.
    Number { n: usize },
    /// Fault 3: there are `n` ROW lines, which isn't the number that line 1 tells.
    Count { n: usize },
    /// Out of memory for the parts of the reply.
    NoMemory,
}

impl ProofFault {
    /// The number of the fault, from 1 to 3. `NoMemory` has none.
    pub fn number(&self) -> Option<u8>
        ensures { result ≡ fault_number self.now }
    {
        match self {
            ProofFault::Line { .. } => Some(1),
            ProofFault::Number { .. } => Some(2),
            ProofFault::Count { .. } => Some(3),
            ProofFault::NoMemory => None,
        }
    }

    /// The `n` of the fault, a line or for `Count` the number of ROW lines. `NoMemory` has none.
    pub fn line(&self) -> Option<usize>
        ensures { result ≡ fault_line self.now }
    {
        match self {
            ProofFault::Line { n } | ProofFault::Number { n } | ProofFault::Count { n } => Some(*n),
            ProofFault::NoMemory => None,
        }
    }
}
