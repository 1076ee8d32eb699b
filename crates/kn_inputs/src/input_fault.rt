//! What stops a command.
ghost use Rattle.std.specs.Prelude.{◌≡◌};

use kn_fields::ReadFault;
use kn_history::StoreFault;
use kn_load::LoadFault;
use kn_reply::LimitWord;

/// What stops a command before its work is done.
#[derive(Clone, Copy, PartialEq, Eq)]
pub enum InputFault {
    /// The words are those of no command.
    Words,
    /// The file could not be read.
    FileFailed,
    /// The file is larger than any that is read.
    FileTooLarge,
    /// The assertion of this number in the policy file, counted from 1, has this fault.
    Policy {
        assertion: u32,
        fault: ReadFault,
    },
    /// A limit of the shared credentials refuses the assertion of this number in the policy file, counted from 1.
    /// `count` is the counted quantity before it.
    Limit {
        assertion: u32,
        word: LimitWord,
        count: u32,
    },
    /// The line of this number in the key file, counted from 1, is its first malformed one.
    KeyLine {
        line: usize,
    },
    /// Out of memory.
    Memory,
}

impl InputFault {
    ghost use Rattle.kn_inputs.specs.InputFaults.{status_of};

    /// The exit status.
    pub fn status(self) -> u8
        ensures { result ≡ status_of self }
    {
        match self {
            InputFault::Words => 1,
            InputFault::FileFailed | InputFault::FileTooLarge => 2,
            InputFault::Policy { .. } | InputFault::Limit { .. } => 3,
            InputFault::KeyLine { .. } => 8,
            InputFault::Memory => 5,
        }
    }
}

impl From<LoadFault> for InputFault {
    ghost use Rattle.std.specs.Prelude.{◌≡◌};
    ghost use Rattle.kn_inputs.specs.InputFaults.{input_fault_of};

    ghost from_gives = { λ fault stop. stop ≡ input_fault_of fault };

    fn from(fault: LoadFault) -> InputFault {
        let (assertion, refusal) = match fault {
            LoadFault::Faulty { assertion, fault } => return InputFault::Policy {
                assertion,
                fault,
            },
            LoadFault::Full { assertion, refusal } => (assertion, refusal),
            LoadFault::NoMemory => return InputFault::Memory,
        };
        let (word, count) = match refusal {
            StoreFault::LiveFull { count } => (LimitWord::Live, count),
            StoreFault::BytesFull { bytes } => (LimitWord::LiveBytes, bytes),
            StoreFault::HistoryFull { updates } => (LimitWord::Updates, updates),
            StoreFault::LogFull { bytes } => (LimitWord::LogBytes, bytes),
            // what loading tells is one of the limits, so these don't come
            StoreFault::Unknown { .. } | StoreFault::NoMemory => return InputFault::Memory,
        };
        InputFault::Limit {
            assertion,
            word,
            count,
        }
    }
}
