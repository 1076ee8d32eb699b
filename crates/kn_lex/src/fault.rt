//! The lexical faults and their numbers.

ghost use Rattle.std.specs.Prelude.{◌≡◌};
ghost use Rattle.kn_lex.specs.Faults.{fault_number};

/// Why a text has no tokens. `at` is the place of the fault, in bytes from the beginning of the text.
/// The faults and their order are keynoted's own.
#[derive(Clone, Copy, PartialEq, Eq)]
pub enum LexFault {
    /// Fault 1: byte 0, or a byte above 127 outside literals, comments and bodies.
    NotText { at: u32 },
    /// Fault 2: the opening quote of a literal that isn't closed.
    BadString { at: u32 },
    /// Fault 3: a byte where no token, white space or comment begins.
    BadToken { at: u32 },
    /// Fault 4: a single `&`, or a number with a fraction. There are no floats.
    Float { at: u32 },
    /// Fault 5: `~=`. There are no regular expressions.
    Regex { at: u32 },
    /// Fault 6: a number above 2147483647.
    Number { at: u32 },
    /// Fault 7: a blank line between tokens.
    Blank { at: u32 },
    /// Out of memory for the tokens.
    NoMemory,
}

impl LexFault {
    /// The number of the fault. `NoMemory` has none.
    pub fn number(&self) -> Option<u8>
        ensures { result ≡ fault_number self.now }
    {
        match self {
            LexFault::NotText { .. } => Some(1),
            LexFault::BadString { .. } => Some(2),
            LexFault::BadToken { .. } => Some(3),
            LexFault::Float { .. } => Some(4),
            LexFault::Regex { .. } => Some(5),
            LexFault::Number { .. } => Some(6),
            LexFault::Blank { .. } => Some(7),
            LexFault::NoMemory => None,
        }
    }
}
