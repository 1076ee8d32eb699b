//! The faults of a text that is no assertion.
ghost use Rattle.std.specs.Prelude.{◌≡◌};
ghost use Rattle.kn_fields.specs.Faults.{of_lexical};
ghost use Rattle.kn_fields.specs.Numbers.{fault_code, fault_number, fault_place};

use kn_lex::LexFault;
use std::fmt;

/// Why a text is no assertion, in the order in which faults are answered. `at` is a place in bytes from the
/// beginning of the text, and `field` the number of a field: 1 is Authorizer, 3 Conditions, 5 Licensees and
/// 7 Signature. The faults, their numbers and their order are keynoted's own.
#[derive(Clone, Copy, PartialEq, Eq)]
pub enum ReadFault {
    /// Fault 1: a byte 0, or a byte from 128 on outside literals, comments and bodies.
    NotText { at: u32 },
    /// Fault 2: the opening quote of a literal that isn't closed.
    BadString { at: u32 },
    /// Fault 3: no token, white space or comment begins here.
    BadToken { at: u32 },
    /// Fault 4: `&` alone, or a number with a fraction.
    Float { at: u32 },
    /// Fault 5: `~=`.
    Regex { at: u32 },
    /// Fault 6: a number above 2147483647.
    Number { at: u32 },
    /// Fault 7: a blank line within the assertion.
    Blank { at: u32 },
    /// Fault 8: the text has `len` bytes, more than 16,384.
    TooLong { len: usize },
    /// Fault 9: a token where a field's label must stand, and that is none.
    BadField { at: u32 },
    /// Fault 10: the label of a field that stood before.
    FieldTwice { at: u32 },
    /// Fault 11: a version that isn't the first field, or a label behind a signature.
    FieldOrder { at: u32 },
    /// Fault 12: there is no Authorizer field.
    NoAuthorizer,
    /// Fault 13: the label of a version that isn't 2.
    Version { at: u32 },
    /// Fault 14: a token of Local-Constants that can't stand there, or the label where the list breaks off.
    Constant { at: u32 },
    /// Fault 15: the field has more than 64 open brackets, or more than 8 prefix signs in a row.
    TooDeep { field: u8 },
    /// Fault 16: the field's tokens spell nothing of its grammar.
    Syntax { field: u8 },
    /// Fault 17: an expression has no kind, or not the one that it needs.
    Kind { field: u8 },
    /// Fault 18: a threshold begins with the digit 0, or is above the length of its list.
    Threshold { field: u8 },
    /// Fault 19: a principal is a name without a value, is empty or has more than 4,096 bytes.
    Name { field: u8 },
    /// Out of memory for the assertion.
    NoMemory,
}

impl ReadFault {
    /// The number of the fault, from 1 to 19, and the place that is given with it. `NoMemory` has none.
    fn code(&self) -> Option<(u8, usize)>
        ensures { result ≡ fault_code self.now }
    {
        match self {
            ReadFault::NotText { at } => Some((1, *at as usize)),
            ReadFault::BadString { at } => Some((2, *at as usize)),
            ReadFault::BadToken { at } => Some((3, *at as usize)),
            ReadFault::Float { at } => Some((4, *at as usize)),
            ReadFault::Regex { at } => Some((5, *at as usize)),
            ReadFault::Number { at } => Some((6, *at as usize)),
            ReadFault::Blank { at } => Some((7, *at as usize)),
            ReadFault::TooLong { len } => Some((8, *len)),
            ReadFault::BadField { at } => Some((9, *at as usize)),
            ReadFault::FieldTwice { at } => Some((10, *at as usize)),
            ReadFault::FieldOrder { at } => Some((11, *at as usize)),
            ReadFault::NoAuthorizer => Some((12, 0)),
            ReadFault::Version { at } => Some((13, *at as usize)),
            ReadFault::Constant { at } => Some((14, *at as usize)),
            ReadFault::TooDeep { field } => Some((15, *field as usize)),
            ReadFault::Syntax { field } => Some((16, *field as usize)),
            ReadFault::Kind { field } => Some((17, *field as usize)),
            ReadFault::Threshold { field } => Some((18, *field as usize)),
            ReadFault::Name { field } => Some((19, *field as usize)),
            ReadFault::NoMemory => None,
        }
    }

    /// The number of the fault, from 1 to 19. `NoMemory` has none.
    pub fn number(&self) -> Option<u8>
        ensures { result ≡ fault_number self.now }
    {
        let (number, _) = self.code()?;
        Some(number)
    }

    /// The place that is given with the fault: `at`, the number of the field, the length of a text that is too
    /// long, and 0 where there is none.
    pub fn place(&self) -> usize
        ensures { result ≡ fault_place self.now }
    {
        match self.code() {
            Some((_, place)) => place,
            None => 0,
        }
    }
}

/// The fault by its number and its place, as `ReadFault(Some(9), 120)`.
impl fmt::Debug for ReadFault {
    fn fmt<W: fmt::Write>(&self, f: &mut fmt::Formatter<W>) -> fmt::Result {
        f.debug_tuple("ReadFault")
            .field(&self.number())
            .field(&self.place())
            .finish()
    }
}

impl From<LexFault> for ReadFault {
    ghost from_gives = { λ cause fault. fault ≡ of_lexical cause };

    fn from(cause: LexFault) -> ReadFault {
        match cause {
            LexFault::NotText { at } => ReadFault::NotText { at },
            LexFault::BadString { at } => ReadFault::BadString { at },
            LexFault::BadToken { at } => ReadFault::BadToken { at },
            LexFault::Float { at } => ReadFault::Float { at },
            LexFault::Regex { at } => ReadFault::Regex { at },
            LexFault::Number { at } => ReadFault::Number { at },
            LexFault::Blank { at } => ReadFault::Blank { at },
            LexFault::NoMemory => ReadFault::NoMemory,
        }
    }
}

impl From<kn_base::NoMemory> for ReadFault {
    ghost use Rattle.kn_fields.specs.declared.fault.ReadFault.TheVariants.{NoMemory};

    ghost from_gives = { λ _ fault. fault ≡ NoMemory };

    fn from(_none: kn_base::NoMemory) -> ReadFault {
        ReadFault::NoMemory
    }
}
