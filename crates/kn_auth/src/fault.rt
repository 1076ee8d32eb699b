//! Why a text isn't admitted, and why a key file isn't read. Both and their numbers are keynoted's own.
ghost use Rattle.std.specs.Prelude.{◌≡◌};

use thiserror::Error;

/// Why a text isn't admitted, in the order in which it is tried.
#[derive(Debug, Clone, Copy, PartialEq, Eq, Error)]
pub enum AuthFault {
    /// Fault 1: the text has no signature.
    #[error("the credential isn't signed")]
    Unsigned,
    /// Fault 2: the signature is of another algorithm than `sig-hmac-sha256-hex`.
    #[error("the signature is of another algorithm")]
    Algorithm,
    /// Fault 3: the authorizer has no key.
    #[error("the authorizer has no key")]
    Key,
    /// Fault 4: the signature isn't the code of the text under the authorizer's key.
    #[error("the signature is wrong")]
    Mac,
    /// Fault 5: the digest of the text isn't listed.
    #[error("the credential isn't listed")]
    NotListed,
}

impl AuthFault {
    ghost use Rattle.std.specs.Prelude.{◌≡◌};
    ghost use Rattle.kn_auth.specs.Numbers.{number_of};

    /// The number of the fault, from 1 to 5.
    pub fn number(self) -> u8
        ensures { result ≡ number_of self }
    {
        match self {
            AuthFault::Unsigned => 1,
            AuthFault::Algorithm => 2,
            AuthFault::Key => 3,
            AuthFault::Mac => 4,
            AuthFault::NotListed => 5,
        }
    }
}

/// Why a key file isn't read.
#[derive(Debug, Clone, Copy, PartialEq, Eq, Error)]
pub enum KeyFault {
    /// Fault 1: line `line`, counted from 1, is malformed, and none before it.
    #[error("line {line} of the key file is malformed")]
    Line { line: usize },
    /// Out of memory for what the file says.
    #[error("out of memory for the key file")]
    NoMemory,
}

impl From<kn_base::NoMemory> for KeyFault {
    ghost use Rattle.std.specs.Prelude.{◌≡◌};
    ghost use Rattle.kn_auth.specs.declared.fault.KeyFault.TheVariants.{NoMemory};

    ghost from_gives = { λ _ e. e ≡ NoMemory };

    fn from(_none: kn_base::NoMemory) -> KeyFault {
        KeyFault::NoMemory
    }
}
