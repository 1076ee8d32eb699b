//! Principals and their normal form (RFC 2704, section 4).
ghost use Rattle.std.specs.Prelude.{◌≡◌, ◌↔◌, ◌<◌, ◌≤◌, ℕ, [], ◌++◌, length, map, take, drop, codes, nat_eq, bytes_eq};
ghost use Rattle.std.specs.Prelude.{IfOk, IsOk};
ghost use Rattle.std.specs.List.{ends_with, position};
ghost use Rattle.std.specs.Result.{IsErrOf};
ghost use Rattle.kn_principal.specs.Principals.{lower_case, is_colon, normal_form};
ghost use Rattle.kn_principal.specs.PrincipalFaults.{principal_fault_number};

use kn_base::limits::PRINCIPAL_BYTES;
use kn_base::{NoMemory, Octets};
use std::alloc::Global;

/// The local policy, the one authorizer that needs no signature (RFC 2704, section 4, the Authorizer field).
pub const POLICY: &[u8] = b"POLICY";

/// Why a text isn't taken as a principal. The limit and the numbers are keynoted's own.
#[derive(Clone, Copy, PartialEq, Eq)]
pub enum PrincipalFault {
    /// Fault 1: the text is empty.
    Empty,
    /// Fault 2: the text has `len` bytes, more than a principal may have.
    TooLong { len: usize },
    /// Out of memory for the normal form.
    NoMemory,
}

impl PrincipalFault {
    /// The number of the fault. `NoMemory` has none.
    pub fn number(&self) -> Option<u8>
        ensures { result ≡ principal_fault_number self.now }
    {
        match self {
            PrincipalFault::Empty => Some(1),
            PrincipalFault::TooLong { .. } => Some(2),
            PrincipalFault::NoMemory => None,
        }
    }
}

impl From<NoMemory> for PrincipalFault {
    ghost use Rattle.std.specs.Prelude.{◌≡◌};
    ghost use Rattle.kn_principal.specs.declared.principal.PrincipalFault.TheVariants.{NoMemory};

    ghost from_gives = { λ _ e. e ≡ NoMemory };

    fn from(_none: NoMemory) -> PrincipalFault {
        PrincipalFault::NoMemory
    }
}

/// The normal form of a principal, by which principals are compared.
///
/// It is the principal with its algorithm, the part before the first colon, in lower case, and the rest
/// too where the algorithm then ends in `-hex`. A principal has 1 to 4,096 bytes (RFC 2704, section 5;
/// the limit and the letters without case are keynoted's own).
pub fn normal(alloc: Global, principal: &[u8]) -> Result<Octets, PrincipalFault>
    ensures ok { IfOk result (λ octets. octets ≡ normal_form principal.now) }
    ensures sized { IsOk result → (1 ≤ length principal.now) × (length principal.now ≤ 4096) }
    ensures empty { IsErrOf result PrincipalFault.Empty ↔ (principal.now ≡ []) }
    ensures too_long { (len : ℕ)
        → IsErrOf result (PrincipalFault.TooLong len) ↔ ((length principal.now ≡ len) × (4096 < len)) }
{
    if principal.is_empty() {
        return Err(PrincipalFault::Empty);
    }
    let len = principal.len();
    if len > PRINCIPAL_BYTES {
        return Err(PrincipalFault::TooLong { len });
    }
    let (caseless, rest) = principal.split_at(caseless_len(principal));
    Ok(lowered_in_front(alloc, caseless, rest)?)
}

/// Whether the normal form of the principal is this one. Takes no memory, and the time is linear.
pub fn same(principal: &[u8], normal: &[u8]) -> bool
    ensures { result ≡ bytes_eq (normal_form principal.now) normal.now }
{
    let len = caseless_len(principal);
    if normal.len() < len {
        return false;
    }
    let (caseless, rest) = principal.split_at(len);
    let (normal_caseless, normal_rest) = normal.split_at(len);
    lowers_to(caseless, normal_caseless) && rest == normal_rest
}

/// How many bytes at the front of a principal have no case.
fn caseless_len(principal: &[u8]) -> usize
    ensures form { normal_form principal.now ≡ map lower_case (take result principal.now) ++ drop result principal.now }
    ensures within { result ≤ length principal.now }
{
    let Some(at) = colon(principal) else {
        return 0;
    };
    let (algorithm, _rest) = principal.split_at(at);
    if is_hexadecimal(algorithm) {
        principal.len()
    } else {
        at
    }
}

/// The place of the first colon.
fn colon(text: &[u8]) -> Option<usize>
    ensures { result ≡ position is_colon text.now }
{
    text.iter().position(|byte| *byte == b':')
}

/// Whether the rest of a principal of this algorithm has no case either.
fn is_hexadecimal(algorithm: &[u8]) -> bool
    ensures { result ≡ ends_with nat_eq (map lower_case algorithm.now) (codes "-hex") }
{
    match algorithm.len().checked_sub(4) {
        Some(at) => lowers_to(algorithm.split_at(at).1, b"-hex"),
        None => false,
    }
}

/// Whether the text in lower case is the other one.
fn lowers_to(text: &[u8], lowered: &[u8]) -> bool
    ensures { result ≡ bytes_eq (map lower_case text.now) lowered.now }
{
    if text.len() != lowered.len() {
        return false;
    }
    for (byte, other) in text.iter().zip(lowered) {
        if lower_case(*byte) != *other {
            return false;
        }
    }
    true
}

/// The first part in lower case, followed by the rest.
fn lowered_in_front(alloc: Global, caseless: &[u8], rest: &[u8]) -> Result<Octets, NoMemory>
    ensures { IfOk result (λ octets. octets ≡ map lower_case caseless.now ++ rest.now) }
{
    let mut octets = Octets::new(alloc);
    for byte in caseless {
        octets.push(lower_case(*byte))?;
    }
    octets.extend(rest)?;
    Ok(octets)
}

fn lower_case(byte: u8) -> u8
    ensures { result ≡ lower_case byte }
{
    byte.to_ascii_lowercase()
}
