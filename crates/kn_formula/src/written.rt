//! Formulas as they are written, with names that are no texts yet.
use kn_base::{List, Octets};

/// A principal as it is written (RFC 2704, section 4, the Licensees field).
#[derive(Drop)]
pub enum Principal {
    /// The value of a literal.
    Literal(Octets),
    /// A name without quotes.
    Name(Octets),
}

/// How many of several parts must support a request.
#[derive(Clone, Copy, PartialEq, Eq)]
pub enum Rule {
    /// All of them.
    All,
    /// One of them.
    Any,
    /// So many of them; 0 where the number isn't one that a threshold may have.
    AtLeast(u32),
}

/// A formula as it is written: its principals are no texts yet, and nothing is known of its thresholds.
#[derive(Drop)]
pub enum Written {
    /// A principal.
    Who(Principal),
    /// Several parts under a rule.
    Several { rule: Rule, parts: List<Written> },
}
