//! Formulas of licensees as trees.
use kn_base::{List, Octets};

/// Which principals must support a request for an assertion to do so (RFC 2704, section 4, the
/// Licensees field). A part that is repeated counts as often as it is written.
#[derive(Drop)]
pub enum Formula {
    /// This principal, in normal form.
    Who(Octets),
    /// All of these.
    All(List<Formula>),
    /// At least one of these.
    Any(List<Formula>),
    /// At least `need` of these.
    Threshold { need: u32, list: List<Formula> },
}
