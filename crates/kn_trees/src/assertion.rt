//! Assertions as trees.
use crate::formula::Formula;
use crate::program::Program;
use kn_base::{List, Octets};
use kn_env::Constant;

/// An assertion.
pub struct Assertion {
    /// The principal who states it, in normal form.
    pub authorizer: Octets,
    /// Its local constants in the order of the text, with names that differ.
    pub constants: List<Constant>,
    /// Whom it licenses; None where the field is missing or empty.
    pub licensees: Option<Formula>,
    /// Under which conditions; None where the field is missing or empty.
    pub conditions: Option<Program>,
    /// The value of its signature; None where the field is missing.
    pub signature: Option<Octets>,
    /// How many bytes of the text a signature covers: up to the signature's label, or all.
    pub signed_to: u32,
}

// Written out, so that a crate that drops an assertion rests on this proof, and proves none for all that it holds.
impl Drop for Assertion {
    fn drop(self) {
        let Assertion {
            authorizer,
            constants,
            licensees,
            conditions,
            signature,
            signed_to: _,
        } = self;
    }
}
