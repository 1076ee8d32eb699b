//! Principals (RFC 2704, section 5): their normal form, by which they are compared.
#![tactic(auto)]

pub mod laws;
mod principal;

pub use principal::{POLICY, PrincipalFault, normal, same};
