//! What keynoted's answers mean: the equations of RFC 2704 over named principals, their least solution, and proofs
//! of it.
//!
//! The definitions stand in `specs/`. Here are plain slow programs that compute them, and worked examples.
#![tactic(auto)]

pub mod plain;
pub mod worked;
