//! Laws of least levels, of proofs and of playing over named principals, each of them the contract of a function that
//! does nothing, and a plain slow program that follows a proof. They show that the definitions of `kn_meaning` mean
//! what they are meant to, and other crates prove their contracts by some of the laws.
#![tactic(auto)]

pub mod laws;
pub mod plain;
