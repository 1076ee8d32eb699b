//! A gate before each reply, for tests.
use std::sync::Wait;

/// What is passed before each reply, as a test wants it. Nothing is claimed of it.
pub trait Gate: Sync {
    /// Called once before the `n`-th reply of a connection is written, with the number of the caller.
    fn before_reply<R: Wait>(&self, rt: &R, caller: u32, n: u32);
}

/// The gate that is always open.
#[derive(Clone, Copy)]
pub struct Passing;

impl Gate for Passing {
    fn before_reply<R: Wait>(&self, _rt: &R, _caller: u32, _n: u32) {}
}
