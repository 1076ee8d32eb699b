//! The line protocol's replies as text (keynoted's own).
//!
//! `print` writes exactly a reply's text, without memory, in few writes. The definitions stand in `specs/`, with worked
//! examples. Requests are kn_wire's.
#![tactic(auto)]

pub mod laws;
mod log_printing;
mod number_printing;
mod printer;
mod printing;
mod refusal;
mod reply;
mod value_printing;
pub mod worked;

pub use printing::print;
pub use refusal::{ItemRefusal, LimitWord, Refusal};
pub use reply::Reply;
