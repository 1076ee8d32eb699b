//! The definitions behind a served connection, worked out on small examples: what a name, an expression, a program, a
//! formula, a call, a request, a reply and a limit mean. There is no program here, and nothing stands on this crate: it
//! shows that these definitions mean what they are meant to.
#![tactic(auto)]

pub mod calls;
pub mod environment;
pub mod expressions;
pub mod formulas;
pub mod histories;
pub mod kinds;
pub mod programs;
pub mod replies;
pub mod requests;
pub mod standing;
