//! The sessions of one connection (keynote(3)): what each holds, and the calls that change it.
//!
//! Each call is its line of the sequential specification on the session that it names, and leaves all others as they
//! were. Numbers of sessions, and ids of private assertions within a session, are given once.
#![tactic(auto)]

mod call;
mod fault;
pub mod laws;
mod session;
mod sessions;
mod standing;
mod view;

pub use call::{Applied, Call};
pub use fault::{CallFault, SessionFault};
pub use sessions::Sessions;
pub use standing::StandingQuery;
pub use view::{Private, View};
