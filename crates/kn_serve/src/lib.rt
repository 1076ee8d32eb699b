//! Serving connections: the requests of a link are answered in their order, over a registry and a pass.
//!
//! Each connection is served as by one thread over one history of updates, whatever other callers do meanwhile.
#![tactic(auto)]

mod admin;
mod admission;
mod answering;
mod calling;
mod config;
mod connection;
mod filling;
mod last_question;
mod log;
mod opening;
mod querying;
mod refusals;
mod serving;
mod step;
mod updates;
mod watching;

pub use kn_daemon::ended::Ended;
pub use serving::{serve_connection, serve_with_base};
