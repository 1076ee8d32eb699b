//! The outside as the system gives it: standard input and output, TCP connections, and files by their paths.
//!
//! No clause can tell what the system holds, so these tell of nothing but their faults and the names that were asked
//! for. Where a reader or a writer tells what it has, as one in memory does, a clause says what a call takes or writes
//! of it.
#![tactic(auto)]

mod gathered;
mod real_files;
mod retry;
mod std_link;
mod std_out;
mod tcp_link;

pub use real_files::RealFiles;
pub use std_link::StdLink;
pub use std_out::StdOut;
pub use tcp_link::TcpLink;
