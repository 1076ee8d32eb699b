//! How a command ended, and the line that says so.
//!
//! Each ending has its exit status and its line, which may name a file. What stops a command before its work is done is
//! a part of most of them. Of `gen` there is the line alone.
#![tactic(auto)]

mod ask_ending;
mod ask_line;
mod check_ending;
mod check_line;
mod follow_ending;
mod follow_line;
mod gen_line;
mod line;
mod verify_ending;
mod verify_line;

pub use ask_ending::AskEnding;
pub use ask_line::print_ask;
pub use check_ending::CheckEnding;
pub use check_line::print_check;
pub use follow_ending::FollowEnding;
pub use follow_line::print_follow;
pub use gen_line::print_gen;
pub use line::{print_all, print_line};
pub use verify_ending::VerifyEnding;
pub use verify_line::print_verify;
