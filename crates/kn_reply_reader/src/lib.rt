//! The reader of the text of a reply: where one ends in bytes that may go on behind it (keynoted's own).
//!
//! `begins_with_reply` tells whether the text of any reply begins bytes. `read_value` takes a `VALUE` reply apart, and
//! gives what is left behind it. Which texts replies may have is defined in `specs/Texts.antt`. A law says that none
//! begins another. What a reply means, and whether it is right, this reader doesn't know.
#![tactic(auto)]

mod ending;
mod forms;
pub mod laws;
mod logs;
mod numerals;
mod replies;
mod value_reply;

pub use replies::begins_with_reply;
pub use value_reply::{ValueReply, read_value};
