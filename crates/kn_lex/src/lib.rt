//! The tokens of an assertion's text (RFC 2704, section 4), or the first lexical fault of it.
#![tactic(auto)]

mod bytes;
mod escapes;
mod fault;
pub mod laws;
mod lexeme;
mod lexer;
mod place_faults;
mod quote;
mod scan;
mod token;

pub use escapes::literal;
pub use fault::LexFault;
pub use lexeme::is_comment_label;
pub use lexer::tokens;
pub use place_faults::goes_on;
pub use quote::{Quote, Step, quote_step};
pub use scan::{is_blank, is_continuation, line_len};
pub use token::{Sort, Token, Tokens};
