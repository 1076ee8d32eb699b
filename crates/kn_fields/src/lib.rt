//! The fields of an assertion (RFC 2704, section 4), between its tokens and its trees.
#![tactic(auto)]

mod constants;
mod cursor;
mod depth;
mod fault;
mod field_list;
mod field_span;
mod grammar_fault;
mod heading;
mod label;
mod label_faults;
pub mod laws;
mod reader;
mod version;

pub use cursor::Cursor;
pub use depth::goes_deep;
pub use fault::ReadFault;
pub use field_list::Fields;
pub use field_span::FieldSpan;
pub use grammar_fault::GrammarFault;
pub use heading::{Heading, LabelledTokens};
pub use label::{AUTHORIZER, CONDITIONS, LICENSEES, SIGNATURE};
pub use reader::fields;
