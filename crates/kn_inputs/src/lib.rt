//! The files that a command reads: their content, the keys of a key file, and what stops a command at them.
#![tactic(auto)]

mod content;
mod input_fault;
mod keys;

pub use content::read_file;
pub use input_fault::InputFault;
pub use keys::keys_of;
