//! What the words of the command line ask for: the command, the files that they name, and its numbers.
#![tactic(auto)]

mod file_words;
mod files;
mod gen_words;
mod service;
mod service_words;

pub use file_words::{ask_files, check_files, log_file, verify_files};
pub use files::{AskFiles, CheckFiles, Source, VerifyFiles};
pub use gen_words::{GenNumbers, gen_numbers};
pub use service::Service;
pub use service_words::{asks_to_serve, service_of, texts_of};
