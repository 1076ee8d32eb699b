//! Loading texts: the root pass of a new registry adds them in their order, up to the first that has a fault or
//! is refused.
#![tactic(auto)]

mod fault;
mod load;
mod read_results;
mod read_texts;

pub use fault::LoadFault;
pub use load::{load_file, load_texts};
