//! Standing queries: the least levels of a system, kept while its rows change.
#![tactic(auto)]

mod affected;
mod changed;
pub mod laws;
mod raising;
mod refreshing;
mod unaffected;
mod watched;

pub use changed::Changed;
pub use refreshing::{begin, refresh};
pub use unaffected::is_unaffected;
pub use watched::Watched;
