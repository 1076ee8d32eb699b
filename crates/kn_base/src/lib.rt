//! What every crate of keynoted stands on: lists, octets, spans, counted steps, cut texts and the limits.
#![tactic(auto)]

mod boxed;
pub mod laws;
pub mod limits;
mod list;
mod memory;
mod number;
mod octets;
mod reserved;
mod span;
mod steps;
pub mod text;

pub use boxed::Boxed;
pub use list::List;
pub use memory::NoMemory;
pub use number::{decimal, digits_within};
pub use octets::Octets;
pub use reserved::Reserved;
pub use span::Span;
pub use steps::Steps;
