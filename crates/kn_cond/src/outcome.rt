//! What an expression gives.
use crate::texts::Text;

/// What an expression gives.
#[derive(Drop)]
pub(crate) enum Outcome<'e> {
    Truth(bool),
    Whole(i32),
    Text(Text<'e>),
    Fault,
}
