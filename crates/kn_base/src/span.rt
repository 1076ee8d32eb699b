//! Places in a text.
/// The bytes of a text from `start` up to, and without, `end`, both counted from 0.
#[derive(Clone, Copy, PartialEq, Eq)]
pub struct Span {
    pub start: u32,
    pub end: u32,
}
