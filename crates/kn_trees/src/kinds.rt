//! The kinds of expressions.
/// What an expression gives, by its form alone.
#[derive(Clone, Copy, PartialEq, Eq)]
pub enum Kind {
    /// True or false.
    Truth,
    /// A whole number.
    Whole,
    /// A text.
    Text,
}
