//! Faults of request lines and blocks.

/// Why bytes spell no request (keynoted's own protocol).
#[derive(Clone, Copy, PartialEq, Eq, Drop)]
pub enum WireFault {
    /// The line isn't of the form of its command.
    Syntax,
    /// The line's first word is no command.
    Command,
    /// The line has more than 8,192 bytes before its newline.
    Long,
    /// A block of `n` bytes is above the limit, or no newline follows it.
    Block { n: usize },
}
