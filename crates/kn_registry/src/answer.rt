//! What calls of the registry answer.

/// What a batch answers.
#[derive(Clone, Copy, PartialEq, Eq, Drop)]
pub struct Batched {
    /// The number of additions before the batch, plus 1: the id of its first addition, where it has one.
    pub first: u32,
    /// The number of its additions.
    pub added: u32,
    /// The number of updates with it.
    pub version: u32,
}

/// Why an older version isn't given.
#[derive(Clone, Copy, PartialEq, Eq, Drop)]
pub enum PinFault {
    /// The version isn't retained: it is above the newest, whose number is given, or too far below it.
    Missing { newest: u32 },
    /// Out of memory.
    NoMemory,
}
