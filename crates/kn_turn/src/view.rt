//! What a seat of the turn's table knows. No value of these types is made: they are for proofs alone.
use std::collections::LinkedList;

/// How far a pass is with its turn.
pub enum Stage {
    /// It has no ticket.
    Idle,
    /// It drew a ticket.
    Waits,
    /// Its ticket is served, and the value is still at home.
    Served,
    /// It has the value, or has brought it back and not yet passed the turn on.
    Holds,
}

/// A pass that was joined into another: its number, its entries, and the lengths at which it had the turn.
pub struct EndedPass<E> {
    pub number: u32,
    pub mine: LinkedList<E>,
    pub stops: LinkedList<u32>,
}

/// What a seat knows: of its pass, of the entries that its pass has seen, and of the passes that ended in it.
pub struct View<E> {
    /// False for a note, which carries a list from one pass to another, and for what a joined pass leaves.
    pub live: bool,
    /// The number of the pass: 0 for the root, and else which split made it.
    pub number: u32,
    /// How far the pass is with its turn.
    pub stage: Stage,
    /// The ticket that it drew last.
    pub ticket: u64,
    /// The list of the value that is out, as it is to come home.
    pub taken: LinkedList<E>,
    /// The entries that it has seen, the first ones of the history.
    pub seen: LinkedList<E>,
    /// What a pass that was just joined had seen, until the next look at the front.
    pub old: LinkedList<E>,
    /// The entries that it made itself, in their order.
    pub mine: LinkedList<E>,
    /// For each turn that it had, how many entries it had seen at its end.
    pub stops: LinkedList<u32>,
    /// How many passes were split from it.
    pub splits: u32,
    /// The passes that were joined into it, each behind those that were joined into that one.
    pub ended: LinkedList<EndedPass<E>>,
}
