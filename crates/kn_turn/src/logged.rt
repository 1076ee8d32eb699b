//! What lies under a turn: a list of entries, each made by one caller.
ghost use Rattle.std.specs.Prelude.{◌≡◌, ℕ, List, length};

/// A value that is seen as the list of its entries, the first numbered 0.
pub trait Logged: Drop {
    type Entry;

    /// The entries.
    ghost log: { Self → List Self.Entry };

    /// The number of the pass that an entry names.
    ghost by: { Self.Entry → ℕ };

    /// How many entries there are.
    fn length(&self) -> u32
        ensures { result ≡ length (log self.now) };
}
