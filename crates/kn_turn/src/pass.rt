//! A caller's token.
ghost use Rattle.std.specs.Prelude.{◌≡◌, length};
ghost use Rattle.kn_turn.specs.Passes.{IsSoundPass};

use crate::logged::Logged;
use crate::view::View;
use atomic_table::Seat;
use std::marker::Model;

/// A caller's token at one turn. Contracts see it as a `PassView`.
#[derive(Drop)]
pub struct Pass<S: Logged> {
    pub(crate) seat: Seat<Option<S>, View<S::Entry>>,
    pub(crate) number: u32,
    pub(crate) seen_length: u32,
    pub(crate) splits: u32,
}

impl<S: Logged> Model for Pass<S> {
    ghost use Rattle.kn_turn.specs.Passes.{PassView, pass_of, Carries};

    ghost Value = { PassView S.Entry };

    ghost view = { λ p. pass_of p.seat.table_id p.seat.me.0 };

    ghost invariant = { λ p. Carries S.by p.seat p.number p.seen_length p.splits };
}

impl<S: Logged> Pass<S> {
    /// Which pass it is: 0 for the root, and else which split made it.
    pub fn number(&self) -> u32
        ensures number { result ≡ self.now.number }
        ensures sound { IsSoundPass S.by self.now }
    {
        self.number
    }

    /// How many entries it has seen.
    pub fn seen_length(&self) -> u32
        ensures { result ≡ length self.now.seen }
    {
        self.seen_length
    }
}
