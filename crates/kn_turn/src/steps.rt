//! The turn's invariant, and what each kind of step tells. These types are for proofs alone.
ghost use Rattle.std.specs.Prelude.{List};

use crate::logged::Logged;
use crate::view::View;
use atomic_table::{Join, Play, Split, TableRule};
use std::marker::{Brand, PhantomData};

/// The rule of the table: the invariant of a turn, and what its first seat knows.
pub struct ByTickets<S> {
    of: PhantomData<S>,
}

impl<S: Logged> TableRule<Option<S>, View<S::Entry>, ()> for ByTickets<S> {
    ghost use Rattle.kn_turn.specs.Views.{first_view};
    ghost use Rattle.kn_turn.specs.Invariant.{IsKept};

    ghost holds = { λ _. IsKept S.by S.log };

    ghost first = { λ _. first_view };
}

/// A ticket is drawn.
pub struct Draws<S> {
    of: PhantomData<S>,
}

impl<S: Logged> Play<Option<S>, View<S::Entry>> for Draws<S> {
    ghost use Rattle.kn_turn.specs.Invariant.{draws_ticket};

    ghost then = { draws_ticket };
}

/// A look at the ticket that is served.
pub struct Sees<S> {
    of: PhantomData<S>,
}

impl<S: Logged> Play<Option<S>, View<S::Entry>> for Sees<S> {
    ghost use Rattle.kn_turn.specs.Invariant.{sees_served};

    ghost then = { sees_served };
}

/// The value goes out with the seat.
pub struct Takes<S> {
    of: PhantomData<S>,
}

impl<S: Logged> Play<Option<S>, View<S::Entry>> for Takes<S> {
    ghost use Rattle.kn_turn.specs.Invariant.{takes_value};

    ghost then = { takes_value S.log };
}

/// What is appended: entries that all name one pass, which the caller's proof picks.
pub trait Addition<E> {
    ghost entries: { List E };
}

impl<E> Addition<E> for Brand {
    ghost use Rattle.std.specs.Prelude.{[]};

    ghost entries = { [] };
}

/// More entries join the history.
pub struct Appends<S, A> {
    of: PhantomData<(S, A)>,
}

impl<S: Logged, A: Addition<S::Entry>> Play<Option<S>, View<S::Entry>> for Appends<S, A> {
    ghost use Rattle.kn_turn.specs.Invariant.{appends};

    ghost then = { appends S.by A.entries };
}

/// The history is seen.
pub struct Looks<S> {
    of: PhantomData<S>,
}

impl<S: Logged> Play<Option<S>, View<S::Entry>> for Looks<S> {
    ghost use Rattle.kn_turn.specs.Invariant.{looks};

    ghost then = { looks S.by };
}

/// A look at the front, by which a pass may find that it has seen the whole history.
pub struct Confirms<S> {
    of: PhantomData<S>,
}

impl<S: Logged> Play<Option<S>, View<S::Entry>> for Confirms<S> {
    ghost use Rattle.kn_turn.specs.Invariant.{confirms};

    ghost then = { confirms };
}

/// The value goes home, and the turn to the next ticket.
pub struct PassesOn<S> {
    of: PhantomData<S>,
}

impl<S: Logged> Play<Option<S>, View<S::Entry>> for PassesOn<S> {
    ghost use Rattle.kn_turn.specs.Invariant.{passes_on};

    ghost then = { passes_on };
}

/// After a join the longer of two lists is seen.
pub struct Settles<S> {
    of: PhantomData<S>,
}

impl<S: Logged> Play<Option<S>, View<S::Entry>> for Settles<S> {
    ghost use Rattle.kn_turn.specs.Invariant.{settles};

    ghost then = { settles S.by };
}

/// A pass is split from the root.
pub struct SplitsOff<S> {
    of: PhantomData<S>,
}

impl<S: Logged> Split<View<S::Entry>> for SplitsOff<S> {
    ghost use Rattle.kn_turn.specs.Views.{parent_view, child_view};

    ghost left = { parent_view };

    ghost right = { child_view };
}

/// A note of what a pass has seen is split from it.
pub struct Notes<S> {
    of: PhantomData<S>,
}

impl<S: Logged> Split<View<S::Entry>> for Notes<S> {
    ghost use Rattle.kn_turn.specs.Views.{note_view};

    ghost left = { λ v. v };

    ghost right = { note_view };
}

/// A pass is joined into another.
pub struct Absorbs<S> {
    of: PhantomData<S>,
}

impl<S: Logged> Join<View<S::Entry>> for Absorbs<S> {
    ghost use Rattle.kn_turn.specs.Views.{after_absorb, spent_view};

    ghost both = { after_absorb };

    ghost spent = { spent_view };
}

/// A note is joined into a pass.
pub struct Informs<S> {
    of: PhantomData<S>,
}

impl<S: Logged> Join<View<S::Entry>> for Informs<S> {
    ghost use Rattle.kn_turn.specs.Views.{after_inform, spent_view};

    ghost both = { after_inform };

    ghost spent = { spent_view };
}
