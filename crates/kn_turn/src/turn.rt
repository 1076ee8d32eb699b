//! The turn: a value in the one slot of a table, and tickets for it.
ghost use Rattle.std.specs.Prelude.{◌≡◌, ◌≢◌, ◌+◌, ◌<◌, ◌%◌, ◌^◌, ◌++◌, ◌∷◌, [], List, true, false, None};
ghost use Rattle.std.specs.Prelude.{length, All, IfOk, OnErr, MatchBool};
ghost use mathlib.Core.List.{IsPrefix};
ghost use Rattle.kn_turn.specs.declared.view.Stage.TheVariants.{Idle, Waits, Served};
ghost use Rattle.kn_turn.specs.Invariant.{IsSoundView};
ghost use Rattle.kn_turn.specs.Passes.{IsSoundPass, root_of, split_of};
ghost use Rattle.kn_turn.specs.Passes.{after_take, after_append, after_append_all, after_look, after_give};
ghost use Rattle.kn_turn.specs.Passes.{after_confirm, after_split, after_join, after_meet};
ghost use Rattle.kn_turn.specs.Views.{after_serve};

use crate::logged::Logged;
use crate::parking::Parking;
use crate::pass::Pass;
use crate::steps::{
    Absorbs, Addition, Appends, ByTickets, Confirms, Draws, Informs, Looks, Notes, PassesOn, Sees,
    Settles, SplitsOff, Takes,
};
use crate::view::View;
use atomic_table::{Seat, Table};
use kn_base::NoMemory;
use std::alloc::Global;
use std::hint::spin_loop;
use std::marker::{Brand, Model};
use std::sync::Wait;

/// The word with the next ticket.
const TICKET: usize = 0;

/// The word with the ticket that is served.
const SERVING: usize = 1;

/// The word with the length of the history.
const FRONT: usize = 2;

/// The one slot, where the value is at home.
const HOME: usize = 0;

/// How often a waiting pass looks before it sleeps.
const LOOKS: u32 = 100;

/// A value that its passes take in turn, in the order in which they drew tickets. Contracts see which turn it is.
#[derive(Drop)]
pub struct Turn<S: Logged> {
    table: Table<Option<S>, View<S::Entry>, (), ByTickets<S>, Global>,
    parking: Parking,
}

impl<S: Logged> Model for Turn<S> {
    ghost use Rattle.std.specs.Prelude.{◌≡◌};
    ghost use Rattle.atomic_table.specs.Seated.{TableId, table_id_coded};

    ghost Value = { TableId };

    ghost coded = { table_id_coded };

    ghost view = { λ t. t.table.shared.table_id };

    ghost invariant = { λ t. (t.table.shared.table_id.words ≡ 3) × (t.table.shared.table_id.slots ≡ 1) };
}

impl<S: Logged> Turn<S> {
    /// A turn over a value with no entries, and its root pass.
    pub fn start(alloc: Global, value: S) -> Result<(Turn<S>, Pass<S>), NoMemory>
        requires { S.log value ≡ [] }
        ensures { IfOk result (λ made. made.1 ≡ root_of made.0) }
    {
        let mut slots = Vec::new(alloc);
        if let Err(_refused) = slots.push(Some(value)) {
            return Err(NoMemory);
        }
        match Table::new(alloc, &[0, 0, 0], slots, &()) {
            Ok((table, seat)) => Ok((
                Turn {
                    table,
                    parking: Parking::new(),
                },
                Pass {
                    seat,
                    number: 0,
                    seen_length: 0,
                    splits: 0,
                },
            )),
            Err(_refused) => Err(NoMemory),
        }
    }

    /// Waits until it is this pass's turn, and takes the value out.
    pub fn take<R: Wait>(&self, rt: &R, pass: &mut Pass<S>) -> S
        requires turn { pass.old.turn ≡ self.now }
        requires idle { pass.old.is_idle ≡ true }
        ensures taken { pass.new ≡ after_take pass.old (S.log result) }
        ensures seen { IsPrefix pass.old.seen (S.log result) }
        ensures sound { IsSoundPass S.by pass.new }
    {
        let shared = &self.table.shared;
        let ticket = shared.fetch_add::<Draws<S>>(&mut pass.seat, TICKET, 1);
        self.await_turn(rt, &mut pass.seat, ticket);
        shared.load::<Takes<S>>(&mut pass.seat, FRONT);
        match shared.exchange(&mut pass.seat, HOME, None) {
            Some(value) => value,
            None => unreachable!(),
        }
    }

    fn await_turn<R: Wait>(&self, rt: &R, seat: &mut Seat<Option<S>, View<S::Entry>>, ticket: u64)
        requires turn { seat.old.table_id ≡ self.now }
        requires waits { seat.old.me.0.stage ≡ Waits }
        requires ticket { ticket ≡ seat.old.me.0.ticket % 2 ^ 64 }
        ensures turn { seat.new.table_id ≡ seat.old.table_id }
        ensures served { seat.new.me ≡ (after_serve seat.old.me.0, seat.old.me.1) }
    {
        for _ in rt.forever() {
            if self.is_soon_served(seat, ticket) {
                return;
            }
            self.parking.announce(ticket);
            if self.is_served(seat, ticket) {
                return;
            }
            self.parking.park(rt, ticket);
        }
        unreachable!()
    }

    fn is_soon_served(&self, seat: &mut Seat<Option<S>, View<S::Entry>>, ticket: u64) -> bool
        requires turn { seat.old.table_id ≡ self.now }
        requires waits { seat.old.me.0.stage ≡ Waits }
        requires ticket { ticket ≡ seat.old.me.0.ticket % 2 ^ 64 }
        ensures turn { seat.new.table_id ≡ seat.old.table_id }
        ensures served { MatchBool result
            (seat.new.me ≡ (after_serve seat.old.me.0, seat.old.me.1))
            (seat.new.me ≡ seat.old.me) }
    {
        for _ in 0..LOOKS {
            if self.is_served(seat, ticket) {
                return true;
            }
            spin_loop();
        }
        false
    }

    fn is_served(&self, seat: &mut Seat<Option<S>, View<S::Entry>>, ticket: u64) -> bool
        requires turn { seat.old.table_id ≡ self.now }
        requires waits { seat.old.me.0.stage ≡ Waits }
        requires ticket { ticket ≡ seat.old.me.0.ticket % 2 ^ 64 }
        ensures turn { seat.new.table_id ≡ seat.old.table_id }
        ensures served { MatchBool result
            (seat.new.me ≡ (after_serve seat.old.me.0, seat.old.me.1))
            (seat.new.me ≡ seat.old.me) }
    {
        self.table.shared.load::<Sees<S>>(seat, SERVING) == ticket
    }

    /// Makes the value's last entry, which names this pass, the last one of the history, and answers its length.
    pub fn append(&self, pass: &mut Pass<S>, value: &S) -> u32
        requires turn { pass.old.turn ≡ self.now }
        requires taken { pass.old.is_idle ≡ false }
        requires more { (entry : S.Entry)
            × (S.by entry ≡ pass.old.number) × (S.log value.now ≡ pass.old.taken ++ entry ∷ []) }
        ensures appended { (entry : S.Entry)
            → S.log value.now ≡ pass.old.taken ++ entry ∷ [] → pass.new ≡ after_append pass.old entry }
        ensures length { result ≡ length (S.log value.now) }
        ensures sound { IsSoundPass S.by pass.new }
    {
        self.append_all(pass, value)
    }

    /// Makes the value's last entries, all of which name this pass, the last ones of the history, at one turn, and
    /// answers its length.
    pub fn append_all(&self, pass: &mut Pass<S>, value: &S) -> u32
        requires turn { pass.old.turn ≡ self.now }
        requires taken { pass.old.is_idle ≡ false }
        requires more { (entries : List S.Entry)
            × All (λ entry. S.by entry ≡ pass.old.number) entries × (S.log value.now ≡ pass.old.taken ++ entries) }
        ensures appended { (entries : List S.Entry)
            → S.log value.now ≡ pass.old.taken ++ entries → pass.new ≡ after_append_all pass.old entries }
        ensures length { result ≡ length (S.log value.now) }
        ensures sound { IsSoundPass S.by pass.new }
    {
        self.append_as::<Brand>(pass, value)
    }

    fn append_as<A: Addition<S::Entry>>(&self, pass: &mut Pass<S>, value: &S) -> u32
        requires turn { pass.old.turn ≡ self.now }
        requires taken { pass.old.is_idle ≡ false }
        requires named { All (λ entry. S.by entry ≡ pass.old.number) A.entries }
        requires value { S.log value.now ≡ pass.old.taken ++ A.entries }
        ensures appended { pass.new ≡ after_append_all pass.old A.entries }
        ensures length { result ≡ length (S.log value.now) }
        ensures sound { IsSoundPass S.by pass.new }
    {
        let length = value.length();
        self.table
            .shared
            .store::<Appends<S, A>>(&mut pass.seat, FRONT, u64::from(length));
        pass.seen_length = length;
        length
    }

    /// Sees the history as it is at this turn, and answers its length.
    pub fn look(&self, pass: &mut Pass<S>, value: &S) -> u32
        requires turn { pass.old.turn ≡ self.now }
        requires taken { pass.old.is_idle ≡ false }
        requires value { S.log value.now ≡ pass.old.taken }
        ensures looked { pass.new ≡ after_look pass.old }
        ensures length { result ≡ length pass.old.taken }
        ensures seen { IsPrefix pass.old.seen pass.new.seen }
        ensures sound { IsSoundPass S.by pass.new }
    {
        self.table.shared.load::<Looks<S>>(&mut pass.seat, FRONT);
        let length = value.length();
        pass.seen_length = length;
        length
    }

    /// Whether the pass has seen the whole history. If so it counts as a look at its turn, but no ticket is drawn and
    /// nobody is waited for.
    pub fn confirm_newest(&self, pass: &mut Pass<S>) -> bool
        requires turn { pass.old.turn ≡ self.now }
        requires idle { pass.old.is_idle ≡ true }
        ensures confirmed { MatchBool result (pass.new ≡ after_confirm pass.old) (pass.new ≡ pass.old) }
        ensures sound { IsSoundPass S.by pass.new }
    {
        let front = self.table.shared.load::<Confirms<S>>(&mut pass.seat, FRONT);
        front == u64::from(pass.seen_length)
    }

    /// Brings the value home, and passes the turn on.
    pub fn give(&self, pass: &mut Pass<S>, value: S)
        requires turn { pass.old.turn ≡ self.now }
        requires taken { pass.old.is_idle ≡ false }
        requires value { S.log value ≡ pass.old.taken }
        requires seen { pass.old.seen ≡ pass.old.taken }
        ensures { pass.new ≡ after_give pass.old }
    {
        let shared = &self.table.shared;
        match shared.exchange(&mut pass.seat, HOME, Some(value)) {
            None => {}
            Some(_) => unreachable!(),
        }
        let served = shared.fetch_add::<PassesOn<S>>(&mut pass.seat, SERVING, 1);
        self.parking.unpark(served.wrapping_add(1));
    }

    /// A new pass, which has seen what the root has. It takes no memory now, but may in another form.
    pub fn split(&self, root: &mut Pass<S>) -> Result<Pass<S>, NoMemory>
        requires turn { root.old.turn ≡ self.now }
        requires idle { root.old.is_idle ≡ true }
        requires root { root.old.number ≡ 0 }
        requires room { root.old.splits < 63 }
        ensures new { IfOk result (λ pass. pass ≡ split_of root.old) }
        ensures sound { IfOk result (λ pass. IsSoundPass S.by pass) }
        ensures root { IfOk result (λ pass. root.new ≡ after_split root.old) }
        ensures refused { OnErr result (root.new ≡ root.old) }
    {
        let seat = self.table.shared.split_seat::<SplitsOff<S>>(&mut root.seat);
        root.splits += 1;
        Ok(Pass {
            seat,
            number: root.splits,
            seen_length: root.seen_length,
            splits: 0,
        })
    }

    /// Takes in a pass that ends: what it has seen, and in `ended` what it made.
    pub fn join(&self, into: &mut Pass<S>, gone: Pass<S>)
        requires turn { (into.old.turn ≡ self.now) × (gone.turn ≡ self.now) }
        requires idle { (into.old.is_idle ≡ true) × (gone.is_idle ≡ true) }
        requires split { gone.number ≢ 0 }
        ensures joined { into.new ≡ after_join into.old gone }
        ensures seen { IsPrefix into.old.seen into.new.seen × IsPrefix gone.seen into.new.seen }
        ensures sound { IsSoundPass S.by into.new }
    {
        let Pass {
            seat,
            seen_length,
            ..
        } = gone;
        self.table
            .shared
            .join_seat::<Absorbs<S>>(&mut into.seat, seat);
        self.table.shared.load::<Settles<S>>(&mut into.seat, FRONT);
        into.seen_length = into.seen_length.max(seen_length);
    }

    /// The pass `a` has then seen what `b` has.
    pub fn meet(&self, a: &mut Pass<S>, b: &mut Pass<S>)
        requires turn { (a.old.turn ≡ self.now) × (b.old.turn ≡ self.now) }
        requires idle { (a.old.is_idle ≡ true) × (b.old.is_idle ≡ true) }
        ensures met { a.new ≡ after_meet a.old b.old }
        ensures same { b.new ≡ b.old }
        ensures seen { IsPrefix a.old.seen a.new.seen × IsPrefix b.old.seen a.new.seen }
        ensures sound { IsSoundPass S.by a.new }
    {
        let note = self.table.shared.split_seat::<Notes<S>>(&mut b.seat);
        self.table.shared.join_seat::<Informs<S>>(&mut a.seat, note);
        self.table.shared.load::<Settles<S>>(&mut a.seat, FRONT);
        a.seen_length = a.seen_length.max(b.seen_length);
    }
}
