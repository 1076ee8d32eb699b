//! The registry, and its calls.
ghost use Rattle.std.specs.Prelude.{◌≡◌, ◌≢◌, ◌<◌, ◌≤◌, ◌++◌, ◌∷◌, [], ◌⊎◌, List, length, Some, None, true, false};
ghost use Rattle.std.specs.Prelude.{All, IfOk, IfErr, OnOk, OnErr, MatchBool, take};
ghost use Rattle.std.specs.Bool.{OnTrue};
ghost use mathlib.Core.List.{IsPrefix};
ghost use Rattle.std.specs.Arc.{arc_value};
ghost use Rattle.kn_base.specs.declared.limits.TheConstants.{CHANGES};
ghost use Rattle.kn_history.specs.declared.update.Update.{Update};
ghost use Rattle.kn_history.specs.History.{is_valid_history};
ghost use Rattle.kn_history.specs.Retained.{retained_version};
ghost use Rattle.kn_turn.specs.Passes.{root_of, split_of, after_give, after_look, after_append, after_append_all};
ghost use Rattle.kn_turn.specs.Passes.{after_split, after_join, after_meet, after_confirm};
ghost use Rattle.kn_registry.specs.Passes.{IsReady, IsSoundPass, Looks, Stays, Adds, AddsAll, Removes, Batches};
ghost use Rattle.kn_registry.specs.Passes.{RefusesText, RefusesOne, RefusesId, RefusesItems, RefusesVersion};
ghost use Rattle.kn_registry.specs.declared.answer.PinFault.TheVariants as P;

use crate::answer::{Batched, PinFault};
use kn_base::{List, NoMemory};
use kn_history::{BatchFault, Item, Ready, StoreFault, Update, count_additions};
use kn_store::{Book, Snapshot};
use kn_turn::{Logged, Turn};
use std::alloc::{AllocError, Global};
use std::marker::Model;
use std::sync::Wait;

/// The book under the turn.
#[derive(Drop)]
pub struct SharedBook {
    book: Book,
}

impl Model for SharedBook {
    ghost use Rattle.std.specs.Prelude.{List};
    ghost use Rattle.kn_history.specs.declared.update.Update.{Update};

    ghost Value = { List Update };

    ghost view = { λ s. s.book };
}

impl Logged for SharedBook {
    type Entry = Update;

    ghost use Rattle.kn_registry.specs.Callers.{caller_of};

    ghost log = { λ s. s };

    ghost by = { caller_of };

    fn length(&self) -> u32 {
        self.book.length()
    }
}

/// A caller's token at the registry.
pub type Pass = kn_turn::Pass<SharedBook>;

/// One book, which its passes take in turn. Contracts see which turn it is.
#[derive(Drop)]
pub struct Registry {
    turn: Turn<SharedBook>,
}

impl Model for Registry {
    ghost use Rattle.atomic_table.specs.Seated.{TableId, table_id_coded};

    ghost Value = { TableId };

    ghost coded = { table_id_coded };

    ghost view = { λ r. r.turn };
}

impl Registry {
    /// A registry with no updates, and its root pass.
    pub fn start(alloc: Global) -> Result<(Registry, Pass), NoMemory>
        ensures root { IfOk result (λ made. made.1 ≡ root_of made.0) }
        ensures ready { IfOk result (λ made. IsReady made.0 made.1) }
    {
        let book = Book::empty(alloc)?;
        let (turn, root) = Turn::start(alloc, SharedBook { book })?;
        Ok((Registry { turn }, root))
    }

    /// The version of all that the pass has then seen: the newest at its turn.
    pub fn pin<R: Wait>(&self, rt: &R, pass: &mut Pass) -> Result<Snapshot, NoMemory>
        requires ready { IsReady self.now pass.old }
        ensures ready { IsReady self.now pass.new }
        ensures sound { IsSoundPass pass.new }
        ensures version { IfOk result (λ snapshot. arc_value snapshot ≡ pass.new.seen) }
        ensures looked { IfOk result (λ snapshot. Looks pass.old pass.new) }
        ensures refused { OnErr result (Stays pass.old pass.new) }
    {
        let shared = self.turn.take(rt, pass);
        let snapshot: Result<Snapshot, AllocError> = shared.book.snapshot().clone();
        self.look(pass, shared);
        match snapshot {
            Ok(snapshot) => Ok(snapshot),
            Err(_) => Err(NoMemory),
        }
    }

    /// The version of all that the pass has then seen, as by `pin`, for who holds a version of what it saw before.
    /// Where nothing is newer than that one it is that one again, and the turn isn't waited for.
    pub fn pin_again<R: Wait>(
        &self,
        rt: &R,
        pass: &mut Pass,
        held: &Snapshot,
    ) -> Result<Snapshot, NoMemory>
        requires ready { IsReady self.now pass.old }
        requires held { arc_value held.now ≡ take (length (arc_value held.now)) pass.old.seen }
        ensures ready { IsReady self.now pass.new }
        ensures sound { IsSoundPass pass.new }
        ensures version { IfOk result (λ snapshot. arc_value snapshot ≡ pass.new.seen) }
        ensures looked { IfOk result (λ snapshot. Looks pass.old pass.new) }
        ensures refused { OnErr result (Stays pass.old pass.new) }
    {
        if !self.is_newest(pass, held) {
            return self.pin(rt, pass);
        }
        let snapshot: Result<Snapshot, AllocError> = held.clone();
        match snapshot {
            Ok(snapshot) => Ok(snapshot),
            Err(_) => Err(NoMemory),
        }
    }

    /// Whether this version of what the pass has seen is the newest of all. If so, that counts as a turn.
    fn is_newest(&self, pass: &mut Pass, held: &Snapshot) -> bool
        requires ready { IsReady self.now pass.old }
        requires held { arc_value held.now ≡ take (length (arc_value held.now)) pass.old.seen }
        ensures confirmed { MatchBool result (pass.new ≡ after_confirm pass.old) (pass.new ≡ pass.old) }
        ensures whole { OnTrue result (arc_value held.now ≡ pass.old.seen) }
        ensures sound { IsSoundPass pass.new }
    {
        if held.number() != pass.seen_length() {
            // what the number tells with it is that the pass is sound
            let _number = pass.number();
            return false;
        }
        self.turn.confirm_newest(pass)
    }

    /// The version of this number, out of those that are retained at the turn. Missing where none of them has it.
    pub fn pin_at<R: Wait>(
        &self,
        rt: &R,
        pass: &mut Pass,
        version: u32,
    ) -> Result<Snapshot, PinFault>
        requires ready { IsReady self.now pass.old }
        ensures ready { IsReady self.now pass.new }
        ensures sound { IsSoundPass pass.new }
        ensures version { IfOk result (λ snapshot. retained_version pass.new.seen version ≡ Some (arc_value snapshot)) }
        ensures looked { OnOk result (Looks pass.old pass.new) }
        ensures refused { IfErr result (λ fault. RefusesVersion pass.old pass.new version fault) }
    {
        let shared = self.turn.take(rt, pass);
        let retained = find_retained(&shared.book, version);
        self.look(pass, shared);
        retained
    }

    /// Adds a text, and answers its id and the version with it.
    pub fn add<R: Wait>(
        &self,
        rt: &R,
        pass: &mut Pass,
        ready: Ready,
    ) -> Result<(u32, u32), StoreFault>
        requires ready { IsReady self.now pass.old }
        ensures ready { IsReady self.now pass.new }
        ensures sound { IsSoundPass pass.new }
        ensures added { IfOk result (λ answer. Adds pass.old pass.new ready answer.0 answer.1) }
        ensures refused { IfErr result (λ fault. RefusesText pass.old pass.new ready fault) }
    {
        let mut shared = self.turn.take(rt, pass);
        match shared.book.prepare_add(pass.number(), ready) {
            Ok(prepared) => {
                let done = shared.book.commit(prepared);
                self.append(pass, shared);
                Ok((done.id, done.version))
            }
            Err(fault) => {
                self.look(pass, shared);
                Err(fault)
            }
        }
    }

    /// Adds texts, each by an update of its own, at one turn; or none of them where one is refused: then its place is
    /// given, counted from 0.
    ///
    /// A refusal is that behind the texts in front of the refused one, so a limit's number counts them too. When
    /// out of memory, the place tells nothing.
    pub fn add_all<R: Wait>(
        &self,
        rt: &R,
        pass: &mut Pass,
        ready_texts: Vec<Ready>,
    ) -> Result<(), (u32, StoreFault)>
        requires ready { IsReady self.now pass.old }
        ensures ready { IsReady self.now pass.new }
        ensures sound { IsSoundPass pass.new }
        ensures added { OnOk result (AddsAll pass.old pass.new ready_texts.items) }
        ensures refused { IfErr result (λ refused. RefusesOne pass.old pass.new ready_texts.items refused.0 refused.1) }
    {
        let mut shared = self.turn.take(rt, pass);
        match shared.book.add_all(pass.number(), ready_texts) {
            Ok(()) => {
                self.append_all(pass, shared);
                Ok(())
            }
            Err(refused) => {
                self.look(pass, shared);
                Err(refused)
            }
        }
    }

    /// Removes the credential of this id, and answers the version without it.
    pub fn drop_id<R: Wait>(&self, rt: &R, pass: &mut Pass, id: u32) -> Result<u32, StoreFault>
        requires ready { IsReady self.now pass.old }
        ensures ready { IsReady self.now pass.new }
        ensures sound { IsSoundPass pass.new }
        ensures removed { IfOk result (λ version. Removes pass.old pass.new id version) }
        ensures refused { IfErr result (λ fault. RefusesId pass.old pass.new id fault) }
    {
        let mut shared = self.turn.take(rt, pass);
        match shared.book.prepare_drop(pass.number(), id) {
            Ok(prepared) => {
                let done = shared.book.commit(prepared);
                self.append(pass, shared);
                Ok(done.version)
            }
            Err(fault) => {
                self.look(pass, shared);
                Err(fault)
            }
        }
    }

    /// Makes these changes one update, or none of them where one is refused: then its number is given, counted from 1.
    ///
    /// A refusal is that behind the changes in front of the refused one, so a limit's number counts them too.
    pub fn batch<R: Wait>(
        &self,
        rt: &R,
        pass: &mut Pass,
        items: List<Item>,
    ) -> Result<Batched, BatchFault>
        requires ready { IsReady self.now pass.old }
        requires some { 1 ≤ length items }
        requires few { length items ≤ CHANGES }
        ensures ready { IsReady self.now pass.new }
        ensures sound { IsSoundPass pass.new }
        ensures batched { IfOk result (λ batched. Batches pass.old pass.new items batched) }
        ensures refused { IfErr result (λ fault. RefusesItems pass.old pass.new items fault) }
    {
        let added = count_additions(&items);
        let mut shared = self.turn.take(rt, pass);
        match shared.book.prepare_batch(pass.number(), items) {
            Ok(prepared) => {
                let done = shared.book.commit(prepared);
                self.append(pass, shared);
                Ok(Batched {
                    first: done.id,
                    added,
                    version: done.version,
                })
            }
            Err(fault) => {
                self.look(pass, shared);
                Err(fault)
            }
        }
    }

    /// Sees all updates of the book, and gives it back.
    fn look(&self, pass: &mut Pass, shared: SharedBook)
        requires turn { pass.old.turn ≡ self.now }
        requires taken { pass.old.is_idle ≡ false }
        requires value { shared ≡ pass.old.taken }
        ensures looked { pass.new ≡ after_give (after_look pass.old) }
        ensures valid { is_valid_history pass.new.seen ≡ true }
        ensures sound { IsSoundPass pass.new }
    {
        // what the length tells with it is that the history is valid
        let _length = shared.book.length();
        self.turn.look(pass, &shared);
        self.turn.give(pass, shared);
    }

    /// Makes the book's last update, which names this pass, the last one of all, and gives the book back.
    fn append(&self, pass: &mut Pass, shared: SharedBook)
        requires turn { pass.old.turn ≡ self.now }
        requires taken { pass.old.is_idle ≡ false }
        requires more { (update : Update) × (update.caller ≡ pass.old.number)
            × (shared ≡ pass.old.taken ++ update ∷ []) }
        ensures appended { (update : Update) → shared ≡ pass.old.taken ++ update ∷ []
            → pass.new ≡ after_give (after_append pass.old update) }
        ensures valid { is_valid_history pass.new.seen ≡ true }
        ensures sound { IsSoundPass pass.new }
    {
        // what the length tells with it is that the history is valid
        let _length = shared.book.length();
        self.turn.append(pass, &shared);
        self.turn.give(pass, shared);
    }

    /// Makes the book's last updates, all of which name this pass, the last ones of all, and gives the book back.
    fn append_all(&self, pass: &mut Pass, shared: SharedBook)
        requires turn { pass.old.turn ≡ self.now }
        requires taken { pass.old.is_idle ≡ false }
        requires more { (updates : List Update) × All (λ update. update.caller ≡ pass.old.number) updates
            × (shared ≡ pass.old.taken ++ updates) }
        ensures appended { (updates : List Update) → shared ≡ pass.old.taken ++ updates
            → pass.new ≡ after_give (after_append_all pass.old updates) }
        ensures valid { is_valid_history pass.new.seen ≡ true }
        ensures sound { IsSoundPass pass.new }
    {
        // what the length tells with it is that the history is valid
        let _length = shared.book.length();
        self.turn.append_all(pass, &shared);
        self.turn.give(pass, shared);
    }

    /// A new pass, which has seen what the root has.
    pub fn split(&self, root: &mut Pass) -> Result<Pass, NoMemory>
        requires ready { IsReady self.now root.old }
        requires root { root.old.number ≡ 0 }
        requires room { root.old.splits < 63 }
        ensures new { IfOk result (λ pass. pass ≡ split_of root.old) }
        ensures root { IfOk result (λ pass. root.new ≡ after_split root.old) }
        ensures refused { OnErr result (root.new ≡ root.old) }
        ensures ready { IsReady self.now root.new }
        ensures new_ready { IfOk result (λ pass. IsReady self.now pass) }
        ensures sound { IfOk result (λ pass. IsSoundPass pass) }
    {
        self.turn.split(root)
    }

    /// Takes in a pass that ends: what it has seen, and in `ended` what it added and where it had the turn.
    pub fn join(&self, into: &mut Pass, gone: Pass)
        requires ready { IsReady self.now into.old × IsReady self.now gone }
        requires split { gone.number ≢ 0 }
        ensures ready { IsReady self.now into.new }
        ensures sound { IsSoundPass into.new }
        ensures joined { into.new ≡ after_join into.old gone }
        ensures seen { IsPrefix into.old.seen into.new.seen × IsPrefix gone.seen into.new.seen }
    {
        self.turn.join(into, gone);
    }

    /// The pass `a` has then seen what `b` has.
    pub fn meet(&self, a: &mut Pass, b: &mut Pass)
        requires ready { IsReady self.now a.old × IsReady self.now b.old }
        ensures ready { IsReady self.now a.new }
        ensures sound { IsSoundPass a.new }
        ensures met { a.new ≡ after_meet a.old b.old }
        ensures same { b.new ≡ b.old }
        ensures seen { IsPrefix a.old.seen a.new.seen × IsPrefix b.old.seen a.new.seen }
    {
        self.turn.meet(a, b);
    }

    /// The book, taken out for good: its updates are all that the pass has then seen.
    pub fn into_book<R: Wait>(self, rt: &R, pass: &mut Pass) -> Book
        requires ready { IsReady self pass.old }
        ensures sound { IsSoundPass pass.new }
        ensures book { result ≡ pass.new.seen }
        ensures looked { Looks pass.old pass.new }
    {
        let shared = self.turn.take(rt, pass);
        self.turn.look(pass, &shared);
        let SharedBook { book } = shared;
        book
    }
}

/// The version of this number, if the book retains it.
fn find_retained(book: &Book, version: u32) -> Result<Snapshot, PinFault>
    ensures version { IfOk result (λ snapshot. retained_version book.now version ≡ Some (arc_value snapshot)) }
    ensures missing { IfErr result (λ fault. (fault ≡ P.NoMemory)
        ⊎ ((fault ≡ P.Missing (length book.now)) × (retained_version book.now version ≡ None))) }
{
    let Some(retained) = book.retained(version) else {
        return Err(PinFault::Missing {
            newest: book.length(),
        });
    };
    let snapshot: Result<Snapshot, AllocError> = retained.clone();
    match snapshot {
        Ok(snapshot) => Ok(snapshot),
        Err(_) => Err(PinFault::NoMemory),
    }
}
