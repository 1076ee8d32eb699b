//! A connection that was served.
ghost use Rattle.std.specs.Prelude.{◌≡◌, List, length};
ghost use Rattle.kn_history.specs.declared.update.Update.{Update};
ghost use Rattle.kn_registry.specs.Passes.{IsReady, Moves};
ghost use Rattle.kn_serve.specs.Configs.{config_by};
ghost use Rattle.kn_serve.specs.KeptBases.{IsKept};
ghost use Rattle.kn_workers.specs.Connections.{IsNew, IsConnection};

use kn_auth::Authenticator;
use kn_outside::{Gate, Link};
use kn_query::KeptBases;
use kn_registry::{Pass, Registry};
use kn_serve::{Ended, serve_with_base};
use std::alloc::Global;
use std::marker::Model;
use std::snapshot::Snapshot;
use std::sync::Wait;

/// A link whose connection was served, how it came to its end, and by whom and when. Only this crate makes one.
///
/// A read or write fault stands in it only where the link's count of faults is above 0: `IsConnection` says so of each
/// one.
#[derive(Drop)]
pub struct Served<C> {
    link: C,
    ended: Ended,
    caller: u32,
    from: u32,
    to: u32,
    before: Snapshot<Pass>,
    after: Snapshot<Pass>,
}

impl<C> Model for Served<C> {
    ghost use Rattle.std.specs.Prelude.{length, drop};
    ghost use Rattle.kn_workers.specs.Connections.{ServedSeen};

    ghost Value = { ServedSeen C };

    ghost view = { λ s. record {
      link = s.link;
      ended = s.ended;
      caller = s.caller;
      from = s.from;
      to = s.to;
      stops = drop (length s.before.value.stops) s.after.value.stops;
    } };
}

impl<C> Served<C> {
    /// The link, as the connection left it.
    pub fn link(&self) -> &C
        ensures { result.now ≡ self.now.link }
    {
        &self.link
    }

    /// How the connection ended.
    pub fn ended(&self) -> Ended
        ensures { result ≡ self.now.ended }
    {
        self.ended
    }

    /// The number of the pass that served it.
    pub fn caller(&self) -> u32
        ensures { result ≡ self.now.caller }
    {
        self.caller
    }

    /// How many updates that pass had seen before.
    pub fn from(&self) -> u32
        ensures { result ≡ self.now.from }
    {
        self.from
    }

    /// How many it had seen afterwards.
    pub fn to(&self) -> u32
        ensures { result ≡ self.now.to }
    {
        self.to
    }
}

/// Serves a new connection to its end. Bases are kept from one question to the next.
pub(crate) fn serve_link<R: Wait, A: Authenticator, C: Link, G: Gate>(
    rt: &R,
    alloc: Global,
    reg: &Registry,
    pass: &mut Pass,
    auth: &A,
    secret: &[u8],
    link: C,
    gate: &G,
    kept: &mut KeptBases,
) -> Served<C>
    requires ready { IsReady reg.now pass.old }
    requires new { IsNew (C.seen link) }
    requires of_history { IsKept pass.old.seen kept.old }
    ensures ready { IsReady reg.now pass.new }
    ensures of_history { IsKept pass.new.seen kept.new }
    ensures connection { IsConnection C.seen (config_by A.verdict auth.now secret.now)
        pass.new.seen pass.old.number result }
    ensures from { result.from ≡ length pass.old.seen }
    ensures to { result.to ≡ length pass.new.seen }
    ensures moves { (more : List Update) × (own : List Update) × Moves pass.old pass.new more own result.stops }
{
    let mut link = link;
    let from = pass.seen_length();
    let before = Snapshot::of(&*pass);
    let ended = serve_with_base(rt, alloc, reg, pass, auth, secret, &mut link, gate, kept);
    let after = Snapshot::of(&*pass);
    Served {
        link,
        ended,
        caller: pass.number(),
        from,
        to: pass.seen_length(),
        before,
        after,
    }
}
