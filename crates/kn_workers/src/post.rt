//! A worker's post.
ghost use Rattle.std.specs.Prelude.{◌≡◌, ◌≤◌};
ghost use Rattle.kn_base.specs.declared.limits.TheConstants.{CONNECTIONS};
ghost use Rattle.kn_registry.specs.Passes.{IsReady};
ghost use Rattle.kn_serve.specs.Configs.{config_by};
ghost use Rattle.kn_workers.specs.Posts.{WorksAtPost};

use crate::door::Door;
use crate::worker::{ServeEnd, serve_door};
use kn_auth::Authenticator;
use kn_outside::Gate;
use kn_registry::{Pass, Registry};
use std::alloc::Global;
use std::sync::Wait;

/// The door at which a worker serves, the pass that it serves by, and how its work ended.
#[derive(Drop)]
pub(crate) struct Post<D> {
    pub door: D,
    pub pass: Pass,
    pub end: ServeEnd,
}

/// A worker's whole work at its post.
pub(crate) fn work<R: Wait, A: Authenticator, D: Door, G: Gate>(
    rt: &R,
    alloc: Global,
    reg: &Registry,
    auth: &A,
    secret: &[u8],
    post: &mut Post<D>,
    gate: &G,
)
    requires ready { IsReady reg.now post.old.pass }
    requires quota { (D.seen post.old.door).quota ≤ CONNECTIONS }
    ensures { WorksAtPost reg.now D.seen D.Conn.seen (config_by A.verdict auth.now secret.now) post.old post.new }
{
    post.end = serve_door(
        rt,
        alloc,
        reg,
        &mut post.pass,
        auth,
        secret,
        &mut post.door,
        gate,
    );
}
