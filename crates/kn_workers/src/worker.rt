//! A worker: it serves the connections of one door.
ghost use Rattle.std.specs.Prelude.{◌≡◌, ◌≤◌};
ghost use Rattle.kn_base.specs.declared.limits.TheConstants.{CONNECTIONS};
ghost use Rattle.kn_registry.specs.Passes.{IsReady};
ghost use Rattle.kn_serve.specs.Configs.{config_by};
ghost use Rattle.kn_workers.specs.Doors.{WorksAt, HasGiven};

use crate::accepted::Accepted;
use crate::door::Door;
use crate::served::serve_link;
use kn_auth::Authenticator;
use kn_daemon::laws;
use kn_outside::Gate;
use kn_query::KeptBases;
use kn_registry::{Pass, Registry};
use std::alloc::Global;
use std::sync::Wait;

/// How the work of one or more workers ended.
#[derive(Clone, Copy, PartialEq, Eq, Drop)]
pub struct ServeEnd {
    /// The connections that were finished.
    pub finished: u32,
    /// Whether a door gave fewer connections than its quota.
    pub failed: bool,
}

/// One worker's whole work: it serves the connections of a door, one after another, until the door has no more or
/// fails. What one connection has built to answer questions serves the next ones.
pub fn serve_door<R: Wait, A: Authenticator, D: Door, G: Gate>(
    rt: &R,
    alloc: Global,
    reg: &Registry,
    pass: &mut Pass,
    auth: &A,
    secret: &[u8],
    door: &mut D,
    gate: &G,
) -> ServeEnd
    requires ready { IsReady reg.now pass.old }
    requires quota { (D.seen door.old).quota ≤ CONNECTIONS }
    ensures ready { IsReady reg.now pass.new }
    ensures works { WorksAt D.Conn.seen (config_by A.verdict auth.now secret.now)
        pass.old pass.new (D.seen door.old) (D.seen door.new) result.finished }
    ensures failed { HasGiven result.failed (D.seen door.old) (D.seen door.new) }
{
    laws::served_longer();
    let mut kept = KeptBases::new();
    let mut finished: u32 = 0;
    'connections: for _ in rt.forever() {
        let link = match door.accept(rt) {
            Accepted::Conn(link) => link,
            Accepted::Closed => {
                return ServeEnd {
                    finished,
                    failed: false,
                };
            }
            Accepted::Failed => {
                return ServeEnd {
                    finished,
                    failed: true,
                };
            }
        };
        let served = serve_link(rt, alloc, reg, pass, auth, secret, link, gate, &mut kept);
        door.finish(served);
        finished += 1;
    }
    unreachable!()
}
