//! Workers side by side: one for each door, all over one registry.
ghost use Rattle.std.specs.Prelude.{◌≡◌, ◌+◌, ◌≤◌, [], length, vec_len, vec_capacity, All, IfOk, OnOk, OnErr};
ghost use Rattle.std.specs.List.{AllZip};
ghost use Rattle.kn_base.specs.declared.limits.TheConstants.{WORKERS, CONNECTIONS};
ghost use Rattle.kn_registry.specs.Passes.{IsReady};
ghost use Rattle.kn_serve.specs.Configs.{config_by};
ghost use Rattle.kn_workers.specs.Workers.{splits_from, IsRejoined, all_quotas, AllServed};
ghost use Rattle.kn_workers.specs.Posts.{posts_of, WorksAtPost};

use crate::door::Door;
use crate::hiring::{gather, post_all, split_all};
use crate::post::{Post, work};
use crate::worker::ServeEnd;
use kn_auth::Authenticator;
use kn_base::limits::WORKERS;
use kn_base::{List, NoMemory, Reserved};
use kn_daemon::laws;
use kn_outside::Gate;
use kn_registry::{Pass, Registry};
use std::alloc::Global;
use std::sync::Wait;
use std::thread;
use std::thread::Threads;

/// Serves all doors side by side, each by a worker with a pass that is split from the root. Afterwards all passes are
/// joined into the root again, and the doors are as their workers left them.
///
/// `NoMemory` comes before any connection is accepted. Where no thread can be made the doors are served one after
/// another.
pub fn serve_all<R: Threads + Wait + Sync, A: Authenticator, D: Door, G: Gate>(
    rt: &R,
    alloc: Global,
    reg: &Registry,
    root: &mut Pass,
    auth: &A,
    secret: &[u8],
    doors: &mut List<D>,
    gate: &G,
) -> Result<ServeEnd, NoMemory>
where
    D::Conn: Send,
    requires ready { IsReady reg.now root.old }
    requires root { root.old.number ≡ 0 }
    requires unsplit { root.old.splits ≡ 0 }
    requires few { length doors.old ≤ WORKERS }
    requires quotas { all_quotas D.seen doors.old ≤ CONNECTIONS }
    ensures ready { IsReady reg.now root.new }
    ensures served { IfOk result (AllServed D.seen D.Conn.seen (config_by A.verdict auth.now secret.now)
        root.old root.new doors.old doors.new) }
    ensures refused { OnErr result (IsRejoined root.old root.new) }
    ensures doors { OnErr result (doors.new ≡ doors.old) }
{
    laws::served_longer();
    // what the number tells with it is that the root is sound, before and afterwards
    let before = root.number();
    let mut kept = Reserved::new(alloc);
    kept.reserve(doors.len())?;
    let mut posts = hire(alloc, reg, root, doors)?;
    work_all(rt, alloc, reg, auth, secret, posts.as_mut_slice(), gate);
    let (end, served) = gather(reg, root, posts, kept);
    *doors = served;
    let after = root.number();
    let _ = (before, after);
    Ok(end)
}

/// A post for each door, with a pass that is split from the root.
fn hire<D: Door>(
    alloc: Global,
    reg: &Registry,
    root: &mut Pass,
    doors: &mut List<D>,
) -> Result<Vec<Post<D>>, NoMemory>
    requires ready { IsReady reg.now root.old }
    requires root { root.old.number ≡ 0 }
    requires room { root.old.splits + length doors.old ≤ 63 }
    ensures ready { IsReady reg.now root.new }
    ensures posts { IfOk result (λ posts. posts.items ≡ posts_of doors.old (splits_from root.old (length doors.old))) }
    ensures root { OnOk result (root.new ≡ record root.old { splits = root.old.splits + length doors.old }) }
    ensures refused { OnErr result (IsRejoined root.old root.new) }
    ensures doors { OnErr result (doors.new ≡ doors.old) }
{
    let mut posts = Vec::new(alloc);
    if posts.reserve(doors.len() as usize).is_err() {
        return Err(NoMemory);
    }
    let passes = split_all(alloc, reg, root, doors.len())?;
    Ok(post_all(doors, passes, posts))
}

/// The work at all posts, each in a thread of its own.
fn work_all<R: Threads + Wait + Sync, A: Authenticator, D: Door, G: Gate>(
    rt: &R,
    alloc: Global,
    reg: &Registry,
    auth: &A,
    secret: &[u8],
    posts: &mut [Post<D>],
    gate: &G,
)
where
    D::Conn: Send,
    requires ready { All (λ p. IsReady reg.now p.pass × ((D.seen p.door).quota ≤ CONNECTIONS)) posts.old }
    ensures { AllZip (WorksAtPost reg.now D.seen D.Conn.seen (config_by A.verdict auth.now secret.now))
        posts.old posts.new }
{
    thread::for_each_mut(
        rt,
        posts,
        WORKERS as usize,
        &|_, post: &mut Post<D>|
            requires { IsReady reg.now post.old.pass × ((D.seen post.old.door).quota ≤ CONNECTIONS) }
            ensures { WorksAtPost reg.entry.now D.seen D.Conn.seen
                (config_by A.verdict auth.entry.now secret.entry.now) post.old post.new }
        { work(rt, alloc, reg, auth, secret, post, gate) },
    );
}
