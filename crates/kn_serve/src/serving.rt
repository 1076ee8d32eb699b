//! Serving a connection to its end.
ghost use Rattle.std.specs.Prelude.{◌≡◌, ◌⊎◌, IfSome};
ghost use Rattle.kn_registry.specs.Passes.{IsReady};
ghost use Rattle.kn_serve.specs.Configs.{config_by, config_of};
ghost use Rattle.kn_serve.specs.KeptBases.{IsKept};
ghost use Rattle.kn_serve.specs.Serving.{Serves, IsOrderly, IsFaultless};

use crate::config::ServeConfig;
use crate::connection::Connection;
use crate::filling::{Fill, end_of, read_more};
use crate::step::{Step, answer_next};
use kn_auth::Authenticator;
use kn_base::NoMemory;
use kn_base::limits::REQUESTS;
use kn_daemon::ended::Ended;
use kn_daemon::laws;
use kn_outside::{Gate, Link};
use kn_query::KeptBases;
use kn_registry::{Pass, Registry};
use kn_wire::Feed;
use std::alloc::Global;
use std::sync::Wait;

/// Answers the requests of a connection in their order (keynoted's own line protocol). A reply is written before the
/// next request is looked at.
///
/// Each reply is a one-thread daemon's, at a place of the one history that the pass then carries. The secret is the
/// administrators'; where it is empty ADMIN is always refused. The gate is called before each reply.
pub fn serve_connection<R: Wait, A: Authenticator, L: Link, G: Gate>(
    rt: &R,
    alloc: Global,
    reg: &Registry,
    pass: &mut Pass,
    auth: &A,
    secret: &[u8],
    link: &mut L,
    gate: &G,
) -> Ended
    requires ready { IsReady reg.now pass.old }
    ensures ready { IsReady reg.now pass.new }
    ensures serves { Serves (config_by A.verdict auth.now secret.now)
        pass.old pass.new (L.seen link.old) (L.seen link.new) result }
    // Where the link tells an input that is in order, and no call of it fails, all is answered unless memory runs out.
    ensures complete { IfSome (L.seen link.old).left (λ input.
        IsOrderly input → IsFaultless (L.seen link.old) (L.seen link.new)
        → (result ≡ Ended.Done) ⊎ (result ≡ Ended.Memory)) }
{
    let mut kept = KeptBases::new();
    serve_with_base(rt, alloc, reg, pass, auth, secret, link, gate, &mut kept)
}

/// Answers the requests of a connection as `serve_connection` does. The bases that are kept from one question to the
/// next may have come from an earlier connection over the same history, and are left for a later one.
pub fn serve_with_base<R: Wait, A: Authenticator, L: Link, G: Gate>(
    rt: &R,
    alloc: Global,
    reg: &Registry,
    pass: &mut Pass,
    auth: &A,
    secret: &[u8],
    link: &mut L,
    gate: &G,
    kept: &mut KeptBases,
) -> Ended
    requires ready { IsReady reg.now pass.old }
    requires of_history { IsKept pass.old.seen kept.old }
    ensures ready { IsReady reg.now pass.new }
    ensures of_history { IsKept pass.new.seen kept.new }
    ensures serves { Serves (config_by A.verdict auth.now secret.now)
        pass.old pass.new (L.seen link.old) (L.seen link.new) result }
    ensures complete { IfSome (L.seen link.old).left (λ input.
        IsOrderly input → IsFaultless (L.seen link.old) (L.seen link.new)
        → (result ≡ Ended.Done) ⊎ (result ≡ Ended.Memory)) }
{
    let config = ServeConfig {
        registry: reg,
        authenticator: auth,
        secret,
        gate,
    };
    serve_requests(rt, alloc, &config, pass, link, kept)
}

fn serve_requests<R: Wait, A: Authenticator, L: Link, G: Gate>(
    rt: &R,
    alloc: Global,
    config: &ServeConfig<'_, A, G>,
    pass: &mut Pass,
    link: &mut L,
    kept: &mut KeptBases,
) -> Ended
    requires ready { IsReady config.now.registry.now pass.old }
    requires of_history { IsKept pass.old.seen kept.old }
    ensures ready { IsReady config.now.registry.now pass.new }
    ensures of_history { IsKept pass.new.seen kept.new }
    ensures serves { Serves (config_of A.verdict config.now)
        pass.old pass.new (L.seen link.old) (L.seen link.new) result }
{
    laws::serving_begins();
    laws::serving_takes();
    laws::serving_answers();
    laws::serving_ends();
    laws::serving_stops();
    laws::serving_is_small();
    let mut feed = match Feed::new(alloc) {
        Ok(feed) => feed,
        Err(NoMemory) => return Ended::Memory,
    };
    let mut connection = Connection::new(alloc);
    let mut answered: u32 = 0;
    'requests: for _ in rt.forever() {
        match answer_next(
            rt,
            alloc,
            config,
            pass,
            &mut connection,
            kept,
            &mut feed,
            link,
            answered + 1,
        ) {
            Step::Answered => {
                answered += 1;
                if answered >= REQUESTS {
                    return Ended::Budget;
                }
            }
            Step::SaidBye => return Ended::Done,
            Step::BlockRefused { n } => return Ended::Block { n },
            Step::WriteFailed => return Ended::WriteFault,
            Step::NoRequest => match read_more(&mut feed, link) {
                Fill::More => {}
                Fill::Failed => return Ended::ReadFault,
                Fill::End => return end_of(&feed),
            },
        }
    }
    unreachable!()
}
