//! The next request of a connection.
ghost use Rattle.std.specs.Prelude.{◌≡◌, true, false};
ghost use Rattle.kn_wire.specs.Requests.{Bye};
ghost use Rattle.kn_wire.specs.Wired.{request_of};
ghost use Rattle.kn_daemon.specs.Served.{is_bye, is_block};
ghost use Rattle.kn_wire.specs.Feeds.{held};
ghost use Rattle.kn_registry.specs.Passes.{IsReady};
ghost use Rattle.kn_serve.specs.Configs.{config_of};
ghost use Rattle.kn_serve.specs.Handling.{moment, state_of, HasRoom, MakesStep};
ghost use Rattle.kn_serve.specs.KeptBases.{ArePinned, IsKept};
ghost use Rattle.kn_serve.specs.LastQuestions.{IsLastOf};

use crate::answering::{answer, refuse};
use crate::config::ServeConfig;
use crate::connection::Connection;
use kn_auth::Authenticator;
use kn_outside::{Failed, Gate, Link};
use kn_query::KeptBases;
use kn_registry::Pass;
use kn_wire::{Feed, Request, WireFault};
use std::alloc::Global;
use std::sync::Wait;

/// What became of the next request.
#[derive(Drop)]
pub(crate) enum Step {
    /// There is none yet.
    NoRequest,
    Answered,
    SaidBye,
    BlockRefused { n: usize },
    WriteFailed,
}

/// Answers the next request, if it is there. The reply is the `place`-th of the connection.
pub(crate) fn answer_next<R: Wait, A: Authenticator, L: Link, G: Gate>(
    rt: &R,
    alloc: Global,
    config: &ServeConfig<'_, A, G>,
    pass: &mut Pass,
    connection: &mut Connection,
    kept: &mut KeptBases,
    feed: &mut Feed,
    link: &mut L,
    place: u32,
) -> Step
    requires ready { IsReady config.now.registry.now pass.old }
    requires room { HasRoom (state_of connection.old) }
    requires pinned { ArePinned pass.old.seen (state_of connection.old) }
    requires of_history { IsKept pass.old.seen kept.old }
    requires last { IsLastOf pass.old.seen (state_of connection.old) connection.old.last }
    ensures ready { IsReady config.now.registry.now pass.new }
    ensures of_history { IsKept pass.new.seen kept.new }
    ensures last { IsLastOf pass.new.seen (state_of connection.new) connection.new.last }
    ensures stepped { MakesStep (config_of A.verdict config.now)
        (moment pass.old connection.old (L.seen link.old)) (moment pass.new connection.new (L.seen link.new))
        (held feed.old) (held feed.new) result }
{
    match feed.next() {
        Ok(None) => Step::NoRequest,
        Ok(Some(request)) => {
            let is_bye = says_bye(&request);
            config.gate.before_reply(rt, pass.number(), place);
            match answer(rt, alloc, config, pass, connection, kept, request, link) {
                Ok(()) => if is_bye {
                    Step::SaidBye
                } else {
                    Step::Answered
                },
                Err(Failed) => Step::WriteFailed,
            }
        }
        Err(fault) => {
            config.gate.before_reply(rt, pass.number(), place);
            match refuse(fault, link) {
                Ok(()) => match fault {
                    WireFault::Block { n } => Step::BlockRefused { n },
                    WireFault::Syntax | WireFault::Command | WireFault::Long => Step::Answered,
                },
                Err(Failed) => Step::WriteFailed,
            }
        }
    }
}

fn says_bye(request: &Request<'_>) -> bool
    ensures bye { result ≡ true → request_of request.now ≡ Bye }
    ensures others { result ≡ false → is_bye (request_of request.now) ≡ false }
    ensures no_block { is_block (request_of request.now) ≡ false }
{
    matches!(request, Request::Bye)
}
