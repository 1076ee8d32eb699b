//! What a QUERY asks.
ghost use Rattle.std.specs.Prelude.{IfOk};
ghost use Rattle.kn_daemon.specs.Shapes.{Asks, WithProof, shape_in_code};
ghost use Rattle.kn_play.specs.Playing.{state_of_sessions, AsksFor};

use kn_base::NoMemory;
use kn_daemon::shape::Shape;
use kn_env::{Values, ValuesFault};
use kn_session::Sessions;
use std::alloc::Global;

/// The number of an open session, and the compliance values that are asked for.
#[derive(Drop)]
pub(crate) struct Asked {
    pub session: u32,
    pub values: Values,
}

/// What a request of this shape asks; None where it is no QUERY that is answered with a value.
pub(crate) fn read_asked(
    alloc: Global,
    sessions: &Sessions,
    shape: Shape<'_>,
) -> Result<Option<Asked>, NoMemory>
    ensures { IfOk result (AsksFor (state_of_sessions sessions.now) (shape_in_code shape.entry)) }
{
    match shape {
        Shape::Query { s, values } => read_query(alloc, sessions, s, values),
        Shape::Call { .. }
        | Shape::SetHex { .. }
        | Shape::Open
        | Shape::Pin { .. }
        | Shape::PinAt { .. }
        | Shape::Log { .. }
        | Shape::News { .. }
        | Shape::Watch { .. }
        | Shape::Critical { .. }
        | Shape::Add { .. }
        | Shape::Remove { .. }
        | Shape::Batch { .. }
        | Shape::Admin { .. }
        | Shape::Bye => Ok(None),
    }
}

/// What a QUERY of these names asks of the session of this number.
pub(crate) fn read_query(
    alloc: Global,
    sessions: &Sessions,
    session: u32,
    names: &[u8],
) -> Result<Option<Asked>, NoMemory>
    ensures { IfOk result (AsksFor (state_of_sessions sessions.now) (Asks WithProof session names.now)) }
{
    match sessions.view(session) {
        Ok(_) => {}
        Err(_) => return Ok(None),
    }
    match Values::of(alloc, names) {
        Ok(values) => Ok(Some(Asked { session, values })),
        Err(ValuesFault::NoMemory) => Err(NoMemory),
        Err(ValuesFault::Count { .. } | ValuesFault::BadName { .. } | ValuesFault::Twice { .. }) =>
            { Ok(None) }
    }
}
