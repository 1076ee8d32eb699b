//! Requests by shape.
ghost use Rattle.std.specs.Prelude.{◌≡◌};
ghost use Rattle.kn_wire.specs.Hex.{IsWellFormed};
ghost use Rattle.kn_wire.specs.Wired.{request_of};
ghost use Rattle.kn_daemon.specs.Shapes.{shape_in_code, IsFormed};
ghost use Rattle.kn_daemon.specs.Shapes as S;

use kn_session::Call;
use kn_wire::Request;

/// What sort of thing a request asks. Its texts lie in the feed's buffer.
#[derive(Clone, Copy)]
pub enum Shape<'a> {
    /// A call of session `s`.
    Call {
        s: u32,
        call: Call<'a>,
    },
    /// The call that sets an attribute, whose value has yet to be decoded.
    SetHex {
        s: u32,
        name: &'a [u8],
        digits: &'a [u8],
    },
    /// A new session is pinned to the newest version.
    Open,
    /// Session `s` is pinned to the newest version.
    Pin {
        s: u32,
    },
    /// Session `s` is pinned to the retained version of this number.
    PinAt {
        s: u32,
        version: u32,
    },
    /// An update that adds the credential of a text.
    Add {
        block: &'a [u8],
    },
    /// An update that removes the credential of an id.
    Remove {
        k: u32,
    },
    /// An update of several changes, the items of a block: all of them, or none.
    Batch {
        block: &'a [u8],
    },
    /// The updates behind the first `n`.
    Log {
        n: u32,
    },
    /// The answer to the standing query of session `s` over the newest version.
    News {
        s: u32,
    },
    /// A question on session `s`, answered with a proof.
    Query {
        s: u32,
        values: &'a [u8],
    },
    /// A question on session `s`, which is kept as its standing query.
    Watch {
        s: u32,
        values: &'a [u8],
    },
    /// A question on session `s`, answered with the critical assertions.
    Critical {
        s: u32,
        values: &'a [u8],
    },
    /// The administrators' secret is shown.
    Admin {
        digits: &'a [u8],
    },
    /// The connection ends.
    Bye,
}

/// The shape of a request. Its texts are those of the request.
pub fn shape_of(request: Request<'_>) -> Shape<'_>
    requires form { IsWellFormed (request_of request) }
    ensures shape { S.shape_of (request_of request.entry) ≡ shape_in_code result }
    ensures form { IsFormed result }
{
    match request {
        Request::Open => Shape::Open,
        Request::Close { s } => Shape::Call {
            s,
            call: Call::Close,
        },
        Request::Pin { s } => Shape::Pin { s },
        Request::PinAt { s, version } => Shape::PinAt { s, version },
        Request::Assert { s, block } => Shape::Call {
            s,
            call: Call::Assert { text: block },
        },
        Request::Retract { s, k } => Shape::Call {
            s,
            call: Call::Retract { k },
        },
        Request::Set { s, name, value } => Shape::Call {
            s,
            call: Call::Set { name, value },
        },
        Request::SetHex { s, name, digits } => Shape::SetHex { s, name, digits },
        Request::Unset { s, name } => Shape::Call {
            s,
            call: Call::Unset { name },
        },
        Request::Auth { s, principal } => Shape::Call {
            s,
            call: Call::Auth { principal },
        },
        Request::Unauth { s, principal } => Shape::Call {
            s,
            call: Call::Unauth { principal },
        },
        Request::Clear { s } => Shape::Call {
            s,
            call: Call::Clear,
        },
        Request::Query { s, values } => Shape::Query { s, values },
        Request::Watch { s, values } => Shape::Watch { s, values },
        Request::News { s } => Shape::News { s },
        Request::Unwatch { s } => Shape::Call {
            s,
            call: Call::Unwatch,
        },
        Request::Critical { s, values } => Shape::Critical { s, values },
        Request::Admin { digits } => Shape::Admin { digits },
        Request::Add { block } => Shape::Add { block },
        Request::Drop { k } => Shape::Remove { k },
        Request::Batch { block } => Shape::Batch { block },
        Request::Log { n } => Shape::Log { n },
        Request::Bye => Shape::Bye,
    }
}
