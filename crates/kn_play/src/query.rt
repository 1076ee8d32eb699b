//! The query that a script means.
ghost use Rattle.std.specs.Prelude.{◌≤◌, ℕ, List, length, IfOk, IfSome, IfNone};
ghost use Rattle.kn_base.specs.declared.limits.TheConstants.{FILE_BYTES};
ghost use Rattle.kn_session.specs.Sessions.{Session};
ghost use Rattle.kn_play.specs.LastQueries.{Means, IsFoundQuery};

use crate::asking::Asked;
use crate::last_query::LastQuery;
use crate::playing::{AnsweredQuery, Played, play};
use kn_base::NoMemory;
use kn_store::Book;
use std::alloc::Global;

/// The query that a script means where each of its requests stands behind all updates of a book; None where it means
/// none.
///
/// It is the last QUERY, up to BYE, a refused block or the last whole request, on an open session and for well-formed
/// compliance values (keynoted's own). A refused request changes nothing, as on the daemon. A session starts with the
/// newest version, and may pin another one that the book retains. `NoMemory` comes only when memory runs out.
pub fn find_query(alloc: Global, book: &Book, script: &[u8]) -> Result<Option<LastQuery>, NoMemory>
    requires short { length script.now ≤ FILE_BYTES }
    ensures some { IfOk result (λ found. IfSome found (IsFoundQuery book.now script.now)) }
    ensures none { IfOk result (λ found. IfNone found ((session : Session) (values : List (List ℕ))
        → ¬ Means book.now script.now session values)) }
{
    let Played { sessions: _, last } = play(alloc, book, script, script.len())?;
    let Some(AnsweredQuery { before, asked }) = last else {
        return Ok(None);
    };
    let Asked { session, values } = asked;
    let Played { sessions, last: _ } = play(alloc, book, script, before)?;
    Ok(Some(LastQuery {
        sessions,
        session,
        values,
    }))
}
