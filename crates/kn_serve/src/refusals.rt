//! Refusals that only a served connection has, and how refusals are printed.
ghost use Rattle.std.specs.Prelude.{◌≡◌};
ghost use Rattle.kn_outside.specs.Printing.{Prints, is_whole};
ghost use Rattle.kn_reply.specs.Replies.{reply_text};
ghost use Rattle.kn_daemon.specs.CallFaults.{reply_of_applied};
ghost use Rattle.kn_serve.specs.Handling.{refusal_of_critical, refusal_of_version, refused_reply};

use kn_critical::CriticalFault;
use kn_outside::{Failed, Link};
use kn_registry::PinFault;
use kn_reply::{LimitWord, Refusal, Reply, print};
use kn_session::Applied;

/// The refusal of a query that is too large for a search of its critical assertions; None when out of memory.
pub(crate) fn refusal_of_critical(fault: CriticalFault) -> Option<Refusal>
    ensures { result ≡ refusal_of_critical fault }
{
    match fault {
        CriticalFault::Large { nodes } => Some(Refusal::Limit {
            word: LimitWord::Nodes,
            count: nodes,
        }),
        CriticalFault::NoMemory => None,
    }
}

/// The refusal of a version that isn't retained; None when out of memory.
pub(crate) fn refusal_of_version(fault: PinFault) -> Option<Refusal>
    ensures { result ≡ refusal_of_version fault }
{
    match fault {
        PinFault::Missing { newest } => Some(Refusal::Retained { newest }),
        PinFault::NoMemory => None,
    }
}

/// Prints a refusal, or that memory ran out.
pub(crate) fn print_refusal<L: Link>(refusal: Option<Refusal>, link: &mut L) -> Result<(), Failed>
    ensures prints { Prints (is_whole result) (reply_text (refused_reply refusal)) (L.seen link.old) (L.seen link.new) }
{
    match refusal {
        Some(refusal) => print(&Reply::No(refusal), link),
        None => print(&Reply::NoMemory, link),
    }
}

/// Prints what an accepted call of a session gave.
pub(crate) fn print_applied<L: Link>(applied: Applied, link: &mut L) -> Result<(), Failed>
    ensures prints { Prints (is_whole result) (reply_text (reply_of_applied applied)) (L.seen link.old)
        (L.seen link.new) }
{
    match applied {
        Applied::Done => print(&Reply::Ok, link),
        Applied::Added { k } => print(&Reply::Private { k }, link),
    }
}
