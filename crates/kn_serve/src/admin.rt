//! Showing the administrators' secret.
ghost use Rattle.std.specs.Prelude.{◌≡◌, None};
ghost use Rattle.kn_outside.specs.Printing.{is_whole};
ghost use Rattle.kn_wire.specs.Hex.{bytes_of_hex};
ghost use Rattle.kn_daemon.specs.Shapes.{Controls, ShowSecret};
ghost use Rattle.kn_daemon.specs.Daemon.{DaemonConfig};
ghost use Rattle.kn_serve.specs.Handling.{state_of, Tells};

use crate::connection::Connection;
use kn_outside::{Failed, Link};
use kn_reply::{Refusal, Reply, print};
use kn_wire::is_hex_of;

/// Answers ADMIN. A wrong secret doesn't take back an earlier right one. The last answer is forgotten.
pub(crate) fn show_secret<L: Link>(
    secret: &[u8],
    connection: &mut Connection,
    digits: &[u8],
    link: &mut L,
) -> Result<(), Failed>
    ensures forgotten { connection.new.last.answer ≡ None }
    ensures exact { (g : DaemonConfig) → g.secret ≡ secret.now
        → Tells g (Controls (ShowSecret (bytes_of_hex digits.now))) (is_whole result)
        (state_of connection.old) (state_of connection.new) (L.seen link.old) (L.seen link.new) }
{
    connection.last.forget();
    if secret.is_empty() || !is_hex_of(digits, secret) {
        return print(&Reply::No(Refusal::Admin), link);
    }
    connection.is_admin = true;
    print(&Reply::Ok, link)
}
