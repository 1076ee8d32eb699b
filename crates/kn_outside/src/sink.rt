//! What is written to.
ghost use Rattle.std.specs.Prelude.{◌≡◌, ℕ, ◌<◌, ◌≤◌, take, length, IfOk, OnErr};
ghost use Rattle.kn_outside.specs.SpecifiedBytes.{more};
ghost use Rattle.kn_outside.specs.Faults.{Rose};
ghost use Rattle.kn_outside.specs.Printing.{Prints, is_whole};

use crate::failed::Failed;

/// What bytes are written to.
pub trait Sink {
    ghost use Rattle.kn_outside.specs.Seen.{LinkSeen};

    /// What is seen of it. Its count of faults says how many calls failed, and stays at the greatest `u64`.
    ghost seen: { Self → LinkSeen };

    /// Writes the first bytes of a piece, at least one, and tells how many. A call that answers `Ok` has
    /// failed at nothing.
    fn write(&mut self, piece: &[u8]) -> Result<usize, Failed>
        requires { 0 < length piece.now }
        ensures count { IfOk result (λ n. (0 < n) × (n ≤ length piece.now)) }
        ensures ok { IfOk result (λ n. seen self.new
            ≡ record (seen self.old) { written = more (take n piece.now) (seen self.old).written }) }
        ensures err { OnErr result (seen self.new ≡ record (seen self.old) { faults = (seen self.new).faults }) }
        ensures failed { OnErr result (Rose (seen self.old).faults (seen self.new).faults) }
        ensures later { (seen self.old).faults ≤ (seen self.new).faults };
}

/// Writes a whole piece, which may be empty. After `Failed` a front of it was written, and not all.
pub fn write_all<S: Sink>(sink: &mut S, piece: &[u8]) -> Result<(), Failed>
    ensures { Prints (is_whole result) piece.now (S.seen sink.old) (S.seen sink.new) }
{
    let mut done = 0;
    while done < piece.len() {
        let rest = piece.split_at(done).1;
        done += sink.write(rest)?;
    }
    Ok(())
}
