//! Gathering a text into few writes.
ghost use Rattle.std.specs.Prelude.{◌≡◌, [], true, false};

use arrayvec::ArrayVec;
use kn_outside::{Failed, Sink, write_all};

/// A text on its way to a sink: what was put and isn't written yet, at most `N` bytes. After a write has failed it
/// takes nothing more.
#[derive(Drop)]
pub(crate) struct Printer<const N: usize> {
    pending: ArrayVec<u8, N>,
    failed: bool,
}

impl<const N: usize> Printer<N> {
    ghost use Rattle.std.specs.Prelude.{◌≡◌, ℕ, List, [], true, false};
    ghost use Rattle.kn_outside.specs.Seen.{LinkSeen};
    ghost use Rattle.kn_outside.specs.Printing.{Prints, is_whole};
    ghost use Rattle.kn_reply.specs.Gathering.{Gathered, Puts};

    /// A printer to which nothing was put.
    pub(crate) fn new() -> Printer<N>
        ensures { (seen : LinkSeen) → Gathered [] seen result seen }
    {
        Printer {
            pending: ArrayVec::new(),
            failed: false,
        }
    }

    /// Puts bytes behind those that were put before. Where there is room for them, which is nearly always, they are
    /// copied in place: a literal by a store or two.
    #[inline(always)]
    pub(crate) fn put<O: Sink>(&mut self, out: &mut O, bytes: &[u8])
        ensures { Puts bytes.now self.old (O.seen out.old) self.new (O.seen out.new) }
    {
        if self.gather(bytes) {
            return;
        }
        self.put_behind_room(out, bytes);
    }

    /// Puts bytes for which there is no room behind those that are pending.
    #[cold]
    #[inline(never)]
    fn put_behind_room<O: Sink>(&mut self, out: &mut O, bytes: &[u8])
        ensures { Puts bytes.now self.old (O.seen out.old) self.new (O.seen out.new) }
    {
        self.flush(out);
        self.put_first(out, bytes);
    }

    /// Writes what is left, and tells whether all that was put is written.
    pub(crate) fn finish<O: Sink>(mut self, out: &mut O) -> Result<(), Failed>
        ensures { (text : List ℕ) (first : LinkSeen) → Gathered text first self.entry (O.seen out.old)
            → Prints (is_whole result) text first (O.seen out.new) }
    {
        self.flush(out);
        if self.failed { Err(Failed) } else { Ok(()) }
    }

    /// Takes bytes where there is room for them or a write has failed; else nothing changes.
    #[inline(always)]
    fn gather(&mut self, bytes: &[u8]) -> bool
        ensures put { result ≡ true → (seen : LinkSeen) → Puts bytes.now self.old seen self.new seen }
        ensures full { result ≡ false → self.new ≡ self.old }
        ensures going { result ≡ false → self.old.failed ≡ false }
    {
        if self.failed {
            return true;
        }
        match self.pending.try_extend_from_slice(bytes) {
            Ok(()) => true,
            Err(_) => false,
        }
    }

    /// Writes what is pending.
    fn flush<O: Sink>(&mut self, out: &mut O)
        ensures same { Puts [] self.old (O.seen out.old) self.new (O.seen out.new) }
        ensures empty { self.new.failed ≡ false → self.new.pending.items ≡ [] }
    {
        if self.failed {
            return;
        }
        match write_all(out, self.pending.as_slice()) {
            Ok(()) => self.pending.clear(),
            Err(Failed) => self.failed = true,
        }
    }

    /// Puts bytes where nothing is pending. Those for which there is no room at all are written at once.
    fn put_first<O: Sink>(&mut self, out: &mut O, bytes: &[u8])
        requires { self.old.failed ≡ false → self.old.pending.items ≡ [] }
        ensures { Puts bytes.now self.old (O.seen out.old) self.new (O.seen out.new) }
    {
        if self.gather(bytes) {
            return;
        }
        match write_all(out, bytes) {
            Ok(()) => {}
            Err(Failed) => self.failed = true,
        }
    }
}
