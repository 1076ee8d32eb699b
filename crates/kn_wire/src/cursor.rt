//! Where a feed stands in the bytes that came.
ghost use Rattle.std.specs.Prelude.{◌≡◌, ◌+◌, ◌<◌, ◌≤◌, ◌^◌};
ghost use Rattle.kn_wire.specs.Cursors.{Advances, IsSound, Waits, held_at};
ghost use Rattle.kn_wire.specs.declared.cursor.Stage.TheVariants as S;

use crate::byte_range::ByteRange;
use crate::fault::WireFault;
use crate::first::{First, read_first};
use crate::head::Head;

/// Where a feed stands in its stream.
#[derive(Clone, Copy, Drop)]
pub(crate) enum Stage {
    /// Within a request, or before one.
    Reading,
    /// Within a long line that was answered before its newline came.
    Skipping,
    /// Behind a block of `n` bytes that was refused.
    Refusing { n: usize },
}

/// What became of the bytes that came.
#[derive(Clone, Copy, Drop)]
pub(crate) enum Advanced {
    /// There is no whole request.
    Nothing,
    /// This line was spent, which names no block.
    Line(ByteRange),
    /// This block was spent, and the line before it.
    WithBlock { head: Head, block: ByteRange },
    Refused(WireFault),
}

/// Where a feed stands in the bytes that came.
#[derive(Clone, Copy, Drop)]
pub(crate) struct Cursor {
    /// How many bytes were spent.
    pub from: usize,
    /// So many of the bytes behind those have no newline among them.
    pub searched: usize,
    /// Fewer bytes than these hold no request.
    pub needed: usize,
    pub stage: Stage,
}

impl Cursor {
    /// At the front of a buffer.
    pub(crate) fn start(stage: Stage) -> Cursor
        ensures { result ≡ record { from = 0; searched = 0; needed = 0; stage = stage } }
    {
        Cursor {
            from: 0,
            searched: 0,
            needed: 0,
            stage,
        }
    }

    /// Spends the next request of the bytes that came.
    pub(crate) fn advance(&mut self, bytes: &[u8]) -> Advanced
        requires sound { IsSound self.old bytes.now }
        ensures sound { IsSound self.new bytes.now }
        ensures advances { Advances (held_at self.old bytes.now) result bytes.now (held_at self.new bytes.now) }
        ensures waits { self.old.stage ≡ S.Reading → Waits self.old result bytes.now self.new }
    {
        match self.stage {
            Stage::Reading => self.advance_reading(bytes),
            Stage::Skipping => Advanced::Nothing,
            Stage::Refusing { n } => Advanced::Refused(WireFault::Block { n }),
        }
    }

    /// Spends the first request of the bytes held.
    fn advance_reading(&mut self, bytes: &[u8]) -> Advanced
        requires stage { self.old.stage ≡ S.Reading }
        requires sound { IsSound self.old bytes.now }
        ensures sound { IsSound self.new bytes.now }
        ensures advances { Advances (held_at self.old bytes.now) result bytes.now (held_at self.new bytes.now) }
        ensures waits { Waits self.old result bytes.now self.new }
    {
        let start = self.from;
        let text = bytes.split_at(start).1;
        if text.len() < self.needed {
            return Advanced::Nothing;
        }
        match read_first(text, self.searched) {
            First::Waits { searched, needed } => {
                self.searched = searched;
                self.needed = needed;
                Advanced::Nothing
            }
            First::Line { line, bytes } => {
                self.spend(bytes);
                Advanced::Line(line.behind(start))
            }
            First::WithBlock { head, block, bytes } => {
                self.spend(bytes);
                Advanced::WithBlock {
                    head,
                    block: block.behind(start),
                }
            }
            First::Long { bytes } => {
                self.spend_long(text.len(), bytes);
                Advanced::Refused(WireFault::Long)
            }
            First::Unended { n } => {
                self.stage = Stage::Refusing { n };
                Advanced::Refused(WireFault::Block { n })
            }
        }
    }

    /// Spends so many bytes.
    fn spend(&mut self, bytes: usize)
        requires { self.old.from + bytes < 2 ^ 64 }
        ensures { self.new ≡ record self.old { from = self.old.from + bytes; searched = 0; needed = 0 } }
    {
        self.from += bytes;
        self.searched = 0;
        self.needed = 0;
    }

    /// Spends a long line of so many bytes with its newline, or what is there of it among the bytes held.
    fn spend_long(&mut self, held: usize, bytes: usize)
        requires { self.old.from + held < 2 ^ 64 }
        ensures here { bytes < held
            → self.new ≡ record self.old { from = self.old.from + (bytes + 1); searched = 0; needed = 0 } }
        ensures underway { held ≤ bytes
            → self.new ≡ record { from = self.old.from + held; searched = 0; needed = 0; stage = S.Skipping } }
    {
        if bytes < held {
            self.spend(bytes + 1);
        } else {
            self.spend(held);
            self.stage = Stage::Skipping;
        }
    }
}
