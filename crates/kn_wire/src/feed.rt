//! Requests from bytes that come in pieces.
ghost use Rattle.std.specs.Prelude.{◌≡◌, ◌≤◌, take, vec_len};
ghost use Rattle.kn_wire.specs.declared.feed.TheConstants.{BUFFER_BYTES};
ghost use Rattle.kn_wire.specs.Cursors.{IsSound};

use crate::buffer::{copy_behind, move_front, read_behind};
use crate::byte_range::ByteRange;
use crate::cursor::{Advanced, Cursor, Stage};
use crate::fault::WireFault;
use crate::head::Head;
use crate::line::read_line;
use crate::request::Request;
use crate::split::place_of;
use kn_base::NoMemory;
use kn_base::limits::{ASSERTION_BYTES, LINE_BYTES};
use kn_outside::{Failed, Link};
use std::alloc::Global;

/// The most bytes of a piece.
pub const CHUNK_BYTES: usize = 4_096;

/// A line with its newline, a block, and a piece.
const BUFFER_BYTES: usize = LINE_BYTES + 1 + ASSERTION_BYTES + CHUNK_BYTES;

/// The bytes that came and belong to no answered request, in one buffer for good.
///
/// Each byte is looked at a bounded number of times, however the pieces are cut: the feed keeps how far it looked for a
/// newline and how many bytes a block wants, and it moves bytes only before a piece, when all that it holds belongs to
/// one request.
#[derive(Drop)]
pub struct Feed {
    buf: Vec<u8>,
    /// So many bytes of the buffer came; what lies behind them is of no account.
    end: usize,
    cursor: Cursor,
    ghost full: { vec_len buf ≡ BUFFER_BYTES },
    ghost within: { end ≤ BUFFER_BYTES },
    ghost sound: { IsSound cursor (take end buf.items) },
}

impl Feed {
    ghost use Rattle.std.specs.Prelude.{◌≡◌, ◌+◌, ◌≤◌, ⊤, [], length, take, drop, None, IfOk, IfSome};
    ghost use Rattle.std.specs.Borrow.{sem, follows_so};
    ghost use Rattle.kn_wire.specs.Cursors.{Advances};
    ghost use Rattle.kn_wire.specs.Lines.{blocked_of, with_block};
    ghost use Rattle.kn_wire.specs.ByteRanges.{bytes_in};
    ghost use Rattle.kn_wire.specs.Requests as D;
    ghost use Rattle.kn_wire.specs.Requests.{line_of};
    ghost use Rattle.kn_wire.specs.Hex.{IsWellFormed};
    ghost use Rattle.kn_wire.specs.Wired.{request_of, request_or_fault};
    ghost use mathlib.Core.Option.{none};
    ghost use Rattle.kn_wire.specs.Feeding.{Bytes, with_piece, next_of, held_bytes};
    ghost use Rattle.kn_wire.specs.Filling.{IsFilled};
    ghost use Rattle.kn_wire.specs.Feeds.{held, IsAnswer};
    ghost use Rattle.kn_wire.specs.contracts.feed.Feed.{the_row};
    ghost use Rattle.kn_wire.specs.declared.cursor.Stage.TheVariants as S;

    /// A feed that holds nothing. Only this call takes memory.
    #[tactic(auto, unfolding(crate::specs::Feeds::held))]
    pub fn new(alloc: Global) -> Result<Feed, NoMemory>
        ensures { IfOk result (λ feed. held feed ≡ Bytes []) }
    {
        match vec![in alloc; 0; BUFFER_BYTES] {
            Ok(buf) => Ok(Feed {
                buf,
                end: 0,
                cursor: Cursor::start(Stage::Reading),
            }),
            Err(_) => Err(NoMemory),
        }
    }

    /// Adds a piece behind the bytes held, once `next` has answered None.
    pub fn push(&mut self, piece: &[u8])
        requires short { length piece.now ≤ CHUNK_BYTES }
        requires none { next_of (held self.old) ≡ None }
        ensures { held self.new ≡ with_piece (held self.old) piece.now }
    {
        self.make_room();
        copy_behind(&mut self.buf, self.end, piece);
        self.admit(piece.len());
    }

    /// Reads the next bytes of a link behind the bytes held, as a piece, once `next` has answered None, and tells how
    /// many. There are none only at the end of the input.
    pub fn fill<L: Link>(&mut self, link: &mut L) -> Result<usize, Failed>
        requires none { next_of (held self.old) ≡ None }
        ensures { IsFilled (held self.old) (held self.new) (L.seen link.old) (L.seen link.new) result }
    {
        self.make_room();
        match read_behind(&mut self.buf, self.end, link) {
            Ok(bytes) => {
                self.admit(bytes);
                Ok(bytes)
            }
            Err(Failed) => Err(Failed),
        }
    }

    /// The next request, which is spent; None where there is no whole one. A long line is answered as soon as it is
    /// known to be long. After `Block` each call answers the same.
    pub fn next(&mut self) -> Result<Option<Request<'_>>, WireFault>
        ensures form { IfOk result (λ asked. IfSome asked (λ request. IsWellFormed (request_of request))) }
        ensures* after { sem 𝓛 (follows_so the_row the_row self.entry.ghost_name none (λ _ _. ⊤)
            (λ n. IsAnswer (held self.old) result (held n))) }
    {
        match self.advance() {
            Advanced::Nothing => Ok(None),
            Advanced::Line(line) => match self.read_spent(line) {
                Ok(request) => Ok(Some(request)),
                Err(fault) => Err(fault),
            },
            Advanced::WithBlock { head, block } => Ok(Some(self.complete(head, block))),
            Advanced::Refused(fault) => Err(fault),
        }
    }

    /// How many bytes belong to no answered request.
    #[tactic(auto, unfolding(crate::specs::Feeds::held))]
    pub fn held(&self) -> u32
        ensures { result ≡ length (held_bytes (held self.now)) }
    {
        match self.cursor.stage {
            Stage::Reading => (self.end - self.cursor.from) as u32,
            Stage::Skipping => 0,
            Stage::Refusing { .. } => 0,
        }
    }

    /// The bytes that came.
    fn bytes(&self) -> &[u8]
        ensures { result.now ≡ take self.now.end self.now.buf.items }
    {
        self.buf.as_slice().split_at(self.end).0
    }

    /// Spends the next request.
    #[tactic(auto, unfolding(crate::specs::Feeds::held))]
    fn advance(&mut self) -> Advanced
        ensures { Advances (held self.old) result (take self.new.end self.new.buf.items) (held self.new) }
    {
        self.cursor
            .advance(self.buf.as_slice().split_at(self.end).0)
    }

    /// What a line that was spent asks.
    fn read_spent(&self, line: ByteRange) -> Result<Request<'_>, WireFault>
        requires within { line.start + line.len ≤ length (take self.now.end self.now.buf.items) }
        requires whole { blocked_of (line_of (bytes_in line (take self.now.end self.now.buf.items))) ≡ None }
        ensures form { IfOk result (λ request. IsWellFormed (request_of request)) }
        ensures request { D.Whole (request_or_fault result)
            ≡ line_of (bytes_in line (take self.now.end self.now.buf.items)) }
    {
        read_line(line.of(self.bytes()))
    }

    /// The request of a head and a block that were spent.
    fn complete(&self, head: Head, block: ByteRange) -> Request<'_>
        requires within { block.start + block.len ≤ length (take self.now.end self.now.buf.items) }
        requires short { block.len ≤ ASSERTION_BYTES }
        ensures form { IsWellFormed (request_of result) }
        ensures request { request_of result ≡ with_block head (bytes_in block (take self.now.end self.now.buf.items)) }
    {
        head.with_block(block.of(self.bytes()))
    }

    /// Moves the bytes held to the front of the buffer, so that a piece fits behind them.
    #[tactic(auto, unfolding(crate::specs::Feeds::held))]
    fn make_room(&mut self)
        requires none { next_of (held self.old) ≡ None }
        ensures held { held self.new ≡ held self.old }
        ensures room { self.new.end + CHUNK_BYTES ≤ BUFFER_BYTES }
    {
        match self.cursor.stage {
            Stage::Reading => {
                self.end = move_front(&mut self.buf, self.cursor.from, self.end);
                self.cursor.from = 0;
            }
            Stage::Skipping => {
                self.end = 0;
                self.cursor = Cursor::start(Stage::Skipping);
            }
            Stage::Refusing { .. } => unreachable!(),
        }
    }

    /// Takes so many bytes of the buffer, behind those that came, as a piece that came. Of a long line they are dropped
    /// through their first newline.
    #[tactic(auto, unfolding(crate::specs::Feeds::held))]
    fn admit(&mut self, bytes: usize)
        requires room { self.old.end + bytes ≤ BUFFER_BYTES }
        requires none { next_of (held self.old) ≡ None }
        ensures { held self.new ≡ with_piece (held self.old) (take bytes (drop self.old.end self.old.buf.items)) }
    {
        match self.cursor.stage {
            Stage::Reading => self.end += bytes,
            Stage::Skipping => self.admit_skipping(bytes),
            Stage::Refusing { .. } => unreachable!(),
        }
    }

    #[tactic(auto, unfolding(crate::specs::Feeds::held))]
    fn admit_skipping(&mut self, bytes: usize)
        requires room { self.old.end + bytes ≤ BUFFER_BYTES }
        requires stage { self.old.cursor.stage ≡ S.Skipping }
        ensures { held self.new ≡ with_piece (held self.old) (take bytes (drop self.old.end self.old.buf.items)) }
    {
        let piece = self.buf.as_slice().split_at(self.end).1.split_at(bytes).0;
        let line = place_of(b'\n', piece, 0);
        if line == bytes {
            return;
        }
        self.cursor = Cursor::start(Stage::Reading);
        self.cursor.from = self.end + line + 1;
        self.end += bytes;
    }
}
