//! The first request of a text.
ghost use Rattle.std.specs.Prelude.{◌≡◌, ◌+◌, ◌<◌, ◌≤◌, length};
ghost use Rattle.kn_wire.specs.Lines.{with_block};
ghost use Rattle.kn_wire.specs.Requests.{line_length};
ghost use Rattle.kn_wire.specs.Firsts.{IsFirst, NamesBlock};

use crate::byte_range::ByteRange;
use crate::head::{Head, read_head};
use crate::split::{place_of, without_return};
use kn_base::limits::{ASSERTION_BYTES, LINE_BYTES};

/// The first request of a text.
#[derive(Clone, Copy, Drop)]
pub(crate) enum First {
    /// It isn't there yet: so many bytes have no newline among them, and fewer than the bytes needed hold no request.
    Waits {
        searched: usize,
        needed: usize,
    },
    /// A line that names no block, without its carriage return. So many bytes are spent.
    Line {
        line: ByteRange,
        bytes: usize,
    },
    /// A request with its block. So many bytes are spent.
    WithBlock {
        head: Head,
        block: ByteRange,
        bytes: usize,
    },
    /// A long line of so many bytes, with a newline behind them or not.
    Long {
        bytes: usize,
    },
    /// A block of `n` bytes is above the limit, or no newline follows it.
    Unended {
        n: usize,
    },
}

/// The first request of a text, if no newline stands among its first bytes that were searched.
pub(crate) fn read_first(text: &[u8], searched: usize) -> First
    requires { searched ≤ line_length text.now }
    ensures { IsFirst text.now result }
{
    let end = place_of(b'\n', text, searched);
    if end > LINE_BYTES {
        return First::Long { bytes: end };
    }
    if end == text.len() {
        return First::Waits {
            searched: end,
            needed: end + 1,
        };
    }
    let line = without_return(text.split_at(end).0);
    match read_head(line) {
        Some((head, n)) => read_block(text, end, head, n),
        None => First::Line {
            line: ByteRange {
                start: 0,
                len: line.len(),
            },
            bytes: end + 1,
        },
    }
}

/// The first request of a text whose first line ends there and names a block of `n` bytes.
fn read_block(text: &[u8], end: usize, head: Head, n: usize) -> First
    requires { NamesBlock text.now end n (with_block head) }
    ensures { IsFirst text.now result }
{
    let start = end + 1;
    if n > ASSERTION_BYTES {
        return First::Unended { n };
    }
    if text.len() <= start + n {
        return First::Waits {
            searched: end,
            needed: start + n + 1,
        };
    }
    if text[start + n] != b'\n' {
        return First::Unended { n };
    }
    First::WithBlock {
        head,
        block: ByteRange { start, len: n },
        bytes: start + n + 1,
    }
}
