//! The line of a request that a block completes.
ghost use Rattle.std.specs.Prelude.{◌≡◌, option_map};
ghost use Rattle.kn_wire.specs.Lines.{blocked_of, line_of_head, with_block};
ghost use Rattle.kn_wire.specs.Requests as D;
ghost use Rattle.kn_wire.specs.Requests.{line_of, size_line, with_number};

use crate::request::Request;
use crate::split::split_number;
use crate::word::Word;
use kn_base::decimal;

/// A request whose block is still to come.
#[derive(Clone, Copy, Drop)]
pub(crate) enum Head {
    Assert { s: u32 },
    Add,
    Batch,
}

impl Head {
    ghost use Rattle.std.specs.Prelude.{◌≡◌};
    ghost use Rattle.kn_wire.specs.Lines.{with_block};
    ghost use Rattle.kn_wire.specs.Wired.{request_of};

    /// The request with its block.
    pub(crate) fn with_block(self, block: &[u8]) -> Request<'_>
        ensures { request_of result ≡ with_block self block.now }
    {
        match self {
            Head::Assert { s } => Request::Assert { s, block },
            Head::Add => Request::Add { block },
            Head::Batch => Request::Batch { block },
        }
    }
}

/// What a line names, and how many bytes its block has; None where it names no block.
pub(crate) fn read_head(line: &[u8]) -> Option<(Head, usize)>
    ensures { option_map line_of_head result ≡ blocked_of (line_of line.now) }
{
    if let Some(text) = line.strip_prefix(b"ADD ") {
        return read_size(Head::Add, text);
    }
    if let Some(text) = line.strip_prefix(b"ASSERT ") {
        return read_assert(text);
    }
    if let Some(text) = line.strip_prefix(b"BATCH ") {
        return read_size(Head::Batch, text);
    }
    None
}

fn read_assert(text: &[u8]) -> Option<(Head, usize)>
    ensures { option_map line_of_head result ≡ with_number (λ s. size_line (D.Assert s)) text.now }
{
    let (s, rest) = split_number(text)?;
    read_size(Head::Assert { s }, rest)
}

/// The head, and how many bytes its block has.
fn read_size(head: Head, text: &[u8]) -> Option<(Head, usize)>
    ensures { option_map line_of_head result ≡ size_line (with_block head) text.now }
{
    let n = decimal(text)?;
    Some((head, n as usize))
}
