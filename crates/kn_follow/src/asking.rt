//! Asking over a link, and waiting for the answer.
ghost use Rattle.std.specs.Prelude.{[], IfOk, IfErr};
ghost use Rattle.kn_follow.specs.Exchanges.{Grows, IsAnswered, IsNotAnswered, IsNotRead};

use crate::answer::find_answer;
use crate::pull_fault::PullFault;
use crate::reply::REPLY_BYTES;
use crate::request::Request;
use kn_base::Octets;
use kn_outside::{Failed, Link, write_all};
use std::alloc::Global;

/// The most bytes of a piece.
const CHUNK_BYTES: usize = 4_096;

/// The number of bytes at which an answer is too long.
const TOO_MANY: u32 = REPLY_BYTES as u32 + 1;

/// Writes a request and waits for its answer, and tells how many of the bytes held it has.
pub(crate) fn ask<L: Link>(
    alloc: Global,
    link: &mut L,
    held: &mut Octets,
    request: Request,
    line: &[u8],
) -> Result<usize, PullFault>
    ensures answer { IfOk result (λ count. IsAnswered request line.now held.old held.new
        (L.seen link.old) (L.seen link.new) count) }
    ensures fault { IfErr result (λ fault. IsNotAnswered request line.now held.old
        (L.seen link.old) (L.seen link.new) fault) }
{
    match write_all(link, line) {
        Ok(()) => wait(alloc, link, held, request),
        Err(Failed) => Err(PullFault::Write),
    }
}

/// Reads pieces until an answer is there.
fn wait<L: Link>(
    alloc: Global,
    link: &mut L,
    held: &mut Octets,
    request: Request,
) -> Result<usize, PullFault>
    ensures answer { IfOk result (λ count. IsAnswered request [] held.old held.new
        (L.seen link.old) (L.seen link.new) count) }
    ensures fault { IfErr result (λ fault. IsNotAnswered request [] held.old
        (L.seen link.old) (L.seen link.new) fault) }
{
    'pieces: loop {
        if let Some(count) = find_answer(alloc, request, held.as_slice())? {
            return Ok(count);
        }
        if held.len() > REPLY_BYTES {
            return Err(PullFault::Long { bytes: TOO_MANY });
        }
        if read_chunk(link, held)? == 0 {
            return Err(PullFault::Ended {
                held: held.len() as u32,
            });
        }
    }
}

/// Reads the next bytes behind those held, and tells how many. There are none only at the end of the input.
fn read_chunk<L: Link>(link: &mut L, held: &mut Octets) -> Result<usize, PullFault>
    ensures grows { IfOk result (λ count. Grows held.old held.new (L.seen link.old) (L.seen link.new) count) }
    ensures fault { IfErr result (λ fault. IsNotRead (L.seen link.old) (L.seen link.new) fault) }
{
    let mut piece = [0; CHUNK_BYTES];
    match link.read(&mut piece) {
        Ok(count) => {
            held.extend(piece.split_at(count).0)?;
            Ok(count)
        }
        Err(Failed) => Err(PullFault::Read),
    }
}
