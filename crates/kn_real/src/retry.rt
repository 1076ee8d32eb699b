//! Calls to the system that a signal may interrupt.
ghost use Rattle.std.specs.Prelude.{◌≡◌, ◌≤◌, ◌<◌, drop, length, IfOk, OnOk, OnErr};
ghost use Rattle.std.specs.Io.{ReadsAtMost, WritesAtMost};
ghost use Rattle.std.specs.Io.KnownBytes.{Appends, ReadConsumes, WriteAppends};
ghost use Rattle.kn_real.specs.Gathering.{AppendsFront};

use kn_outside::Failed;
use std::io::{self, ErrorKind, Read, Write};

/// How often a call is made until one isn't interrupted.
const TRIES: u32 = 64;

/// Reads once, and again where a signal interrupts that.
pub(crate) fn read_some<R: Read>(reader: &mut R, buf: &mut [u8]) -> io::Result<usize>
    ensures bound { ReadsAtMost result buf.new }
    ensures bytes { ReadConsumes (R.remaining reader.old) (R.remaining reader.new) result buf.new }
{
    for _ in 1..TRIES {
        match reader.read(buf) {
            Ok(bytes) => return Ok(bytes),
            Err(error) => {
                if error.kind() != ErrorKind::Interrupted {
                    return Err(error);
                }
            }
        }
    }
    reader.read(buf)
}

/// The bytes that are read at once at most.
pub(crate) const LINK_CHUNK_BYTES: usize = 4_096;

/// Reads once into a buffer by way of a piece, and again where a signal interrupts that. A failed read leaves the
/// buffer as it was.
pub(crate) fn read_into<R: Read>(
    reader: &mut R,
    piece: &mut [u8; LINK_CHUNK_BYTES],
    buf: &mut [u8],
) -> io::Result<usize>
    requires { 0 < length buf.old }
    ensures count { IfOk result (λ n. n ≤ length buf.new) }
    ensures bytes { ReadConsumes (R.remaining reader.old) (R.remaining reader.new) result buf.new }
    ensures behind { IfOk result (λ n. drop n buf.new ≡ drop n buf.old) }
    ensures buffer { OnErr result (buf.new ≡ buf.old) }
{
    // What a failed read leaves in its buffer isn't known, and neither is what stands behind the bytes that were read.
    let room = LINK_CHUNK_BYTES.min(buf.len());
    let bytes = read_some(reader, piece.split_at_mut(room).0)?;
    buf.split_at_mut(bytes)
        .0
        .copy_from_slice(piece.split_at(bytes).0);
    Ok(bytes)
}

/// Writes once, and again where a signal interrupts that.
pub(crate) fn write_some<W: Write>(writer: &mut W, piece: &[u8]) -> io::Result<usize>
    ensures bound { WritesAtMost result piece.now }
    ensures bytes { WriteAppends (W.contents writer.old) (W.contents writer.new) result piece.now }
{
    for _ in 1..TRIES {
        match writer.write(piece) {
            Ok(bytes) => return Ok(bytes),
            Err(error) => {
                if error.kind() != ErrorKind::Interrupted {
                    return Err(error);
                }
            }
        }
    }
    writer.write(piece)
}

/// Writes a whole piece, which may be empty.
#[tactic(auto, using(crate::proofs::Written::write_nothing, crate::proofs::Written::write_kept))]
pub(crate) fn write_whole<W: Write>(writer: &mut W, piece: &[u8]) -> Result<(), Failed>
    ensures whole { OnOk result (Appends (W.contents writer.old) (W.contents writer.new) piece.now) }
    ensures front { OnErr result (AppendsFront (W.contents writer.old) (W.contents writer.new) piece.now) }
{
    let mut done = 0;
    while done < piece.len() {
        match write_some(writer, piece.split_at(done).1) {
            Ok(bytes) if bytes > 0 => done += bytes,
            _ => return Err(Failed),
        }
    }
    Ok(())
}
