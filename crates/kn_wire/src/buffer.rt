//! Bytes in a buffer that was taken before, of which a front came.
ghost use Rattle.std.specs.Prelude.{◌≡◌, ◌+◌, ◌≤◌, [], length, take, drop, vec_len, IfOk, IfSome, OnErr};
ghost use Rattle.kn_outside.specs.Reading.{Reads, Fails};

use crate::feed::CHUNK_BYTES;
use kn_outside::{Failed, Link};

/// Moves the bytes from a place to another to the front, and tells how many they are.
pub(crate) fn move_front(buffer: &mut Vec<u8>, from: usize, end: usize) -> usize
    requires order { from ≤ end }
    requires within { end ≤ vec_len buffer.old }
    ensures front { take result buffer.new.items ≡ drop from (take end buffer.old.items) }
    ensures count { result + from ≡ end }
    ensures len { vec_len buffer.new ≡ vec_len buffer.old }
{
    if from > 0 {
        buffer.copy_within(from..end, 0);
    }
    end - from
}

/// Writes bytes behind those that came.
pub(crate) fn copy_behind(buffer: &mut Vec<u8>, end: usize, bytes: &[u8])
    requires { end + length bytes.now ≤ vec_len buffer.old }
    ensures front { take end buffer.new.items ≡ take end buffer.old.items }
    ensures behind { take (length bytes.now) (drop end buffer.new.items) ≡ bytes.now }
    ensures len { vec_len buffer.new ≡ vec_len buffer.old }
{
    buffer[end..end + bytes.len()].copy_from_slice(bytes);
}

/// Reads the next bytes of a link behind those that came, and tells how many.
pub(crate) fn read_behind<L: Link>(
    buffer: &mut Vec<u8>,
    end: usize,
    link: &mut L,
) -> Result<usize, Failed>
    requires { end + CHUNK_BYTES ≤ vec_len buffer.old }
    ensures front { take end buffer.new.items ≡ take end buffer.old.items }
    ensures len { vec_len buffer.new ≡ vec_len buffer.old }
    ensures few { IfOk result (λ bytes. bytes ≤ CHUNK_BYTES) }
    ensures read { IfOk result (λ bytes. Reads (take bytes (drop end buffer.new.items))
        (L.seen link.old) (L.seen link.new)) }
    ensures over { IfOk result (λ bytes. bytes ≡ 0 → IfSome (L.seen link.new).left (λ left. left ≡ [])) }
    ensures err { OnErr result (Fails (L.seen link.old) (L.seen link.new)) }
    ensures later { (L.seen link.old).faults ≤ (L.seen link.new).faults }
{
    link.read(&mut buffer[end..end + CHUNK_BYTES])
}
