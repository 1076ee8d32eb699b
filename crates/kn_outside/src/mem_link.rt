//! A connection in memory.
ghost use Rattle.std.specs.Prelude.{◌≡◌, ◌+◌, ◌-◌, ◌^◌, ◌<◌, ◌≤◌, [], ◌++◌, true, false, min, length, take, drop};
ghost use Rattle.std.specs.Prelude.{IfOk, OnOk, OnErr, IsErr, IsTrue, ◌↔◌};
ghost use Rattle.kn_outside.specs.Faults.{count_up};
ghost use Rattle.kn_outside.specs.InMemory.{is_failing, cut_of, new_link};
ghost use Rattle.kn_outside.specs.InMemory.{link_after_write, link_after_failed_write};
ghost use Rattle.kn_outside.specs.InMemory.{link_after_read, link_after_failed_read};

use crate::failed::Failed;
use crate::failing::fails;
use crate::link::Link;
use crate::sink::Sink;
use kn_base::{List, Octets};
use std::alloc::Global;
use std::marker::Model;

/// A link in memory, with an input that was there from the start. Its reads are cut as chosen, and
/// chosen calls of it fail.
#[derive(Drop)]
pub struct MemLink {
    input: Octets,
    at: usize,
    written: Octets,
    reads: u64,
    calls: u64,
    faults: u64,
    cuts: List<u32>,
    failing: List<u32>,
}

impl Model for MemLink {
    ghost use Rattle.std.specs.Prelude.{◌≤◌, take, drop, length};
    ghost use Rattle.kn_outside.specs.InMemory.{LinkInMemory};

    ghost Value = { LinkInMemory };

    ghost view = { λ m. record {
      taken = take m.at m.input;
      left = drop m.at m.input;
      written = m.written;
      reads = m.reads;
      calls = m.calls;
      faults = m.faults;
      cuts = m.cuts;
      failing = m.failing;
    } };

    ghost invariant = { λ m. m.at ≤ length m.input };
}

impl MemLink {
    /// A link with this input, of which nothing was read and to which nothing was written.
    ///
    /// The read at place i of all reads, counted from 0, gives at most `cuts[i]` bytes, where a cut of 0
    /// counts as 1, and all that fits once the cuts have ended. The calls with the numbers in `failing`
    /// fail; reads and writes are numbered together from 1.
    pub fn of(alloc: Global, input: Octets, cuts: List<u32>, failing: List<u32>) -> MemLink
        ensures { result ≡ new_link input cuts failing }
    {
        MemLink {
            input,
            at: 0,
            written: Octets::new(alloc),
            reads: 0,
            calls: 0,
            faults: 0,
            cuts,
            failing,
        }
    }

    /// All bytes that were written to it, the first at the front.
    pub fn written(&self) -> &[u8]
        ensures { result.now ≡ self.now.written }
    {
        self.written.as_slice()
    }

    /// How many calls failed.
    pub fn faults(&self) -> u64
        ensures { result ≡ self.now.faults }
    {
        self.faults
    }
}

impl Sink for MemLink {
    ghost use Rattle.std.specs.Prelude.{Some};

    ghost seen = { λ m. record {
      written = Some m.written;
      taken = Some m.taken;
      left = Some m.left;
      faults = m.faults;
    } };

    fn write(&mut self, piece: &[u8]) -> Result<usize, Failed>
        ensures whole { IfOk result (λ n. n ≡ length piece.now) }
        ensures ok { OnOk result (self.new ≡ link_after_write piece.now self.old) }
        ensures err { OnErr result (self.new ≡ link_after_failed_write self.old) }
        ensures later { self.old.faults ≤ self.new.faults }
        ensures chosen { IsTrue (is_failing self.old.failing (count_up self.old.calls)) → IsErr result }
    {
        self.calls = self.calls.saturating_add(1);
        if !fails(&self.failing, self.calls) && self.written.extend(piece).is_ok() {
            return Ok(piece.len());
        }
        self.faults = self.faults.saturating_add(1);
        Err(Failed)
    }
}

impl Link for MemLink {
    fn read(&mut self, buf: &mut [u8]) -> Result<usize, Failed>
        requires { 0 < length buf.old }
        ensures bytes { IfOk result (λ n. n
            ≡ cut_of self.old.cuts self.old.reads (min (length self.old.left) (length buf.old))) }
        ensures within { IfOk result (λ n. n ≤ length buf.new) }
        ensures end { IfOk result (λ n. n ≡ 0 → self.new.left ≡ []) }
        ensures front { IfOk result (λ n. take n buf.new ≡ take n self.old.left) }
        ensures behind { IfOk result (λ n. drop n buf.new ≡ drop n buf.old) }
        ensures ok { IfOk result (λ n. self.new ≡ link_after_read n self.old) }
        ensures err { OnErr result (self.new ≡ link_after_failed_read self.old) }
        ensures buffer { OnErr result (buf.new ≡ buf.old) }
        ensures later { self.old.faults ≤ self.new.faults }
        ensures chosen { IsErr result ↔ IsTrue (is_failing self.old.failing (count_up self.old.calls)) }
    {
        let place = self.reads;
        self.calls = self.calls.saturating_add(1);
        self.reads = place.saturating_add(1);
        if fails(&self.failing, self.calls) {
            self.faults = self.faults.saturating_add(1);
            return Err(Failed);
        }
        let rest = self.input.as_slice().split_at(self.at).1;
        let bytes = cut(&self.cuts, place, rest.len().min(buf.len()));
        copy_front(rest, buf, bytes);
        self.at += bytes;
        Ok(bytes)
    }
}

/// How many of so many bytes the read at this place gives.
fn cut(cuts: &List<u32>, place: u64, bytes: usize) -> usize
    ensures value { result ≡ cut_of cuts.now place bytes }
    ensures within { result ≤ bytes }
    ensures some { 0 < bytes → 0 < result }
{
    if place >= u64::from(cuts.len()) {
        return bytes;
    }
    let most = cuts.as_slice()[place as usize];
    bytes.min(most.max(1) as usize)
}

fn copy_front(from: &[u8], to: &mut [u8], bytes: usize)
    requires held { bytes ≤ length from.now }
    requires room { bytes ≤ length to.old }
    ensures front { take bytes to.new ≡ take bytes from.now }
    ensures behind { drop bytes to.new ≡ drop bytes to.old }
{
    to.split_at_mut(bytes)
        .0
        .copy_from_slice(from.split_at(bytes).0);
}
