//! What a connection is served over: an input that is read, and an output that is written.
ghost use Rattle.std.specs.Prelude.{◌≡◌, ◌<◌, ◌≤◌, [], take, drop, length, IfOk, IfSome, OnErr};
ghost use Rattle.kn_outside.specs.Faults.{Rose};
ghost use Rattle.kn_outside.specs.Reading.{Reads};

use crate::failed::Failed;
use crate::sink::Sink;

/// A sink with an input: a connection, or standard input and output.
pub trait Link: Sink {
    /// Reads the next bytes of the input into the front of a buffer, and tells how many. There are none
    /// only at the end of the input. The rest of the buffer stays as it was, and all of it does after
    /// `Failed`. A call that answers `Ok` has failed at nothing.
    fn read(&mut self, buf: &mut [u8]) -> Result<usize, Failed>
        requires { 0 < length buf.old }
        ensures count { IfOk result (λ n. n ≤ length buf.new) }
        ensures ok { IfOk result (λ n. Reads (take n buf.new) (Self.seen self.old) (Self.seen self.new)) }
        ensures behind { IfOk result (λ n. drop n buf.new ≡ drop n buf.old) }
        ensures end { IfOk result (λ n. n ≡ 0 → IfSome (Self.seen self.new).left (λ left. left ≡ [])) }
        ensures err { OnErr result (Self.seen self.new
            ≡ record (Self.seen self.old) { faults = (Self.seen self.new).faults }) }
        ensures buffer { OnErr result (buf.new ≡ buf.old) }
        ensures failed { OnErr result (Rose (Self.seen self.old).faults (Self.seen self.new).faults) }
        ensures later { (Self.seen self.old).faults ≤ (Self.seen self.new).faults };
}
