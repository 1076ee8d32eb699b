//! The line that tells how following a log ended.
ghost use Rattle.kn_outside.specs.Printing.{Prints, is_whole};
ghost use Rattle.kn_endings.specs.FollowEndings.{line_of_follow, followed_line, log_line};

use crate::follow_ending::FollowEnding;
use crate::line::{print_all, print_line};
use itoa::Buffer;
use kn_inputs::InputFault;
use kn_outside::{Failed, Sink, write_all};

/// Prints the line of a replica of so many updates, of which so many credentials are live.
fn print_followed<O: Sink>(out: &mut O, version: u32, live: u32) -> Result<(), Failed>
    ensures { Prints (is_whole result) (followed_line version live) (O.seen out.old) (O.seen out.new) }
{
    let mut version_digits = Buffer::new();
    let mut live_digits = Buffer::new();
    print_all(
        out,
        &[
            b"FOLLOW ",
            version_digits.format(version).as_bytes(),
            b" ",
            live_digits.format(live).as_bytes(),
            b"\n",
        ],
    )
}

/// Prints the line of a reply's fault.
fn print_log_fault<O: Sink>(out: &mut O, fault: u8, place: u32) -> Result<(), Failed>
    ensures { Prints (is_whole result) (log_line fault place) (O.seen out.old) (O.seen out.new) }
{
    let mut fault_digits = Buffer::new();
    let mut place_digits = Buffer::new();
    print_all(
        out,
        &[
            b"error log ",
            fault_digits.format(fault).as_bytes(),
            b" ",
            place_digits.format(place).as_bytes(),
            b"\n",
        ],
    )
}

/// Prints the line of how following the log in the file of this name ended.
pub fn print_follow<O: Sink>(out: &mut O, ending: FollowEnding, name: &[u8]) -> Result<(), Failed>
    ensures { Prints (is_whole result) (line_of_follow name.now ending) (O.seen out.old) (O.seen out.new) }
{
    match ending {
        FollowEnding::FileFailed => print_line(out, InputFault::FileFailed, name),
        FollowEnding::FileTooLarge => print_line(out, InputFault::FileTooLarge, name),
        FollowEnding::Memory => write_all(out, b"error memory\n"),
        FollowEnding::Line { at } => print_log_fault(out, 1, at),
        FollowEnding::Gap { from, .. } => print_log_fault(out, 2, from),
        FollowEnding::Refused { place } => print_log_fault(out, 3, place),
        FollowEnding::Followed { version, live } => print_followed(out, version, live),
    }
}
