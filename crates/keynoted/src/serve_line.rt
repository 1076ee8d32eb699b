//! The line that tells how `serve` ended.
ghost use Rattle.kn_outside.specs.Printing.{Prints, is_whole};
ghost use Rattle.keynoted.specs.ServeEndings.{line_of_address, line_of_serve, served_line};

use crate::serve_ending::ServeEnding;
use itoa::Buffer;
use kn_endings::{print_all, print_line};
use kn_outside::{Failed, Sink, write_all};
use kn_words::Service;
use kn_workers::AddressEnding;

/// Prints the line of so many connections that were served, over a history of so many updates.
fn print_served<O: Sink>(out: &mut O, finished: u32, version: u32) -> Result<(), Failed>
    ensures { Prints (is_whole result) (served_line finished version) (O.seen out.old) (O.seen out.new) }
{
    let mut finished_digits = Buffer::new();
    let mut version_digits = Buffer::new();
    print_all(
        out,
        &[
            b"served ",
            finished_digits.format(finished).as_bytes(),
            b" version ",
            version_digits.format(version).as_bytes(),
            b"\n",
        ],
    )
}

/// Prints the line of how an address was served.
fn print_address<O: Sink>(out: &mut O, ending: AddressEnding) -> Result<(), Failed>
    ensures { Prints (is_whole result) (line_of_address ending) (O.seen out.old) (O.seen out.new) }
{
    match ending {
        AddressEnding::BindMemory | AddressEnding::WorkMemory => write_all(out, b"error memory\n"),
        AddressEnding::Unbound | AddressEnding::DoorFailed => write_all(out, b"error listener\n"),
        AddressEnding::Served { finished, version } => print_served(out, finished, version),
    }
}

/// Prints the line of how `serve` ended.
pub(crate) fn print_serve<O: Sink>(
    out: &mut O,
    ending: ServeEnding,
    service: &Service<'_>,
) -> Result<(), Failed>
    ensures { Prints (is_whole result) (line_of_serve service.now ending) (O.seen out.old) (O.seen out.new) }
{
    match ending {
        ServeEnding::PolicyStopped(stop) => print_line(out, stop, service.files.policy),
        ServeEnding::KeysStopped(stop) => {
            print_line(out, stop, service.files.keys.unwrap_or(b""))
        }
        ServeEnding::Ended(ending) => print_address(out, ending),
    }
}
