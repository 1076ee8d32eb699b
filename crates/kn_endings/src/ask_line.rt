//! The line that tells how serving a link over a policy ended.
ghost use Rattle.kn_outside.specs.Printing.{Prints, is_whole};
ghost use Rattle.kn_endings.specs.AskEndings.{line_of_ask, line_of_ended, cut_line, block_line};

use crate::ask_ending::AskEnding;
use crate::line::{print_all, print_line};
use itoa::Buffer;
use kn_daemon::ended::Ended;
use kn_outside::{Failed, Sink, write_all};
use kn_words::AskFiles;

/// Prints the line of an input that ended while so many bytes of an unfinished request were held.
fn print_cut<O: Sink>(out: &mut O, held: u32) -> Result<(), Failed>
    ensures { Prints (is_whole result) (cut_line held) (O.seen out.old) (O.seen out.new) }
{
    let mut digits = Buffer::new();
    print_all(
        out,
        &[b"error link cut ", digits.format(held).as_bytes(), b"\n"],
    )
}

/// Prints the line of a block of so many bytes that was refused.
fn print_block<O: Sink>(out: &mut O, n: usize) -> Result<(), Failed>
    ensures { Prints (is_whole result) (block_line n) (O.seen out.old) (O.seen out.new) }
{
    let mut digits = Buffer::new();
    print_all(
        out,
        &[b"error link block ", digits.format(n).as_bytes(), b"\n"],
    )
}

/// Prints the line of how a connection ended; nothing where it is done.
fn print_ended<O: Sink>(out: &mut O, ended: Ended) -> Result<(), Failed>
    ensures { Prints (is_whole result) (line_of_ended ended) (O.seen out.old) (O.seen out.new) }
{
    match ended {
        Ended::Done => write_all(out, b""),
        Ended::Memory => write_all(out, b"error memory\n"),
        Ended::ReadFault => write_all(out, b"error link read\n"),
        Ended::WriteFault => write_all(out, b"error link write\n"),
        Ended::Cut { held } => print_cut(out, held),
        Ended::Block { n } => print_block(out, n),
        Ended::Budget => write_all(out, b"error link budget\n"),
    }
}

/// Prints the line of how serving a link ended.
pub fn print_ask<O: Sink>(
    out: &mut O,
    ending: AskEnding,
    names: &AskFiles<'_>,
) -> Result<(), Failed>
    ensures { Prints (is_whole result) (line_of_ask names.now ending) (O.seen out.old) (O.seen out.new) }
{
    match ending {
        AskEnding::PolicyStopped(stop) => print_line(out, stop, names.policy),
        AskEnding::KeysStopped(stop) => print_line(out, stop, names.keys.unwrap_or(b"")),
        AskEnding::Served(ended) => print_ended(out, ended),
    }
}
