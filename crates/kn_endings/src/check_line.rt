//! The line that tells how checking a reply ended.
ghost use Rattle.kn_outside.specs.Printing.{Prints, is_whole};
ghost use Rattle.kn_endings.specs.CheckEndings.{line_of_check, text_line, reject_line, proved_line};

use crate::check_ending::CheckEnding;
use crate::line::{print_all, print_line};
use itoa::Buffer;
use kn_check::Reject;
use kn_outside::{Failed, Sink, write_all};
use kn_words::CheckFiles;

/// Prints the line of a fault in the text of a reply.
fn print_text_fault<O: Sink>(out: &mut O, fault: u8, line: usize) -> Result<(), Failed>
    ensures { Prints (is_whole result) (text_line fault line) (O.seen out.old) (O.seen out.new) }
{
    let mut fault_digits = Buffer::new();
    let mut line_digits = Buffer::new();
    print_all(
        out,
        &[
            b"error proof text ",
            fault_digits.format(fault).as_bytes(),
            b" ",
            line_digits.format(line).as_bytes(),
            b"\n",
        ],
    )
}

/// Prints the line of the first item of a proof that fails.
fn print_reject<O: Sink>(out: &mut O, reject: &Reject) -> Result<(), Failed>
    ensures { Prints (is_whole result) (reject_line reject.now) (O.seen out.old) (O.seen out.new) }
{
    let mut number_digits = Buffer::new();
    let mut row_digits = Buffer::new();
    let mut found_digits = Buffer::new();
    print_all(
        out,
        &[
            b"error proof reject ",
            number_digits.format(reject.number()).as_bytes(),
            b" ",
            row_digits.format(reject.row()).as_bytes(),
            b" ",
            found_digits.format(reject.found()).as_bytes(),
            b"\n",
        ],
    )
}

/// Prints the line of a value that is proved.
fn print_proved<O: Sink>(out: &mut O, value: u8, name: &[u8]) -> Result<(), Failed>
    ensures { Prints (is_whole result) (proved_line value name.now) (O.seen out.old) (O.seen out.new) }
{
    let mut value_digits = Buffer::new();
    print_all(
        out,
        &[
            b"PROVED ",
            value_digits.format(value).as_bytes(),
            b" ",
            name,
            b"\n",
        ],
    )
}

/// Prints the line of how checking a reply ended.
pub fn print_check<O: Sink>(
    out: &mut O,
    ending: &CheckEnding,
    names: &CheckFiles<'_>,
) -> Result<(), Failed>
    ensures { Prints (is_whole result) (line_of_check names.now ending.now) (O.seen out.old) (O.seen out.new) }
{
    match ending {
        CheckEnding::Stopped { source, stop } => print_line(out, *stop, names.name(*source)),
        CheckEnding::NoQuery => write_all(out, b"error query\n"),
        CheckEnding::Faulty { fault, line } => print_text_fault(out, *fault, *line),
        CheckEnding::Rejected(reject) => print_reject(out, reject),
        CheckEnding::Proved { value, name } => print_proved(out, *value, name.as_slice()),
    }
}
