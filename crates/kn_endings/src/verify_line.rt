//! The line that tells how verifying a transcript ended.
ghost use Rattle.kn_outside.specs.Printing.{Prints, is_whole};
ghost use Rattle.kn_endings.specs.VerifyEndings.{line_of_verify, line_of_transcript, verified_line, transcript_line};

use crate::line::{print_all, print_line};
use crate::verify_ending::VerifyEnding;
use itoa::Buffer;
use kn_outside::{Failed, Sink, write_all};
use kn_transcript::TranscriptFault;
use kn_words::VerifyFiles;

/// Prints the line of a transcript of which so many replies give a value, and behind which there are so many updates.
fn print_verified<O: Sink>(out: &mut O, answers: u32, version: u32) -> Result<(), Failed>
    ensures { Prints (is_whole result) (verified_line answers version) (O.seen out.old) (O.seen out.new) }
{
    let mut answers_digits = Buffer::new();
    let mut version_digits = Buffer::new();
    print_all(
        out,
        &[
            b"VERIFIED ",
            answers_digits.format(answers).as_bytes(),
            b" ",
            version_digits.format(version).as_bytes(),
            b"\n",
        ],
    )
}

/// Prints the line of the fault of this number.
fn print_place<O: Sink>(out: &mut O, fault: u8, place: u32) -> Result<(), Failed>
    ensures { Prints (is_whole result) (transcript_line fault place) (O.seen out.old) (O.seen out.new) }
{
    let mut fault_digits = Buffer::new();
    let mut place_digits = Buffer::new();
    print_all(
        out,
        &[
            b"error transcript ",
            fault_digits.format(fault).as_bytes(),
            b" ",
            place_digits.format(place).as_bytes(),
            b"\n",
        ],
    )
}

/// Prints the line of a transcript's fault.
fn print_transcript_fault<O: Sink>(out: &mut O, fault: TranscriptFault) -> Result<(), Failed>
    ensures { Prints (is_whole result) (line_of_transcript fault) (O.seen out.old) (O.seen out.new) }
{
    match fault {
        TranscriptFault::Missing { request } => print_place(out, 1, request),
        TranscriptFault::Text { request } => print_place(out, 2, request),
        TranscriptFault::Wrong { request } => print_place(out, 3, request),
        TranscriptFault::Rest { at } => print_place(out, 4, at),
        TranscriptFault::Foreign { request } => print_place(out, 5, request),
        TranscriptFault::NoMemory => write_all(out, b"error memory\n"),
    }
}

/// Prints the line of how verifying the transcript in these files ended.
pub fn print_verify<O: Sink>(
    out: &mut O,
    ending: VerifyEnding,
    names: &VerifyFiles<'_>,
) -> Result<(), Failed>
    ensures { Prints (is_whole result) (line_of_verify names.now ending) (O.seen out.old) (O.seen out.new) }
{
    match ending {
        VerifyEnding::PolicyStopped(stop) => print_line(out, stop, names.policy),
        VerifyEnding::ScriptStopped(stop) => print_line(out, stop, names.script),
        VerifyEnding::RepliesStopped(stop) => print_line(out, stop, names.replies),
        VerifyEnding::Faulty(fault) => print_transcript_fault(out, fault),
        VerifyEnding::Verified { answers, version } => print_verified(out, answers, version),
    }
}
