//! How each command ends: with the status and the line of its ending, or with 9 where the line can't be written.
ghost use Rattle.std.specs.Prelude.{◌≡◌, [], IfOk, IfErr};
ghost use Rattle.kn_inputs.specs.InputFaults.{input_fault_line, status_of};
ghost use Rattle.kn_endings.specs.AskEndings.{line_of_ask, status_of_ask};
ghost use Rattle.kn_endings.specs.CheckEndings.{line_of_check, status_of_check};
ghost use Rattle.kn_endings.specs.FollowEndings.{line_of_follow, status_of_follow};
ghost use Rattle.kn_endings.specs.VerifyEndings.{line_of_verify, status_of_verify};
ghost use Rattle.keynoted.specs.Outcomes.{IsPrintedOrCut};
ghost use Rattle.keynoted.specs.ServeEndings.{line_of_serve, status_of_serve};

use crate::serve_ending::ServeEnding;
use crate::serve_line::print_serve;
use kn_endings::{
    AskEnding, CheckEnding, FollowEnding, VerifyEnding, print_ask, print_check, print_follow,
    print_line, print_verify,
};
use kn_inputs::InputFault;
use kn_outside::{Failed, Sink};
use kn_words::{AskFiles, CheckFiles, Service, VerifyFiles};

/// The status of an ending, or 9 where its line was not written whole.
fn end_with(printed: Result<(), Failed>, status: u8) -> u8
    ensures own { IfOk printed (λ none. result ≡ status) }
    ensures cut { IfErr printed (λ failed. result ≡ 9) }
{
    match printed {
        Ok(()) => status,
        Err(Failed) => 9,
    }
}

/// Ends with what stopped the program.
pub(crate) fn end<O: Sink>(out: &mut O, stop: InputFault) -> u8
    ensures { IsPrintedOrCut (input_fault_line [] stop) (status_of stop) (O.seen out.old) (O.seen out.new) result }
{
    end_with(print_line(out, stop, b""), stop.status())
}

/// Ends with how a link was served.
pub(crate) fn end_ask<O: Sink>(out: &mut O, ending: AskEnding, names: &AskFiles<'_>) -> u8
    ensures { IsPrintedOrCut (line_of_ask names.now ending) (status_of_ask ending)
        (O.seen out.old) (O.seen out.new) result }
{
    end_with(print_ask(out, ending, names), ending.status())
}

/// Ends with how a service ended.
pub(crate) fn end_serve<O: Sink>(out: &mut O, ending: ServeEnding, service: &Service<'_>) -> u8
    ensures { IsPrintedOrCut (line_of_serve service.now ending) (status_of_serve ending)
        (O.seen out.old) (O.seen out.new) result }
{
    end_with(print_serve(out, ending, service), ending.status())
}

/// Ends with how a log was followed.
pub(crate) fn end_follow<O: Sink>(out: &mut O, ending: FollowEnding, name: &[u8]) -> u8
    ensures { IsPrintedOrCut (line_of_follow name.now ending) (status_of_follow ending)
        (O.seen out.old) (O.seen out.new) result }
{
    end_with(print_follow(out, ending, name), ending.status())
}

/// Ends with how a transcript was verified.
pub(crate) fn end_verify<O: Sink>(out: &mut O, ending: VerifyEnding, names: &VerifyFiles<'_>) -> u8
    ensures { IsPrintedOrCut (line_of_verify names.now ending) (status_of_verify ending)
        (O.seen out.old) (O.seen out.new) result }
{
    end_with(print_verify(out, ending, names), ending.status())
}

/// Ends with how a check ended.
pub(crate) fn end_check<O: Sink>(out: &mut O, ending: CheckEnding, names: &CheckFiles<'_>) -> u8
    ensures { IsPrintedOrCut (line_of_check names.now ending) (status_of_check ending)
        (O.seen out.old) (O.seen out.new) result }
{
    end_with(print_check(out, &ending, names), ending.status())
}
