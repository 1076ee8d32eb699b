//! The program over whatever files, link and output it is given.
ghost use Rattle.std.specs.Prelude.{◌≡◌, ◌≤◌, [], None};
ghost use Rattle.keynoted.specs.Generating.{IsGenPrinted};
ghost use Rattle.keynoted.specs.Outcomes.{IsEnded};
ghost use Rattle.keynoted.specs.Specified.{IsRun};

use crate::endings::{end, end_ask, end_check, end_follow, end_verify};
use crate::serving::run_service;
use kn_base::limits::GENERATED_CREDENTIALS;
use kn_base::{NoMemory, Octets};
use kn_commands::{ask, check, follow, generate, verify};
use kn_endings::print_gen;
use kn_follow::laws::one_ending;
use kn_inputs::InputFault;
use kn_outside::{Failed, Files, Gate, Link, Sink};
use kn_play::laws::last_query_is_one;
use kn_transcript::laws::one_verdict;
use kn_words::{
    GenNumbers, ask_files, asks_to_serve, check_files, gen_numbers, log_file, verify_files,
};
use kn_workers::{Door, Net};
use std::alloc::Global;
use std::sync::Wait;
use std::thread::Threads;

/// Settles the generator's query and ends with its line and status 0; with 5 when out of memory, and with 9 where the
/// line can't be written.
fn run_gen<R: Wait, O: Sink>(rt: &R, alloc: Global, numbers: GenNumbers, out: &mut O) -> u8
    requires some { 1 ≤ numbers.count }
    requires most { numbers.count ≤ GENERATED_CREDENTIALS }
    ensures { IsGenPrinted numbers (O.seen out.old) (O.seen out.new) result }
{
    let measured = match generate(rt, alloc, numbers) {
        Ok(measured) => measured,
        Err(NoMemory) => return end(out, InputFault::Memory),
    };
    match print_gen(out, numbers.count, measured) {
        Ok(()) => 0,
        Err(Failed) => 9,
    }
}

/// Does what the words ask and tells how it ended.
fn dispatch<R: Threads + Wait + Sync, F: Files, N: Net, L: Link, O: Sink, G: Gate>(
    rt: &R,
    alloc: Global,
    words: &[Octets],
    files: &mut F,
    net: &mut N,
    own: &mut L,
    out: &mut O,
    gate: &G,
) -> u8
where
    <N::Room as Door>::Conn: Send,
    requires unbound { (N.seen net.old).bound ≡ None }
    requires none { (N.seen net.old).rooms ≡ [] }
    ensures { IsEnded N.Room.seen N.Room.Conn.seen words.now
        (record { files = F.seen files.old; net = N.seen net.old; link = L.seen own.old; output = O.seen out.old })
        (record { files = F.seen files.new; net = N.seen net.new; link = L.seen own.new; output = O.seen out.new })
        result }
{
    if asks_to_serve(words) {
        return run_service(rt, alloc, words, files, net, out, gate);
    }
    if let Some(names) = ask_files(words) {
        let ending = ask(rt, alloc, &names, files, own, gate);
        return end_ask(out, ending, &names);
    }
    if let Some(name) = log_file(words) {
        let ending = follow(alloc, name, files);
        return end_follow(out, ending, name);
    }
    if let Some(names) = verify_files(words) {
        let ending = verify(rt, alloc, &names, files);
        return end_verify(out, ending, &names);
    }
    if let Some(numbers) = gen_numbers(words) {
        return run_gen(rt, alloc, numbers, out);
    }
    match check_files(words) {
        Some(names) => {
            let ending = check(rt, alloc, &names, files);
            end_check(out, ending, &names)
        }
        None => end(out, InputFault::Words),
    }
}

/// The whole program, over the words after its name: it answers the exit status.
///
/// `ask POLICY [KEYS]` loads the policy file and, where one is named, the key file, and serves `own` as the one
/// connection of a daemon. `check POLICY SCRIPT REPLY` tells whether the reply proves the value of the query that the
/// requests of the script mean over the policy. `serve ADDR --policy FILE --connections N` with `--keys FILE` and
/// `--workers N`, 4 where it isn't said, loads its files, binds the address and serves so many connections by so many
/// workers side by side. The files are read in the order of the words, for `serve` the policy before the keys, each
/// once those before it hold what they have to. `verify POLICY SCRIPT REPLIES` tells whether the replies are those that
/// a daemon of one thread may give over the policy to the requests of the script, all of them in their order.
/// `follow LOG` applies the replies to LOG in a file, one after the other, to a new replica. `gen START N` makes N
/// credentials by the draws from START, adds them to a new registry, and settles one query over them; both are decimal
/// numbers, START of at most nine digits and N from 1 to 2,048. What a run has to tell is a line on `out`. The words,
/// the statuses and the lines are keynoted's own.
///
/// | status | line | outcome |
/// |---|---|---|
/// | 0 | none | `ask`: BYE was answered, or the input ended behind a whole request |
/// | 0 | `PROVED INDEX NAME` | `check`: the rows prove that the query has this value, of this name |
/// | 0 | `VERIFIED ANSWERS V` | `verify`: the transcript is accepted, of which ANSWERS replies give a value |
/// | 0 | `FOLLOW V LIVE` | `follow`: the replies make V updates, of which LIVE credentials are live |
/// | 0 | `GEN INDEX NAME N ROWS PRINCIPALS NODES USES LEVELS` | `gen`: the value, its name, and what was counted |
/// | 0 | `served F version V` | `serve`: all F connections were served, and V is the last version |
/// | 1 | `error words` | the words are those of no command |
/// | 2 | `error file NAME read` | this file couldn't be read |
/// | 2 | `error file NAME large` | this file has more than 16,777,216 bytes |
/// | 3 | `error policy NAME ASSERTION FAULT PLACE` | the first assertion that fails has this fault, at this place |
/// | 3 | `error policy NAME ASSERTION limit WORD N` | or a limit refuses it; N is the counted quantity before it |
/// | 4 | `error link read`, `error link write` | `ask`: reading the link or writing to it failed |
/// | 4 | `error link cut HELD` | `ask`: the input ended while so many bytes of an unfinished request were held |
/// | 4 | `error link block N` | `ask`: a block of this length was refused |
/// | 4 | `error link budget` | `ask`: 1,000,000 requests were answered, as many as a connection has |
/// | 5 | `error memory` | out of memory; `own` wasn't touched, and no connection was accepted |
/// | 6 | `error proof text FAULT LINE` | `check`: the reply's text has this fault first, or is to another query |
/// | 6 | `error proof reject REASON ROW FOUND` | `check`: the rows prove no such value; this is what fails first |
/// | 7 | `error listener` | `serve`: the address couldn't be bound, or a door gave fewer connections than its quota |
/// | 8 | `error keys LINE` | `ask`, `serve`: this line of the key file, counted from 1, is the first malformed one |
/// | 9 | a proper front of the line | the line couldn't be written |
/// | 10 | `error query` | `check`: the script means no query |
/// | 11 | `error log FAULT PLACE` | `follow`: the first reply that isn't applied has this fault, at this place |
/// | 12 | `error transcript FAULT PLACE` | `verify`: the transcript isn't accepted; it has this fault, at this place |
///
/// In the line of `gen`, N is the version; ROWS principals are granted more than the lowest value and are no
/// requesters; the system has so many principals, nodes and uses of principals in its formulas, and levels. ASSERTION
/// is counted from 1. In the line of a log, PLACE is for fault 1 the first byte of the reply that can't stand there, or
/// its length where it breaks off; for fault 2 the number of updates that its client holds; for fault 3 the place of an
/// update in the history, counted from 1. In the lines of `verify`, V is the number of updates behind the transcript.
/// PLACE is the first request, counted from 1, whose reply is missing (fault 1), is no text of a reply (2) or isn't
/// permitted (3), or that no transcript may have (5). For fault 4 all are answered, and bytes follow the first PLACE
/// ones.
pub fn run<R: Threads + Wait + Sync, F: Files, N: Net, L: Link, O: Sink, G: Gate>(
    rt: &R,
    alloc: Global,
    words: &[Octets],
    files: &mut F,
    net: &mut N,
    own: &mut L,
    out: &mut O,
    gate: &G,
) -> u8
where
    <N::Room as Door>::Conn: Send,
    requires unbound { (N.seen net.old).bound ≡ None }
    requires none { (N.seen net.old).rooms ≡ [] }
    ensures { IsRun N.Room.seen N.Room.Conn.seen words.now
        (record { files = F.seen files.old; net = N.seen net.old; link = L.seen own.old; output = O.seen out.old })
        (record { files = F.seen files.new; net = N.seen net.new; link = L.seen own.new; output = O.seen out.new })
        result }
{
    last_query_is_one();
    one_ending();
    one_verdict();
    dispatch(rt, alloc, words, files, net, own, out, gate)
}
