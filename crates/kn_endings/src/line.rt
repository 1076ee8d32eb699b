//! The line that tells what stopped a command.
ghost use Rattle.std.specs.Prelude.{◌≡◌, ◌++◌, [], true, codes, flat_map};
ghost use Rattle.kn_outside.specs.Printing.{Prints, is_whole};
ghost use Rattle.kn_inputs.specs.InputFaults.{input_fault_line, policy_fault_line, limit_line, keys_line};

use arrayvec::ArrayVec;
use itoa::Buffer;
use kn_fields::ReadFault;
use kn_inputs::InputFault;
use kn_outside::{Failed, Sink, write_all};
use kn_reply::LimitWord;

/// The bytes of a line that is written at once.
const GATHERED_BYTES: usize = 512;

/// Prints texts one after the other: at once, unless they are long together. `Failed` says that a write failed, and
/// that a front of the texts was written.
pub fn print_all<O: Sink>(out: &mut O, texts: &[&[u8]]) -> Result<(), Failed>
    ensures { Prints (is_whole result) (flat_map (λ t. t.now) texts.now) (O.seen out.old) (O.seen out.new) }
{
    let mut line = ArrayVec::new();
    if gather(&mut line, texts) {
        return write_all(out, line.as_slice());
    }
    print_each(out, texts)
}

/// Gathers texts one behind the other, where there is room for them.
fn gather(line: &mut ArrayVec<u8, GATHERED_BYTES>, texts: &[&[u8]]) -> bool
    requires empty { line.old.items ≡ [] }
    ensures { result ≡ true → line.new.items ≡ flat_map (λ t. t.now) texts.now }
{
    for text in texts {
        match line.try_extend_from_slice(*text) {
            Ok(()) => {}
            Err(_) => return false,
        }
    }
    true
}

/// Prints texts one after the other, each by itself.
fn print_each<O: Sink>(out: &mut O, texts: &[&[u8]]) -> Result<(), Failed>
    ensures { Prints (is_whole result) (flat_map (λ t. t.now) texts.now) (O.seen out.old) (O.seen out.new) }
{
    for text in texts {
        write_all(out, *text)?;
    }
    Ok(())
}

/// Prints the line of a file that could not be read, which ends so.
fn print_file<O: Sink>(out: &mut O, name: &[u8], end: &[u8]) -> Result<(), Failed>
    ensures { Prints (is_whole result) (codes "error file " ++ name.now ++ end.now) (O.seen out.old) (O.seen out.new) }
{
    print_all(out, &[b"error file ", name, end])
}

/// Prints the line of a fault in a policy file.
fn print_fault<O: Sink>(
    out: &mut O,
    name: &[u8],
    assertion: u32,
    fault: ReadFault,
) -> Result<(), Failed>
    ensures { Prints (is_whole result) (policy_fault_line name.now assertion fault) (O.seen out.old) (O.seen out.new) }
{
    let mut assertion_digits = Buffer::new();
    let mut fault_digits = Buffer::new();
    let mut place_digits = Buffer::new();
    print_all(
        out,
        &[
            b"error policy ",
            name,
            b" ",
            assertion_digits.format(assertion).as_bytes(),
            b" ",
            fault_digits.format(fault.number().unwrap_or(0)).as_bytes(),
            b" ",
            place_digits.format(fault.place()).as_bytes(),
            b"\n",
        ],
    )
}

/// Prints the line of a limit that a policy file meets.
fn print_limit<O: Sink>(
    out: &mut O,
    name: &[u8],
    assertion: u32,
    word: LimitWord,
    count: u32,
) -> Result<(), Failed>
    ensures { Prints (is_whole result) (limit_line name.now assertion word count) (O.seen out.old) (O.seen out.new) }
{
    let mut assertion_digits = Buffer::new();
    let mut count_digits = Buffer::new();
    print_all(
        out,
        &[
            b"error policy ",
            name,
            b" ",
            assertion_digits.format(assertion).as_bytes(),
            b" limit ",
            word.text(),
            b" ",
            count_digits.format(count).as_bytes(),
            b"\n",
        ],
    )
}

/// Prints the line of the first malformed line of a key file.
fn print_key_line<O: Sink>(out: &mut O, line: usize) -> Result<(), Failed>
    ensures { Prints (is_whole result) (keys_line line) (O.seen out.old) (O.seen out.new) }
{
    let mut digits = Buffer::new();
    print_all(
        out,
        &[b"error keys ", digits.format(line).as_bytes(), b"\n"],
    )
}

/// Prints the line of what stopped a command.
pub fn print_line<O: Sink>(out: &mut O, stop: InputFault, name: &[u8]) -> Result<(), Failed>
    ensures { Prints (is_whole result) (input_fault_line name.now stop) (O.seen out.old) (O.seen out.new) }
{
    match stop {
        InputFault::Words => write_all(out, b"error words\n"),
        InputFault::FileFailed => print_file(out, name, b" read\n"),
        InputFault::FileTooLarge => print_file(out, name, b" large\n"),
        InputFault::Policy { assertion, fault } => print_fault(out, name, assertion, fault),
        InputFault::Limit {
            assertion,
            word,
            count,
        } => print_limit(out, name, assertion, word, count),
        InputFault::KeyLine { line } => print_key_line(out, line),
        InputFault::Memory => write_all(out, b"error memory\n"),
    }
}
