//! Numbers as text, in decimal digits.
ghost use Rattle.std.specs.Prelude.{◌≡◌, ◌++◌, ◌∷◌, ◌<◌, [], decimal};
ghost use Rattle.kn_reply.specs.Gathering.{Puts};

use crate::printer::Printer;
use itoa::Buffer;
use kn_outside::Sink;

pub(crate) fn put_number<const N: usize, O: Sink>(
    printer: &mut Printer<N>,
    out: &mut O,
    number: u32,
)
    ensures { Puts (decimal number) printer.old (O.seen out.old) printer.new (O.seen out.new) }
{
    if number < 10 {
        printer.put(out, &digit(number));
    } else {
        let mut buffer = Buffer::new();
        printer.put(out, buffer.format(number).as_bytes());
    }
}

/// The digit of a number that has only one, as most numbers of a reply do.
#[tactic(auto, using(std::proofs::lemmas::Fmt::decimal_digit))]
fn digit(number: u32) -> [u8; 1]
    requires { number < 10 }
    ensures { result ≡ decimal number }
{
    [b'0' + number as u8]
}

pub(crate) fn put_size<const N: usize, O: Sink>(printer: &mut Printer<N>, out: &mut O, size: usize)
    ensures { Puts (decimal size) printer.old (O.seen out.old) printer.new (O.seen out.new) }
{
    let mut buffer = Buffer::new();
    printer.put(out, buffer.format(size).as_bytes());
}

/// A number behind some bytes.
pub(crate) fn put_behind<const N: usize, O: Sink>(
    printer: &mut Printer<N>,
    out: &mut O,
    front: &[u8],
    number: u32,
)
    ensures { Puts (front.now ++ decimal number) printer.old (O.seen out.old) printer.new (O.seen out.new) }
{
    printer.put(out, front);
    put_number(printer, out, number);
}

/// A line with a number at its end.
pub(crate) fn put_one<const N: usize, O: Sink>(
    printer: &mut Printer<N>,
    out: &mut O,
    front: &[u8],
    number: u32,
)
    ensures { Puts (front.now ++ decimal number ++ 10 ∷ []) printer.old (O.seen out.old) printer.new (O.seen out.new) }
{
    printer.put(out, front);
    put_number(printer, out, number);
    printer.put(out, b"\n");
}

/// A line with two numbers at its end.
pub(crate) fn put_two<const N: usize, O: Sink>(
    printer: &mut Printer<N>,
    out: &mut O,
    front: &[u8],
    number: u32,
    last: u32,
)
    ensures { Puts (front.now ++ decimal number ++ 32 ∷ decimal last ++ 10 ∷ [])
        printer.old (O.seen out.old) printer.new (O.seen out.new) }
{
    printer.put(out, front);
    put_number(printer, out, number);
    printer.put(out, b" ");
    put_number(printer, out, last);
    printer.put(out, b"\n");
}
