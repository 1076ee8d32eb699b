//! The texts of the generator's credentials.
ghost use Rattle.std.specs.Prelude.{◌≡◌, ◌++◌, flat_map, codes, decimal, IfOk};
ghost use Rattle.kn_generate.specs.Generated.{credential_text};

use crate::draws::Numbers;
use itoa::Buffer;
use kn_base::{NoMemory, Octets};
use std::alloc::Global;

/// Room for a principal's name.
const NAME_BYTES: usize = 11;

/// Room for a credential's text: its seven numbers have at most ten digits each.
const TEXT_BYTES: usize = 166;

/// Texts one behind the other, for which room is made at once.
fn join(alloc: Global, room: usize, texts: &[&[u8]]) -> Result<Octets, NoMemory>
    ensures { IfOk result (λ joined. joined ≡ flat_map (λ t. t.now) texts.now) }
{
    let mut joined = Octets::with_capacity(alloc, room)?;
    for text in texts {
        joined.extend(*text)?;
    }
    Ok(joined)
}

/// The name of a principal by its number.
pub(crate) fn principal(alloc: Global, number: u32) -> Result<Octets, NoMemory>
    ensures { IfOk result (λ name. name ≡ codes "p" ++ decimal number) }
{
    let mut digits = Buffer::new();
    join(alloc, NAME_BYTES, &[b"p", digits.format(number).as_bytes()])
}

/// The text of the credential of a principal by its number.
pub(crate) fn credential(
    alloc: Global,
    authorizer: u32,
    numbers: &Numbers,
) -> Result<Octets, NoMemory>
    ensures { IfOk result (λ text. text ≡ credential_text authorizer numbers.now) }
{
    let mut authorizer_digits = Buffer::new();
    let mut later = Buffer::new();
    let mut first = Buffer::new();
    let mut second = Buffer::new();
    let mut third = Buffer::new();
    let mut least = Buffer::new();
    let mut value = Buffer::new();
    join(
        alloc,
        TEXT_BYTES,
        &[
            b"Authorizer: \"p",
            authorizer_digits.format(authorizer).as_bytes(),
            b"\"\nLicensees: \"p",
            later.format(numbers.later).as_bytes(),
            b"\" || 2-of(\"p",
            first.format(numbers.first).as_bytes(),
            b"\",\"p",
            second.format(numbers.second).as_bytes(),
            b"\",\"p",
            third.format(numbers.third).as_bytes(),
            b"\")\nConditions: @level > ",
            least.format(numbers.least).as_bytes(),
            b" -> \"v",
            value.format(numbers.value).as_bytes(),
            b"\"; true -> \"v1\";\n",
        ],
    )
}
