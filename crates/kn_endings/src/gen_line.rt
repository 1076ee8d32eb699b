//! The line that tells what was generated.
ghost use Rattle.std.specs.Prelude.{◌≡◌, ◌<◌, List, ℕ, Some, length, slice_get};
ghost use Rattle.kn_outside.specs.Printing.{Prints, is_whole};
ghost use Rattle.kn_generate.specs.Generated.{generated_values};
ghost use Rattle.kn_endings.specs.GenLine.{gen_line};

use crate::line::print_all;
use itoa::Buffer;
use kn_generate::{Measured, value_name};
use kn_outside::{Failed, Sink};

/// Prints the line of so many generated credentials.
pub fn print_gen<O: Sink>(out: &mut O, count: u32, measured: Measured) -> Result<(), Failed>
    requires low { measured.level < length generated_values }
    ensures { (name : List ℕ) → slice_get generated_values measured.level ≡ Some name
        → Prints (is_whole result) (gen_line count name measured) (O.seen out.old) (O.seen out.new) }
{
    let mut level = Buffer::new();
    let mut version = Buffer::new();
    let mut rows = Buffer::new();
    let mut principals = Buffer::new();
    let mut nodes = Buffer::new();
    let mut uses = Buffer::new();
    let mut levels = Buffer::new();
    print_all(
        out,
        &[
            b"GEN ",
            level.format(measured.level).as_bytes(),
            b" ",
            value_name(measured.level),
            b" ",
            version.format(count).as_bytes(),
            b" ",
            rows.format(measured.rows).as_bytes(),
            b" ",
            principals.format(measured.principals).as_bytes(),
            b" ",
            nodes.format(measured.nodes).as_bytes(),
            b" ",
            uses.format(measured.uses).as_bytes(),
            b" ",
            levels.format(measured.levels).as_bytes(),
            b"\n",
        ],
    )
}
