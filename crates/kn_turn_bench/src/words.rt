//! The words of a command.
use std::env::{self, Args};
use std::io;

/// What is run.
pub enum Command {
    /// Two passes in turn, and a short history.
    Try,
    /// So many passes, with so many calls each, in so many rounds.
    History(u32, u32, u32),
    /// So many workers, with so many pins each, and so many readings behind each pin.
    Pins(u32, u32, u32),
    /// So many workers that pin once, and then do as many readings as the product of the other two.
    Reads(u32, u32, u32),
    /// So many workers that pin, and so many updates.
    Updates(u32, u32),
}

pub(crate) fn read_command(rt: &HostRuntime) -> io::Result<Command> {
    let mut args = env::args(rt)?;
    let _program = args.next();
    let Some(word) = args.next() else {
        return Ok(Command::Try);
    };
    let (first, second, third) = (number(&mut args), number(&mut args), number(&mut args));
    Ok(match word.as_str() {
        "pins" => Command::Pins(first, second, third),
        "reads" => Command::Reads(first, second, third),
        "updates" => Command::Updates(first, second),
        _ => Command::History(first, second, third),
    })
}

/// The next word as a number, or 1.
fn number(args: &mut Args) -> u32 {
    match args.next() {
        Some(word) => word.as_str().parse().unwrap_or(1),
        None => 1,
    }
}
