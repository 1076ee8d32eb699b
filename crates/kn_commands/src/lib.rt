//! What the commands do, over whatever files and link they are given: `ask` serves a link over a policy, `check` tells
//! whether a reply proves the value of the query that a script means, `verify` tells whether a transcript is one that
//! the daemon permits, `follow` tells what the replies of a log make of a replica, and `gen` settles a query over
//! generated credentials. `serve` is in the program itself, and reads its files as `ask` does.
#![tactic(auto)]

mod asking;
mod checking;
mod following;
mod generating;
mod verifying;

pub use asking::ask;
pub use checking::check;
pub use following::follow;
pub use generating::generate;
pub use verifying::verify;
