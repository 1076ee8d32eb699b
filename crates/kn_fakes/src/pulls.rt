//! What pulls ask over a link in memory, and what they make of the answers.

use crate::lists::numbers;
use kn_base::{List, NoMemory, Octets};
use kn_follow::{FollowFault, PullFault, Replica, pull};
use kn_outside::MemLink;
use std::alloc::Global;

const SECRET: &[u8] = b"s3cret";

// What a daemon with two updates answers to ADMIN, to LOG twice and to BYE.
const ANSWERS: &[u8] = b"OK
LOG 0 2 2
UPDATE 0 1
ADD 40
Authorizer: \"POLICY\"
Licensees: \"alice\"

UPDATE 0 1
ADD 37
Authorizer: \"alice\"
Licensees: \"bob\"

END
LOG 2 0 2
END
OK
";

// What is asked of it.
const REQUESTS: &[u8] = b"ADMIN 733363726574\nLOG 0\nLOG 2\nBYE\n";

/// How a pull ended, and what it left.
#[derive(Drop)]
struct Pulled {
    found: Result<u32, PullFault>,
    link: MemLink,
    replica: Replica,
}

/// What a new replica pulls of this input over a link whose reads give at most `cut` bytes, or all that fits for 0, and
/// whose call of this number fails; 0 for none.
fn pull_all(alloc: Global, input: &[u8], cut: u32, failing: u32) -> Result<Pulled, NoMemory> {
    let mut cuts = List::new(alloc);
    if cut > 0 {
        for _ in 0..200_u32 {
            if cuts.push(cut).is_err() {
                return Err(NoMemory);
            }
        }
    }
    let input = Octets::from_slice(alloc, input)?;
    let mut link = MemLink::of(alloc, input, cuts, numbers(alloc, failing)?);
    let mut replica = Replica::start(alloc)?;
    let found = pull(alloc, &mut link, SECRET, &mut replica);
    Ok(Pulled {
        found,
        link,
        replica,
    })
}

/// Whether both updates are pulled, however the link is cut, and just the requests are written that are due.
pub(crate) fn is_pulled_whole(alloc: Global) -> Result<bool, NoMemory> {
    for cut in [0_u32, 1, 7] {
        let left = pull_all(alloc, ANSWERS, cut, 0)?;
        let held = left.replica.snapshot().len();
        if left.found != Ok(2) || held != 2 || left.link.written() != REQUESTS {
            return Ok(false);
        }
    }
    // Only a pull by single bytes has so many calls.
    let cut = pull_all(alloc, ANSWERS, 1, 60)?;
    Ok(cut.found == Err(PullFault::Read))
}

/// How many pulls of six end as they have to, each with another call that fails. The input comes in one piece: of four
/// requests the first alone is followed by a read.
pub(crate) fn pulls_with_failed_calls(alloc: Global) -> Result<u32, NoMemory> {
    let write = Err(PullFault::Write);
    let read = Err(PullFault::Read);
    let cases: [(u32, Result<u32, PullFault>, u32); 6] = [
        (1, write, 0),
        (2, read, 0),
        (3, write, 0),
        (4, write, 2),
        (5, write, 2),
        (6, Ok(2), 2),
    ];
    let mut right: u32 = 0;
    for (failing, found, length) in cases {
        let left = pull_all(alloc, ANSWERS, 0, failing)?;
        if left.found == found && left.replica.length() == length {
            right = right.saturating_add(1);
        }
    }
    Ok(right)
}

const fn line(at: u32) -> PullFault {
    PullFault::Follow(FollowFault::Line { at })
}

/// How many pulls of 42 end as they have to: of 21 inputs, each in one piece and in single bytes.
pub(crate) fn pulls_with_other_answers(alloc: Global) -> Result<u32, NoMemory> {
    let cases: [(&[u8], PullFault); 21] = [
        (b"", PullFault::Ended { held: 0 }),
        (b"OK", PullFault::Ended { held: 2 }),
        (b"NO 4 admin\n", PullFault::Denied { code: 4 }),
        (b"NO 4\n", PullFault::Denied { code: 4 }),
        (b"NO 4 \n", line(0)),
        (b"NO 04 admin\n", line(0)),
        (b"NO\n", line(0)),
        (b"OK 1\n", line(0)),
        (b"OK\n", PullFault::Ended { held: 0 }),
        (b"OK\nNO 19 ahead 0\nOK\n", PullFault::Denied { code: 19 }),
        (b"OK\nNOMEM\nOK\n", PullFault::Unserved),
        (b"OK\nNOMEM\r\n", line(0)),
        (b"OK\n\n", line(0)),
        (b"OK\nLOG 0 0", PullFault::Ended { held: 7 }),
        (b"OK\nLOG 00", line(5)),
        (b"OK\nLX", line(1)),
        (
            b"OK\nLOG 1 0 1\nEND\nOK\n",
            PullFault::Follow(FollowFault::Gap { from: 1, have: 0 }),
        ),
        (
            b"OK\nLOG 0 1 1\nUPDATE 0 1\nDROP a1\nEND\n",
            PullFault::Follow(FollowFault::Refused { place: 1 }),
        ),
        (b"OK\nLOG 0 0 0\nEND\n", PullFault::Ended { held: 0 }),
        (
            b"OK\nLOG 0 0 0\nEND\nNO 1 syntax\n",
            PullFault::Denied { code: 1 },
        ),
        (b"OK\nLOG 0 0 0\nEND\nNOMEM\n", line(0)),
    ];
    let mut right: u32 = 0;
    for (input, fault) in cases {
        for cut in [0_u32, 1] {
            if pull_all(alloc, input, cut, 0)?.found == Err(fault) {
                right = right.saturating_add(1);
            }
        }
    }
    Ok(right)
}
