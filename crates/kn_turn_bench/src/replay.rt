//! Whether what the calls answered is one history.
ghost use Rattle.std.specs.Prelude.{◌≤◌, vec_len, length};

use crate::event::{EMPTY, Event, mix};
use std::alloc::{AllocError, Global};

/// What the calls of one pass answered.
#[derive(Drop)]
pub struct Run {
    /// How many updates the pass had seen when it was split off.
    pub began: u32,
    pub events: Vec<Event>,
}

/// Whether each of so many updates was answered once, each caller's in its order, and each pin shows what the updates
/// before it make.
pub(crate) fn is_replayed(alloc: Global, made: &[Run], updates: u32) -> Result<bool, AllocError> {
    let mut table = Vec::new(alloc);
    for _ in 0..updates {
        table.push(None)?;
    }
    for run in made {
        if !is_in_order(run) || !enter_all(&mut table, run.events.as_slice()) {
            return Ok(false);
        }
    }
    let Some(prints) = prints_of(alloc, table.as_slice())? else {
        return Ok(false);
    };
    for run in made {
        if !pins_show(run.events.as_slice(), prints.as_slice()) {
            return Ok(false);
        }
    }
    Ok(true)
}

/// Whether each update stands behind all that its caller had seen, and no pin is older than that.
fn is_in_order(run: &Run) -> bool {
    let mut seen = run.began;
    for event in run.events.as_slice() {
        match *event {
            Event::Added(_, version, _) | Event::Removed(_, version) => {
                if version <= seen {
                    return false;
                }
                seen = version;
            }
            Event::Pinned(version, _) => {
                if version < seen {
                    return false;
                }
                seen = version;
            }
        }
    }
    true
}

/// Enters the updates at their places, each of which has to be free.
fn enter_all(table: &mut Vec<Option<Event>>, events: &[Event]) -> bool {
    for event in events {
        let place = match *event {
            Event::Added(_, version, _) | Event::Removed(_, version) => version,
            Event::Pinned(_, _) => continue,
        };
        let i = (place as usize).wrapping_sub(1);
        if i >= table.len() {
            return false;
        }
        if table[i].is_some() {
            return false;
        }
        table[i] = Some(*event);
    }
    true
}

/// The prints of all versions, from the first updates to all of them. None where an update isn't one of its place.
fn prints_of(alloc: Global, table: &[Option<Event>]) -> Result<Option<Vec<u64>>, AllocError> {
    let mut live: Vec<(u32, u64)> = Vec::new(alloc);
    let mut prints = Vec::new(alloc);
    let mut added: u32 = 0;
    prints.push(EMPTY)?;
    for entry in table {
        match *entry {
            Some(Event::Added(id, _, print)) => {
                added = added.wrapping_add(1);
                if id != added {
                    return Ok(None);
                }
                live.push((id, print))?;
            }
            Some(Event::Removed(id, _)) => {
                let Some(i) = live.as_slice().iter().position(|l| l.0 == id) else {
                    return Ok(None);
                };
                let _removed = live.remove(i);
            }
            _ => return Ok(None),
        }
        prints.push(print_of(live.as_slice()))?;
    }
    Ok(Some(prints))
}

fn print_of(live: &[(u32, u64)]) -> u64 {
    let mut print = EMPTY;
    for (id, text) in live {
        print = mix(mix(print, u64::from(*id)), *text);
    }
    print
}

/// Whether each pin has the print of its version.
fn pins_show(events: &[Event], prints: &[u64]) -> bool {
    for event in events {
        if let Event::Pinned(version, print) = *event {
            if prints.get(version as usize).copied() != Some(print) {
                return false;
            }
        }
    }
    true
}
