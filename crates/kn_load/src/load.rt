//! Loading texts, those of a policy file or others: added in their order to a new registry by its root pass.
ghost use Rattle.std.specs.Prelude.{◌≡◌, ◌≢◌, ◌+◌, ◌^◌, ◌<◌, ◌≤◌, ◌++◌, [], ℕ, List as Of};
ghost use Rattle.std.specs.Prelude.{length, All, OnOk, IfOk, IfErr, MatchOption};
ghost use Rattle.kn_fields.specs.Numbers.{fault_number};
ghost use Rattle.kn_files.specs.Pieces.{pieces_of, spans_of, IsWithin};
ghost use Rattle.kn_history.specs.declared.fault.StoreFault.TheVariants as S;
ghost use Rattle.kn_load.specs.Readings.{AreReadings};
ghost use Rattle.kn_load.specs.Loaded.{IsUnsplitRoot, IsLoaded, StopsLoading, refused_at};
ghost use Rattle.kn_load.specs.declared.fault.LoadFault.TheVariants as L;

use crate::fault::LoadFault;
use crate::read_results::read_results;
use crate::read_texts::{ReadTexts, read_texts, readings_of};
use kn_assert::ReadFault;
use kn_base::limits::{FILE_BYTES, LIVE_BYTES, LIVE_CREDENTIALS};
use kn_base::{List, Octets, Span};
use kn_files::split_file;
use kn_history::StoreFault;
use kn_registry::{Pass, Registry};
use std::alloc::Global;
use std::sync::Wait;
use std::thread::Threads;

/// A registry with the assertions of a policy file, added by its root pass, caller 0, in their order.
///
/// What stops loading is the first of its assertions that has a fault, or that a limit of the store refuses.
/// That is as if both were tried for one assertion before the next, the fault first (keynoted's own).
pub fn load_file<R: Threads + Wait + Sync>(
    rt: &R,
    alloc: Global,
    file: &[u8],
) -> Result<(Registry, Pass), LoadFault>
    requires { length file.now ≤ FILE_BYTES }
    ensures loaded { IfOk result (λ made. IsLoaded (pieces_of file.now) made.0 made.1) }
    ensures stopped { IfErr result (λ fault. StopsLoading (pieces_of file.now) fault) }
{
    let spans = split_file(alloc, file)?;
    let (registry, mut root) = Registry::start(alloc)?;
    match add_file(rt, alloc, &registry, &mut root, file, &spans) {
        Ok(()) => Ok((registry, root)),
        Err(fault) => Err(fault),
    }
}

/// A registry with these assertions, added by its root pass, caller 0, in their order. What stops loading is reported
/// as for a file.
pub fn load_texts<R: Wait>(
    rt: &R,
    alloc: Global,
    texts: &List<Octets>,
) -> Result<(Registry, Pass), LoadFault>
    ensures loaded { IfOk result (λ made. IsLoaded texts.now made.0 made.1) }
    ensures stopped { IfErr result (λ fault. StopsLoading texts.now fault) }
{
    let readings = read_texts(alloc, texts)?;
    let (registry, mut root) = Registry::start(alloc)?;
    match add_readings(rt, &registry, &mut root, readings, 0) {
        Ok(()) => Ok((registry, root)),
        Err(fault) => Err(fault),
    }
}

/// Adds the assertions at the spans of a file, in their order, batch by batch.
fn add_file<R: Threads + Wait + Sync>(
    rt: &R,
    alloc: Global,
    registry: &Registry,
    root: &mut Pass,
    file: &[u8],
    spans: &List<Span>,
) -> Result<(), LoadFault>
    requires none { IsLoaded [] registry.now root.old }
    requires spans { spans.now ≡ spans_of file.now }
    requires within { All (IsWithin file.now) spans.now }
    ensures loaded { OnOk result (IsLoaded (pieces_of file.now) registry.now root.new) }
    ensures stopped { IfErr result (λ fault. StopsLoading (pieces_of file.now) fault) }
{
    let mut from = 0;
    while from < spans.len() {
        let to = batch_end(spans, from);
        let batch = &spans.as_slice()[from as usize..to as usize];
        let results = read_results(rt, alloc, file, batch)?;
        let readings = readings_of(alloc, results)?;
        match add_readings(rt, registry, root, readings, from) {
            Ok(()) => from = to,
            Err(fault) => return Err(fault),
        }
    }
    Ok(())
}

/// Where the batch ends that begins at a place.
///
/// The first has as many texts as may be live together, but one at least, so all that a store takes is read at once.
/// Behind it no text is added, so there each batch has one text.
fn batch_end(spans: &List<Span>, from: u32) -> u32
    requires { from < length spans.now }
    ensures some { from < result }
    ensures within { result ≤ length spans.now }
{
    let count = spans.len();
    if from > 0 {
        return from + 1;
    }
    let most = LIVE_CREDENTIALS.min(count);
    let mut bytes: usize = 0;
    for place in 0..most {
        let span = spans.as_slice()[place as usize];
        bytes = bytes.saturating_add(span.end.saturating_sub(span.start) as usize);
        if place > 0 && bytes > LIVE_BYTES {
            return place;
        }
    }
    most
}

/// Adds the texts that were read, at one turn, behind as many as were loaded before.
fn add_readings<R: Wait>(
    rt: &R,
    registry: &Registry,
    root: &mut Pass,
    readings: ReadTexts,
    before: u32,
) -> Result<(), LoadFault>
    requires root { IsUnsplitRoot registry.now root.old }
    requires room { (texts : Of (Of ℕ)) × AreReadings texts readings × (before + length texts < 2 ^ 32) }
    ensures loaded { (front texts : Of (Of ℕ)) → AreReadings texts readings → IsLoaded front registry.now root.old
        → OnOk result (IsLoaded (front ++ texts) registry.now root.new) }
    ensures stopped { (front texts rest : Of (Of ℕ)) → AreReadings texts readings → IsLoaded front registry.now root.old
        → before ≡ length front → IfErr result (λ fault. StopsLoading (front ++ texts ++ rest) fault) }
{
    let ReadTexts { ready_texts, fault } = readings;
    let read = before + ready_texts.len() as u32;
    match registry.add_all(rt, root, ready_texts) {
        Ok(()) => {}
        Err((place, refusal)) => return Err(stop_by_refusal(before, place, refusal)),
    }
    match fault {
        Some(fault) => Err(stop_by_fault(read + 1, fault)),
        None => Ok(()),
    }
}

/// What stops loading at an assertion that has this fault. `NoMemory` has no number.
fn stop_by_fault(assertion: u32, fault: ReadFault) -> LoadFault
    ensures { MatchOption (fault_number fault) (result ≡ L.NoMemory) (λ _. result ≡ L.Faulty assertion fault) }
{
    match fault.number() {
        Some(_) => LoadFault::Faulty { assertion, fault },
        None => LoadFault::NoMemory,
    }
}

/// What stops loading where this many texts were loaded before, and the one at this place behind them is refused for
/// this. When out of memory, the place tells nothing.
fn stop_by_refusal(before: u32, place: u32, refusal: StoreFault) -> LoadFault
    requires room { refusal ≢ S.NoMemory → before + place + 1 < 2 ^ 32 }
    ensures { result ≡ refused_at (before + place + 1) refusal }
{
    match refusal {
        StoreFault::NoMemory => LoadFault::NoMemory,
        _ => LoadFault::Full {
            assertion: before + place + 1,
            refusal,
        },
    }
}
