//! What is read of the texts of a file, before they are added: the readings of many texts are made side by side.
ghost use Rattle.std.specs.Prelude.{◌≡◌, ◌<◌, length, vec_len, All, IfOk, map, slice_index_or};
ghost use Rattle.std.specs.List.{AllZip};
ghost use Rattle.kn_files.specs.Pieces.{bytes_at, IsWithin};
ghost use Rattle.kn_load.specs.Readings.{IsReadResultOf};

use kn_assert::{ReadFault, read};
use kn_base::{NoMemory, Span};
use kn_history::Ready;
use std::alloc::Global;
use std::thread;
use std::thread::Threads;

/// The most threads that read the texts of a file: more than most machines have processors, so that less is left to
/// wait for where one of them starts late or is held up.
const READERS: usize = 8;

/// The bytes of texts for each thread: for fewer, starting it takes longer than it saves.
const BYTES_A_READER: usize = 30_000;

/// About how many bytes of memory a byte of text takes with its reading.
const MEMORY_A_BYTE: usize = 12;

/// What was read of a text.
#[derive(Drop)]
pub(crate) enum ReadResult {
    /// Nothing yet.
    Unread,
    /// The text with its reading.
    Read(Ready),
    /// The first fault of the text, or out of memory.
    Faulty(ReadFault),
}

/// What is read of a text.
pub(crate) fn read_result(alloc: Global, text: &[u8]) -> ReadResult
    ensures { IsReadResultOf text.now result }
{
    let assertion = match read(alloc, text) {
        Ok(assertion) => assertion,
        Err(fault) => return ReadResult::Faulty(fault),
    };
    match Ready::of(alloc, text, assertion) {
        Ok(ready) => ReadResult::Read(ready),
        Err(NoMemory) => ReadResult::Faulty(ReadFault::NoMemory),
    }
}

/// What is read of the texts at these spans of a file, in their order.
pub(crate) fn read_results<R: Threads + Sync>(
    rt: &R,
    alloc: Global,
    file: &[u8],
    spans: &[Span],
) -> Result<Vec<ReadResult>, NoMemory>
    requires { All (IsWithin file.now) spans.now }
    ensures { IfOk result (λ results. AllZip IsReadResultOf (map (bytes_at file.now) spans.now) results.items) }
{
    let mut results = unread_results(alloc, spans.len())?;
    read_all(rt, alloc, file, spans, results.as_mut_slice());
    Ok(results)
}

/// Reads the texts at these spans of a file, each into the result at its place.
fn read_all<R: Threads + Sync>(
    rt: &R,
    alloc: Global,
    file: &[u8],
    spans: &[Span],
    results: &mut [ReadResult],
)
    requires count { length results.old ≡ length spans.now }
    requires within { All (IsWithin file.now) spans.now }
    ensures { AllZip IsReadResultOf (map (bytes_at file.now) spans.now) results.new }
{
    let bytes = extent_of(spans);
    let threads = (bytes / BYTES_A_READER).clamp(1, READERS);
    // `for_each_mut` gives each thread so many texts in a row
    let share = spans.len().div_ceil(threads);
    let memory = (bytes / threads).saturating_mul(MEMORY_A_BYTE);
    fetch_memory(alloc, memory);
    thread::for_each_mut(
        rt,
        results,
        threads,
        &|place, found: &mut ReadResult| {
            let begins_share = place % share == 0;
            if begins_share {
                fetch_memory(alloc, memory);
            }
            *found = read_result(alloc, text_at(file, spans[place]));
        },
    );
}

/// The bytes from the first of these spans, which follow one another, to the last.
fn extent_of(spans: &[Span]) -> usize {
    match (spans.first(), spans.last()) {
        (Some(first), Some(last)) => last.end.saturating_sub(first.start) as usize,
        _ => 0,
    }
}

/// Takes so much memory and gives it back, so that the allocator has it at hand for what follows.
///
/// The C library's allocator gets the memory of each thread but the first from the system page by page, and threads
/// that do so wait for one another. What is given back it keeps at hand, but a piece of 128 KiB or more only if one as
/// large was given back before. So this is done once before the threads start, and then by each of them.
fn fetch_memory(alloc: Global, bytes: usize) {
    // Where there isn't so much, nothing is lost.
    let _memory: Result<Vec<u8>, _> = Vec::with_capacity(alloc, bytes);
}

/// So many results before anything is read.
fn unread_results(alloc: Global, count: usize) -> Result<Vec<ReadResult>, NoMemory>
    ensures { IfOk result (λ results. vec_len results ≡ count) }
{
    let mut results = Vec::new(alloc);
    match results.resize_with(count, || ReadResult::Unread) {
        Ok(()) => Ok(results),
        Err(_) => Err(NoMemory),
    }
}

/// The text at a span of a file.
fn text_at(file: &[u8], span: Span) -> &[u8]
    requires { IsWithin file.now span }
    ensures { result.now ≡ bytes_at file.now span }
{
    let start = span.start as usize;
    let end = span.end as usize;
    file.split_at(start).1.split_at(end - start).0
}
