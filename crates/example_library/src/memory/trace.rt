// The calls that write and read a trace.

use crate::memory::lines::print;
use cli_host::sink::Memory;
use group_spec::journal::Entry;
use std::alloc::Global;
use std::io::Print;
use trace_text::fault::TraceFault;
use trace_text::read::read_trace;
use trace_text::write::write_trace;

// How many events are read of a trace of two cars.
fn count(alloc: Global, text: &[u8]) -> Result<usize, TraceFault> {
    match read_trace(alloc, text, 2) {
        Ok(events) => Ok(events.len()),
        Err(fault) => Err(fault),
    }
}

// The trace of a journal in a list.
fn written(alloc: Global, journal: &[Entry]) -> Result<Memory, TraceFault> {
    let mut list = Memory::new(alloc);
    write_trace(journal, &mut list)?;
    Ok(list)
}

// How many bytes a journal's trace has, and how many events are read of it.
fn counts(alloc: Global, journal: &[Entry]) -> Result<[i128; 2], TraceFault> {
    let list = written(alloc, journal)?;
    let bytes = list.bytes();
    let events = count(alloc, bytes)?;
    Ok([bytes.len() as i128, events as i128])
}

/// Each call, over a journal. What is refused memory is done once more.
pub fn all<R: Print>(rt: &R, alloc: Global, journal: &[Entry]) {
    let found = match counts(alloc, journal) {
        Ok(found) => Ok(found),
        Err(_) => counts(alloc, journal),
    };
    if let Ok(found) = found {
        print(rt, "write_trace, read_trace", &found);
    }
}
