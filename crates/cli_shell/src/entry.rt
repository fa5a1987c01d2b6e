// The words of the process, and its memory.

use cli_host::status::Fault;
use std::{env, io};

// In bytes: more than any block that is reserved for a text.
const LARGE_BLOCK: usize = 4 * 1024 * 1024;

/// The words of the command line, without the program's name.
pub fn words(rt: &HostRuntime) -> Result<Vec<String>, Fault> {
    match env::args(rt) {
        Ok(words) => Ok(words.skip(1).collect(rt.alloc())?),
        Err(error) => Err(unread(rt, error.kind())),
    }
}

// Why words can't be read: an allocation failed, or one of them is no text.
fn unread(rt: &HostRuntime, kind: io::ErrorKind) -> Fault {
    match kind {
        io::ErrorKind::OutOfMemory => Fault::NoMemory,
        _ => match String::from_str(rt.alloc(), "error: a word is not UTF-8\n") {
            Ok(text) => Fault::Misuse(text),
            Err(_) => Fault::NoMemory,
        },
    }
}

/// Reserves a large block and gives it back untouched. From then on the C library keeps blocks of up to this size that
/// are freed, for the next ones, and doesn't hand each back to the system.
pub fn keep_freed_memory(rt: &HostRuntime) {
    let _block = Vec::<u8>::with_capacity(rt.alloc(), LARGE_BLOCK);
}
