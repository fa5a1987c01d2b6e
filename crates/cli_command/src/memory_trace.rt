// A trace in memory.

ghost use Rattle.std.specs.Prelude.{◌≡◌, false, option_map};
ghost use Rattle.cli_command.specs.Programs.{traced_by};

use cli_host::sink::{Sink, SinkFault};
use serve_blackbox::sink::TraceSink;
use std::alloc::Global;

/// A trace in memory, once it is created. Where it goes on in another, it has that alone.
#[derive(Drop)]
pub struct MemoryTrace {
    bytes: Vec<u8>,
    alloc: Global,
    is_created: bool,
    failed: bool,
}

impl MemoryTrace {
    /// No trace yet.
    pub fn new(alloc: Global) -> MemoryTrace
        ensures created { result.is_created ≡ false }
        ensures failed { result.failed ≡ false }
    {
        MemoryTrace {
            bytes: Vec::new(alloc),
            alloc,
            is_created: false,
            failed: false,
        }
    }

    /// The bytes taken so far, if it was created.
    pub fn bytes(&self) -> Option<&[u8]>
        ensures { option_map (λ bytes. bytes.now) result ≡ traced_by self.now }
    {
        if self.is_created {
            Some(self.bytes.as_slice())
        } else {
            None
        }
    }
}

impl Sink for MemoryTrace {
    ghost use Rattle.std.specs.Prelude.{Some, None, if◌then◌else◌};
    ghost use Rattle.cli_host.specs.Files.{Made};

    ghost contents = { λ t. if t.is_created then Some t.bytes.items else None };

    ghost has_failed = { λ t. t.failed };

    ghost made = { λ t. record { is = λ name sync. t.is_created; ended = None; missed = None } };

    fn put(&mut self, piece: &[u8]) -> Result<usize, SinkFault> {
        if !self.is_created {
            return Ok(piece.len());
        }
        if self.bytes.extend_from_slice(piece).is_err() {
            self.failed = true;
            return Err(SinkFault);
        }
        Ok(piece.len())
    }
}

impl TraceSink for MemoryTrace {
    fn create(&mut self, _name: &str, _sync: bool) -> Result<(), SinkFault> {
        self.bytes.clear();
        self.is_created = true;
        Ok(())
    }

    fn turn(&mut self, _name: &str, head: &[u8], last: &[u8]) -> Result<bool, SinkFault> {
        if !self.is_created {
            return Ok(false);
        }
        let mut next = Vec::new(self.alloc);
        if next.extend_from_slice(head).is_err() {
            return Ok(false);
        }
        if self.bytes.extend_from_slice(last).is_err() {
            self.failed = true;
            return Err(SinkFault);
        }
        self.bytes = next;
        Ok(true)
    }
}
