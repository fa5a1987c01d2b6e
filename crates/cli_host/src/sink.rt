// Where a program writes.

ghost use Rattle.std.specs.Prelude.{◌≡◌, ◌≤◌, ◌<◌, ℕ, List, [], Bool, true, false, Option, Some, None, length, IfOk, OnOk, OnErr};
ghost use Rattle.std.specs.Io.KnownBytes.{Appends, WriteAppends};
ghost use Rattle.cli_host.specs.Files.{Made, unmade};
ghost use Rattle.cli_host.specs.Writes.{AppendsFront};

use std::alloc::Global;
use std::io::Print;
use thiserror::Error;

/// A sink takes no more.
#[derive(Clone, Copy, Debug, Error)]
#[error("the sink takes no more")]
pub struct SinkFault;

/// Where a program writes: a stream, or a list in memory.
pub trait Sink {
    /// The bytes taken so far, where the sink reports them.
    ghost contents: { Self → Option (List ℕ) } = { λ _. None };

    /// Whether a piece was refused.
    ghost has_failed: { Self → Bool };

    /// As which files it was made. A stream wasn't made as any.
    ghost made: { Self → Made } = { λ _. unmade };

    /// Takes a piece from its front on, at least one byte of a piece that isn't empty, and answers
    /// how many bytes it took.
    fn put(&mut self, piece: &[u8]) -> Result<usize, SinkFault>
        ensures within { IfOk result (λ count. count ≤ length piece.now) }
        ensures some { IfOk result (λ count. 0 < length piece.now → 0 < count) }
        ensures bytes { WriteAppends (contents self.old) (contents self.new) result piece.now }
        ensures goes_on { OnOk result (has_failed self.new ≡ has_failed self.old) }
        ensures failed { OnErr result (has_failed self.new ≡ true) }
        // one that doesn't report its bytes doesn't report them later
        ensures silent { contents self.old ≡ None → contents self.new ≡ None }
        ensures made { made self.new ≡ made self.old };
}

/// Writes all of the bytes.
pub fn put_all<S: Sink>(sink: &mut S, bytes: &[u8]) -> Result<(), SinkFault>
    ensures ok { OnOk result (Appends (S.contents sink.old) (S.contents sink.new) bytes.now) }
    ensures goes_on { OnOk result (S.has_failed sink.new ≡ S.has_failed sink.old) }
    ensures failed { OnErr result (S.has_failed sink.new ≡ true) }
    ensures front { OnErr result (AppendsFront (S.contents sink.old) (S.contents sink.new)
        bytes.now) }
    ensures silent { S.contents sink.old ≡ None → S.contents sink.new ≡ None }
    ensures made { S.made sink.new ≡ S.made sink.old }
{
    let mut rest = bytes;
    'pieces: while !rest.is_empty() {
        let count = sink.put(rest)?;
        rest = &rest[count..];
    }
    Ok(())
}

/// A stream of the process.
#[derive(Drop)]
pub struct Stream<P: Print + Drop> {
    stream: P,
    failed: bool,
}

impl<P: Print + Drop> Stream<P> {
    /// A stream that nothing was written to.
    pub fn new(stream: P) -> Stream<P>
        ensures { result.failed ≡ false }
    {
        Stream {
            stream,
            failed: false,
        }
    }
}

impl<P: Print + Drop> Sink for Stream<P> {
    ghost has_failed = { λ s. s.failed };

    fn put(&mut self, piece: &[u8]) -> Result<usize, SinkFault> {
        match self.stream.write_all(piece) {
            Ok(()) => Ok(piece.len()),
            Err(_) => {
                self.failed = true;
                Err(SinkFault)
            }
        }
    }
}

/// A sink in memory, which may be limited.
#[derive(Drop)]
pub struct Memory {
    bytes: Vec<u8>,
    left: usize,
    failed: bool,
}

impl Memory {
    /// Nothing was written yet, and no limit is set.
    pub fn new(alloc: Global) -> Memory
        ensures bytes { result.bytes.items ≡ [] }
        ensures failed { result.failed ≡ false }
    {
        Memory::with_limit(alloc, usize::MAX)
    }

    /// Nothing was written yet. It takes so many bytes and then fails.
    pub fn with_limit(alloc: Global, limit: usize) -> Memory
        ensures bytes { result.bytes.items ≡ [] }
        ensures left { result.left ≡ limit }
        ensures failed { result.failed ≡ false }
    {
        Memory {
            bytes: Vec::new(alloc),
            left: limit,
            failed: false,
        }
    }

    /// The bytes taken so far.
    pub fn bytes(&self) -> &[u8]
        ensures { result.now ≡ self.now.bytes.items }
    {
        self.bytes.as_slice()
    }
}

impl Sink for Memory {
    ghost contents = { λ s. Some s.bytes.items };

    ghost has_failed = { λ s. s.failed };

    fn put(&mut self, piece: &[u8]) -> Result<usize, SinkFault> {
        let count = piece.len().min(self.left);
        let fits = count > 0 || piece.is_empty();
        if fits && self.bytes.extend_from_slice(&piece[..count]).is_ok() {
            self.left -= count;
            return Ok(count);
        }
        self.failed = true;
        Err(SinkFault)
    }
}
