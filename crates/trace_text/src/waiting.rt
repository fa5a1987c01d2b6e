// Bytes that wait for a sink.

ghost use Rattle.std.specs.Prelude.{◌≡◌, ◌+◌, ◌≤◌, ◌<◌, [], ◌∷◌, ◌++◌, length, take};

use std::marker::Model;

/// At most 4096 bytes that wait for a sink. Contracts see them in their order. Unlike an `ArrayVec`, it writes nothing
/// where it is cleared.
#[derive(Drop)]
pub struct Waiting {
    bytes: [u8; 4096],
    len: usize,
}

impl Model for Waiting {
    ghost use Rattle.std.specs.Prelude.{ℕ, List, ◌≤◌, take};

    ghost Value = { List ℕ };

    ghost view = { λ w. take w.len w.bytes };

    ghost invariant = { λ w. w.len ≤ 4096 };
}

impl Waiting {
    /// No byte.
    pub fn new() -> Waiting
        ensures { result ≡ [] }
    {
        Waiting {
            bytes: [0; 4096],
            len: 0,
        }
    }

    /// How many bytes wait.
    pub fn len(&self) -> usize
        ensures { result ≡ length self.now }
    {
        self.len
    }

    /// The bytes.
    pub fn as_slice(&self) -> &[u8]
        ensures { result.now ≡ self.now }
    {
        &self.bytes[..self.len]
    }

    /// Takes all bytes out.
    pub fn clear(&mut self)
        ensures { self.new ≡ [] }
    {
        self.len = 0;
    }

    /// Adds a byte.
    #[inline(always)]
    pub fn push(&mut self, byte: u8)
        requires { length self.old < 4096 }
        ensures { self.new ≡ self.old ++ byte ∷ [] }
    {
        self.bytes[self.len] = byte;
        self.len += 1;
    }

    /// Adds bytes.
    #[inline(always)]
    pub fn put(&mut self, bytes: &[u8])
        requires { length self.old + length bytes.now ≤ 4096 }
        ensures { self.new ≡ self.old ++ bytes.now }
    {
        let end = self.len + bytes.len();
        self.bytes[self.len..end].copy_from_slice(bytes);
        self.len = end;
    }

    /// Adds the first so many bytes of a block of 16. It copies the whole block, which takes one step of the machine.
    #[inline(always)]
    pub fn put_front(&mut self, block: &[u8], count: usize)
        requires room { length self.old + 16 ≤ 4096 }
        requires block { length block.now ≡ 16 }
        requires count { count ≤ 16 }
        ensures { self.new ≡ self.old ++ take count block.now }
    {
        self.bytes[self.len..self.len + 16].copy_from_slice(block);
        self.len += count;
    }
}
