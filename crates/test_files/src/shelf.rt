// The files of the cases, in memory.

ghost use Rattle.std.specs.Prelude.{◌≡◌, ℕ, List, Option, Some, None, ⊤, length, take, IfOk, IfErr};
ghost use Rattle.std.specs.Option.{option_copied};
ghost use Rattle.cli_host.specs.declared.files.ReadFault.{ReadFault};
ghost use Rattle.test_files.specs.Stored.{file_named, GivesBytes, FailsFor};

use crate::escape::add_bytes;
use cli_host::files::{Cause, ReadFault, TextFiles};
use std::alloc::{AllocError, Global};
use std::{io, str};

/// A file. To read a broken one fails for want of memory.
#[derive(Drop)]
pub struct Stored {
    name: String,
    bytes: Vec<u8>,
    is_broken: bool,
}

/// Files by their names. What is added goes to the last.
#[derive(Drop)]
pub struct Shelf {
    alloc: Global,
    files: Vec<Stored>,
}

impl Shelf {
    /// No file.
    pub fn new(alloc: Global) -> Shelf {
        Shelf {
            alloc,
            files: Vec::new(alloc),
        }
    }

    /// Begins a file of this name anew.
    pub fn begin(&mut self, name: &str, is_broken: bool) -> Result<(), AllocError> {
        self.files.retain(|file| file.name.as_str() != name);
        self.files.push(Stored {
            name: String::from_str(self.alloc, name)?,
            bytes: Vec::new(self.alloc),
            is_broken,
        })?;
        Ok(())
    }

    /// Adds a text so many times, and after each a line feed.
    pub fn add_lines(&mut self, times: u32, text: &str) -> io::Result<()> {
        let bytes = self.last()?;
        for _ in 0..times {
            bytes.extend_from_slice(text.as_bytes())?;
            bytes.push(b'\n')?;
        }
        Ok(())
    }

    /// Adds what a text with escapes spells, so many times.
    pub fn add_bytes(&mut self, times: u32, text: &str) -> io::Result<()> {
        let bytes = self.last()?;
        for _ in 0..times {
            add_bytes(bytes, text)?;
        }
        Ok(())
    }

    /// Adds bytes.
    pub fn add(&mut self, bytes: &[u8]) -> io::Result<()> {
        self.last()?.extend_from_slice(bytes)?;
        Ok(())
    }

    /// The bytes of a file; none where it is missing.
    pub fn bytes(&self, name: &str) -> &[u8] {
        match self.named(name) {
            Some(file) => file.bytes.as_slice(),
            None => &[],
        }
    }

    /// Adds all bytes of another file.
    pub fn include(&mut self, name: &str) -> io::Result<()> {
        let other = match self.named(name) {
            Some(file) => Vec::from_slice(self.alloc, &file.bytes)?,
            None => return Err(io::ErrorKind::NotFound.into()),
        };
        self.last()?.extend_from_slice(&other)?;
        Ok(())
    }

    /// How many lines of the last file begin with a text.
    pub fn count(&self, start: &str) -> io::Result<usize> {
        let file = self.files.last().ok_or(io::ErrorKind::NotFound)?;
        let Ok(text) = str::from_utf8(&file.bytes) else {
            return Err(io::ErrorKind::InvalidData.into());
        };
        Ok(text.lines().filter(|line| line.starts_with(start)).count())
    }

    // The bytes of the file to which is added.
    fn last(&mut self) -> io::Result<&mut Vec<u8>> {
        match self.files.last_mut() {
            Some(file) => Ok(&mut file.bytes),
            None => Err(io::ErrorKind::NotFound.into()),
        }
    }

    fn named(&self, name: &str) -> Option<&Stored>
        ensures { option_copied result ≡ file_named self.now.files.items name.now }
    {
        self.files.iter().find(|file| file.name.as_str() == name)
    }
}

impl TextFiles for Shelf {
    ghost gives = { λ shelf name limit text. GivesBytes (file_named shelf.files.items name) limit text };

    ghost fails = { λ shelf name _ fault. FailsFor (file_named shelf.files.items name) fault };

    fn read(&self, alloc: Global, name: &str, limit: usize) -> Result<Vec<u8>, ReadFault> {
        let file = self
            .named(name)
            .ok_or(ReadFault::CannotRead(Cause::Missing))?;
        if file.is_broken {
            return Err(ReadFault::NoMemory);
        }
        let mut text = Vec::from_slice(alloc, &file.bytes)?;
        text.truncate(limit);
        Ok(text)
    }
}
