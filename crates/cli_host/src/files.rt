// Where the program reads its files.

ghost use Rattle.std.specs.Prelude.{◌≡◌, ◌≤◌, ℕ, List, length, IfOk, IfErr, ⊤};
ghost use Rattle.cli_host.specs.Messages.{cause_sentence, text_of};
ghost use Rattle.cli_host.specs.declared.files.ReadFault.{ReadFault};

use std::alloc::{AllocError, Global};
use std::fs::File;
use std::io;
use std::io::Read;
use std::rt::Files;
use thiserror::Error;

/// Why a file can't be read.
#[derive(Clone, Copy, Debug)]
pub enum Cause {
    /// No file has this name.
    Missing,
    /// The name is that of a folder.
    Folder,
    /// The process may not read it.
    Denied,
    /// Reading failed.
    Other,
}

impl Cause {
    /// What it is, in words.
    pub fn sentence(self) -> &'static str
        ensures { result.now ≡ cause_sentence self }
    {
        match self {
            Cause::Missing => "no file has this name",
            Cause::Folder => "this is a folder",
            Cause::Denied => "the file may not be read",
            Cause::Other => "the file can't be read",
        }
    }
}

/// Why a file gives no bytes.
#[derive(Clone, Copy, Debug, Error)]
pub enum ReadFault {
    #[error("cannot read")]
    CannotRead(Cause),
    /// An allocation failed.
    #[error("out of memory")]
    NoMemory,
}

impl From<io::Error> for ReadFault {
    ghost use Rattle.std.specs.Prelude.{◌≡◌};
    ghost use Rattle.std.specs.IoError.{error_kind};
    ghost use Rattle.cli_host.specs.Messages.{fault_of_kind};

    ghost from_gives = { λ e f. f ≡ fault_of_kind (error_kind e) };

    fn from(error: io::Error) -> ReadFault {
        match error.kind() {
            io::ErrorKind::OutOfMemory => ReadFault::NoMemory,
            io::ErrorKind::NotFound => ReadFault::CannotRead(Cause::Missing),
            io::ErrorKind::IsADirectory => ReadFault::CannotRead(Cause::Folder),
            io::ErrorKind::PermissionDenied => ReadFault::CannotRead(Cause::Denied),
            _ => ReadFault::CannotRead(Cause::Other),
        }
    }
}

impl From<AllocError> for ReadFault {
    ghost use Rattle.std.specs.Prelude.{◌≡◌};
    ghost use Rattle.cli_host.specs.declared.files.ReadFault.TheVariants.{NoMemory};

    ghost from_gives = { λ _ f. f ≡ NoMemory };

    fn from(_error: AllocError) -> ReadFault {
        ReadFault::NoMemory
    }
}

/// What was read of a file.
#[derive(Drop)]
pub enum Reading {
    Text(Vec<u8>),
    Failed(ReadFault),
}

impl Reading {
    /// The bytes that were read; none where that failed.
    pub fn text(&self) -> &[u8]
        ensures { result.now ≡ text_of self.now }
    {
        match self {
            Reading::Text(text) => text,
            Reading::Failed(_) => &[],
        }
    }
}

/// A reader of files by name.
pub trait TextFiles {
    // What the file of a name may give to a reading of at most so many bytes.
    ghost gives: { Self → List ℕ → ℕ → List ℕ → Type 0 };

    // Why such a reading may fail.
    ghost fails: { Self → List ℕ → ℕ → ReadFault → Type 0 };

    /// The first bytes of a file, at most `limit` of them.
    fn read(&self, alloc: Global, name: &str, limit: usize) -> Result<Vec<u8>, ReadFault>
        ensures within { IfOk result (λ text. length text.items ≤ limit) }
        ensures gives { IfOk result (λ text. gives self.now name.now limit text.items) }
        ensures fails { IfErr result (fails self.now name.now limit) };
}

/// The files of the process, of which no contract can say more than how many bytes were read.
#[derive(Drop)]
pub struct Disk<'r, R: Files>(pub &'r R);

impl<R: Files> TextFiles for Disk<'_, R> {
    ghost gives = { λ _ _ limit text. length text ≤ limit };

    ghost fails = { λ _ _ _ _. ⊤ };

    fn read(&self, alloc: Global, name: &str, limit: usize) -> Result<Vec<u8>, ReadFault> {
        let file = File::open(self.0, name)?;
        let mut text = Vec::with_capacity(alloc, limit)?;
        file.take(limit as u64).read_to_end(&mut text)?;
        text.truncate(limit);
        Ok(text)
    }
}
