// A trace on disk.

use cli_host::sink::{Sink, SinkFault};
use serve_blackbox::sink::TraceSink;
use std::fs::{File, Files, OpenFile, OpenOptions};
use std::io;
use std::io::Write;

/// A trace on disk, once it is created.
#[derive(Drop)]
pub struct DiskTrace<'r, R: Files> {
    rt: &'r R,
    file: Option<R::File>,
    sync: bool,
    is_created: bool,
    failed: bool,
}

impl<'r, R: Files> DiskTrace<'r, R> {
    /// No trace yet.
    pub fn new(rt: &'r R) -> DiskTrace<'r, R> {
        DiskTrace {
            rt,
            file: None,
            sync: false,
            is_created: false,
            failed: false,
        }
    }
}

impl<R: Files> Sink for DiskTrace<'_, R> {
    ghost use Rattle.std.specs.Prelude.{◌&&◌, not, if◌then◌else◌, None};
    ghost use Rattle.cli_host.specs.Files.{Made};

    ghost has_failed = { λ t. t.failed };

    ghost made = { λ t. record { is = λ name sync. t.is_created && (if sync then t.sync else not t.sync); ended = None; missed = None } };

    fn put(&mut self, piece: &[u8]) -> Result<usize, SinkFault> {
        let Some(file) = &mut self.file else {
            return Ok(piece.len());
        };
        match write(file, piece, self.sync) {
            Ok(()) => Ok(piece.len()),
            Err(_) => {
                self.failed = true;
                Err(SinkFault)
            }
        }
    }
}

impl<R: Files> TraceSink for DiskTrace<'_, R> {
    fn create(&mut self, name: &str, sync: bool) -> Result<(), SinkFault> {
        match created(self.rt, name, sync) {
            Ok(file) => {
                self.file = Some(file);
                self.sync = sync;
                self.is_created = true;
                Ok(())
            }
            Err(_) => {
                self.failed = true;
                Err(SinkFault)
            }
        }
    }

    fn turn(&mut self, name: &str, head: &[u8], last: &[u8]) -> Result<bool, SinkFault> {
        let Some(file) = &mut self.file else {
            return Ok(false);
        };
        let Ok(next) = begun(self.rt, name, head, self.sync) else {
            return Ok(false);
        };
        if write(file, last, self.sync).is_err() {
            self.failed = true;
            return Err(SinkFault);
        }
        self.file = Some(next);
        Ok(true)
    }
}

// Writes a piece; with `sync` it is on the disk then.
fn write<W: Write + OpenFile>(file: &mut W, piece: &[u8], sync: bool) -> io::Result<()> {
    match file.write_all(piece) {
        Ok(()) if sync => file.sync_data(),
        written => written,
    }
}

// A new file with a head; or none, where that can't be written.
fn begun<R: Files>(rt: &R, name: &str, head: &[u8], sync: bool) -> io::Result<R::File> {
    let mut file = created(rt, name, sync)?;
    match write(&mut file, head, sync) {
        Ok(()) => Ok(file),
        Err(error) => {
            rt.remove_file(name)?;
            Err(error)
        }
    }
}

// A new file, at whose end all is written, whoever cuts it meanwhile. With `sync` its entry in its folder is on the disk.
fn created<R: Files>(rt: &R, name: &str, sync: bool) -> io::Result<R::File> {
    let mut how = OpenOptions::new();
    how.append(true);
    how.create_new(true);
    let file = how.open(rt, name)?;
    if sync {
        File::open(rt, folder_of(name))?.sync_all()?;
    }
    Ok(file)
}

// The folder of a file.
fn folder_of(name: &str) -> &str {
    match name.rsplit_once('/') {
        None => ".",
        Some(("", _)) => "/",
        Some((folder, _)) => folder,
    }
}
