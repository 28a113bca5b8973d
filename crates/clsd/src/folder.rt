ghost use Rattle.std.specs.Prelude.{◌≡◌, IfOk, OnErr};
ghost use Rattle.cl_base.specs.Reads.{IsWithin};

use cl_base::{HeaderSource, MOST_HEADER, Mem, Memory, Path, Read, Text};
use std::alloc::Global;
use std::fs;
use std::fs::Files;
use std::io::{ErrorKind, Read as Reader};

/// The files of a system as a header source, which doesn't tell what it read. A file is found with its bytes. It is absent
/// where there is none, also where a part of its path is no folder. Whatever else may be, the read has failed, which counts
/// as a fault: a folder, a device or a pipe, which are not opened; a file that may not be read; one of more than 67,108,864
/// bytes.
#[derive(Drop)]
pub struct Folder<R> {
    files: R,
    faults: u64,
}

impl<R: Files> Folder<R> {
    /// A header source over these files, with no fault so far.
    pub fn new(files: R) -> Folder<R>
        ensures { ⟦<Folder<R> as HeaderSource>⟧.faults result ≡ 0 }
    {
        Folder { files, faults: 0 }
    }
}

impl<R: Files> HeaderSource for Folder<R> {
    ghost use Rattle.std.specs.Prelude.{None};

    ghost reads = { λ _. None };

    ghost faults = { λ s. s.faults };

    fn read_file(&mut self, alloc: Global, path: &Path) -> Mem<Read> {
        let read = read_at(alloc, &self.files, path.text())?;
        if let Read::Failed = read {
            self.faults = self.faults.saturating_add(1);
        }
        Ok(read)
    }
}

/// What a read of a path gives. What is no file isn't opened, since that could wait for whoever writes it.
fn read_at<R: Files>(alloc: Global, files: &R, path: &str) -> Mem<Read>
    ensures { IfOk result IsWithin }
{
    match files.metadata(path) {
        Ok(about) => {
            if !about.is_file() || about.len() > MOST_HEADER as u64 {
                return Ok(Read::Failed);
            }
        }
        Err(error) => return without(error.kind()),
    }
    match fs::open(files, path) {
        Ok(file) => bytes_of(alloc, file),
        Err(error) => without(error.kind()),
    }
}

/// The bytes of a file, which has failed where they are too many.
fn bytes_of<F: Reader + Drop>(alloc: Global, file: F) -> Mem<Read>
    ensures { IfOk result IsWithin }
{
    let mut bytes = Vec::new(alloc);
    match file.take(MOST_HEADER as u64 + 1).read_to_end(&mut bytes) {
        Ok(_) => {
            if bytes.len() > MOST_HEADER {
                return Ok(Read::Failed);
            }
            let text = Text::from_vec(alloc, bytes)?;
            Ok(Read::Found(text))
        }
        Err(error) => match error.kind() {
            ErrorKind::OutOfMemory => Err(Memory),
            _ => Ok(Read::Failed),
        },
    }
}

/// What a read gives that has come to no file.
fn without(kind: ErrorKind) -> Mem<Read>
    ensures { IfOk result IsWithin }
{
    match kind {
        ErrorKind::NotFound | ErrorKind::NotADirectory => Ok(Read::Absent),
        ErrorKind::OutOfMemory => Err(Memory),
        _ => Ok(Read::Failed),
    }
}
