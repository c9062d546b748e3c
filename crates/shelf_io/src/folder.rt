//! A shelf over the files of the current folder. That they hold what was written is trusted.
ghost use Rattle.std.specs.Prelude.{◌≡◌, ◌≤◌, [], vec_len, IfOk, IfSome};

use crate::fault_log::FaultLog;
use crate::shelves::{CallKind, Shelf, ShelfFault};
use crate::used_files::{FailedWrite, ReadFile, UsedFiles};
use std::alloc::Global;
use std::fs::OpenFile;
use std::io::{ErrorKind, Read};
use std::rt::Files;
use std::{fs, io};

/// The most bytes that a read takes from a file.
const MAX_FILE_BYTES: u64 = 1 << 27;

/// Files as a shelf, whose names are paths from the current folder. It tells nothing of what the
/// files hold, since others write there too. A read answers `Failed` where more than 2^27 bytes
/// come.
///
/// A write puts a new file in the place of a regular one, and so keeps the old one where it fails. It follows symbolic
/// links first, and keeps the old file's permissions; a new ELF file gets those of the first ELF file that was read. It
/// answers `Failed` where its name leads to a file that this shelf has read or written. What is no regular file, as a
/// device, is written straight.
#[derive(Drop)]
pub struct DirShelf<R> {
    files: R,
    log: FaultLog,
    used: UsedFiles,
}

impl<R: Files> DirShelf<R> {
    ghost use Rattle.shelf_io.specs.DirShelf.{shelf_failed, shelf_wants};

    /// The files that a runtime reaches, with no failed call and no want.
    pub fn new(files: R, alloc: Global) -> DirShelf<R>
        ensures failed { shelf_failed result ≡ [] }
        ensures wants { shelf_wants result ≡ 0 }
    {
        DirShelf {
            files,
            log: FaultLog::new(alloc),
            used: UsedFiles::none(alloc),
        }
    }

    /// Gives the last write that failed, if one did, and forgets it.
    pub fn take_failed_write(&mut self) -> Option<FailedWrite> {
        self.used.take_failed_write()
    }
}

/// All bytes that a reader has left. More than the limit are an error.
fn read_all<F: Read + Drop>(alloc: Global, file: F) -> io::Result<Vec<u8>>
    ensures size { IfOk result (λ bytes. vec_len bytes ≤ MAX_FILE_BYTES) }
    ensures bytes { IfOk result (λ bytes. IfSome (F.remaining file) (λ left. bytes.items ≡ left)) }
{
    let mut bytes = Vec::new(alloc);
    file.take(MAX_FILE_BYTES + 1).read_to_end(&mut bytes)?;
    if bytes.len() as u64 > MAX_FILE_BYTES {
        return Err(io::Error::from(ErrorKind::FileTooLarge));
    }
    Ok(bytes)
}

/// Reads a file.
fn read_file<R: Files>(files: &R, alloc: Global, name: &str) -> io::Result<ReadFile>
    ensures { IfOk result (λ read. vec_len read.bytes ≤ MAX_FILE_BYTES) }
{
    let file = fs::open(files, name)?;
    let found = file.metadata()?;
    let bytes = read_all(alloc, file)?;
    Ok(ReadFile { bytes, found })
}

impl<R: Files> Shelf for DirShelf<R> {
    ghost use Rattle.shelf_io.specs.{Shelf.{ReadLeaves}, DirShelf.{shelf_view}};

    ghost view = { λ shelf. shelf_view shelf };

    fn read(&mut self, alloc: Global, name: &str) -> Result<Vec<u8>, ShelfFault>
        ensures size { IfOk result (λ bytes. vec_len bytes ≤ MAX_FILE_BYTES) }
        ensures leaves { ReadLeaves name.now result (shelf_view self.old) (shelf_view self.new) }
    {
        let entry = self.log.entry(CallKind::Read, name)?;
        match read_file(&self.files, alloc, name) {
            Ok(read) => {
                self.used.note_read(name, &read)?;
                Ok(read.bytes)
            }
            Err(error) if error.kind() == ErrorKind::OutOfMemory => Err(ShelfFault::Memory),
            Err(_) => {
                self.log.push(entry);
                Err(ShelfFault::Failed)
            }
        }
    }

    fn write(&mut self, name: &str, bytes: &[u8]) -> Result<(), ShelfFault> {
        let Ok(entry) = self.log.entry(CallKind::Write, name) else {
            self.log.count_want();
            return Err(ShelfFault::Memory);
        };
        match self.used.write(&self.files, name, bytes) {
            Ok(()) => Ok(()),
            Err(ShelfFault::Memory) => {
                self.log.count_want();
                Err(ShelfFault::Memory)
            }
            Err(ShelfFault::Failed) => {
                self.log.push(entry);
                Err(ShelfFault::Failed)
            }
        }
    }
}
