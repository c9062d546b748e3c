// The files that a shelf over a folder has read and written.
use crate::shelves::ShelfFault;
use crate::whole_files::{
    FileId, end_of_links, id_of, look_at, new_path, replace_file, write_straight,
};
use std::alloc::{AllocError, Global};
use std::fs::{Metadata, Permissions};
use std::io::{self, ErrorKind};
use std::os::unix::fs::{MetadataExt, PermissionsExt};
use std::rt::Files;

/// How an ELF file begins (ELF, "ELF Identification").
const ELF_MAGIC: &[u8] = b"\x7fELF";

/// A file that was read.
#[derive(Drop)]
pub(crate) struct ReadFile {
    pub(crate) bytes: Vec<u8>,
    pub(crate) found: Metadata,
}

/// A regular file that was read or written, and the name that led to it.
#[derive(Drop)]
struct UsedFile {
    id: FileId,
    name: String,
}

/// A write that failed.
#[derive(Drop)]
pub struct FailedWrite {
    /// The name that was to be written.
    pub name: String,
    /// Why it failed.
    pub cause: WriteCause,
}

/// Why a write failed.
#[derive(Drop)]
pub enum WriteCause {
    /// The outside failed.
    Outside,
    /// The name leads to the file that was read or written under this name.
    Used(String),
    /// The new file that takes the name would stand where the file does that was read or written under this name.
    NewNameUsed(String),
}

/// What keeps a write from being done. A file that was used is told by its place in the list of these.
#[derive(Drop)]
enum Hindrance {
    Outside(io::Error),
    Used(usize),
    NewNameUsed(usize),
}

impl From<io::Error> for Hindrance {
    fn from(error: io::Error) -> Hindrance {
        Hindrance::Outside(error)
    }
}

impl Hindrance {
    /// The fault of the shelf's write.
    fn fault(&self) -> ShelfFault {
        match self {
            Hindrance::Outside(error) if error.kind() == ErrorKind::OutOfMemory => {
                ShelfFault::Memory
            }
            _ => ShelfFault::Failed,
        }
    }
}

/// The regular files that were read and written, and the last write that failed.
#[derive(Drop)]
pub(crate) struct UsedFiles {
    alloc: Global,
    files: Vec<UsedFile>,
    /// The mode of the first ELF file that was read.
    elf_mode: Option<u32>,
    failed: Option<FailedWrite>,
}

impl UsedFiles {
    /// No file, and no failure.
    pub(crate) fn none(alloc: Global) -> UsedFiles {
        UsedFiles {
            alloc,
            files: Vec::new(alloc),
            elf_mode: None,
            failed: None,
        }
    }

    /// Gives the last write that failed, if one did, and forgets it.
    pub(crate) fn take_failed_write(&mut self) -> Option<FailedWrite> {
        self.failed.take()
    }

    /// Notes that a file was read under a name.
    pub(crate) fn note_read(&mut self, name: &str, read: &ReadFile) -> Result<(), AllocError> {
        if !read.found.is_file() {
            return Ok(());
        }
        if self.elf_mode.is_none() && read.bytes.starts_with(ELF_MAGIC) {
            self.elf_mode = Some(read.found.mode());
        }
        let name = String::from_str(self.alloc, name)?;
        self.files.push(UsedFile {
            id: id_of(&read.found),
            name,
        })?;
        Ok(())
    }

    /// Writes bytes under a name, and notes where that fails.
    pub(crate) fn write<R: Files>(
        &mut self,
        files: &R,
        name: &str,
        bytes: &[u8],
    ) -> Result<(), ShelfFault> {
        match self.put(files, name, bytes) {
            Ok(()) => Ok(()),
            Err(hindrance) => {
                self.failed = self.failure(name, &hindrance).ok();
                Err(hindrance.fault())
            }
        }
    }

    /// Puts bytes under a name: in the place of a regular file or of none, and else straight.
    fn put<R: Files>(&mut self, files: &R, name: &str, bytes: &[u8]) -> Result<(), Hindrance> {
        let found = look_at(files, name)?;
        if let Some(place) = self.place_of(&found) {
            return Err(Hindrance::Used(place));
        }
        let permissions = match found {
            Some(found) if found.is_file() => Some(found.permissions()),
            Some(_) => return Ok(write_straight(files, name, bytes)?),
            None => self.permissions_of(bytes),
        };
        let Some(path) = end_of_links(files, self.alloc, name)? else {
            return Ok(write_straight(files, name, bytes)?);
        };
        let new = new_path(self.alloc, path.as_path())?;
        if let Some(place) = self.place_of(&look_at(files, new.as_str())?) {
            return Err(Hindrance::NewNameUsed(place));
        }
        let used = String::from_str(self.alloc, name).map_err(io::Error::from)?;
        self.files.reserve(1).map_err(io::Error::from)?;
        let id = replace_file(files, path.as_path(), new.as_str(), permissions, bytes)?;
        let _ = self.files.push(UsedFile { id, name: used });
        Ok(())
    }

    /// The place of a file among those that were used, if it was.
    fn place_of(&self, found: &Option<Metadata>) -> Option<usize> {
        let id = id_of(found.as_ref()?);
        self.files.iter().position(|used| used.id == id)
    }

    /// A failed write, and why.
    fn failure(&self, name: &str, hindrance: &Hindrance) -> Result<FailedWrite, AllocError> {
        let name = String::from_str(self.alloc, name)?;
        let cause = match hindrance {
            Hindrance::Outside(_) => WriteCause::Outside,
            Hindrance::Used(place) => WriteCause::Used(self.name_at(*place)?),
            Hindrance::NewNameUsed(place) => WriteCause::NewNameUsed(self.name_at(*place)?),
        };
        Ok(FailedWrite { name, cause })
    }

    /// The name of the used file at a place; empty where there is none.
    fn name_at(&self, place: usize) -> Result<String, AllocError> {
        match self.files.get(place) {
            Some(used) => String::from_str(self.alloc, used.name.as_str()),
            None => Ok(String::new(self.alloc)),
        }
    }

    /// The permissions of a new file with these bytes, where they are not those that the system gives.
    fn permissions_of(&self, bytes: &[u8]) -> Option<Permissions> {
        match self.elf_mode {
            Some(mode) if bytes.starts_with(ELF_MAGIC) => Some(Permissions::from_mode(mode)),
            _ => None,
        }
    }
}
