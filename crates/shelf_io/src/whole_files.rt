// Files that are written whole or not at all.
ghost use Rattle.std.specs.Prelude.{◌≡◌, IfOk, string_bytes};
ghost use Rattle.shelf_io.specs.NewNames.{new_name};

use std::alloc::{AllocError, Global};
use std::fs::{Metadata, OpenFile, OpenOptions, Permissions};
use std::io::{ErrorKind, Write};
use std::os::unix::fs::MetadataExt;
use std::path::{Path, PathBuf};
use std::rt::Files;
use std::{fs, io};

/// How many symbolic links are followed at most, as Linux does.
const MOST_LINKS: u32 = 40;

/// How many characters of a name the name of its new file has at most, so that it is no longer than 255 bytes.
const MOST_KEPT: usize = 40;

/// A file of the system: its device and its number there.
#[derive(Clone, Copy, PartialEq, Eq)]
pub(crate) struct FileId {
    device: u64,
    number: u64,
}

/// The file that has this metadata.
pub(crate) fn id_of(found: &Metadata) -> FileId {
    FileId {
        device: found.dev(),
        number: found.ino(),
    }
}

/// What stands under a name, if anything does.
pub(crate) fn look_at<R: Files>(files: &R, name: &str) -> io::Result<Option<Metadata>> {
    match files.metadata(name) {
        Ok(found) => Ok(Some(found)),
        Err(error) if error.kind() == ErrorKind::NotFound => Ok(None),
        Err(error) => Err(error),
    }
}

/// The path to which a name leads through symbolic links. What it names need not be there. `None` where it leads to a
/// descriptor of a process, which is no place for another file.
pub(crate) fn end_of_links<R: Files>(
    files: &R,
    alloc: Global,
    name: &str,
) -> io::Result<Option<PathBuf>> {
    let mut path = PathBuf::from_str(alloc, name)?;
    for _ in 0..MOST_LINKS {
        if is_descriptor(path.as_str()) {
            return Ok(None);
        }
        match next_link(files, alloc, &path)? {
            Some(next) => path = next,
            None => return Ok(Some(path)),
        }
    }
    Err(io::Error::from(ErrorKind::InvalidInput))
}

/// Whether a path is that of a descriptor of a process.
fn is_descriptor(path: &str) -> bool {
    path.starts_with("/proc/") || path.starts_with("/dev/fd/")
}

/// The path to which a symbolic link leads; `None` where there is no link.
fn next_link<R: Files>(files: &R, alloc: Global, path: &PathBuf) -> io::Result<Option<PathBuf>> {
    match files.symlink_metadata(path.as_str()) {
        Ok(found) if found.is_symlink() => {
            let mut next = folder_of(path.as_path()).to_path_buf(alloc)?;
            let link = files.read_link(alloc, path.as_str())?;
            next.push(link)?;
            Ok(Some(next))
        }
        Ok(_) => Ok(None),
        Err(error) if error.kind() == ErrorKind::NotFound => Ok(None),
        Err(error) => Err(error),
    }
}

/// The folder of a path.
fn folder_of<'a>(path: Path<'a>) -> Path<'a> {
    match path.parent() {
        Some(folder) if !folder.as_str().is_empty() => folder,
        _ => Path::new("."),
    }
}

/// The path of the new file that takes a file's place: `.NAME.spmlink-new` beside it.
pub(crate) fn new_path(alloc: Global, path: Path<'_>) -> io::Result<PathBuf> {
    let Some(name) = path.file_name() else {
        return Err(io::Error::from(ErrorKind::InvalidInput));
    };
    let kept: String = name.chars().take(MOST_KEPT).collect(alloc)?;
    let name = new_name(alloc, kept.as_str())?;
    Ok(folder_of(path).join(alloc, name.as_str())?)
}

/// The name of the new file that takes the place of one whose name begins so.
fn new_name(alloc: Global, kept: &str) -> Result<String, AllocError>
    ensures { IfOk result (λ name. string_bytes name ≡ new_name kept.now) }
{
    format!(in alloc; ".{kept}.spmlink-new")
}

/// Puts a file with these bytes at a path, in place of what stands there: a new file beside it gets the bytes and the
/// permissions, is synced, and takes its name. Where that fails before the name is taken, what stood there is as it was.
pub(crate) fn replace_file<R: Files>(
    files: &R,
    path: Path<'_>,
    new: &str,
    permissions: Option<Permissions>,
    bytes: &[u8],
) -> io::Result<FileId> {
    ask_to_write(files, path.as_str())?;
    remove_leftover(files, new)?;
    let mut file = create_new(files, new)?;
    match fill(&mut file, permissions, bytes) {
        Ok(id) => {
            drop(file);
            take_name(files, new, path)?;
            Ok(id)
        }
        Err(error) => {
            let _ = files.remove_file(new);
            Err(error)
        }
    }
}

/// Opens the file at a path for writing, and changes nothing: an error where it is there and may not be written.
fn ask_to_write<R: Files>(files: &R, path: &str) -> io::Result<()> {
    match OpenOptions::new().write(true).open(files, path) {
        Err(error) if error.kind() != ErrorKind::NotFound => Err(error),
        _ => Ok(()),
    }
}

/// Removes what a call that was cut off has left.
fn remove_leftover<R: Files>(files: &R, new: &str) -> io::Result<()> {
    match files.remove_file(new) {
        Err(error) if error.kind() != ErrorKind::NotFound => Err(error),
        _ => Ok(()),
    }
}

/// Makes a file that was not there.
fn create_new<R: Files>(files: &R, path: &str) -> io::Result<R::File> {
    OpenOptions::new()
        .write(true)
        .create_new(true)
        .open(files, path)
}

/// Writes all bytes to a new file, and has the system keep them.
fn fill<F: Write + OpenFile>(
    file: &mut F,
    permissions: Option<Permissions>,
    bytes: &[u8],
) -> io::Result<FileId> {
    file.write_all(bytes)?;
    if let Some(permissions) = permissions {
        file.set_permissions(permissions)?;
    }
    file.sync_all()?;
    Ok(id_of(&file.metadata()?))
}

/// Gives a new file the name of the old one, and has the system keep that too.
fn take_name<R: Files>(files: &R, new: &str, path: Path<'_>) -> io::Result<()> {
    match files.rename(new, path.as_str()) {
        Ok(()) => match sync_folder(files, folder_of(path)) {
            Ok(()) => Ok(()),
            Err(_) => Err(io::Error::from(ErrorKind::Other)),
        },
        Err(error) => {
            let _ = files.remove_file(new);
            Err(error)
        }
    }
}

/// Has the system keep the names of a folder. A folder that may not be read can't be synced.
fn sync_folder<R: Files>(files: &R, folder: Path<'_>) -> io::Result<()> {
    match fs::open(files, folder.as_str()) {
        Ok(folder) => folder.sync_all(),
        Err(error) if error.kind() == ErrorKind::PermissionDenied => Ok(()),
        Err(error) => Err(error),
    }
}

/// Opens what has a name, or makes a file, and writes all bytes. Want of memory behind the opening is an error of another
/// kind, since some bytes may have been written.
pub(crate) fn write_straight<R: Files>(files: &R, name: &str, bytes: &[u8]) -> io::Result<()> {
    match fs::create(files, name)?.write_all(bytes) {
        Err(error) if error.kind() == ErrorKind::OutOfMemory => {
            Err(io::Error::from(ErrorKind::Other))
        }
        written => written,
    }
}
