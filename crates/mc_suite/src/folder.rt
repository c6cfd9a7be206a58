//! The folder that evidence is written to.

use std::alloc::Global;
use std::fs::File;
use std::io::{Eprint, ErrorKind, Write};
use std::rt::Files;
use std::{fs, io};

// The most new names that are tried for a file.
const MOST_NAMES: u32 = 1_000;

/// What keeps files under names, if there is such a place.
pub(crate) trait Folder: Drop {
    /// The folder's path, if files are kept.
    fn path(&self) -> Option<&str>;

    /// Keeps a file, whole, in place of an earlier one, under this name and extension. Answers whether it is kept, or needn't be.
    fn put(&mut self, name: &str, extension: &str, bytes: &[u8]) -> bool;
}

/// A folder of the system, which is made if it isn't there. Standard error says why the first file that isn't kept can't be.
#[derive(Drop)]
pub(crate) struct DiskFolder<'a, R> {
    rt: &'a R,
    alloc: Global,
    path: Option<&'a str>,
    has_failed: bool,
}

impl<'a, R> DiskFolder<'a, R> {
    /// The folder of this path, or none.
    pub(crate) fn new(rt: &'a R, alloc: Global, path: Option<&'a str>) -> Self {
        DiskFolder {
            rt,
            alloc,
            path,
            has_failed: false,
        }
    }
}

impl<R: Files + Eprint> Folder for DiskFolder<'_, R> {
    fn path(&self) -> Option<&str> {
        self.path
    }

    fn put(&mut self, name: &str, extension: &str, bytes: &[u8]) -> bool {
        let Some(path) = self.path else {
            return true;
        };
        let Err(error) = replace(self.rt, self.alloc, path, name, extension, bytes) else {
            return true;
        };
        if !self.has_failed {
            self.has_failed = true;
            // There is nowhere else to say that this could not be said.
            let _ = eprintln!(self.rt; "mcrace: {path}/{name}{extension}: {error}");
        }
        false
    }
}

// Writes the file beside the one that it replaces. A link of its name is replaced too, and not followed.
fn replace<R: Files>(
    rt: &R,
    alloc: Global,
    path: &str,
    name: &str,
    extension: &str,
    bytes: &[u8],
) -> io::Result<()> {
    fs::create_dir_all(rt, path)?;
    let place = format!(in alloc; "{path}/{name}{extension}")?;
    let beside = write_beside(rt, alloc, place.as_str(), bytes)?;
    let renamed = fs::rename(rt, beside.as_str(), place.as_str());
    if renamed.is_err() {
        // The error of the renaming is the one to be told.
        let _ = fs::remove_file(rt, beside.as_str());
    }
    renamed
}

// Writes a file that wasn't there, and answers its name.
fn write_beside<R: Files>(rt: &R, alloc: Global, place: &str, bytes: &[u8]) -> io::Result<String> {
    'names: for number in 0..MOST_NAMES {
        let beside = format!(in alloc; "{place}.new-{number}")?;
        match write_new(rt, beside.as_str(), bytes) {
            Err(error) if error.kind() == ErrorKind::AlreadyExists => {}
            Err(error) => return Err(error),
            Ok(()) => return Ok(beside),
        }
    }
    Err(io::Error::from(ErrorKind::AlreadyExists))
}

// Writes a file that wasn't there.
fn write_new<R: Files>(rt: &R, place: &str, bytes: &[u8]) -> io::Result<()> {
    let written = File::create_new(rt, place)?.write_all(bytes);
    if written.is_err() {
        // The error of the writing is the one to be told.
        let _ = fs::remove_file(rt, place);
    }
    written
}
