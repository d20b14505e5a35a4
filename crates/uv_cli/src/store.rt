//! Files by their names, each of which can be read and then replaced.
ghost use Rattle.std.specs.Prelude.{ℕ, List, Option, IfErr, IfOk, OnOk, string_bytes};
ghost use Rattle.uv_cli.specs.declared.store.Left.{Left};

use std::alloc::{AllocError, Global};
use std::fs;
use std::fs::{Files, OpenFile, OpenOptions};
use std::io::{self, ErrorKind, Read, Write};
use std::os::unix::fs::OpenOptionsExt;
use uv_arguments::arguments::said_of;
use uv_messages::messages::{Message, say};
use uv_messages::unread::left_behind;

// How many names are tried for a new file, of which the last are taken only if runs were interrupted.
const NEW_FILES: usize = 9;

// Only its owner can read a new file until it has the permissions of the old one.
const OWNERS: u32 = 0o600;

/// Why a file stays as it was.
#[derive(Drop)]
pub(crate) enum Left {
    /// Memory ran out.
    Memory,
    /// Its name isn't UTF-8, which is reported.
    Unnamed,
    /// It can't be read, because of an error of this kind, if it is known.
    Unread(Option<ErrorKind>),
    /// It can't be written, or the new file can't, because of an error of this kind, if it is known.
    Unwritten(Option<ErrorKind>),
}

impl From<AllocError> for Left {
    fn from(_error: AllocError) -> Left {
        Left::Memory
    }
}

/// The paths of a file, and of the new one that may take its place.
#[derive(Drop)]
pub(crate) struct Place {
    path: String,
    new: String,
}

/// A file that is open, and the new one that may take its place.
#[derive(Drop)]
pub(crate) struct Opened<F> {
    /// The paths of both.
    pub(crate) place: Place,
    /// The file, whose bytes are to be read.
    pub(crate) old: F,
    /// The new file, to which bytes are to be written.
    pub(crate) made: F,
}

/// Files by their names, each of which can be read and then replaced.
pub(crate) trait Store {
    /// A file that is open.
    type File: Read + Write + Drop;

    // The file with this name, at this path, may give the first bytes, and the new one next to it hold the second.
    ghost opens: { Self → List ℕ → List ℕ → Option (List ℕ) → Option (List ℕ) → Type 0 };

    // The file at this path may have come to hold these bytes.
    ghost replaces: { Self → List ℕ → Option (List ℕ) → Type 0 };

    // The file with this name, or at this path, may stay as it was for this reason.
    ghost leaves: { Self → List ℕ → Left → Type 0 };

    /// Opens a file by its name, and makes a new one next to it, which has its permissions.
    fn open(&self, file: &str) -> Result<Opened<Self::File>, Left>
        ensures opened { IfOk result (λ opened. opens self.now file.now (string_bytes opened.place.path)
            (Self.File.remaining opened.old) (Self.File.contents opened.made)) }
        ensures left { IfErr result (leaves self.now file.now) };

    /// Puts the new file, which was written, into the place of the old one.
    fn replace(&self, place: &Place, written: Self::File) -> Result<(), Left>
        ensures replaced { OnOk result (replaces self.now (string_bytes place.now.path)
            (Self.File.contents written)) }
        ensures left { IfErr result (leaves self.now (string_bytes place.now.path)) };

    /// Removes the new file.
    fn remove_new(&self, place: &Place);
}

/// The files of the system, as the runtime opens them.
#[derive(Drop)]
pub(crate) struct OwnFiles<'a, R> {
    rt: &'a R,
}

impl<'a, R: Files + Eprint + AllocGlobal> OwnFiles<'a, R> {
    /// The files that this runtime opens.
    pub(crate) fn new(rt: &'a R) -> OwnFiles<'a, R> {
        OwnFiles { rt }
    }
}

impl<R: Files + Eprint + AllocGlobal> Store for OwnFiles<'_, R> {
    type File = R::File;

    // The library doesn't say what the system's files hold.
    ghost opens = { λ own file path old made. Unit {0} };

    ghost replaces = { λ own path written. Unit {0} };

    ghost leaves = { λ own file left. Unit {0} };

    fn open(&self, file: &str) -> Result<Opened<R::File>, Left> {
        let rt = self.rt;
        if let Some(said) = said_of(file) {
            say(rt, Message::of(rt.alloc(), said));
            return Err(Left::Unnamed);
        }
        let path = match rt.canonicalize(rt.alloc(), file) {
            Ok(path) => path,
            Err(error) => return Err(left_unfound(error.kind())),
        };
        opened_with_new(rt, String::from_str(rt.alloc(), path.as_str())?)
    }

    fn replace(&self, place: &Place, written: R::File) -> Result<(), Left> {
        match renamed(self.rt, place, written) {
            Ok(()) => Ok(()),
            Err(error) => Err(Left::Unwritten(Some(error.kind()))),
        }
    }

    fn remove_new(&self, place: &Place) {
        let _ = fs::remove_file(self.rt, place.new.as_str());
    }
}

// Opens the file at a path, and makes a new one next to it. The new file has the old one's permissions before its first
// byte.
fn opened_with_new<R: Files + Eprint + AllocGlobal>(
    rt: &R,
    path: String,
) -> Result<Opened<R::File>, Left> {
    let old = match old_file(rt, path.as_str()) {
        Ok(old) => old,
        Err(left) => return Err(left),
    };
    let (new, made) = match new_file(rt, path.as_str()) {
        Ok(new) => new,
        Err(left) => return Err(left),
    };
    if let Err(error) = permit_as(&old, &made) {
        let _ = fs::remove_file(rt, new.as_str());
        return Err(Left::Unwritten(Some(error.kind())));
    }
    let place = Place { path, new };
    Ok(Opened { place, old, made })
}

// Makes a new file next to a file, under the first of its names that is free. What has such a name already is another
// run's, or was left by one that was interrupted: it is named, and neither written nor followed.
fn new_file<R: Files + Eprint + AllocGlobal>(
    rt: &R,
    path: &str,
) -> Result<(String, R::File), Left> {
    for number in 1..=NEW_FILES {
        let name = new_name(rt.alloc(), path, number)?;
        let made = OpenOptions::new()
            .write(true)
            .create_new(true)
            .mode(OWNERS)
            .open(rt, name.as_str());
        match made {
            Ok(made) => return Ok((name, made)),
            Err(error) if error.kind() == ErrorKind::AlreadyExists => {
                say(rt, left_behind(rt.alloc(), name.as_str()));
            }
            Err(error) => return Err(Left::Unwritten(Some(error.kind()))),
        }
    }
    Err(Left::Unwritten(Some(ErrorKind::AlreadyExists)))
}

// One of the names of a new file.
fn new_name(alloc: Global, path: &str, number: usize) -> Result<String, AllocError> {
    if number == 1 {
        format!(in alloc; "{path}.urlcheck-new")
    } else {
        format!(in alloc; "{path}.urlcheck-new-{number}")
    }
}

// Why a file stays as it was whose own path isn't found: either there is none, or the system's program can't replace a
// file.
fn left_unfound(kind: ErrorKind) -> Left {
    match kind {
        ErrorKind::OutOfMemory => Left::Memory,
        ErrorKind::Unsupported => Left::Unwritten(Some(kind)),
        kind => Left::Unread(Some(kind)),
    }
}

// Opens a file that can be read and written, and is neither a folder nor a device.
fn old_file<R: Files>(rt: &R, path: &str) -> Result<R::File, Left> {
    match fs::metadata(rt, path) {
        Ok(data) if data.is_file() => {}
        Ok(data) if data.is_dir() => return Err(Left::Unread(Some(ErrorKind::IsADirectory))),
        Ok(_) => return Err(Left::Unwritten(Some(ErrorKind::NotSeekable))),
        Err(error) => return Err(Left::Unread(Some(error.kind()))),
    }
    if let Err(error) = fs::open(rt, path) {
        return Err(Left::Unread(Some(error.kind())));
    }
    match OpenOptions::new().read(true).write(true).open(rt, path) {
        Ok(file) => Ok(file),
        Err(error) => Err(Left::Unwritten(Some(error.kind()))),
    }
}

// Gives a new file the permissions of the old one.
fn permit_as<F: OpenFile>(old: &F, made: &F) -> io::Result<()> {
    made.set_permissions(old.metadata()?.permissions())
}

// Gives a new file, once it is on its disk, the name of the old one.
fn renamed<R: Files>(rt: &R, place: &Place, written: R::File) -> io::Result<()> {
    let mut written = written;
    written.flush()?;
    written.sync_all()?;
    fs::rename(rt, place.new.as_str(), place.path.as_str())
}
