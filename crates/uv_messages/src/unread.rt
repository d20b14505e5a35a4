//! Files that can't be read, and an output that can't be written: why, and what standard error says about them.

use crate::messages::Message;
use std::alloc::{AllocError, Global};
use std::io::ErrorKind;

/// The message about a file that wasn't read, by the kind of the library's error, if it is known.
pub fn unread(alloc: Global, file: &str, why: Option<ErrorKind>) -> Result<Message, AllocError> {
    let name = name_of(file);
    let reason = reason_of(why);
    Message::of(
        alloc,
        format!(in alloc; "{name}: can't be read{reason}")?.as_str(),
    )
}

/// A file's name in a sentence: in quotes if it is empty.
pub fn name_of(file: &str) -> &str {
    if file.is_empty() { "''" } else { file }
}

// The words for the reason.
fn reason_of(why: Option<ErrorKind>) -> &'static str {
    match why {
        Some(ErrorKind::NotFound) => ": there is no such file",
        Some(ErrorKind::IsADirectory) => ": it is a folder",
        Some(ErrorKind::NotADirectory) => ": a part of its path is no folder",
        Some(ErrorKind::PermissionDenied) => ": permission denied",
        Some(ErrorKind::FilesystemLoop) => ": its symbolic links lead in a circle",
        Some(ErrorKind::InvalidFilename) => ": its name is too long",
        Some(ErrorKind::ResourceBusy) => ": it is in use",
        Some(ErrorKind::TimedOut) => ": the system took too long",
        Some(ErrorKind::StaleNetworkFileHandle) => ": it is no longer on its server",
        _ => "",
    }
}

/// The message about a file that stays as it was because it can't be written, by the kind of the error, if it is
/// known.
pub fn unmended(alloc: Global, file: &str, why: Option<ErrorKind>) -> Result<Message, AllocError> {
    let name = name_of(file);
    let reason = match why {
        Some(ErrorKind::PermissionDenied) => ": permission denied",
        Some(ErrorKind::ReadOnlyFilesystem) => ": its file system is read-only",
        Some(ErrorKind::Unsupported) => ": only the program for Linux writes files",
        Some(ErrorKind::AlreadyExists) => ": interrupted runs left too many new files",
        Some(ErrorKind::NotSeekable) => ": it is no ordinary file",
        Some(ErrorKind::InvalidFilename) => ": its name is too long",
        why => reason_of_output(why),
    };
    Message::of(
        alloc,
        format!(in alloc; "{name}: can't be written{reason}; it stays as it was")?.as_str(),
    )
}

/// The message about a new file that has no other's name yet, though this run didn't make it.
pub fn left_behind(alloc: Global, file: &str) -> Result<Message, AllocError> {
    Message::of(
        alloc,
        format!(in alloc;
            "{file}: left by an interrupted run; remove it if no other run is going on"
        )?.as_str(),
    )
}

/// The message about an output that can't be written, by the kind of the error, if it is known.
pub fn unwritten(alloc: Global, why: Option<ErrorKind>) -> Result<Message, AllocError> {
    Message::of(alloc, unwritten_line(alloc, why)?.as_str())
}

/// The line on an output that can't be written.
pub fn unwritten_line(alloc: Global, why: Option<ErrorKind>) -> Result<String, AllocError> {
    let reason = reason_of_output(why);
    format!(in alloc; "standard output: can't be written{reason}")
}

// The words for the reason of a failed write.
fn reason_of_output(why: Option<ErrorKind>) -> &'static str {
    match why {
        Some(ErrorKind::StorageFull) => ": no space is left",
        Some(ErrorKind::QuotaExceeded) => ": the quota is used up",
        Some(ErrorKind::FileTooLarge) => ": the file may not get larger",
        _ => "",
    }
}
