//! The sessions that arguments name.

use std::fs::{metadata, read_dir};
use std::io;

// How many folders are looked at, at most.
const FOLDERS: usize = 10_000;

/// A file with a session.
#[derive(Drop)]
pub(crate) struct SessionFile {
    pub(crate) name: String,
    /// Whether a folder was named, and the file found in it.
    pub(crate) is_found: bool,
}

// The files below a folder whose names end in `.rdbg`, in the order of their names. Links to folders are not followed.
fn files_below(rt: &HostRuntime, folder: &str) -> io::Result<Vec<String>> {
    let mut folders = Vec::new(rt.alloc());
    folders.push(String::from_str(rt.alloc(), folder)?)?;
    let mut files = Vec::new(rt.alloc());
    for _ in 0..FOLDERS {
        let Some(folder) = folders.pop() else {
            break;
        };
        for entry in read_dir(rt, folder.as_str())? {
            let entry = entry?;
            let name = String::from_str(rt.alloc(), entry.path().as_str())?;
            if entry.file_type()?.is_dir() {
                folders.push(name)?;
            } else if name.as_str().ends_with(".rdbg") {
                files.push(name)?;
            }
        }
    }
    files.sort_unstable();
    Ok(files)
}

/// The file of this name, or, if it is a folder, the sessions below that.
pub(crate) fn session_files(rt: &HostRuntime, name: &str) -> io::Result<Vec<SessionFile>> {
    let is_found = metadata(rt, name).is_ok_and(|data| data.is_dir());
    let mut files = Vec::new(rt.alloc());
    if !is_found {
        let name = String::from_str(rt.alloc(), name)?;
        files.push(SessionFile { name, is_found })?;
        return Ok(files);
    }
    for name in files_below(rt, name)? {
        files.push(SessionFile { name, is_found })?;
    }
    Ok(files)
}
