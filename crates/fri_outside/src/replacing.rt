// A file that takes the place of another once it is whole.
use crate::WriteError;
use crate::real_files::{open_error, write_piece};
use std::alloc::Global;
use std::fs::{self, OpenFile, OpenOptions, Permissions};
use std::io::{self, ErrorKind, Write};
use std::rt;

/// What follows the name of a file that is not whole yet.
const ENDING: &str = ".friday-new";

/// Where a file is to stand: a path that is no symbolic link, and the permissions of the file that is there.
#[derive(Drop)]
pub(crate) struct Place {
    path: String,
    permissions: Option<Permissions>,
}

/// Where a file of this name is to stand. There is no such place where the name leads to a pipe, a device or nothing, or
/// where it cannot be told where it leads: what is there is then written to as it is.
pub(crate) fn place_of<R: rt::Files>(
    rt: &R,
    alloc: Global,
    name: &str,
) -> Result<Option<Place>, WriteError> {
    let is_link = is_link(rt, name);
    match fs::metadata(rt, name) {
        Ok(found) if found.is_file() => {
            let path = if is_link {
                behind_link(rt, alloc, name)?
            } else {
                Some(String::from_str(alloc, name)?)
            };
            let permissions = Some(found.permissions());
            Ok(path.map(|path| Place { path, permissions }))
        }
        Err(error) if error.kind() == ErrorKind::NotFound && !is_link => Ok(Some(Place {
            path: String::from_str(alloc, name)?,
            permissions: None,
        })),
        _ => Ok(None),
    }
}

fn is_link<R: rt::Files>(rt: &R, name: &str) -> bool {
    match fs::symlink_metadata(rt, name) {
        Ok(found) => found.is_symlink(),
        Err(_) => false,
    }
}

// The path of the file that a symbolic link leads to, if that can be had.
fn behind_link<R: rt::Files>(
    rt: &R,
    alloc: Global,
    name: &str,
) -> Result<Option<String>, WriteError> {
    match rt.canonicalize(alloc, name) {
        Ok(path) => Ok(Some(path.into_string())),
        Err(error) if error.kind() == ErrorKind::OutOfMemory => Err(WriteError::NoMemory),
        Err(_) => Ok(None),
    }
}

/// Makes a file with these bytes beside its place and then moves it there, so that what was there stands until the new one
/// is whole. At a failure it stands, and nothing is left beside it.
pub(crate) fn replace<R: rt::Files>(
    rt: &R,
    alloc: Global,
    place: Place,
    bytes: &[u8],
) -> Result<(), WriteError> {
    let Place { path, permissions } = place;
    let mut beside = String::from_str(alloc, &path)?;
    beside.push_str(ENDING)?;
    if permissions.is_some() {
        // A file that may not be written to is not replaced, though its folder may be.
        let _file = OpenOptions::new()
            .write(true)
            .open(rt, &path)
            .map_err(|error| open_error(&error))?;
    }
    // One may be left of a call that was killed.
    let _ = fs::remove_file(rt, &beside);
    let file = OpenOptions::new()
        .write(true)
        .create_new(true)
        .open(rt, &beside)
        .map_err(|error| open_error(&error))?;
    let moved = move_whole(rt, file, permissions, bytes, &beside, &path);
    if moved.is_err() {
        let _ = fs::remove_file(rt, &beside);
    }
    moved
}

// Fills a new file, and moves it once it is whole.
fn move_whole<R: rt::Files>(
    rt: &R,
    mut file: R::File,
    permissions: Option<Permissions>,
    bytes: &[u8],
    beside: &str,
    path: &str,
) -> Result<(), WriteError> {
    if let Some(permissions) = permissions {
        give(&file, permissions).map_err(|_| WriteError::Failed)?;
    }
    write_piece(&mut file, bytes)?;
    close_whole(file)?;
    fs::rename(rt, beside, path).map_err(|_| WriteError::Failed)
}

// Gives a file these permissions. A file system that has none is not asked to change any.
fn give<F: OpenFile>(file: &F, permissions: Permissions) -> io::Result<()> {
    if file.metadata()?.permissions() == permissions {
        return Ok(());
    }
    file.set_permissions(permissions)
}

// Closes a file that is to have reached the disk.
fn close_whole<F: OpenFile + Drop>(file: F) -> Result<(), WriteError> {
    file.sync_all().map_err(|_| WriteError::Failed)
}
