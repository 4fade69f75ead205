//! Files: read whole, and replaced at once.

use std::fs::{File, OpenFile, OpenOptions, Permissions};
use std::io::{ErrorKind, Read, Write};
use std::os::unix::fs::OpenOptionsExt;
use std::{fs, io};

/// How many names are tried for a new file.
const MOST_NAMES: u32 = 1000;

/// All bytes of the file of this name, or of the standard input where it is `-`.
pub fn read(rt: &HostRuntime, name: &str) -> io::Result<Vec<u8>> {
    if name == "-" {
        let mut bytes = Vec::new(rt.alloc());
        rt.stdin().read_to_end(&mut bytes)?;
        Ok(bytes)
    } else {
        fs::read(rt, name)
    }
}

/// Has the file of this name hold the text. The text is written to a new file beside it, which has its permissions and then takes its place
/// at once: whatever fails, the old file or the new one stands there, whole. A link stays, and what it leads to is replaced.
///
/// # Errors
///
/// It is no regular file, or one of the system's calls fails. The new file is removed then.
pub fn replace(rt: &HostRuntime, name: &str, text: &[u8]) -> io::Result<()> {
    let path = fs::canonicalize(rt, name)?;
    let metadata = fs::metadata(rt, path.as_str())?;
    if !metadata.is_file() {
        return Err(io::Error::new(ErrorKind::InvalidInput, "not a regular file"));
    }
    let (file, new) = create_beside(rt, path.as_str())?;
    let moved = fill_and_move(
        rt,
        file,
        new.as_str(),
        path.as_str(),
        metadata.permissions(),
        text,
    );
    if moved.is_err() {
        // The first failure tells more than this one.
        let _ = fs::remove_file(rt, new.as_str());
    }
    moved
}

/// Creates a file beside the one of this path, which only its owner may read, and returns it with its path.
fn create_beside(rt: &HostRuntime, path: &str) -> io::Result<(File, String)> {
    for number in 0..MOST_NAMES {
        let name = format!(in rt.alloc(); "{path}.{number}.new")?;
        match OpenOptions::new()
            .write(true)
            .create_new(true)
            .mode(0o600)
            .open(rt, name.as_str())
        {
            Ok(file) => return Ok((file, name)),
            Err(error) if error.kind() == ErrorKind::AlreadyExists => {}
            Err(error) => return Err(error),
        }
    }
    Err(io::Error::from(ErrorKind::AlreadyExists))
}

/// Writes the text to the new file, and moves it to the path, with these permissions.
fn fill_and_move(
    rt: &HostRuntime,
    mut file: File,
    new: &str,
    path: &str,
    permissions: Permissions,
    text: &[u8],
) -> io::Result<()> {
    file.write_all(text)?;
    file.set_permissions(permissions)?;
    file.sync_all()?;
    fs::rename(rt, new, path)
}
