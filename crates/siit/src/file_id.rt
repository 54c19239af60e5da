//! Which file of the system a name leads to.
ghost use Rattle.std.specs.Prelude.{◌↔◌, IsSome};
ghost use Rattle.std.specs.Fs.{file_type, IsFile};

use std::fs::Metadata;
use std::os::unix::fs::MetadataExt;
use std::{fs, rt};

/// What is printed would overwrite what is appended to the same file.
const STANDARD_OUTPUT: &str = "/dev/stdout";

/// A regular file, which has the same inode on the same device under all its names.
#[derive(Clone, Copy, PartialEq, Eq)]
pub(crate) struct FileId {
    device: u64,
    inode: u64,
}

/// Which regular file this is. A device or a pipe is none.
pub(crate) fn file_id(metadata: &Metadata) -> Option<FileId>
    ensures { IsSome result ↔ IsFile (file_type metadata.now) }
{
    if !metadata.is_file() {
        return None;
    }
    Some(FileId {
        device: metadata.dev(),
        inode: metadata.ino(),
    })
}

/// What leads to this file too: standard output, or the first of the other names, by a link or another spelling.
pub(crate) fn other_name<'a, R: rt::Files>(
    rt: &R,
    id: FileId,
    name: &str,
    names: &'a [String],
) -> Option<&'a str> {
    if leads_to(rt, STANDARD_OUTPUT, id) {
        return Some("standard output");
    }
    names
        .iter()
        .map(|other| other.as_str())
        .find(|other| *other != name && leads_to(rt, other, id))
}

// Where the system doesn't tell what a name leads to, opening it fails too.
fn leads_to<R: rt::Files>(rt: &R, name: &str, id: FileId) -> bool {
    match fs::metadata(rt, name) {
        Ok(metadata) => file_id(&metadata) == Some(id),
        Err(_) => false,
    }
}
