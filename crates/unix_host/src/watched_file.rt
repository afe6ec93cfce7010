//! A file whose changes are looked for.
use std::fs;
use std::fs::Files;
use std::os::unix::fs::MetadataExt;

/// What tells a file from the one that replaces it, and from what it was before it was written to.
#[derive(Clone, Copy, PartialEq, Eq)]
struct Version {
    inode: u64,
    second: i64,
    nanosecond: i64,
}

/// A file, and its version when it was looked at last, if it was there.
#[derive(Drop)]
pub struct WatchedFile {
    path: String,
    seen: Option<Version>,
}

impl WatchedFile {
    /// The file at this path, which was not looked at so far.
    pub fn at(path: String) -> WatchedFile {
        WatchedFile { path, seen: None }
    }

    /// Looks at it.
    pub fn look<R: Files>(&mut self, rt: &R) {
        self.seen = version_at(rt, self.path.as_str());
    }

    /// Whether it has changed since it was looked at.
    pub fn has_changed<R: Files>(&self, rt: &R) -> bool {
        version_at(rt, self.path.as_str()) != self.seen
    }
}

fn version_at<R: Files>(rt: &R, path: &str) -> Option<Version> {
    let found = fs::symlink_metadata(rt, path).ok()?;
    Some(Version {
        inode: found.ino(),
        second: found.mtime(),
        nanosecond: found.mtime_nsec(),
    })
}
