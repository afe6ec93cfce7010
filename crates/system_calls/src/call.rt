//! One call, with its answer.

/// What a path names.
#[derive(Clone, Copy, Debug, PartialEq, Eq)]
pub enum FileKind {
    Directory,
    File,
    Link,
    Other,
}

/// The status of a file (stat(2)).
#[derive(Clone, Copy, Debug, PartialEq, Eq)]
pub struct FileStatus {
    /// The user number of its owner.
    pub owner: u32,
    pub kind: FileKind,
    /// Its type and permissions, as in `st_mode`.
    pub mode: u32,
    /// The number of its names.
    pub links: u64,
    pub device: u64,
    pub inode: u64,
}

/// The result of an attempt to lock a file.
#[derive(Clone, Copy, Debug, PartialEq, Eq)]
pub enum LockAttempt {
    /// It is held as long as the system lives.
    Held,
    /// Another process holds it.
    Taken,
    /// There is no such file.
    Absent,
    /// The file can't be opened or locked, as on a file system without locks.
    Unlocked,
}

/// The result of reading a file.
#[derive(Clone, Copy, Debug, PartialEq, Eq)]
pub enum ReadOutcome {
    /// Nothing has the path.
    Absent,
    /// It is no plain file, or can't be read.
    Unreadable,
    /// It is longer than the bound.
    TooLong,
    Whole,
}

/// The result of reading a variable of the environment.
#[derive(Clone, Copy, Debug, PartialEq, Eq)]
pub enum VariableOutcome {
    /// It is not set, or is no text.
    Absent,
    /// The process ran out of memory.
    OutOfMemory,
    Set,
}

/// What was asked, with its answer. Texts and the content of files are beside it.
#[derive(Clone, Copy)]
pub enum Answered {
    /// The status of a file, links followed.
    Status(Option<FileStatus>),
    /// The status of a file, which may be a link.
    LinkStatus(Option<FileStatus>),
    /// To make a directory; whether it was made.
    DirectoryMade(bool),
    /// To make a file where it is absent and to sync it; whether it is synced.
    FilePut(bool),
    /// To make a file that is absent; whether it was made.
    FileCreated(bool),
    /// To sync a directory; whether it was.
    Synced(bool),
    /// To read a file of at most so many bytes.
    Read(u64, ReadOutcome),
    /// To lock a file.
    FileLocked(LockAttempt),
    /// To lock a directory.
    DirectoryLocked(LockAttempt),
    /// To wait for the lock of a file; whether it is held.
    LockAwaited(bool),
    /// To release the lock that was waited for.
    LockReleased,
    /// The absolute path without links; whether there is one.
    CanonicalPath(bool),
    /// The directory of the process; whether it has a name that is a text.
    WorkingDirectory(bool),
    /// A variable of the environment.
    Variable(VariableOutcome),
    /// The entry of a user of this number; whether the system looked it up.
    UserLookedUp(bool),
    /// Whether standard error is a terminal.
    IsTerminal(bool),
    /// To write a line to standard error; whether it was written.
    ErrorWritten(bool),
    /// The seconds since 1970.
    Seconds(Option<u64>),
    /// The number of the process.
    ProcessNumber(u32),
}

/// A call, with its answer.
#[derive(Clone, Copy)]
pub struct CallRecord<'a> {
    pub path: &'a str,
    pub answered: Answered,
    pub bytes: &'a [u8],
}
