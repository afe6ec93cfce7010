//! A file, as it was read.
ghost use Rattle.std.specs.Prelude.{◌≡◌};
ghost use Rattle.system_calls.specs.Answers.{bytes_of_read, outcome_of_read};

use crate::call::ReadOutcome;
use host_calls::Bytes;

/// A file, as it was read.
#[derive(Drop)]
pub enum FileRead {
    /// Nothing has the path.
    Absent,
    /// It is no plain file, or can't be read.
    Unreadable,
    /// It is longer than the bound.
    TooLong,
    Whole(Bytes),
}

impl FileRead {
    /// The result without the bytes.
    pub fn outcome(&self) -> ReadOutcome
        ensures { result ≡ outcome_of_read self.now }
    {
        match self {
            FileRead::Absent => ReadOutcome::Absent,
            FileRead::Unreadable => ReadOutcome::Unreadable,
            FileRead::TooLong => ReadOutcome::TooLong,
            FileRead::Whole(_) => ReadOutcome::Whole,
        }
    }

    /// The bytes; none unless the file was read whole.
    pub fn bytes(&self) -> &[u8]
        ensures { result.now ≡ bytes_of_read self.now }
    {
        match self {
            FileRead::Whole(bytes) => bytes.as_slice(),
            _ => &[],
        }
    }
}
