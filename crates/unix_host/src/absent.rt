//! What a session does where there is no spool directory.

/// What entering does where there is no spool directory.
#[derive(Clone, Copy, Debug, PartialEq, Eq)]
pub enum Absent {
    /// It makes the directory, and that of outputs.
    Makes,
    /// It fails, and makes neither.
    Fails,
}
