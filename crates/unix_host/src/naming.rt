//! How the files of a spool directory are named.

/// How a session names the files of its directory.
#[derive(Clone, Copy, Debug, PartialEq, Eq)]
pub enum Naming {
    /// By whole paths.
    Whole,
    /// As those of the current directory, which is the directory from the first session on.
    Current,
}
