//! How lines are written.

/// How the line of a job is written.
#[derive(Clone, Copy, Debug, PartialEq, Eq)]
pub enum Form {
    /// Fields with tabs between them.
    Text,
    /// A JSON object.
    Json,
}
