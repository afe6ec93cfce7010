//! Why no job text is made.

/// Why no job text is made.
#[derive(Clone, Copy, Debug, PartialEq, Eq, Drop)]
pub enum ScriptFault {
    BadUser,
    BadDirectory,
    EnvironmentTooLarge,
    TooLong,
    Memory,
}
