//! Changes of names.
use host_calls::Name;

/// A change of names.
#[derive(Clone, Copy)]
pub enum Change {
    /// The name was given to the body of this number.
    Made(Name, usize),
    /// The body of the one name was moved to the other.
    Renamed(Name, Name),
    Removed(Name),
}
