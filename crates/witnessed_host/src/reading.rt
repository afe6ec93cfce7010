//! An answer of the clock or of the load, or a rest.

/// A second of the clock, a load in hundredths if it could be read, or a rest of so many seconds.
#[derive(Clone, Copy)]
pub enum Reading {
    Now(i64),
    Load(Option<u32>),
    Rest(u32),
}
