//! A call that changed the directory, or what was started.
use host_calls::{Bytes, Name};

/// A call of the past. Bodies are numbered from 0 in the order in which they were made.
#[derive(Drop)]
pub enum PastCall {
    Made(Name, Bytes),
    Written(usize, usize, Bytes),
    Synced(usize),
    NamesSynced,
    Settled,
    Renamed(Name, Name),
    Removed(Name),
    HandedOver(u32, usize, u8, bool),
    Rebooted(u64),
}
