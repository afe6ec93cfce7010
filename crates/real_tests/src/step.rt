//! What changed a directory or what was started. Clauses alone read it.
use host_calls::Name;
use memory_host::MemoryHost;
use std::snapshot::Snapshot;

/// The directory before a call that changed it; or the directory when a script was started, with its number, its file,
/// how nice, and whether a child came of it.
#[derive(Drop)]
pub enum Step {
    Changed(Snapshot<MemoryHost>),
    HandedOver(Snapshot<MemoryHost>, u32, Name, u8, bool),
}
