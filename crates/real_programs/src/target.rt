//! Where a salvage writes.
use memory_host::MemoryHost;

/// The directory into which a salvage writes what another directory still shows.
#[derive(Drop)]
pub enum SalvageTarget<D> {
    /// A directory that the words name.
    Directory(D),
    /// Memory: a salvage that names no directory is a dry run. The other programs leave it alone.
    Memory(MemoryHost),
}
