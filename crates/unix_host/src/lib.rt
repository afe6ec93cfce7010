//! The real outside: a directory on a disk, its lock, clock, load, streams, child processes. Faults, counts, the
//! session and the dirty state are proved; content is trusted.
//!
//! Nothing here tells content, so what a file or a stream holds is trusted, and not proved.
#![tactic(auto)]

mod absent;
mod changes;
mod children;
mod err;
mod file_calls;
mod file_syncs;
mod files;
mod files_left;
mod finish;
mod found;
mod host;
mod inputs;
mod job;
mod listed_files;
mod listing;
mod lock;
mod lock_files;
mod locked;
mod locked_listing;
mod make;
mod naming;
mod out;
mod paths;
mod prefix;
mod read_file;
mod readings;
mod synced;
mod torn;
mod unmodelled;
mod unsynced;
mod waits;
mod watch;
mod watched_file;

pub use err::UnixErr;
pub use host::UnixHost;
pub use inputs::UnixInputs;
pub use out::UnixOut;
pub use readings::UnixReadings;
pub use waits::Waits;
