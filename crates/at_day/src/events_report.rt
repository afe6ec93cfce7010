//! What an event reports.
use daemon_turn::TurnReport;
use host_calls::Bytes;
use listing_text::Status;

/// What an event reports.
#[derive(Drop)]
pub enum EventReport {
    /// How the command ended, and what it put on standard output and on standard error.
    Command {
        status: Status,
        out: Bytes,
        err: Bytes,
    },
    /// How the turn ended, and the steps that it made.
    Turn(TurnReport),
    /// The machine is up again.
    Rebooted,
}
