//! What a session of mail reports.
use at_words::Numbers;
use daemon_turn::TurnEnd;

/// How a session ended, and the numbers of the notices that were sent, in order.
#[derive(Drop)]
pub struct PostReport {
    pub end: TurnEnd,
    pub sent: Numbers,
}
