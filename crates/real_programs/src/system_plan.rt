//! Over which directories a program runs.
use host_calls::Text;
use unix_host::Waits;

/// The path of the spool, that of the directory into which a salvage writes, if there is one, and how a session waits for a
/// lock.
#[derive(Drop)]
pub struct SystemPlan {
    pub spool: Text,
    pub target: Option<Text>,
    pub waits: Waits,
}
