//! What the program is asked to do.
use host_calls::Text;

/// The mail program, and the number of sessions.
#[derive(Drop)]
pub(crate) struct PostRequest {
    pub(crate) program: Text,
    pub(crate) turns: u64,
}
