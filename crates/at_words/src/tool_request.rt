//! What words request.
use crate::{Filter, Numbers, When};
use host_calls::Text;

/// What the words of a tool request.
#[derive(Drop)]
pub enum ToolRequest {
    Submit {
        queue: u8,
        mail: bool,
        file: Option<Text>,
        when: When,
    },
    List(Filter),
    Remove(Numbers),
    Show(Numbers),
    Daemon {
        /// The load in hundredths below which batch jobs may start.
        limit: u32,
        /// The seconds between the starts of two batch jobs.
        interval: u32,
        once: bool,
        turns: u64,
    },
    /// A day of so many events.
    Make(u32),
}
