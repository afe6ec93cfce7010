//! A live job without its script.
use crate::{State, UserName};

/// How many jobs may live at a time.
pub const MAX_LIVE: usize = 10_000;

/// A live job as it is listed: all but its script.
#[derive(Clone, Copy)]
pub struct Row {
    pub number: u32,
    pub queue: u8,
    pub minute: u32,
    pub user: UserName,
    pub state: State,
}
