//! What a turn reports.
use crate::{TurnEnd, TurnSteps};

/// How a turn ended, and the steps that it made.
#[derive(Drop)]
pub struct TurnReport {
    pub end: TurnEnd,
    pub steps: TurnSteps,
}
