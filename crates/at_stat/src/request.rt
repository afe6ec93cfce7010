//! What the words request.
use crate::Form;
use at_words::Filter;

/// What the words request.
#[derive(Drop)]
pub(crate) struct StatRequest {
    /// The greatest number of sessions, where the ends of jobs are waited for.
    pub(crate) wait: Option<u64>,
    pub(crate) form: Form,
    pub(crate) which: Filter,
}
