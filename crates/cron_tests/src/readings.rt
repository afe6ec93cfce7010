//! What a test reads.
use cron_text::{CronFault, Entries, MAX_CRONTAB, read_crontab};
use std::alloc::Global;
use std::process::Abort;

/// The entries of a text of a crontab's length.
pub(crate) fn read(rt: &impl Abort, alloc: Global, text: &[u8]) -> Result<Entries, CronFault> {
    assert!(rt; text.len() <= MAX_CRONTAB);
    read_crontab(alloc, text)
}
