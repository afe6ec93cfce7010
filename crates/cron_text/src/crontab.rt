//! A whole crontab.
ghost use Rattle.std.specs.Prelude.{◌≡◌, ◌≤◌, MatchResult, IfOk, length, Some, None, if◌then◌else◌};
ghost use Rattle.cron_text.specs.declared.crontab.CronFault.TheVariants as cron;
ghost use Rattle.cron_text.specs.Entry.{is_ignored};
ghost use Rattle.cron_text.specs.Crontab.{IsCause, SpellsCrontab};
ghost use Rattle.cron_text.specs.inside.Reader as Reader;

use crate::CronEntry;
use crate::entry::read_entry;
use std::alloc::{AllocError, Global};
use std::marker::Model;
use text_reader::after_blanks;

/// The greatest length of a crontab.
pub const MAX_CRONTAB: usize = 65_536;

/// The entries of a crontab, in the order of their lines. A contract sees them as a list.
#[derive(Drop)]
pub struct Entries {
    entries: Vec<CronEntry>,
}

impl Model for Entries {
    ghost use Rattle.std.specs.Prelude.{List};
    ghost use Rattle.cron_text.specs.declared.entry.CronEntry.{CronEntry};

    ghost Value = { List CronEntry };

    ghost view = { λ read. read.entries.items };
}

impl Entries {
    /// All entries, borrowed.
    pub fn as_slice(&self) -> &[CronEntry]
        ensures { result.now ≡ self.now }
    {
        &self.entries
    }
}

/// Why a text has no entries: its first line that is neither ignored nor an entry, counted from 1,
/// or an out-of-memory error.
#[derive(Clone, Copy, Debug, PartialEq, Eq)]
pub enum CronFault {
    Bad { line: u32 },
    Memory,
}

impl From<AllocError> for CronFault {
    ghost from_gives = { λ _ fault. fault ≡ cron.Memory };

    fn from(_error: AllocError) -> Self {
        CronFault::Memory
    }
}

/// The entries that the text spells.
pub fn read_crontab(alloc: Global, text: &[u8]) -> Result<Entries, CronFault>
    requires { length text.now ≤ MAX_CRONTAB }
    ensures { MatchResult result (SpellsCrontab text.now) (IsCause text.now) }
{
    let mut entries = Vec::new(alloc);
    let mut number = 0;
    for line in text.split(|byte| *byte == b'\n') {
        number += 1;
        if !take_line(alloc, &mut entries, line)? {
            return Err(CronFault::Bad { line: number });
        }
    }
    Ok(Entries { entries })
}

// Puts the entry of a line after the others. The answer is false for a bad line.
#[tactic(auto, unfolding(crate::specs::inside::Reader::with_line))]
fn take_line(alloc: Global, entries: &mut Vec<CronEntry>, line: &[u8]) -> Result<bool, AllocError>
    ensures { IfOk result (λ good. Reader.with_line entries.old.items line.now
        ≡ (if good then Some entries.new.items else None)) }
{
    if is_ignored(line) {
        return Ok(true);
    }
    let Some(entry) = read_entry(alloc, line)? else {
        return Ok(false);
    };
    entries.push(entry)?;
    Ok(true)
}

fn is_ignored(line: &[u8]) -> bool
    ensures { result ≡ is_ignored line.now }
{
    matches!(after_blanks(line), [] | [b'#', ..])
}
