//! The crontab, read from its file.
ghost use Rattle.std.specs.Prelude.{◌≡◌, ◌≤◌, All, IfOk, length};
ghost use Rattle.tool_output.specs.Outside.{input_at};
ghost use Rattle.cron_text.specs.declared.crontab.TheConstants.{MAX_CRONTAB};
ghost use Rattle.cron_turn.specs.CrontabFile.{IsOfText, ReadsEntries};

use cron_text::{CronFault, Entries, MAX_CRONTAB, crontabs_have_one_reading, read_crontab};
use host_calls::Inputs;
use listing_text::{Cause, Refusal};
use std::alloc::Global;
use tool_output::CommandError;

/// The entries of the file. One more byte is requested than a crontab may have, so that a longer one is known.
pub fn read_entries<I: Inputs>(
    alloc: Global,
    path: &str,
    inputs: &mut I,
) -> Result<Entries, CommandError>
    ensures reads { ReadsEntries I.tells path.now
        (input_at I.Inputs inputs.old) (input_at I.Inputs inputs.new) result }
    ensures few { IfOk result (All (λ entry. length entry.command ≤ MAX_CRONTAB)) }
{
    let text = inputs.file(alloc, path, MAX_CRONTAB + 1)?;
    crontab_entries(alloc, text.as_slice())
}

// The entries of the text, which may be too long.
fn crontab_entries(alloc: Global, text: &[u8]) -> Result<Entries, CommandError>
    ensures of_text { IsOfText text.now result }
    ensures few { IfOk result (All (λ entry. length entry.command ≤ MAX_CRONTAB)) }
{
    if text.len() > MAX_CRONTAB {
        return Err(CommandError::refused(Refusal::TooLong));
    }
    crontabs_have_one_reading(text);
    match read_crontab(alloc, text) {
        Ok(entries) => Ok(entries),
        Err(CronFault::Bad { line }) => Err(CommandError::refused(Refusal::BadCrontab(line))),
        Err(CronFault::Memory) => Err(CommandError {
            cause: Cause::Memory,
        }),
    }
}
