//! Whose a crontab is: one that another user owns, or that others may write, would let them run commands as its caller.
ghost use Rattle.std.specs.Prelude.{◌≡◌, is_some, map, string_bytes};
ghost use Rattle.launcher.specs.Crontabs.{IsCrontabJudged, is_unsafe};

use caller_rules::{CallingUser, last_value};
use system_calls::{FileStatus, System};

// The permissions by which others than the owner write.
const WRITTEN_BY_OTHERS: u32 = 0o022;

/// The crontab that the words of atcron name by `-f`, where it is neither root's nor the user's, or others may write it.
pub fn unsafe_crontab<'a, S: System>(
    system: &mut S,
    words: &'a [String],
    user: &CallingUser,
) -> Option<&'a str>
    ensures { IsCrontabJudged (map string_bytes words.now) user.now (S.trace system.old) (S.trace system.new)
        (is_some result) }
{
    let path = last_value(words, "-f", "-f")?;
    match system.status(path) {
        Some(found) if is_unsafe(&found, user) => Some(path),
        _ => None,
    }
}

// Whether another user than root and this one owns the file, or others may write it.
fn is_unsafe(found: &FileStatus, user: &CallingUser) -> bool
    ensures { result ≡ is_unsafe user.now.number found.now }
{
    let is_owned = match user.number {
        Some(number) => found.owner == 0 || found.owner == number,
        None => true,
    };
    !is_owned || found.mode & WRITTEN_BY_OTHERS != 0
}
