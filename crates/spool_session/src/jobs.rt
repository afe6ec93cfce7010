//! Which jobs the user may request.
ghost use Rattle.std.specs.Prelude.{◌≡◌};
ghost use Rattle.spool_model.specs.Lists.{is_running};
ghost use Rattle.listing_text.specs.Listing.{may_see};
ghost use Rattle.command_rules.specs.Verdict.{jobs_check, live_row, row_check};

use listing_text::Refusal;
use spool_model::{Row, State, UserName};
use spool_store::Store;

/// The first refusal of the jobs of these numbers: a job that is not there, that is another's, or that runs where it is
/// to be removed.
pub fn refusal_of_jobs(
    store: &Store,
    user: &UserName,
    removing: bool,
    numbers: &[u32],
) -> Option<Refusal>
    ensures { result ≡ jobs_check user.now removing store.now.table numbers.now }
{
    for number in numbers {
        let refusal = refusal_of_job(store, user, removing, *number);
        if refusal.is_some() {
            return refusal;
        }
    }
    None
}

fn refusal_of_job(store: &Store, user: &UserName, removing: bool, number: u32) -> Option<Refusal>
    ensures { result ≡ row_check user.now removing number (live_row store.now.table number) }
{
    match store.row(number) {
        None => Some(Refusal::NoSuchJob(number)),
        Some(row) => refusal_of_row(row, user, removing, number),
    }
}

/// The refusal of a live job: it is another's, or runs where it is to be removed.
pub fn refusal_of_row(row: &Row, user: &UserName, removing: bool, number: u32) -> Option<Refusal>
    ensures { result ≡ row_check user.now removing number (Some row.now) }
{
    if !is_seen_by(row, user) {
        return Some(Refusal::NotYours(number));
    }
    if removing && is_running_row(row) {
        return Some(Refusal::RunningJob(number));
    }
    None
}

/// Whether the user may see the job.
pub fn is_seen_by(row: &Row, user: &UserName) -> bool
    ensures { result ≡ may_see user.now row.now }
{
    user.as_bytes() == b"root".as_slice() || row.user.as_bytes() == user.as_bytes()
}

fn is_running_row(row: &Row) -> bool
    ensures { result ≡ is_running row.now.state }
{
    matches!(row.state, State::Running(_))
}
