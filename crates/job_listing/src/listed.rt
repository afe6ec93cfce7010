//! The listing of the live jobs that a user may see.
ghost use Rattle.std.specs.Prelude.{IfOk};
ghost use Rattle.civil_minute.specs.Zone.{IsReadable};
ghost use Rattle.command_rules.specs.Requested.{passes_of};
ghost use Rattle.listing_text.specs.Listing.{IsListing};

use crate::lines::lines;
use crate::rows::{seen_rows, sort_rows};
use at_words::Filter;
use civil_minute::Zone;
use host_calls::Bytes;
use spool_model::UserName;
use spool_store::Store;
use std::alloc::{AllocError, Global};

/// The lines of the live jobs that the user may see and the filter lets pass, by minute, then number, dated in the zone.
pub fn job_listing_text(
    alloc: Global,
    store: &Store,
    user: &UserName,
    which: &Filter,
    zone: &Zone,
) -> Result<Bytes, AllocError>
    requires { IsReadable zone.now }
    ensures { IfOk result (IsListing zone.now store.now.table user.now (passes_of which.now)) }
{
    let mut rows = seen_rows(alloc, store.rows(), user, which)?;
    sort_rows(&mut rows);
    let text = lines(alloc, &rows, zone)?;
    Ok(Bytes::from(text))
}
