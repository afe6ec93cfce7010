//! The lines of a listing.
ghost use Rattle.std.specs.Prelude.{All, IfOk, OnOk};
ghost use Rattle.civil_minute.specs.Zone.{IsReadable};
ghost use Rattle.host_calls.specs.ClockRange.{IsClockMinute};
ghost use Rattle.listing_text.specs.Listing.{ShowsRow};
ghost use Rattle.job_listing.specs.LinePut.{IsLinePut};
ghost use Rattle.job_listing.specs.inside.Lines.{ShowsRows};

use civil_minute::{Zone, civil_of};
use listing_text::{date_text, put_queue_line};
use spool_model::Row;
use std::alloc::{AllocError, Global};

// About as many bytes as a line has.
const LINE: usize = 48;

// The lines of the rows, dated in the zone.
pub(crate) fn lines(alloc: Global, rows: &[Row], zone: &Zone) -> Result<Vec<u8>, AllocError>
    requires zone { IsReadable zone.now }
    requires minutes { All (λ row. IsClockMinute row.minute) rows.now }
    ensures { IfOk result (λ text. ShowsRows zone.now rows.now text.items) }
{
    let mut text = Vec::with_capacity(alloc, rows.len().saturating_mul(LINE))?;
    for row in rows {
        put_row_line(alloc, &mut text, row, zone)?;
    }
    Ok(text)
}

// Puts the line of one more row after the text.
fn put_row_line(alloc: Global, text: &mut Vec<u8>, row: &Row, zone: &Zone) -> Result<(), AllocError>
    requires zone { IsReadable zone.now }
    requires minute { IsClockMinute row.now.minute }
    ensures { OnOk result (IsLinePut (ShowsRow zone.now row.now) text.old.items text.new.items) }
{
    let civil = civil_of(alloc, row.minute, zone)?;
    put_queue_line(text, row, &date_text(&civil))
}
