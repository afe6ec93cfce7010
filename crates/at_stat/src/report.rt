//! The lines of numbers, one after another.
ghost use Rattle.std.specs.Prelude.{IfOk, OnOk};
ghost use Rattle.civil_minute.specs.Zone.{IsReadable};
ghost use Rattle.at_stat.specs.Reports.{IsReport};
ghost use Rattle.at_stat.specs.inside.StageLines.{IsNumberPut};

use crate::Form;
use crate::job_line::put_state_line;
use crate::stage::stage_of;
use civil_minute::Zone;
use host_calls::Bytes;
use spool_store::Store;
use std::alloc::{AllocError, Global};

// About as many bytes as a line has.
const LINE: usize = 48;

/// The lines of the jobs of these numbers, in order, dated in the zone.
pub fn report_of(
    alloc: Global,
    store: &Store,
    numbers: &[u32],
    form: Form,
    zone: &Zone,
) -> Result<Bytes, AllocError>
    requires { IsReadable zone.now }
    ensures { IfOk result (IsReport form zone.now store.now.table numbers.now) }
{
    let mut text = Vec::with_capacity(alloc, numbers.len().saturating_mul(LINE))?;
    for number in numbers {
        put_number_line(alloc, &mut text, store, *number, form, zone)?;
    }
    Ok(Bytes::from(text))
}

// Puts the line of one more number after the text.
fn put_number_line(
    alloc: Global,
    text: &mut Vec<u8>,
    store: &Store,
    number: u32,
    form: Form,
    zone: &Zone,
) -> Result<(), AllocError>
    requires { IsReadable zone.now }
    ensures { OnOk result (IsNumberPut form zone.now store.now.table number text.old.items text.new.items) }
{
    put_state_line(alloc, text, number, &stage_of(store, number), form, zone)
}
