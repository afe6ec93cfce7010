//! The lines of jobs.
ghost use Rattle.std.specs.Prelude.{◌≡◌, ◌++◌, IfOk, OnOk};
ghost use Rattle.listing_text.specs.Lines.{accepted_line_of, letter_of_row, queue_line_of};

use host_calls::Bytes;
use itoa::Buffer;
use spool_model::{Row, State};
use std::alloc::{AllocError, Global};

/// The line of a job that was accepted.
pub fn accepted_line(alloc: Global, number: u32, date: &[u8; 24]) -> Result<Bytes, AllocError>
    ensures { IfOk result (λ line. line ≡ accepted_line_of number date.now) }
{
    let mut line = format!(in alloc; "job {number} at ")?.into_bytes();
    line.extend_from_slice(date)?;
    line.push(b'\n')?;
    Ok(Bytes::from(line))
}

/// The line of a live job in a listing.
pub fn queue_line(alloc: Global, row: &Row, date: &[u8; 24]) -> Result<Bytes, AllocError>
    ensures { IfOk result (λ line. line ≡ queue_line_of row.now date.now) }
{
    let mut line = Vec::new(alloc);
    put_queue_line(&mut line, row, date)?;
    Ok(Bytes::from(line))
}

/// Puts the line of a live job after the text of a listing.
pub fn put_queue_line(text: &mut Vec<u8>, row: &Row, date: &[u8; 24]) -> Result<(), AllocError>
    ensures { OnOk result (text.new.items ≡ text.old.items ++ queue_line_of row.now date.now) }
{
    let mut digits = Buffer::new();
    text.extend_from_slice(digits.format(row.number).as_bytes())?;
    text.push(b'\t')?;
    text.extend_from_slice(date)?;
    text.extend_from_slice(&[b' ', row_letter(row), b' '])?;
    text.extend_from_slice(row.user.as_bytes())?;
    text.push(b'\n')?;
    Ok(())
}

fn row_letter(row: &Row) -> u8
    ensures { result ≡ letter_of_row row.now }
{
    match row.state {
        State::Pending => row.queue,
        State::Running(_) => b'=',
    }
}
