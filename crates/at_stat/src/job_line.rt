//! The line of a job.
ghost use Rattle.std.specs.Prelude.{◌≡◌, ◌∷◌, [], ◌++◌, OnOk, codes};
ghost use Rattle.std.specs.Fmt.{decimal};
ghost use Rattle.civil_minute.specs.Zone.{IsReadable};
ghost use Rattle.spool_store.specs.Stored.{IsRowInRange};
ghost use Rattle.at_stat.specs.Lines.{fate_text, live_line, text_line};
ghost use Rattle.at_stat.specs.Reports.{fate_line, live_text, word_line};
ghost use Rattle.job_listing.specs.LinePut.{IsLinePut};
ghost use Rattle.at_stat.specs.Reports.{IsLine};
ghost use Rattle.at_stat.specs.inside.StageLines.{IsLiveLinePut};
ghost use Rattle.at_stat.specs.inside.StageSearch.{CanBeShown};

use crate::job_object::{put_fate_object, put_live_object, put_word_object};
use crate::stage::shown_minute;
use crate::states_words::state_word;
use crate::{Form, JobStage};
use civil_minute::{Zone, civil_of};
use host_calls::Ending;
use itoa::Buffer;
use listing_text::date_text;
use spool_model::{Fate, Row};
use std::alloc::{AllocError, Global};

// Puts the line of the job of the number after the text.
pub(crate) fn put_state_line(
    alloc: Global,
    text: &mut Vec<u8>,
    number: u32,
    stage: &JobStage,
    form: Form,
    zone: &Zone,
) -> Result<(), AllocError>
    requires zone { IsReadable zone.now }
    requires shown { CanBeShown stage.now }
    ensures { OnOk result (IsLinePut (IsLine form zone.now number stage.now) text.old.items text.new.items) }
{
    match stage {
        JobStage::Live(row) => put_live(alloc, text, row, form, zone),
        JobStage::Done(fate) => put_fate(text, number, fate, form),
        JobStage::Forgotten => put_word(text, number, "forgotten", form),
    }
}

// Puts the line of a live job.
fn put_live(
    alloc: Global,
    text: &mut Vec<u8>,
    row: &Row,
    form: Form,
    zone: &Zone,
) -> Result<(), AllocError>
    requires zone { IsReadable zone.now }
    requires range { IsRowInRange row.now }
    ensures { OnOk result (IsLiveLinePut form zone.now row.now text.old.items text.new.items) }
{
    // A user's name has no byte that needs an escape.
    prove!(!row.user.as_bytes().is_empty());
    let civil = civil_of(alloc, shown_minute(row), zone)?;
    put_dated(text, row, &date_text(&civil), form)
}

// Puts the line of a live job with this date.
fn put_dated(text: &mut Vec<u8>, row: &Row, date: &[u8; 24], form: Form) -> Result<(), AllocError>
    ensures { OnOk result (text.new.items ≡ text.old.items ++ live_text form row.now date.now) }
{
    match form {
        Form::Text => put_live_line(text, row, date),
        Form::Json => put_live_object(text, row, date),
    }
}

fn put_live_line(text: &mut Vec<u8>, row: &Row, date: &[u8; 24]) -> Result<(), AllocError>
    ensures { OnOk result (text.new.items ≡ text.old.items ++ live_line row.now date.now) }
{
    put_number(text, row.number)?;
    put_field(text, state_word(row.state).as_bytes())?;
    put_field(text, date)?;
    text.extend_from_slice(&[row.queue, b'\t'])?;
    text.extend_from_slice(row.user.as_bytes())?;
    text.push(b'\n')?;
    Ok(())
}

// Puts the number, and a tab after it.
fn put_number(text: &mut Vec<u8>, number: u32) -> Result<(), AllocError>
    ensures { OnOk result (text.new.items ≡ text.old.items ++ decimal number ++ codes "\t") }
{
    let mut digits = Buffer::new();
    put_field(text, digits.format(number).as_bytes())
}

// Puts the field, and a tab after it.
fn put_field(text: &mut Vec<u8>, field: &[u8]) -> Result<(), AllocError>
    ensures { OnOk result (text.new.items ≡ text.old.items ++ field.now ++ codes "\t") }
{
    text.extend_from_slice(field)?;
    text.push(b'\t')?;
    Ok(())
}

// Puts the line of a job that is done.
fn put_fate(text: &mut Vec<u8>, number: u32, fate: &Fate, form: Form) -> Result<(), AllocError>
    ensures { OnOk result (text.new.items ≡ text.old.items ++ fate_line form number fate.now) }
{
    match form {
        Form::Text => put_fate_line(text, number, fate),
        Form::Json => put_fate_object(text, number, fate),
    }
}

fn put_fate_line(text: &mut Vec<u8>, number: u32, fate: &Fate) -> Result<(), AllocError>
    ensures { OnOk result (text.new.items ≡ text.old.items ++ text_line number (fate_text fate.now)) }
{
    put_number(text, number)?;
    put_fate_fields(text, fate)?;
    text.push(b'\n')?;
    Ok(())
}

fn put_fate_fields(text: &mut Vec<u8>, fate: &Fate) -> Result<(), AllocError>
    ensures { OnOk result (text.new.items ≡ text.old.items ++ fate_text fate.now) }
{
    match fate {
        Fate::Removed => put_bytes(text, b"removed"),
        Fate::Finished(Ending::Exit(code)) => put_ending(text, b"exit\t", *code),
        Fate::Finished(Ending::Signal(signal)) => put_ending(text, b"signal\t", *signal),
        Fate::Finished(Ending::NotStarted) => put_bytes(text, b"not started"),
        Fate::Interrupted => put_bytes(text, b"interrupted"),
    }
}

// Puts the bytes.
pub(crate) fn put_bytes(text: &mut Vec<u8>, bytes: &[u8]) -> Result<(), AllocError>
    ensures { OnOk result (text.new.items ≡ text.old.items ++ bytes.now) }
{
    text.extend_from_slice(bytes)?;
    Ok(())
}

// Puts the bytes, and the number after them.
pub(crate) fn put_ending(text: &mut Vec<u8>, bytes: &[u8], number: u8) -> Result<(), AllocError>
    ensures { OnOk result (text.new.items ≡ text.old.items ++ bytes.now ++ decimal number) }
{
    let mut digits = Buffer::new();
    text.extend_from_slice(bytes)?;
    text.extend_from_slice(digits.format(number).as_bytes())?;
    Ok(())
}

// Puts the line of a job of which there is a word alone.
fn put_word(text: &mut Vec<u8>, number: u32, word: &str, form: Form) -> Result<(), AllocError>
    ensures { OnOk result (text.new.items ≡ text.old.items ++ word_line form number word.now) }
{
    match form {
        Form::Text => put_word_line(text, number, word),
        Form::Json => put_word_object(text, number, word),
    }
}

fn put_word_line(text: &mut Vec<u8>, number: u32, word: &str) -> Result<(), AllocError>
    ensures { OnOk result (text.new.items ≡ text.old.items ++ text_line number word.now) }
{
    put_number(text, number)?;
    text.extend_from_slice(word.as_bytes())?;
    text.push(b'\n')?;
    Ok(())
}
