//! The commands of an entry's job.
ghost use Rattle.std.specs.Prelude.{◌≡◌, ◌++◌, IfOk, OnOk, option_map};
ghost use Rattle.std.specs.List.{flat_map};
ghost use Rattle.cron_minutes.specs.Commands.{commands, parts, pieces, piped, with_newline};
ghost use Rattle.cron_minutes.specs.inside.Lines.{after_cut, piece_byte, first_part, input};

use crate::pieces::{Piece, next_piece};
use cron_text::CronEntry;
use host_calls::Bytes;
use job_script::put_quoted;
use std::alloc::{AllocError, Global};

/// The commands of the entry's job: its first part, with the others on standard input.
pub fn commands_of(alloc: Global, entry: &CronEntry) -> Result<Bytes, AllocError>
    ensures { IfOk result (λ made. made ≡ commands entry.now.command) }
{
    let mut first = Vec::new(alloc);
    match put_part(&mut first, entry.command.as_slice())? {
        None => {
            first.push(b'\n')?;
            Ok(Bytes::from(first))
        }
        Some(rest) => with_input(alloc, &first, rest),
    }
}

// The commands that run the first part with the parts of the rest on standard input.
fn with_input(alloc: Global, first: &[u8], rest: &[u8]) -> Result<Bytes, AllocError>
    ensures { IfOk result (λ made. made ≡ piped first.now (parts (pieces rest.now))) }
{
    let mut input = Vec::new(alloc);
    put_parts(&mut input, rest)?;
    let mut text = Vec::from_slice(alloc, b"printf %s ")?;
    put_quoted(&mut text, &input)?;
    text.extend_from_slice(b" | {\n")?;
    text.extend_from_slice(first)?;
    text.extend_from_slice(b"\n}\n")?;
    Ok(Bytes::from(text))
}

// Puts the first part of the command after the text. The answer is what comes after its cut, if it has one.
fn put_part<'a>(text: &mut Vec<u8>, command: &'a [u8]) -> Result<Option<&'a [u8]>, AllocError>
    ensures part { OnOk result (text.new.items ≡ text.old.items ++ first_part (pieces command.now)) }
    ensures rest { IfOk result (λ rest. option_map (λ bytes. pieces bytes.now) rest ≡ after_cut (pieces command.now)) }
{
    let mut rest = command;
    while let Some((piece, after)) = next_piece(rest) {
        rest = after;
        match piece {
            Piece::Byte(byte) => text.push(byte)?,
            Piece::Cut => return Ok(Some(rest)),
        }
    }
    Ok(None)
}

// Puts the parts of the command after the text, a newline after each.
fn put_parts(text: &mut Vec<u8>, command: &[u8]) -> Result<(), AllocError>
    ensures { OnOk result (text.new.items ≡ text.old.items ++ flat_map with_newline (parts (pieces command.now))) }
{
    let mut rest = command;
    while let Some((piece, after)) = next_piece(rest) {
        rest = after;
        text.push(piece_byte(piece))?;
    }
    text.push(b'\n')?;
    Ok(())
}

fn piece_byte(piece: Piece) -> u8
    ensures { result ≡ piece_byte piece }
{
    match piece {
        Piece::Byte(byte) => byte,
        Piece::Cut => b'\n',
    }
}
