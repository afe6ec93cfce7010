//! The lines that are shown.
ghost use Rattle.std.specs.Prelude.{◌≡◌, ◌∷◌, ◌++◌, IfOk, OnOk};
ghost use Rattle.std.specs.Fmt.{decimal};
ghost use Rattle.tool_output.specs.PutLines.{joined_lines};
ghost use Rattle.at_account.specs.TotalLines.{IsShown, counts_text, line_text};

use crate::{Account, AccountLine};
use host_calls::Bytes;
use std::alloc::{AllocError, Global};

// What is shown of the account: a line for each owner where it is requested, and else nothing.
pub(crate) fn shown_counts(
    alloc: Global,
    show: bool,
    account: &Account,
) -> Result<Bytes, AllocError>
    ensures { IfOk result (IsShown show account.now) }
{
    let mut text = Vec::new(alloc);
    if show {
        add_lines(alloc, account.totals(), &mut text)?;
    }
    Ok(Bytes::from(text))
}

fn add_lines(alloc: Global, lines: &[AccountLine], text: &mut Vec<u8>) -> Result<(), AllocError>
    ensures { OnOk result (text.new.items ≡ text.old.items ++ joined_lines line_text lines.now) }
{
    for line in lines {
        add_owner_line(alloc, line, text)?;
    }
    Ok(())
}

fn add_owner_line(alloc: Global, line: &AccountLine, text: &mut Vec<u8>) -> Result<(), AllocError>
    ensures { OnOk result (text.new.items ≡ text.old.items ++ line_text line.now) }
{
    text.extend_from_slice(line.user.as_bytes())?;
    text.push(b' ')?;
    text.push(line.queue)?;
    add_counts(alloc, &line.counts, text)?;
    text.push(b'\n')?;
    Ok(())
}

fn add_counts(alloc: Global, counts: &[u64], text: &mut Vec<u8>) -> Result<(), AllocError>
    ensures { OnOk result (text.new.items ≡ text.old.items ++ counts_text counts.now) }
{
    for count in counts {
        add_count(alloc, *count, text)?;
    }
    Ok(())
}

fn add_count(alloc: Global, count: u64, text: &mut Vec<u8>) -> Result<(), AllocError>
    ensures { OnOk result (text.new.items ≡ text.old.items ++ 32 ∷ decimal count) }
{
    let digits = count.to_string(alloc)?;
    text.push(b' ')?;
    text.extend_from_slice(digits.as_bytes())?;
    Ok(())
}
