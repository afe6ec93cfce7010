//! Commands over a directory, by the program.
ghost use Rattle.std.specs.Prelude.{◌<◌, IfOk};
ghost use Rattle.host_calls.specs.Session.{IsOutside};

use crate::environment::environment_at;
use at_day::{Caller, program};
use civil_minute::Zone;
use host_calls::{Host, Text};
use job_script::{Context, Variables};
use std::alloc::{AllocError, Global};

/// 2025-01-01 00:00:00 UTC.
pub const NOW: i64 = 1_735_689_600;

/// The user `ann`.
pub fn ann(alloc: Global) -> Result<Caller, AllocError>
    ensures { IfOk result (λ caller. caller.context.umask < 512) }
{
    let context = Context {
        user: Text::of(alloc, "ann")?,
        directory: Text::of(alloc, "/tmp")?,
        umask: 0o022,
        environment: Variables::new(alloc),
    };
    Ok(Caller {
        context,
        zone: Zone::Utc,
    })
}

/// The words of a command line.
pub fn texts(alloc: Global, words: &[&str]) -> Result<Vec<String>, AllocError> {
    let mut texts = Vec::new(alloc);
    for word in words {
        texts.push(String::from_str(alloc, word)?)?;
    }
    Ok(texts)
}

/// The status of the command of these words, at this second always.
pub fn status<H: Host>(
    alloc: Global,
    words: &[&str],
    now: i64,
    host: &mut H,
) -> Result<u8, AllocError>
    requires { IsOutside (H.session host.old) }
    ensures { IsOutside (H.session host.new) }
{
    let caller = ann(alloc)?;
    let words = texts(alloc, words)?;
    let mut around = environment_at(alloc, now)?;
    let status = program(
        alloc,
        &words,
        &caller,
        host,
        &mut around.readings,
        &mut around.inputs,
        &mut around.out,
        &mut around.err,
    );
    Ok(status.code)
}

// Three jobs are submitted, of which the first is due at once and the second is removed; and then `atd` serves until its
// children have ended. Whether each command went well, where the last number before them is this one.
fn is_well_done<H: Host>(alloc: Global, last: u32, host: &mut H) -> Result<bool, AllocError>
    requires outside { IsOutside (H.session host.old) }
    requires few { last < 4000000 }
    ensures { IsOutside (H.session host.new) }
{
    let second = format!(in alloc; "{}", last + 2)?;
    let third = format!(in alloc; "{}", last + 3)?;
    let submitted = status(alloc, &["at", "now"], NOW, host)?
        | status(alloc, &["batch"], NOW, host)?
        | status(alloc, &["at", "now", "+", "2", "days"], NOW, host)?;
    let shown = status(alloc, &["atq"], NOW, host)?
        | status(alloc, &["at", "-c", third.as_str()], NOW, host)?;
    let removed = status(alloc, &["atrm", second.as_str()], NOW, host)?;
    let served = status(alloc, &["atd", "-s"], NOW, host)?;
    Ok(submitted | shown | removed | served == 0)
}

/// How many of so many rounds went well, where the last number before them is `3 * before`.
pub fn rounds<H: Host>(
    alloc: Global,
    before: u32,
    count: u32,
    host: &mut H,
) -> Result<u32, AllocError>
    requires outside { IsOutside (H.session host.old) }
    requires few { before < 1000000 }
    requires few_more { count < 1000 }
    ensures { IsOutside (H.session host.new) }
{
    let mut well: u32 = 0;
    for round in 0..count {
        if is_well_done(alloc, 3 * (before + round), host)? {
            well = well.saturating_add(1);
        }
    }
    Ok(well)
}
