//! Sessions of mail, of a crontab, of accounts, of states and of the checker over a directory.
ghost use Rattle.host_calls.specs.Session.{IsOutside};

use crate::commands::{NOW, ann, status, texts};
use crate::environment::environment_at;
use at_account::account_program;
use at_mail::post_program;
use at_stat::stat_program;
use cron_turn::cron_program;
use host_calls::Host;
use memory_host::{Files, MemoryHost, MemorySink, Plan};
use spool_check::check_program;
use std::alloc::{AllocError, Global};

/// A program next to the commands.
#[derive(Clone, Copy, Debug)]
pub enum Beside {
    Mail,
    Crontab,
    Account,
    States,
    Check,
}

// The status of one call of the program over the directory, at this second always.
fn session<H: Host>(
    alloc: Global,
    program: Beside,
    now: i64,
    host: &mut H,
) -> Result<u8, AllocError>
    requires { IsOutside (H.session host.old) }
    ensures { IsOutside (H.session host.new) }
{
    match program {
        Beside::Mail => mail(alloc, now, host),
        Beside::Crontab => crontab(alloc, now, host),
        Beside::Account => account(alloc, now, host),
        Beside::States => states(alloc, now, host),
        Beside::Check => check(alloc, now, host),
    }
}

fn mail<H: Host>(alloc: Global, now: i64, host: &mut H) -> Result<u8, AllocError>
    requires { IsOutside (H.session host.old) }
    ensures { IsOutside (H.session host.new) }
{
    let words = texts(alloc, &["atpost", "--send", "/bin/true", "--turns", "2"])?;
    let mut around = environment_at(alloc, now)?;
    let status = post_program(alloc, &words, host, &mut around.readings, &mut around.err);
    Ok(code_with(status.code, &around.err))
}

fn crontab<H: Host>(alloc: Global, now: i64, host: &mut H) -> Result<u8, AllocError>
    requires { IsOutside (H.session host.old) }
    ensures { IsOutside (H.session host.new) }
{
    let words = texts(alloc, &["atcron", "-f", "crontab", "--turns", "1"])?;
    let caller = ann(alloc)?;
    let mut around = environment_at(alloc, now)?;
    let status = cron_program(
        alloc,
        &words,
        &caller,
        host,
        &mut around.readings,
        &mut around.inputs,
        &mut around.err,
    );
    Ok(code_with(status.code, &around.err))
}

// The code, or 1 where something was said in its place: such a session does not end these two programs.
fn code_with(code: u8, err: &MemorySink) -> u8 {
    if err.content().is_empty() { code } else { 1 }
}

fn account<H: Host>(alloc: Global, now: i64, host: &mut H) -> Result<u8, AllocError>
    requires { IsOutside (H.session host.old) }
    ensures { IsOutside (H.session host.new) }
{
    let words = texts(alloc, &["ataccount", "--show"])?;
    let mut around = environment_at(alloc, now)?;
    let status = account_program(alloc, &words, host, &mut around.out, &mut around.err);
    Ok(status.code)
}

fn states<H: Host>(alloc: Global, now: i64, host: &mut H) -> Result<u8, AllocError>
    requires { IsOutside (H.session host.old) }
    ensures { IsOutside (H.session host.new) }
{
    let words = texts(alloc, &["atstat"])?;
    let caller = ann(alloc)?;
    let mut around = environment_at(alloc, now)?;
    let status = stat_program(
        alloc,
        &words,
        &caller,
        host,
        &mut around.readings,
        &mut around.out,
        &mut around.err,
    );
    Ok(status.code)
}

fn check<H: Host>(alloc: Global, now: i64, host: &mut H) -> Result<u8, AllocError>
    requires { IsOutside (H.session host.old) }
    ensures { IsOutside (H.session host.new) }
{
    let mut to = MemoryHost::make(alloc, Files::new(alloc), Plan::quiet(alloc))?;
    saved_status(alloc, &["atcheck"], now, host, &mut to)
}

/// The status of the checker of these words over both directories.
pub fn saved_status<H: Host, G: Host>(
    alloc: Global,
    words: &[&str],
    now: i64,
    from: &mut H,
    to: &mut G,
) -> Result<u8, AllocError>
    requires from { IsOutside (H.session from.old) }
    requires to { IsOutside (G.session to.old) }
    ensures from { IsOutside (H.session from.new) }
    ensures to { IsOutside (G.session to.new) }
{
    let words = texts(alloc, words)?;
    let mut around = environment_at(alloc, now)?;
    let status = check_program(alloc, &words, from, to, &mut around.out, &mut around.err);
    Ok(status.code)
}

// A job is submitted, and `atd` serves until it has ended; the program is called between and after. Whether all went well.
fn is_well_done<H: Host>(
    alloc: Global,
    program: Beside,
    now: i64,
    host: &mut H,
) -> Result<bool, AllocError>
    requires { IsOutside (H.session host.old) }
    ensures { IsOutside (H.session host.new) }
{
    let submitted = status(alloc, &["at", "-m", "now"], now, host)?;
    let before = session(alloc, program, now, host)?;
    let served = status(alloc, &["atd", "-s"], now, host)?;
    let after = session(alloc, program, now, host)?;
    Ok(submitted | before | served | after == 0)
}

/// How many of so many rounds went well, each a minute after the one before, of which so many were before.
pub fn rounds_beside<H: Host>(
    alloc: Global,
    program: Beside,
    before: u32,
    count: u32,
    host: &mut H,
) -> Result<u32, AllocError>
    requires { IsOutside (H.session host.old) }
    ensures { IsOutside (H.session host.new) }
{
    let mut well: u32 = 0;
    for round in 0..count {
        let now = NOW + 60 * i64::from(before.saturating_add(round));
        if is_well_done(alloc, program, now, host)? {
            well = well.saturating_add(1);
        }
    }
    Ok(well)
}
