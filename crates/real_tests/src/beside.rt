//! What a real directory answers the programs next to the commands, compared with the model.
ghost use Rattle.host_calls.specs.Session.{IsOutside};

use crate::sessions::{Beside, rounds_beside};
use crate::spools::{KeptDirectory, clear, fresh_spool, kept_directory, line};
use crate::tally::Tally;
use host_calls::Host;
use std::test::Fail;

// What is done to the directory, and how many rounds come then: as it is, without room for a temporary file, without a lock,
// and with both again.
const PHASES: [(&str, u32); 4] = [
    (":", 24),
    ("mkdir \"$1/.MTMP\" \"$1/.CTMP\" \"$1/.ATMP\"", 2),
    (
        "rmdir \"$1\"/.?TMP && rm \"$1.lock\" && mkdir \"$1.lock\"",
        2,
    ),
    ("rmdir \"$1.lock\"", 2),
];

// How many of so many rounds went well, to which this was done to the directory before.
fn phase<H: Host>(
    rt: &HostRuntime,
    program: Beside,
    path: &str,
    phase: (&str, u32),
    before: u32,
    directory: &mut H,
) -> Result<u32, Fail>
    requires { IsOutside (H.session directory.old) }
    ensures { IsOutside (H.session directory.new) }
{
    line(rt, phase.0, path)?;
    Ok(rounds_beside(rt.alloc(), program, before, phase.1, directory)?)
}

// How many rounds of each phase went well.
fn phases<H: Host>(
    rt: &HostRuntime,
    program: Beside,
    path: &str,
    directory: &mut H,
) -> Result<Vec<u32>, Fail>
    requires { IsOutside (H.session directory.old) }
    ensures { IsOutside (H.session directory.new) }
{
    let mut wells = Vec::new(rt.alloc());
    let mut before: u32 = 0;
    for one in PHASES {
        wells.push(phase(rt, program, path, one, before, directory)?)?;
        before = before.saturating_add(one.1);
    }
    Ok(wells)
}

// How many rounds of each phase went well, and what the witness counted: before, and after a stranger put a file.
#[derive(Drop)]
struct Compared {
    wells: Vec<u32>,
    alone: Tally,
    after: Tally,
}

// The program over this directory.
fn compare(
    rt: &HostRuntime,
    program: Beside,
    path: &str,
    directory: &mut KeptDirectory,
) -> Result<Compared, Fail>
    requires { IsOutside (⟦<KeptDirectory as Host>⟧.session directory.old) }
{
    let wells = phases(rt, program, path, directory)?;
    let alone = directory.witness().tally();
    line(rt, "echo 1 >\"$1/stranger\"", path)?;
    let _ = rounds_beside(rt.alloc(), program, 100, 2, directory)?;
    let after = directory.witness().tally();
    Ok(Compared {
        wells,
        alone,
        after,
    })
}

// The program over a directory of its own.
fn compared_over(rt: &HostRuntime, program: Beside, name: &str) -> Result<Compared, Fail> {
    let path = fresh_spool(rt, name)?;
    let mut directory = kept_directory(rt, path.as_str())?;
    let compared = compare(rt, program, path.as_str(), &mut directory)?;
    drop(directory);
    clear(rt, path.as_str())?;
    Ok(compared)
}

#[test]
fn no_answer_beside_the_commands_is_disputed(rt: HostRuntime) -> Result<(), Fail> {
    for &(program, name, without_files) in &[
        (Beside::Mail, "mail", 0),
        (Beside::Crontab, "crontab", 0),
        (Beside::Account, "account", 0),
        (Beside::States, "states", 2),
        (Beside::Check, "check", 2),
    ] {
        let compared = compared_over(&rt, program, name)?;
        assert_eq!(rt;
            compared.wells.as_slice(),
            [24, without_files, 0, 2].as_slice(),
            "{name}"
        );
        let stranger = compared.after.disputes > 0;
        assert!(rt; compared.alone.is_undisputed(1000) && stranger, "{name}");
    }
    Ok(())
}
