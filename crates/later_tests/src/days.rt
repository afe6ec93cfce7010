//! Days of commands, turns, reboots, mail and a crontab.
ghost use Rattle.std.specs.Prelude.{IfOk};
ghost use Rattle.host_calls.specs.Session.{IsOutside};
ghost use Rattle.memory_host.specs.Host.{memory_session};

use crate::events::{FIRST, Step, events_of, spool};
use crate::told::told;
use memory_host::{MemoryHost, Plan};
use std::alloc::{AllocError, Global};
use std::process::Abort;
use std::test::Fail;

// A spool that everybody may use, and no other file.
fn open_spool(rt: &impl Abort, alloc: Global) -> Result<MemoryHost, AllocError>
    ensures { IfOk result (λ host. IsOutside (memory_session host)) }
{
    spool(rt, alloc, &[(b"at.deny", b"")], Plan::quiet(alloc))
}

// Two jobs are started, and the machine crashes before their ends are reported. No call gets through from then on, until it
// crashes once more. The jobs are given up, and the end of each is reported once; the crontab has each minute once.
const STEPS: [Step; 19] = [
    Step::At(FIRST),
    Step::Cron(FIRST),
    Step::Post,
    Step::Turn(FIRST),
    Step::Reboot(0, Some(0)),
    Step::Turn(FIRST + 60),
    Step::Post,
    Step::Cron(FIRST + 60),
    Step::Reboot(0, None),
    Step::Turn(FIRST + 60),
    Step::Post,
    Step::Cron(FIRST + 60),
    Step::Cron(FIRST + 119),
    Step::Post,
    Step::Reboot(1, None),
    Step::Post,
    Step::Turn(FIRST + 120),
    Step::Turn(FIRST + 180),
    Step::Post,
];

const DAY: &str =
    "command 0\ncron done 2\npost done\nturn done 1 2\nrebooted\nturn fault\npost fault\ncron fault\nrebooted\nturn done given-up given-up\npost done 1 2\ncron done 3\ncron done\npost done\nrebooted\npost done\nturn done 3\nturn done ended\npost done 3\n";

const NOTES: &[u8] =
    b"N 00000001 a0000000101b968a0 0 ann\nN 00000002 a0000000201b968a0 0 ann\nS 00000001\nS 00000002\nN 00000003 a0000000301b968a1 0 ann\nS 00000003\n";

// What the whole day tells.
fn tell_all(rt: &impl Abort, alloc: Global, host: &mut MemoryHost) -> Result<String, Fail>
    requires { IsOutside (memory_session host.old) }
    ensures { IsOutside (memory_session host.new) }
{
    let events = events_of(rt, alloc, &STEPS)?;
    let lines = told(rt, alloc, events.as_slice(), host)?;
    drop(events);
    Ok(lines)
}

// The number of each script that was started, and how nice it was.
fn handed_now(alloc: Global, host: &MemoryHost) -> Result<Vec<(u32, u8)>, AllocError> {
    let mut all = Vec::new(alloc);
    for handed in host.handed() {
        all.push((handed.number, handed.nice))?;
    }
    Ok(all)
}

#[test]
fn a_day_with_mail_and_a_crontab(rt: HostRuntime) -> Result<(), Fail> {
    let alloc = rt.alloc();
    let mut host = open_spool(&rt, alloc)?;
    let lines = tell_all(&rt, alloc, &mut host);
    let handed = handed_now(alloc, &host);
    assert_eq!(rt; host.reading(&mail_notes::mail_name()), Some(NOTES));
    assert_eq!(rt;
        host.reading(&cron_session::mark_name()),
        Some(b"01b968a1\n".as_slice())
    );
    drop(host);
    assert_eq!(rt; lines?.as_str(), DAY);
    let expected = [(1, 0), (2, 0), (1, 19), (2, 19), (3, 0), (3, 19)];
    assert_eq!(rt; handed?.as_slice(), expected.as_slice());
    Ok(())
}
