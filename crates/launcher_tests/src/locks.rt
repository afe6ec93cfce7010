//! The locks of daemons, and requests for an atd.
use crate::permissions::{paths, user};
use crate::planned_system::Planned::{Found, Missing, No, Taken};
use crate::planned_system::{Row, asked_of, lines, system_by};
use caller_environment::ToolName;
use caller_rules::{ToolSpool, lock_name, request_daemon, take_atd_locks, take_daemon_lock};
use host_calls::Text;
use std::test::Fail;
use system_calls::FileKind::Directory;

// Plans, whether an atd of /h/s may begin, and what was asked.
const ATDS: [(&[Row], bool, &str); 5] = [
    (
        &[],
        true,
        "mkdir /h/s.out|sync /h|lock /h/s/.ATD|lock /h/s.out",
    ),
    (
        &[("mkdir /h/s.out", No)],
        true,
        "mkdir /h/s.out|lock /h/s/.ATD|lock /h/s.out",
    ),
    (
        &[("lock /h/s/.ATD", Taken)],
        false,
        "mkdir /h/s.out|sync /h|lock /h/s/.ATD",
    ),
    (
        &[("lock /h/s.out", Taken)],
        false,
        "mkdir /h/s.out|sync /h|lock /h/s/.ATD|lock /h/s.out",
    ),
    (
        &[("lock /h/s/.ATD", No), ("lock /h/s.out", No)],
        true,
        "mkdir /h/s.out|sync /h|lock /h/s/.ATD|lock /h/s.out",
    ),
];

#[test]
fn locks_of_an_atd(rt: HostRuntime) -> Result<(), Fail> {
    let alloc = rt.alloc();
    for (plan, may, asked) in ATDS {
        let mut system = system_by(alloc, plan);
        assert_eq!(rt; take_atd_locks(&mut system, alloc, &paths(alloc)?)?, may);
        let wanted = lines(alloc, asked)?;
        assert_eq!(rt; asked_of(system).as_str(), wanted.as_str());
    }
    Ok(())
}

const NO_LOCK_FILE: &[Row] = &[("lock /h/s/.ATPOST", Missing)];

#[test]
fn lock_files_are_made(rt: HostRuntime) -> Result<(), Fail> {
    let alloc = rt.alloc();
    let mut system = system_by(alloc, NO_LOCK_FILE);
    assert!(rt; take_daemon_lock(&mut system, alloc, ".ATPOST", &paths(alloc)?)?);
    let wanted = lines(
        alloc,
        "lock /h/s/.ATPOST|await /h/s.lock|put /h/s/.ATPOST|sync /h/s|release |lock /h/s/.ATPOST",
    )?;
    assert_eq!(rt; asked_of(system).as_str(), wanted.as_str());
    assert_eq!(rt; lock_name(ToolName::Atcron), Some(".ATCRON"));
    assert_eq!(rt; lock_name(ToolName::At), None);
    Ok(())
}

const WATCHED: Row = ("stat /run/coefhird/wake", Found(Directory, 0));

// Plans, and what was asked for mary's own spool.
const REQUESTS: [(&[Row], &str); 4] = [
    (&[], "stat /run/coefhird/wake"),
    (
        &[WATCHED],
        "stat /run/coefhird/wake|stat /run/coefhird/up/mary|create /run/coefhird/wake/mary.17",
    ),
    (
        &[WATCHED, ("stat /run/coefhird/up/mary", Found(Directory, 0))],
        "stat /run/coefhird/wake|stat /run/coefhird/up/mary",
    ),
    (
        &[WATCHED, ("create /run/coefhird/wake/mary.17", No)],
        "stat /run/coefhird/wake|stat /run/coefhird/up/mary|create /run/coefhird/wake/mary.17|\
            say at: no atd could be requested: /run/coefhird/wake/mary.17 can not be created",
    ),
];

#[test]
fn requests_for_an_atd(rt: HostRuntime) -> Result<(), Fail> {
    let alloc = rt.alloc();
    let mary = user(alloc, 1000, "mary")?;
    for (plan, asked) in REQUESTS {
        let mut system = system_by(alloc, plan);
        let spool = ToolSpool {
            path: Text::of(alloc, "/h/s")?,
            is_own: true,
        };
        request_daemon(&mut system, alloc, ToolName::At, &mary, &spool)?;
        let wanted = lines(alloc, asked)?;
        assert_eq!(rt; asked_of(system).as_str(), wanted.as_str());
    }
    Ok(())
}
