//! Who may call, and whose a spool is.
use crate::planned_system::Planned::{Found, No, TooLong, Unreadable, Whole};
use crate::planned_system::{Row, asked_of, lines, system_by};
use caller_environment::ToolName;
use caller_rules::{CallingUser, SpoolPaths, may_call, may_work_on};
use host_calls::Text;
use std::alloc::{AllocError, Global};
use std::test::Fail;
use system_calls::FileKind::{Directory, File, Link};

/// A user of this number and name.
pub fn user(alloc: Global, number: u32, name: &str) -> Result<CallingUser, AllocError> {
    Ok(CallingUser {
        number: Some(number),
        name: Text::of(alloc, name)?,
        home: None,
    })
}

/// The paths of the spool /h/s.
pub fn paths(alloc: Global) -> Result<SpoolPaths, AllocError> {
    Ok(SpoolPaths {
        spool: Text::of(alloc, "/h/s")?,
        outputs: Text::of(alloc, "/h/s.out")?,
        lock: Text::of(alloc, "/h/s.lock")?,
        parent: Text::of(alloc, "/h")?,
    })
}

const READ_BOTH: &str = "read /etc/at.allow|read /etc/at.deny";

const IGNORED: &str = "read /etc/at.allow|read /etc/at.deny|stat /run/coefhird|\
    say at: /etc/at.deny can not be read, so it excludes nobody";

const COPY_READ: &str =
    "read /etc/at.allow|read /etc/at.deny|stat /run/coefhird|read /run/coefhird/at.deny";

const RUN: Row = ("stat /run/coefhird", Found(Directory, 0));

const CLOSED: Row = ("read /etc/at.deny", Unreadable);

// Plans, whether mary may call at, and what was asked.
const LISTS: [(&[Row], bool, &str); 12] = [
    (&[], true, READ_BOTH),
    (
        &[("read /etc/at.allow", Whole("ann\nmary\n"))],
        true,
        READ_BOTH,
    ),
    (&[("read /etc/at.allow", Whole("ann\n"))], false, READ_BOTH),
    (&[("read /etc/at.allow", Whole(""))], false, READ_BOTH),
    (&[("read /etc/at.deny", Whole("mary\n"))], false, READ_BOTH),
    (&[("read /etc/at.deny", Whole("ann\n"))], true, READ_BOTH),
    (&[("read /etc/at.deny", TooLong)], false, READ_BOTH),
    (&[CLOSED], true, IGNORED),
    (&[CLOSED, RUN], false, COPY_READ),
    (
        &[CLOSED, RUN, ("read /run/coefhird/at.deny", Whole("mary\n"))],
        false,
        COPY_READ,
    ),
    (
        &[CLOSED, RUN, ("read /run/coefhird/at.deny", Whole("ann\n"))],
        true,
        COPY_READ,
    ),
    (
        &[CLOSED, RUN, ("read /run/coefhird/at.deny", TooLong)],
        false,
        COPY_READ,
    ),
];

#[test]
fn lists_of_the_machine(rt: HostRuntime) -> Result<(), Fail> {
    let alloc = rt.alloc();
    let mary = user(alloc, 1000, "mary")?;
    for (plan, may, asked) in LISTS {
        let mut system = system_by(alloc, plan);
        let found = may_call(&mut system, alloc, ToolName::At, &mary)?;
        assert_eq!(rt; found, may, "{asked}");
        let wanted = lines(alloc, asked)?;
        assert_eq!(rt; asked_of(system).as_str(), wanted.as_str());
    }
    Ok(())
}

const ALLOWS_NOBODY: &[Row] = &[("read /etc/at.allow", Whole(""))];

#[test]
fn nothing_is_asked_of_root_and_of_daemons(rt: HostRuntime) -> Result<(), Fail> {
    let alloc = rt.alloc();
    for (number, name, tool) in [(0, "root", ToolName::At), (1000, "mary", ToolName::Atd)] {
        let mut system = system_by(alloc, ALLOWS_NOBODY);
        let caller = user(alloc, number, name)?;
        assert!(rt; may_call(&mut system, alloc, tool, &caller)?);
        assert_eq!(rt; asked_of(system).as_str(), "");
    }
    Ok(())
}

#[test]
fn names_of_digits(rt: HostRuntime) -> Result<(), Fail> {
    for (name, is) in [
        ("1001", true),
        ("0", true),
        ("mary", false),
        ("m1", false),
        ("", false),
    ] {
        let caller = user(rt.alloc(), 1000, name)?;
        assert_eq!(rt; caller.has_name_of_digits(), is, "{name}");
    }
    Ok(())
}

// Plans, and whether user 1000 may work on /h/s.
const SPOOLS: [(&[Row], bool); 8] = [
    (&[], true),
    (&[("stat /h/s", Found(Directory, 1000))], true),
    (&[("stat /h/s", Found(Directory, 0))], false),
    (&[("stat /h/s.out", Found(Directory, 1001))], false),
    (&[("stat /h/s.lock", Found(File, 1001))], false),
    (&[("lstat /h/s.out", Found(Link, 1000))], false),
    (&[("lstat /h/s.lock", Found(Link, 1000))], false),
    (&[("stat /h", No)], true),
];

#[test]
fn spools_of_others(rt: HostRuntime) -> Result<(), Fail> {
    let alloc = rt.alloc();
    let all = lines(
        alloc,
        "stat /h/s|stat /h/s.out|stat /h/s.lock|lstat /h/s.out|lstat /h/s.lock",
    )?;
    for (plan, may) in SPOOLS {
        let mut system = system_by(alloc, plan);
        let found = may_work_on(&mut system, Some(1000), &paths(alloc)?);
        assert_eq!(rt; found, may);
        assert_eq!(rt; asked_of(system).as_str(), all.as_str());
    }
    Ok(())
}
