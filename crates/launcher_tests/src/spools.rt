//! Which spool is used, and how a first one is made.
use crate::permissions::user;
use crate::planned_system::Planned::{Found, Named, No};
use crate::planned_system::{Row, asked_of, lines, system_by};
use caller_rules::{CallingUser, callers_spool, make_spool, paths_of};
use host_calls::Text;
use std::alloc::{AllocError, Global};
use std::test::Fail;
use system_calls::FileKind::{Directory, File};

const NEW: &str =
    "lstat /h/s/at.deny|lstat /h/s/at.allow|stat /h|stat /h/s|mkdir /h/s|sync /h/s|sync /h|\
    put /h/s/.ATD|sync /h/s|put /h/s/at.deny|sync /h/s";

const HOME: Row = ("stat /h", Found(Directory, 1000));

// Plans, whether the spool /h/s is there then, and what was asked.
const MADE: [(&[Row], bool, &str); 6] = [
    (
        &[("lstat /h/s/at.deny", Found(File, 1000))],
        true,
        "lstat /h/s/at.deny",
    ),
    (
        &[("lstat /h/s/at.allow", Found(File, 1000))],
        true,
        "lstat /h/s/at.deny|lstat /h/s/at.allow",
    ),
    (&[HOME], true, NEW),
    (
        &[HOME, ("mkdir /h/s", No)],
        false,
        "lstat /h/s/at.deny|lstat /h/s/at.allow|stat /h|stat /h/s|mkdir /h/s|stat /h/s",
    ),
    (
        &[HOME, ("sync /h", No)],
        false,
        "lstat /h/s/at.deny|lstat /h/s/at.allow|stat /h|stat /h/s|mkdir /h/s|sync /h/s|sync /h",
    ),
    (
        &[
            HOME,
            ("stat /h/s", Found(Directory, 1000)),
            ("put /h/s/at.deny", No),
        ],
        false,
        "lstat /h/s/at.deny|lstat /h/s/at.allow|stat /h|stat /h/s|put /h/s/.ATD|sync /h/s|put /h/s/at.deny",
    ),
];

#[test]
fn first_spools(rt: HostRuntime) -> Result<(), Fail> {
    let alloc = rt.alloc();
    for (plan, made, asked) in MADE {
        let mut system = system_by(alloc, plan);
        assert_eq!(rt; make_spool(&mut system, alloc, "/h/s")?, made, "{asked}");
        let wanted = lines(alloc, asked)?;
        assert_eq!(rt; asked_of(system).as_str(), wanted.as_str());
    }
    Ok(())
}

fn at_home(alloc: Global) -> Result<CallingUser, AllocError> {
    let mut mary = user(alloc, 1000, "mary")?;
    mary.home = Some(Text::of(alloc, "/h")?);
    Ok(mary)
}

const USUAL: &str = "/h/.local/state/coefhird/jobs";

const FORMER: &str = "/h/.config/coefhird/jobs";

// Plans, the spool of mary, and whether it is her own.
const PLACES: [(&[Row], &str, bool); 5] = [
    (&[], USUAL, true),
    (
        &[("stat /h/.config/coefhird/jobs", Found(Directory, 1000))],
        FORMER,
        true,
    ),
    (
        &[("stat /h/.config/coefhird/jobs", Found(Directory, 1001))],
        USUAL,
        true,
    ),
    (
        &[
            ("stat /h/.config/coefhird/jobs", Found(Directory, 1000)),
            ("stat /h/.local/state/coefhird/jobs", Found(Directory, 1000)),
        ],
        USUAL,
        true,
    ),
    (&[("variable ATSPOOL", Named("/other"))], "/other", false),
];

#[test]
fn places(rt: HostRuntime) -> Result<(), Fail> {
    let alloc = rt.alloc();
    for (plan, path, is_own) in PLACES {
        let mut system = system_by(alloc, plan);
        let spool = callers_spool(&mut system, alloc, &at_home(alloc)?)?;
        assert_eq!(rt; spool.path.as_str(), path);
        assert_eq!(rt; spool.is_own, is_own);
    }
    Ok(())
}

// Plans, and the lock of the spool that the path s names.
const PATHS: [(&[Row], &str); 3] = [
    (&[("path s", Named("/h/s"))], "/h/s.lock"),
    (&[("path .", Named("/"))], "/s.lock"),
    (&[], "none"),
];

#[test]
fn paths_of_spools(rt: HostRuntime) -> Result<(), Fail> {
    let alloc = rt.alloc();
    for (plan, lock) in PATHS {
        let mut system = system_by(alloc, plan);
        match paths_of(&mut system, alloc, "s")? {
            Some(paths) => assert_eq!(rt; paths.lock.as_str(), lock),
            None => assert_eq!(rt; "none", lock),
        }
    }
    Ok(())
}
