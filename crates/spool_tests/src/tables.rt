//! Small directories, by the table or the damage that a recovery finds.
use crate::directories::session;
use host_calls::Ending;
use spool_model::{Fate, State};
use spool_store::{Store, StoreFault};
use std::alloc::Global;
use std::process::Abort;
use std::test::Fail;

const NAME: &str = "a0000101b968a0";

const OTHER: &str = "b0000101b968a0";

const TEXT: &str = "#!/bin/sh\n# at user=ann mail=0\necho hi\n";

const LONG: &str = "#!/bin/sh\n# at user=abcdefghijklmnopqrstuvwxyzabcdefg mail=0\n";

const STARTED: &str = "+S00000001a-000000000067748580.\n";

// What a recovery of a directory with these files gives, where this number was drawn last.
fn recovered(
    alloc: Global,
    last: &str,
    journal: &str,
    jobs: &[(&str, &str)],
) -> Result<Result<Store, StoreFault>, Fail> {
    let mut files = Vec::new(alloc);
    files.push((".SEQ", last.as_bytes()))?;
    files.push((".JRN", journal.as_bytes()))?;
    for (name, text) in jobs {
        files.push((*name, text.as_bytes()))?;
    }
    let mut host = session(alloc, files.as_slice())?;
    Ok(Store::recover(alloc, &mut host))
}

fn shows_damage(
    rt: &impl Abort,
    alloc: Global,
    journal: &str,
    jobs: &[(&str, &str)],
    name: &str,
    offset: u64,
    byte: Option<u8>,
) -> Result<(), Fail> {
    let fault = recovered(alloc, "00001\n", journal, jobs)?.err();
    let Some(StoreFault::Damaged(damage)) = fault else {
        panic!(rt; "{name} is not damaged");
    };
    assert_eq!(rt; damage.name.as_bytes(), name.as_bytes());
    assert_eq!(rt; damage.offset, offset);
    assert_eq!(rt; damage.byte, byte);
    Ok(())
}

#[test]
fn damaged_starts(rt: HostRuntime) -> Result<(), Fail> {
    let alloc = rt.alloc();
    shows_damage(&rt, alloc, STARTED, &[], ".JRN", 0, Some(b'+'))?;
    shows_damage(
        &rt,
        alloc,
        STARTED,
        &[(OTHER, TEXT)],
        ".JRN",
        10,
        Some(b'a'),
    )?;
    let after = "+B00000000--000000000000000005.\n+S00000001a-000000000067748580.\n";
    shows_damage(&rt, alloc, after, &[], ".JRN", 32, Some(b'+'))
}

#[test]
fn damaged_files(rt: HostRuntime) -> Result<(), Fail> {
    let alloc = rt.alloc();
    let mail = "#!/bin/sh\n# at user=ann mail=2\necho hi\n";
    shows_damage(&rt, alloc, "", &[(NAME, mail)], NAME, 29, Some(b'2'))?;
    shows_damage(&rt, alloc, "", &[(NAME, LONG)], NAME, 52, Some(b'g'))?;
    shows_damage(&rt, alloc, "", &[(NAME, "")], NAME, 0, None)?;
    let two = [(NAME, TEXT), (OTHER, TEXT)];
    shows_damage(&rt, alloc, "", &two, OTHER, 0, Some(b'#'))?;
    let next = "a0000201b968a0";
    shows_damage(&rt, alloc, STARTED, &[(next, TEXT)], next, 0, Some(b'#'))
}

#[test]
fn live_jobs(rt: HostRuntime) -> Result<(), Fail> {
    let jobs = [(NAME, TEXT)];
    let store = recovered(rt.alloc(), "00001\n", "", &jobs)??;
    let rows = store.rows();
    assert_eq!(rt; rows.len(), 1);
    assert_eq!(rt; rows[0].number, 1);
    assert_eq!(rt; rows[0].queue, b'a');
    assert_eq!(rt; rows[0].minute, 28_928_160);
    assert_eq!(rt; rows[0].user.as_bytes(), b"ann".as_slice());
    assert_eq!(rt; rows[0].state, State::Pending);
    assert_eq!(rt; store.decided().len(), 0);
    Ok(())
}

#[test]
fn running_jobs(rt: HostRuntime) -> Result<(), Fail> {
    let store = recovered(rt.alloc(), "00001\n", STARTED, &[(NAME, TEXT)])??;
    let rows = store.rows();
    assert_eq!(rt; rows.len(), 1);
    assert_eq!(rt; rows[0].state, State::Running(1_735_689_600));
    Ok(())
}

// A store of two jobs that wait and two that are done, whose files and marks are in other orders.
fn numbered(alloc: Global) -> Result<Store, Fail> {
    let jobs = [("a0000401b968a0", TEXT), ("b0000201b968a0", TEXT)];
    let marks = "+R00000003--000000000000000000.\n+S00000001a-000000000067748580.\n\
        +E00000001-x030000000000000000.\n+R00000005--000000000000000000.\n\
        +F00000005--000000000000000000.\n";
    Ok(recovered(alloc, "00005\n", marks, &jobs)??)
}

#[test]
fn live_numbers_in_their_order(rt: HostRuntime) -> Result<(), Fail> {
    let store = numbered(rt.alloc())?;
    let rows = store.rows();
    assert_eq!(rt; rows.len(), 2);
    assert_eq!(rt; rows[0].number, 2);
    assert_eq!(rt; rows[1].number, 4);
    Ok(())
}

#[test]
fn done_numbers_in_their_order(rt: HostRuntime) -> Result<(), Fail> {
    let store = numbered(rt.alloc())?;
    let decided = store.decided();
    assert_eq!(rt; decided.len(), 2);
    assert_eq!(rt; decided[0].number, 1);
    assert_eq!(rt; decided[0].fate, Fate::Finished(Ending::Exit(3)));
    assert_eq!(rt; decided[1].number, 3);
    assert_eq!(rt; decided[1].fate, Fate::Removed);
    Ok(())
}
