//! Many jobs whose ends are to be told at once.
use crate::directories::{notes_now, spool};
use crate::program::is_done;
use memory_host::Plan;
use std::alloc::{AllocError, Global};
use std::test::Fail;

// The journal and the notes of so many jobs, which were noted and have ended well.
fn ended(alloc: Global, jobs: u32) -> Result<(Vec<u8>, Vec<u8>), AllocError> {
    let mut journal = Vec::new(alloc);
    let mut notes = Vec::new(alloc);
    for place in 0..jobs {
        let number = u64::from(place) + 1;
        let slots = format!(in alloc;
            "+S{number:08x}a-000000000067748580.\n+E{number:08x}-x000000000000000000.\n"
        )?;
        let note = format!(in alloc; "N {number:08x} a{number:08x}01b968a0 1 ann\n")?;
        journal.extend_from_slice(slots.as_bytes())?;
        notes.extend_from_slice(note.as_bytes())?;
    }
    Ok((journal, notes))
}

#[test]
fn thirty_ends_are_told_at_once(rt: HostRuntime) -> Result<(), Fail> {
    let alloc = rt.alloc();
    let (journal, notes) = ended(alloc, 30)?;
    let others = [
        (b".JRN".as_slice(), journal.as_slice()),
        (b".MAIL".as_slice(), notes.as_slice()),
    ];
    let mut host = spool(&rt, alloc, 30, &others, Plan::quiet(alloc))?;
    let is_done = is_done(alloc, &mut host)?;
    assert!(rt; is_done);
    assert_eq!(rt; host.handed().len(), 30);
    let after = notes_now(&host).ok_or("no notes")?;
    assert!(rt; after.starts_with(notes.as_slice()));
    assert!(rt; after.ends_with(b"S 0000001d\nS 0000001e\n".as_slice()));
    assert_eq!(rt; after.len(), notes.len() + 30 * 11);
    drop(host);
    Ok(())
}
