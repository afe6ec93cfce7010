//! Slots of the journal, and journals, by the tables of their format.
use crate::directories::{name, session};
use crate::journal_calls::compact;
use host_calls::Ending;
use start_journal::{Journal, JournalFault, Mark, mark_text, read_mark};
use std::alloc::Global;
use std::test::Fail;

#[test]
fn slots_of_marks(rt: HostRuntime) {
    for &(mark, slot) in &[
        (
            Mark::Started {
                number: 1,
                queue: b'a',
                second: 1_735_689_600,
            },
            b"+S00000001a-000000000067748580.\n",
        ),
        (
            Mark::Ended {
                number: 1,
                ending: Ending::Exit(0),
            },
            b"+E00000001-x000000000000000000.\n",
        ),
        (
            Mark::Ended {
                number: 1,
                ending: Ending::Signal(9),
            },
            b"+E00000001-s090000000000000000.\n",
        ),
        (
            Mark::Ended {
                number: 1,
                ending: Ending::NotStarted,
            },
            b"+E00000001-n000000000000000000.\n",
        ),
        (Mark::Removed(2), b"+R00000002--000000000000000000.\n"),
        (Mark::Interrupted(1), b"+I00000001--000000000000000000.\n"),
        (
            Mark::Batch(1_735_689_600),
            b"+B00000000--000000000067748580.\n",
        ),
    ] {
        assert_eq!(rt; mark_text(&mark), *slot);
        assert_eq!(rt; read_mark(slot), Some(mark));
    }
}

#[test]
fn slots_that_spell_no_mark(rt: HostRuntime) {
    assert!(rt; read_mark(b"+B00000000--000000003afe130dff.\n").is_some());
    for &slot in &[
        b"-E00000001-x000000000000000000.\n",
        b"+S00000000a-000000000067748580.\n",
        b"+S000000011-000000000067748580.\n",
        b"+R00000001a-000000000000000000.\n",
        b"+R00000001--000000000000000001.\n",
        b"+E00000001-n010000000000000000.\n",
        b"+E00000001-s0A0000000000000000.\n",
        b"+B00000001--000000000067748580.\n",
        b"+B00000000--000000003afe130e00.\n",
        b"+Z00000001--000000000000000000.\n",
        b"+I00000001--000000000000000000..",
    ] {
        assert_eq!(rt; read_mark(slot), None);
    }
}

// The journal of a directory whose journal holds these bytes, where this number was drawn last.
fn read(alloc: Global, bytes: &[u8], last: u32) -> Result<Result<Journal, JournalFault>, Fail> {
    let mut host = session(alloc, &[(".JRN", bytes)])?;
    Ok(Journal::recall(alloc, &mut host, last))
}

#[test]
fn journals_and_what_they_give(rt: HostRuntime) -> Result<(), Fail> {
    let started = Mark::Started {
        number: 1,
        queue: b'a',
        second: 1_735_689_600,
    };
    let ended = Mark::Ended {
        number: 1,
        ending: Ending::Exit(0),
    };
    let bytes =
        b"+S00000001a-000000000067748580.\n+E00000001-x000000000000000000.\n-0123456789012345678901234567890................................";
    let journal = read(rt.alloc(), bytes, 1)??;
    assert_eq!(rt; journal.marks(), [started, ended].as_slice());
    assert_eq!(rt; journal.free(), 2);
    let none = read(rt.alloc(), b"", 0)??;
    assert!(rt; none.marks().is_empty());
    assert_eq!(rt; none.free(), 0);
    Ok(())
}

#[test]
fn journals_that_are_damaged(rt: HostRuntime) -> Result<(), Fail> {
    let cases: [(&[u8], u64, u8); 10] = [
        (
            b"-..............................\n+R00000001--000000000000000000.\n",
            32,
            b'+',
        ),
        (b"+Z00000001--000000000000000000.\n", 1, b'Z'),
        (b"+S00000000a-000000000067748580.\n", 9, b'0'),
        (b".................................", 32, b'.'),
        (b"+R00000001--000000000000000000.\n+R00000002", 32, b'+'),
        (b"+E00000001-x000000000000000000.\n", 0, b'+'),
        (
            b"+S00000001a-000000000067748580.\n+S00000001a-000000000067748580.\n",
            32,
            b'+',
        ),
        (b"+R00000003--000000000000000000.\n", 0, b'+'),
        (b"+B00000000--000000003afe130e00.\n", 27, b'e'),
        (b"+E00000001-n010000000000000000.\n", 13, b'1'),
    ];
    for (bytes, offset, byte) in cases {
        let Err(JournalFault::Damaged(damage)) = read(rt.alloc(), bytes, 2)? else {
            panic!(rt; "no damage at {offset}");
        };
        assert_eq!(rt; damage.name.as_bytes(), b".JRN".as_slice());
        assert_eq!(rt; damage.offset, offset);
        assert_eq!(rt; damage.byte, Some(byte));
    }
    Ok(())
}

// The journal's file after a compaction of one of these bytes.
fn compacted(alloc: Global, bytes: &[u8]) -> Result<Vec<u8>, Fail> {
    let mut host = session(alloc, &[(".JRN", bytes)])?;
    let journal = compact(alloc, &mut host).ok().flatten();
    journal.ok_or("a journal")?;
    let text = host.reading(&name(".JRN")?).ok_or("a file")?;
    Ok(Vec::from_slice(alloc, text)?)
}

#[test]
fn a_job_started_and_ended(rt: HostRuntime) -> Result<(), Fail> {
    let marks = b"+S00000001a-000000000067748580.\n+E00000001-x000000000000000000.\n";
    let free = b"-..............................\n";
    let text = compacted(rt.alloc(), marks)?;
    assert_eq!(rt; text.len(), 8256);
    assert!(rt; text.as_slice().starts_with(marks));
    assert!(rt; text.as_slice().ends_with(free));
    Ok(())
}
