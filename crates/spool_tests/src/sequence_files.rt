//! The sequence file, by the table of its format.
use crate::calls::draw_next;
use crate::directories::{name, session};
use sequence_file::{SequenceFault, last};
use std::alloc::Global;
use std::test::Fail;

// The number that is read from a sequence file of this content.
fn read(alloc: Global, content: &str) -> Result<Result<u32, SequenceFault>, Fail> {
    let mut host = session(alloc, &[(".SEQ", content.as_bytes())])?;
    Ok(last(alloc, &mut host))
}

#[test]
fn sequence_files_and_their_numbers(rt: HostRuntime) -> Result<(), Fail> {
    for &(content, number) in &[
        ("00000\n", 0),
        ("00001\n", 1),
        ("fffff\n", 1_048_575),
        ("00000000\n", 0),
        ("00000001\n", 1),
        ("00100000\n", 1_048_576),
        ("ffffffff\n", 4_294_967_295),
    ] {
        let found = read(rt.alloc(), content)?.ok();
        assert_eq!(rt; found, Some(number), "{content}");
    }
    Ok(())
}

#[test]
fn sequence_files_and_their_damage(rt: HostRuntime) -> Result<(), Fail> {
    for &(content, offset, byte) in &[
        ("0000g\n", 4, Some(b'g')),
        ("00001", 5, None),
        ("00001\n\n", 6, Some(b'\n')),
        ("", 0, None),
        ("000001", 6, None),
        ("000001\n", 6, Some(b'\n')),
        ("00000001", 8, None),
        ("000000001\n", 8, Some(b'1')),
        ("00000001\n\n", 9, Some(b'\n')),
        ("0000000g\n", 7, Some(b'g')),
        ("0000F\n", 4, Some(b'F')),
        ("00000F00\n", 5, Some(b'F')),
    ] {
        let Err(SequenceFault::Damaged(damage)) = read(rt.alloc(), content)? else {
            panic!(rt; "no damage: {content}");
        };
        assert_eq!(rt; damage.name.as_bytes(), b".SEQ".as_slice());
        assert_eq!(rt; damage.offset, offset, "{content}");
        assert_eq!(rt; damage.byte, byte, "{content}");
    }
    Ok(())
}

// The sequence file after a draw on one of this content.
fn drawn(alloc: Global, content: &str) -> Result<Vec<u8>, Fail> {
    let mut host = session(alloc, &[(".SEQ", content.as_bytes())])?;
    let number = draw_next(alloc, &mut host).ok().flatten();
    number.ok_or("a number")?;
    let bytes = host.reading(&name(".SEQ")?).ok_or("a file")?;
    Ok(Vec::from_slice(alloc, bytes)?)
}

#[test]
fn numbers_are_written_in_the_new_form(rt: HostRuntime) -> Result<(), Fail> {
    for &(before, content) in &[
        ("00000\n", "00000001\n"),
        ("fffff\n", "00100000\n"),
        ("fffffffe\n", "ffffffff\n"),
    ] {
        assert_eq!(rt; drawn(rt.alloc(), before)?.as_slice(), content.as_bytes());
    }
    Ok(())
}
