//! Files, their records and their first bad lines.
use crate::{Distinct, Letter, Number, Rising};
use record_lines::{LinesFault, lines_text, read_lines, read_records_can_be_written};
use std::alloc::Global;
use std::test::Fail;

#[test]
fn letters_in_order(rt: HostRuntime) -> Result<(), Fail> {
    let alloc = rt.alloc();
    let mut last = Rising::default();
    let read = read_lines::<Letter, Rising>(alloc, b"a\nc\nz\n", &mut last)?;
    let letters = [
        Letter { byte: b'a' },
        Letter { byte: b'c' },
        Letter { byte: b'z' },
    ];
    assert_eq!(rt; read.as_slice(), letters.as_slice());
    let text = lines_text(alloc, letters.as_slice())?;
    assert_eq!(rt; text.as_slice(), b"a\nc\nz\n".as_slice());
    Ok(())
}

#[test]
fn first_bad_lines_of_letters(rt: HostRuntime) -> Result<(), Fail> {
    let cases: [(&[u8], usize); 9] = [
        (b"a", 0),
        (b"a\nb", 2),
        (b"a\n\nb\n", 2),
        (b"\n", 0),
        (b"a\na\n", 2),
        (b"b\na\nB\n", 2),
        (b"a\nbc\nd\n", 2),
        (b"a\nb\nC\nd", 4),
        (b"a\nb\nc\n\xff\n", 6),
    ];
    for (text, offset) in cases {
        let mut last = Rising::default();
        let fault = read_lines::<Letter, Rising>(rt.alloc(), text, &mut last).err();
        assert_eq!(rt; fault, Some(LinesFault::At(offset)), "{text:?}");
    }
    Ok(())
}

#[test]
fn numbers_once(rt: HostRuntime) -> Result<(), Fail> {
    let alloc = rt.alloc();
    let text = b"0000000a\nffffffff\n00000000\n".as_slice();
    let mut kept = Distinct::new(alloc);
    let read = read_lines::<Number, Distinct>(alloc, text, &mut kept)?;
    let numbers = [
        Number { number: 10 },
        Number {
            number: 4_294_967_295,
        },
        Number { number: 0 },
    ];
    assert_eq!(rt; read.as_slice(), numbers.as_slice());
    read_records_can_be_written::<Number>(text);
    assert_eq!(rt; lines_text(alloc, read.as_slice())?.as_slice(), text);
    Ok(())
}

#[test]
fn first_bad_lines_of_numbers(rt: HostRuntime) -> Result<(), Fail> {
    let cases: [(&[u8], usize); 5] = [
        (b"0000000A\n", 0),
        (b"00000001\n00000001\n", 9),
        (b"00000001\n00000002", 9),
        (b"00000001\n0000002\n00000003\n", 9),
        (b"00000001\n00000002\n000000003\n", 18),
    ];
    for (text, offset) in cases {
        let mut kept = Distinct::new(rt.alloc());
        let fault = read_lines::<Number, Distinct>(rt.alloc(), text, &mut kept).err();
        assert_eq!(rt; fault, Some(LinesFault::At(offset)), "{text:?}");
    }
    Ok(())
}

#[test]
fn no_bytes_have_no_records(rt: HostRuntime) -> Result<(), Fail> {
    let alloc: Global = rt.alloc();
    let mut last = Rising::default();
    let read = read_lines::<Letter, Rising>(alloc, b"", &mut last)?;
    assert!(rt; read.is_empty());
    Ok(())
}
