//! Files of records, and their first bad lines.
use at_account::{AccountRecord, Ledger};
use record_lines::{LinesFault, lines_text, read_lines, read_records_can_be_written};
use std::test::Fail;

#[test]
fn a_file_of_each_kind_of_line(rt: HostRuntime) -> Result<(), Fail> {
    let alloc = rt.alloc();
    let text =
        b"A 00000001 a ann\nS 00000001\nA ffffffff Z a.b_c-$+@\nF 00000001\nN ffffffff\nA 0000000a b root\nI 0000000a\nA 00000002 c ann\nR 00000002\nA 00000003 c ann\nL 00000003\n".as_slice();
    let mut ledger = Ledger::new(alloc);
    let read = read_lines::<AccountRecord, Ledger>(alloc, text, &mut ledger)?;
    read_records_can_be_written::<AccountRecord>(text);
    let written = lines_text(alloc, read.as_slice())?;
    assert_eq!(rt; written.as_slice(), text);
    let standing = ledger.state_of(1).ok_or("not seen")?;
    assert!(rt; standing.started && standing.closed);
    assert_eq!(rt; standing.owner.user.as_bytes(), b"ann".as_slice());
    assert!(rt; ledger.state_of(4).is_none());
    Ok(())
}

#[test]
fn first_bad_lines(rt: HostRuntime) -> Result<(), Fail> {
    let cases: [(&[u8], usize); 30] = [
        (b"A 00000001 a ann", 0),
        (b"A 00000001 a ann\nS 00000001", 17),
        (b"A 00000001 a ann\n\n", 17),
        (b"A 00000000 a ann\n", 0),
        (b"A 0000000G a ann\n", 0),
        (b"A 0000000A a ann\n", 0),
        (b"A 0000001 a ann\n", 0),
        (b"A 000000001 a ann\n", 0),
        (b"A 00000001 1 ann\n", 0),
        (b"A 00000001 a  ann\n", 0),
        (b"A 00000001  a ann\n", 0),
        (b"A  0000001 a ann\n", 0),
        (b"A 00000001 a -nn\n", 0),
        (b"A 00000001 a \n", 0),
        (b"A 00000001 a a/b\n", 0),
        (b"A 00000001 a abcdefghijklmnopqrstuvwxyzabcdefg\n", 0),
        (b"A 00000001\n", 0),
        (b"a 00000001 a ann\n", 0),
        (b"B 00000001\n", 0),
        (b"A 00000001 a ann\nS 00000001 \n", 17),
        (b"A 00000001 a ann\nS00000001\n", 17),
        (b"S 00000001\n", 0),
        (b"F 00000001\n", 0),
        (b"A 00000001 a ann\nA 00000001 a ann\n", 17),
        (b"A 00000001 a ann\nS 00000001\nS 00000001\n", 28),
        (b"A 00000001 a ann\nR 00000001\nS 00000001\n", 28),
        (b"A 00000001 a ann\nN 00000001\nL 00000001\n", 28),
        (b"A 00000001 a ann\nI 00000001\nA 00000001 a ann\n", 28),
        (b"A 00000001 a ann\nL 00000002\n", 17),
        (b"A 00000001 a ann\nF 00000001 a\n", 17),
    ];
    for (text, offset) in cases {
        let mut ledger = Ledger::new(rt.alloc());
        let fault = read_lines::<AccountRecord, Ledger>(rt.alloc(), text, &mut ledger).err();
        assert_eq!(rt; fault, Some(LinesFault::At(offset)), "{text:?}");
    }
    Ok(())
}
