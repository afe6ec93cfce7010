//! Files of notes, and their first bad lines.
use mail_notes::{Note, NoticeState, NoticeStates};
use record_lines::{LinesFault, lines_text, read_lines, read_records_can_be_written};
use std::test::Fail;

#[test]
fn a_file_of_each_kind_of_line(rt: HostRuntime) -> Result<(), Fail> {
    let alloc = rt.alloc();
    let text =
        b"N 00000001 a0000000101b968a0 1 ann\nN 00000002 Z0000201b968a0 0 a.b_c-$+@\nS 00000001\nN 0000000a b0000000a01b968a0 1 root\nD 00000002\n".as_slice();
    let mut notice_states = NoticeStates::new(alloc);
    let read = read_lines::<Note, NoticeStates>(alloc, text, &mut notice_states)?;
    read_records_can_be_written::<Note>(text);
    let written = lines_text(alloc, read.as_slice())?;
    assert_eq!(rt; written.as_slice(), text);
    let waiting = notice_states.waiting(alloc)?;
    assert_eq!(rt; waiting.len(), 1);
    assert_eq!(rt; waiting[0].number, 10);
    assert_eq!(rt; waiting[0].file.as_bytes(), b"b0000000a01b968a0".as_slice());
    assert_eq!(rt; waiting[0].user.as_bytes(), b"root".as_slice());
    assert!(rt; waiting[0].always);
    assert!(rt; matches!(notice_states.state_of(1), Some(NoticeState::Closed)));
    assert!(rt; notice_states.state_of(3).is_none());
    Ok(())
}

#[test]
fn first_bad_lines(rt: HostRuntime) -> Result<(), Fail> {
    let cases: [(&[u8], usize); 19] = [
        (b"S 00000001\n", 0),
        (b"D 00000001\n", 0),
        (b"N 00000001 a0000000101b968a0 1 ann", 0),
        (b"N 00000001 a0000000101b968a0 1 ann\n\n", 35),
        (
            b"N 00000001 a0000000101b968a0 1 ann\nN 00000001 a0000000101b968a0 1 ann\n",
            35,
        ),
        (
            b"N 00000001 a0000000101b968a0 1 ann\nS 00000001\nD 00000001\n",
            46,
        ),
        (b"N 00000001 a0000000101b968a0 1 ann\nS 00000002\n", 35),
        (b"N 00000001 a0000000101b968a0 1 ann\nS 00000001 \n", 35),
        (b"n 00000001 a0000000101b968a0 1 ann\n", 0),
        (b"N 0000000G a0000000101b968a0 1 ann\n", 0),
        (b"N 00000001 a0000000201b968a0 1 ann\n", 0),
        (b"N 00000001 a0000000101b968a 1 ann\n", 0),
        (b"N 00000000 a0000000001b968a0 1 ann\n", 0),
        (b"N 00000001 a0000000101b968a0 2 ann\n", 0),
        (b"N 00000001 a0000000101b968a0 1 -nn\n", 0),
        (b"N 00000001 a0000000101b968a0 1 \n", 0),
        (b"N 00000001 a0000000101b968a0  1 ann\n", 0),
        (b"N 00000001  a0000000101b968a0 1 ann\n", 0),
        (b"N 00000001 a0000000101b968a0 1 a n\n", 0),
    ];
    for (text, offset) in cases {
        let mut notice_states = NoticeStates::new(rt.alloc());
        let fault = read_lines::<Note, NoticeStates>(rt.alloc(), text, &mut notice_states).err();
        assert_eq!(rt; fault, Some(LinesFault::At(offset)), "{text:?}");
    }
    Ok(())
}
