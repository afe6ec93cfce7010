//! Texts of marks, and the places of those that are damaged.
use cron_session::{cron_mark_text, minute_in};
use std::test::Fail;

#[test]
fn minutes_of_marks(rt: HostRuntime) -> Result<(), Fail> {
    let cases: [(&[u8], u32); 4] = [
        (b"00000000\n", 0),
        (b"01b9ebfe\n", 28_961_790),
        (b"0000000a\n", 10),
        (b"fbb3847f\n", 4_222_846_079),
    ];
    for (text, minute) in cases {
        assert_eq!(rt; minute_in(text).ok(), Some(minute), "{text:?}");
        assert_eq!(rt; cron_mark_text(minute).as_slice(), text);
    }
    Ok(())
}

#[test]
fn places_of_damage(rt: HostRuntime) -> Result<(), Fail> {
    let cases: [(&[u8], u64, Option<u8>); 12] = [
        (b"", 0, None),
        (b"0000000", 7, None),
        (b"00000000", 8, None),
        (b"00000000\n\n", 9, Some(b'\n')),
        (b"00000000 \n", 8, Some(b' ')),
        (b"000000000\n", 8, Some(b'0')),
        (b"A", 0, Some(b'A')),
        (b"0000000\n", 7, Some(b'\n')),
        (b"g0000000\n", 0, Some(b'g')),
        (b"fc000000\n", 1, Some(b'c')),
        (b"fbb38480\n", 6, Some(b'8')),
        (b"ffffffff\n", 1, Some(b'f')),
    ];
    for (text, offset, byte) in cases {
        let damage = minute_in(text).err().ok_or("a damage")?;
        assert_eq!(rt; damage.offset, offset, "{text:?}");
        assert_eq!(rt; damage.byte, byte, "{text:?}");
        assert_eq!(rt; damage.name.as_bytes(), b".CRON".as_slice());
    }
    Ok(())
}
