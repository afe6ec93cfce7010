//! Numbers of the formats, as they are written there.
use text_reader::{digit_of, digits_of, read_hex, write_hex};

#[test]
fn numbers_and_their_digits(rt: HostRuntime) {
    for &(digits, number) in &[
        ("00001", 1),
        ("fffff", 1_048_575),
        ("01b968a0", 28_928_160),
        ("0000000067748580", 1_735_689_600),
        ("ffffffffffffffff", u64::MAX),
    ] {
        assert_eq!(rt; read_hex(digits.as_bytes()), Some(number), "{digits}");
    }
    for &bad in &["0000g", "0000F", "+0001", " 0001", "0x001", "00001\n"] {
        assert_eq!(rt; read_hex(bad.as_bytes()), None, "{bad}");
    }
}

#[test]
fn digits_are_written_with_leading_zeros(rt: HostRuntime) {
    let mut out = *b"........";
    write_hex(&mut out, 28_928_160);
    assert_eq!(rt; out, *b"01b968a0");
    assert_eq!(rt; digit_of(b'/'), None);
    assert_eq!(rt; digit_of(b'`'), None);
}

#[test]
fn eight_digits_of_a_number(rt: HostRuntime) {
    assert_eq!(rt; digits_of(1), *b"00000001");
    assert_eq!(rt; digits_of(28_961_790), *b"01b9ebfe");
    assert_eq!(rt; digits_of(4_222_846_079), *b"fbb3847f");
    assert_eq!(rt; digits_of(u32::MAX), *b"ffffffff");
}
