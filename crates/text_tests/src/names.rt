//! Names at the edges of their rules.
use host_calls::Name;

#[test]
fn names_are_distinguished_from_other_bytes(rt: HostRuntime) {
    for &good in &[
        ".SEQ",
        ".TMP",
        "a0000101b968a0",
        "at.allow",
        "...",
        "-",
        "_",
    ] {
        assert!(rt; Name::of(good.as_bytes()).is_some(), "{good}");
    }
    for &bad in &["", ".", "..", "a/b", "a b", "a\n", "caf\u{e9}"] {
        assert!(rt; Name::of(bad.as_bytes()).is_none(), "{bad}");
    }
    assert!(rt; Name::of(&[b'x'; 64]).is_some());
    assert!(rt; Name::of(&[b'x'; 65]).is_none());
}

#[test]
fn names_stand_in_byte_order(rt: HostRuntime) {
    let seq = Name::of(b".SEQ").expect(&rt, ".SEQ");
    let job = Name::of(b"a0000101b968a0").expect(&rt, "a job");
    assert!(rt; seq < job);
    assert_eq!(rt; seq.as_bytes(), b".SEQ".as_slice());
}
