//! Texts of the system: the status of a process, the table of users and files of zones.
use caller_environment::{home_in, name_in_user_line, rule_in, user_line, user_number_in};
use std::test::Fail;

#[test]
fn user_numbers(rt: HostRuntime) -> Result<(), Fail> {
    let cases: [(&[u8], Option<u32>); 7] = [
        (
            b"Name:\tat\nUmask:\t0022\nUid:\t1000\t1001\t1002\t1003\nGid:\t5\t6\t7\t8\n",
            Some(1001),
        ),
        (b"Uid:\t0\t0\t0\t0\n", Some(0)),
        (
            b"Name:\tUid:\t9\t9\nUid:\t4294967295\t4294967295\t1\t1",
            Some(4_294_967_295),
        ),
        (b"Uid:\t0\t4294967296\t0\t0\n", None),
        (b"Uid:\t0\n", None),
        (b"Uid:\t0\t-1\t0\t0\n", None),
        (b"uid:\t0\t1\t0\t0\n", None),
    ];
    for (status, number) in cases {
        assert_eq!(rt; user_number_in(status), number, "{status:?}");
    }
    Ok(())
}

const TABLE: &[u8] = b"root:x:0:0:root:/root:/bin/bash\n\
    toor:*:0:0::/root:\n\
    mary:x:1000:1000:Mary \xe9:/home/mary:/bin/sh\n\
    short:x:1001\n\
    plus:x:+1002:1:::\n\
    mary:x:1003:1003::/home/other:/bin/sh\n";

#[test]
fn users(rt: HostRuntime) -> Result<(), Fail> {
    let cases: [(u32, &[u8], &[u8], &[u8]); 6] = [
        (0, b"toor", b"toor", b"/root"),
        (0, b"mary", b"root", b"/root"),
        (1000, b"", b"mary", b"/home/mary"),
        (1003, b"mary", b"mary", b"/home/other"),
        (1001, b"", b"short", b"none"),
        (1002, b"plus", b"none", b"none"),
    ];
    for (number, name, found, home) in cases {
        let line = user_line(TABLE, number, name).unwrap_or(b"none");
        assert_eq!(rt; name_in_user_line(line), found, "{number}");
        assert_eq!(rt; home_in(line).unwrap_or(b"none"), home, "{number}");
    }
    Ok(())
}

#[test]
fn rules(rt: HostRuntime) -> Result<(), Fail> {
    let cases: [(&[u8], &[u8]); 9] = [
        (
            b"TZif2\0\0\n\0\0\nCET-1CEST,M3.5.0,M10.5.0/3\n",
            b"CET-1CEST,M3.5.0,M10.5.0/3",
        ),
        (b"TZif2\n<+0330>-3:30\n", b"<+0330>-3:30"),
        (b"TZif2\nUTC0\nEST5", b"none"),
        (b"TZif2\n\n", b"none"),
        (b"TZif2\n-3\n", b"none"),
        (b"TZif2\nEST 5\n", b"none"),
        (b"TZig2\nEST5\n", b"none"),
        (
            b"TZif2\nA23456789012345678901234567890123456789012345678901234567890123\n",
            b"A23456789012345678901234567890123456789012345678901234567890123",
        ),
        (
            b"TZif2\nA234567890123456789012345678901234567890123456789012345678901234x\n",
            b"none",
        ),
    ];
    for (file, rule) in cases {
        assert_eq!(rt; rule_in(file).unwrap_or(b"none"), rule, "{file:?}");
    }
    Ok(())
}
