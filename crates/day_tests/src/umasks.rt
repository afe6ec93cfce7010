//! The umask in the status of a process.
use process_input::umask_in;

#[test]
fn umasks(rt: HostRuntime) {
    for &(status, umask) in &[
        ("Name:\tat\nUmask:\t0077\nState:\tR\n", Some(0o077)),
        ("Name:\tat\nUmask:\t0000\n", Some(0)),
        ("Umask:\t0022\n", None),
        ("Name:\tat\nUmask:\t1000\n", None),
    ] {
        assert_eq!(rt; umask_in(status), umask);
    }
}
