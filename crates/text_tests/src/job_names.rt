//! Names of job files, as the spool has them.
use job_name::JobName;

#[test]
fn first_submission(rt: HostRuntime) {
    for &(name, new_form) in &[("a0000000101b968a0", true), ("a0000101b968a0", false)] {
        let job = JobName::read(name.as_bytes()).expect(&rt, "a job");
        assert_eq!(rt; job.queue, b'a');
        assert_eq!(rt; job.number, 1);
        assert_eq!(rt; job.minute, 28_928_160);
        assert_eq!(rt; job.new_form, new_form);
        assert_eq!(rt; job.text().as_slice(), name.as_bytes());
        assert_eq!(rt; job.name().as_bytes(), name.as_bytes());
    }
}

#[test]
fn names_at_the_edges_of_their_ranges(rt: HostRuntime) {
    for &good in &[
        "A0000100000000",
        "Zffffffbb3847f",
        "zfffff00000000",
        "A0000000100000000",
        "Zfffffffffbb3847f",
        "a0010000001b968a0",
    ] {
        let job = JobName::read(good.as_bytes()).expect(&rt, good);
        assert_eq!(rt; job.text().as_slice(), good.as_bytes());
    }
    for &bad in &[
        "",
        "a0000101b968a",
        "a0000101b968a00",
        "a00000101b968a00",
        "a000000101b968a000",
        "=0000101b968a0",
        "10000101b968a0",
        "a0000001b968a0",
        "a0000000001b968a0",
        "a0000A01b968a0",
        "a0000000A01b968a0",
        "a000 101b968a0",
        "a0000101b968ag",
        "a00001FBb381b0",
        "a00001fbb38480",
        "a00000001fbb38480",
        ".SEQ",
        "README",
    ] {
        assert!(rt; JobName::read(bad.as_bytes()).is_none(), "{bad}");
    }
}
