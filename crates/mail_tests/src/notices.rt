//! The text of a notice, and its file.
use host_calls::{Ending, Name};
use listing_text::TurnStepText;
use mail_notes::{NotedJob, notice_name, notice_text};
use spool_model::UserName;
use std::test::Fail;

#[test]
fn the_notice_of_a_job(rt: HostRuntime) -> Result<(), Fail> {
    let alloc = rt.alloc();
    let job = NotedJob {
        number: 1,
        file: Name::of(b"a0000000101b968a0").ok_or("no name")?,
        always: true,
        user: UserName::of(b"ann").ok_or("no user")?,
    };
    let end = TurnStepText::Ended(1, Ending::Exit(0));
    let text = notice_text(alloc, b"/usr/sbin/sendmail", &job, &end)?;
    let wanted =
        b"#!/bin/sh\n# at notice\nout=\"${0%/*}.out/a0000000101b968a0\"\n{ echo 'job 1 exit 0'; cat \"$out\"; } | '/usr/sbin/sendmail' 'ann'\n".as_slice();
    assert_eq!(rt; text.as_slice(), wanted);
    assert_eq!(rt; text.as_slice().len(), 124);
    let quiet = NotedJob {
        always: false,
        ..job
    };
    let text = notice_text(alloc, b"/usr/it's", &quiet, &TurnStepText::Interrupted(1))?;
    let wanted =
        b"#!/bin/sh\n# at notice\nout=\"${0%/*}.out/a0000000101b968a0\"\ntest -s \"$out\" || exit 0\n{ echo 'job 1 interrupted'; cat \"$out\"; } | '/usr/it'\\''s' 'ann'\n".as_slice();
    assert_eq!(rt; text.as_slice(), wanted);
    assert_eq!(rt; notice_name(0x1f).as_bytes(), b"mail.0000001f".as_slice());
    Ok(())
}
