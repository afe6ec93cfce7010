//! The commands of entries' jobs.
use crate::readings::read;
use cron_minutes::commands_of;
use std::test::Fail;

#[test]
fn commands_of_a_command(rt: HostRuntime) -> Result<(), Fail> {
    let cases: [(&[u8], &[u8]); 12] = [
        (b"* * * * * a", b"a\n"),
        (b"* * * * * a%b%c", b"printf %s 'b\nc\n' | {\na\n}\n"),
        (b"* * * * * a%", b"printf %s '\n' | {\na\n}\n"),
        (b"* * * * * %a", b"printf %s 'a\n' | {\n\n}\n"),
        (b"* * * * * %%", b"printf %s '\n\n' | {\n\n}\n"),
        (b"* * * * * \\%", b"%\n"),
        (b"* * * * * \\\\%", b"\\%\n"),
        (b"* * * * * date +\\%H", b"date +%H\n"),
        (b"* * * * * a\\b\\", b"a\\b\\\n"),
        (b"* * * * * a%\\%%b\\", b"printf %s '%\nb\\\n' | {\na\n}\n"),
        (b"* * * * * a%it's", b"printf %s 'it'\\''s\n' | {\na\n}\n"),
        (
            b"* * * * * a\xff%\x80\r",
            b"printf %s '\x80\r\n' | {\na\xff\n}\n",
        ),
    ];
    for (text, commands) in cases {
        let entries = read(&rt, rt.alloc(), text)?;
        let entry = entries.as_slice().first().ok_or("no entry")?;
        let made = commands_of(rt.alloc(), entry)?;
        assert_eq!(rt; made.as_slice(), commands);
    }
    Ok(())
}
