//! What is distinguished from what, on examples.
ghost use Rattle.std.specs.Prelude.{◌≡◌, IfOk};

use host_calls::Text;
use job_script::{
    Context, MAX_COMMANDS, ScriptFault, Variables, check, header, header_fault, is_job_text, write,
};
use std::alloc::{AllocError, Global};
use std::test::Fail;

fn context(alloc: Global, user: &str, directory: &str) -> Result<Context, AllocError>
    ensures { IfOk result (λ made. made.umask ≡ 18) }
{
    Ok(Context {
        user: Text::of(alloc, user)?,
        directory: Text::of(alloc, directory)?,
        umask: 0o022,
        environment: Variables::new(alloc),
    })
}

#[test]
fn places_of_faults(rt: HostRuntime) -> Result<(), Fail> {
    let cases: [(&str, Option<u64>); 6] = [
        ("", Some(0)),
        ("#!/bin/sh\n# at user=ann mail=2\n", Some(29)),
        (
            "#!/bin/sh\n# at user=abcdefghijklmnopqrstuvwxyzabcdefg mail=0\n",
            Some(52),
        ),
        ("#!/bin/sh\n# at user=-x mail=0\n", Some(20)),
        ("#!/bin/sh\n# at user=ann  mail=0\n", Some(24)),
        ("#!/bin/sh\n# at user=ann mail=0\numask 0022\n", None),
    ];
    for (text, place) in cases {
        assert_eq!(rt; header_fault(text.as_bytes()), place, "{text}");
        assert_eq!(rt;
            header(text.as_bytes()).is_some(),
            place.is_none(),
            "{text}"
        );
    }
    Ok(())
}

#[test]
fn contexts_that_no_job_takes_over(rt: HostRuntime) -> Result<(), Fail> {
    let alloc = rt.alloc();
    assert_eq!(rt; check(&context(alloc, "ann", "/home/ann")?), Ok(()));
    assert_eq!(rt;
        check(&context(alloc, "-x", "home")?),
        Err(ScriptFault::BadUser)
    );
    assert_eq!(rt;
        check(&context(alloc, "ann", "home")?),
        Err(ScriptFault::BadDirectory)
    );
    Ok(())
}

// What is said of a variable with a value of so many bytes, next to one that no job has.
fn checked_with(alloc: Global, length: usize) -> Result<Result<(), ScriptFault>, Fail> {
    let mut value = String::new(alloc);
    for _ in 0..length {
        value.push('v')?;
    }
    let mut caller = context(alloc, "ann", "/")?;
    caller.environment.push(alloc, "A", value.as_str())?;
    caller.environment.push(alloc, "TERM", "xterm")?;
    Ok(check(&caller))
}

#[test]
fn lines_of_variables_may_take_262_144_bytes(rt: HostRuntime) -> Result<(), Fail> {
    assert_eq!(rt; checked_with(rt.alloc(), 262_129)?, Ok(()));
    let over = checked_with(rt.alloc(), 262_130)?;
    assert_eq!(rt; over, Err(ScriptFault::EnvironmentTooLarge));
    Ok(())
}

#[test]
fn text_of_the_first_submission(rt: HostRuntime) -> Result<(), Fail> {
    let alloc = rt.alloc();
    let mut caller = context(alloc, "ann", "/home/ann")?;
    caller.environment.push(alloc, "HOME", "/home/ann")?;
    caller.environment.push(alloc, "TERM", "xterm")?;
    let text = write(alloc, &caller, false, b"echo hi\n")
        .ok()
        .ok_or("refused")?;
    let wanted =
        "#!/bin/sh\n# at user=ann mail=0\numask 0022\nHOME='/home/ann'; export HOME\ncd '/home/ann' || {\n\techo 'Execution directory inaccessible' >&2\n\texit 1\n}\necho hi\n";
    assert_eq!(rt; wanted.len(), 155);
    assert_eq!(rt; text.as_slice(), wanted.as_bytes());
    assert!(rt; is_job_text(wanted.as_bytes()));
    assert!(rt; !is_job_text(&wanted.as_bytes()[..100]));
    Ok(())
}

#[test]
fn quotes_in_a_value(rt: HostRuntime) -> Result<(), Fail> {
    let alloc = rt.alloc();
    let mut caller = context(alloc, "ann", "/")?;
    caller.environment.push(alloc, "NOTE", "it's $HOME\n")?;
    let text = write(alloc, &caller, true, b"").ok().ok_or("refused")?;
    let wanted =
        "#!/bin/sh\n# at user=ann mail=1\numask 0022\nNOTE='it'\\''s $HOME\n'; export NOTE\ncd '/' || {\n\techo 'Execution directory inaccessible' >&2\n\texit 1\n}\n";
    assert_eq!(rt; text.as_slice(), wanted.as_bytes());
    Ok(())
}

#[test]
fn commands_may_take_1_048_576_bytes(rt: HostRuntime) -> Result<(), Fail> {
    let alloc = rt.alloc();
    let caller = context(alloc, "ann", "/")?;
    let mut commands = Vec::new(alloc);
    for _ in 0..MAX_COMMANDS {
        commands.push(b'#')?;
    }
    assert!(rt; write(alloc, &caller, false, &commands).is_ok());
    commands.push(b'#')?;
    assert_eq!(rt;
        write(alloc, &caller, false, &commands).err(),
        Some(ScriptFault::TooLong)
    );
    Ok(())
}

#[test]
fn forms_of_job_texts(rt: HostRuntime) -> Result<(), Fail> {
    let cases: [(&str, bool); 15] = [
        ("umask 0022\ncd '/'", true),
        ("umask 022\ncd '/'", false),
        ("umask 1022\ncd '/'", false),
        ("umask 0028\ncd '/'", false),
        ("umask 0777\ncd '/a'\\''b'", true),
        ("umask 0022\ncd /", false),
        ("umask 0022\ncd 'home'", false),
        ("umask 0022\nA='s'; export A\nA=''; export A\ncd '/'", true),
        ("umask 0022\nA=''\\'''; export A\ncd '/'", true),
        ("umask 0022\nA=s; export A\ncd '/'", false),
        ("umask 0022\nA=''\\''s; export A\ncd '/'", false),
        ("umask 0022\nA='s''t'; export A\ncd '/'", false),
        ("umask 0022\nA='s'; export B\ncd '/'", false),
        ("umask 0022\nTERM='s'; export TERM\ncd '/'", false),
        ("umask 0022\n1A='s'; export 1A\ncd '/'", false),
    ];
    for (lines, is_text) in cases {
        let text = format!(in rt.alloc();
            "#!/bin/sh\n# at user=ann mail=0\n{lines} || {{\n\techo 'Execution directory inaccessible' >&2\n\texit 1\n}}\n"
        )?;
        assert_eq!(rt; is_job_text(text.as_bytes()), is_text, "{lines}");
    }
    Ok(())
}
