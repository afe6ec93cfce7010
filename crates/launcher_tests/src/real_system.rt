//! Each question on a real directory, with what a line of the shell sees.
ghost use Rattle.std.specs.Prelude.{◌≡◌};

use std::process::Command;
use std::test::Fail;
use std::{io, process, str};
use system_calls::{FileKind, FileRead, LockAttempt, ProcessSystem, System, TracedSystem};

// What a line of the shell prints, whose `$1` is the path.
fn line(rt: &HostRuntime, text: &str, path: &str) -> io::Result<Vec<u8>> {
    let mut shell = Command::new(rt.alloc(), "/bin/sh")?;
    shell.args(&["-c", text, "sh", path])?;
    Ok(shell.output(rt)?.stdout)
}

// A new directory of this test.
fn fresh(rt: &HostRuntime, test: &str) -> Result<String, Fail> {
    let own = process::id(rt.process());
    let path = format!(in rt.alloc(); "/tmp/system_calls_{own}_{test}")?;
    line(rt, "rm -rf \"$1\" && mkdir \"$1\"", path.as_str())?;
    Ok(path)
}

fn system(rt: &HostRuntime) -> TracedSystem<ProcessSystem> {
    TracedSystem::new(ProcessSystem::new(*rt))
}

#[test]
fn statuses(rt: HostRuntime) -> Result<(), Fail> {
    let top = fresh(&rt, "statuses")?;
    line(
        &rt,
        "cd \"$1\" && touch f && ln f g && chmod 640 f && ln -s f l && mkfifo p",
        top.as_str(),
    )?;
    let mut system = system(&rt);
    for (name, followed, itself) in [
        ("f", Some(FileKind::File), Some(FileKind::File)),
        ("l", Some(FileKind::File), Some(FileKind::Link)),
        ("p", Some(FileKind::Other), Some(FileKind::Other)),
        (".", Some(FileKind::Directory), Some(FileKind::Directory)),
        ("n", None, None),
    ] {
        let path = format!(in rt.alloc(); "{top}/{name}")?;
        let status = system.status(path.as_str());
        assert_eq!(rt; status.map(|status| status.kind), followed, "{name}");
        let status = system.link_status(path.as_str());
        assert_eq!(rt; status.map(|status| status.kind), itself, "{name}");
    }
    let path = format!(in rt.alloc(); "{top}/f")?;
    let status = system.status(path.as_str()).ok_or("no status")?;
    assert_eq!(rt; status.links, 2);
    assert_eq!(rt; status.mode & 0o777, 0o640);
    let seen = format!(in rt.alloc(); "{} {} {}\n", status.owner, status.device, status.inode)?;
    let wanted = line(&rt, "stat -c '%u %d %i' \"$1/f\"", top.as_str())?;
    assert_eq!(rt; seen.as_bytes(), wanted.as_slice());
    line(&rt, "rm -rf \"$1\"", top.as_str())?;
    Ok(())
}

#[test]
fn files_are_made_and_read(rt: HostRuntime) -> Result<(), Fail> {
    let top = fresh(&rt, "made")?;
    let mut system = system(&rt);
    let directory = format!(in rt.alloc(); "{top}/d")?;
    let file = format!(in rt.alloc(); "{top}/d/f")?;
    assert!(rt; system.make_directory(directory.as_str()));
    assert!(rt; !system.make_directory(directory.as_str()));
    assert!(rt; system.sync_directory(directory.as_str()));
    assert!(rt; !system.sync_directory(file.as_str()));
    assert!(rt; system.put_file(file.as_str()));
    assert!(rt; system.put_file(file.as_str()));
    assert!(rt; !system.create_file(file.as_str()));
    let seen = line(
        &rt,
        "cd \"$1\" && stat -c %a d d/f && printf abc >d/f",
        top.as_str(),
    )?;
    assert_eq!(rt; seen.as_slice(), b"700\n600\n".as_slice());
    assert!(rt; matches!(system.read_file(file.as_str(), 2), FileRead::TooLong));
    assert!(rt;
        matches!(
            system.read_file(directory.as_str(), 9),
            FileRead::Unreadable
        )
    );
    match system.read_file(file.as_str(), 3) {
        FileRead::Whole(bytes) => assert_eq!(rt; bytes.as_slice(), b"abc".as_slice()),
        _ => assert!(rt; false),
    }
    line(&rt, "rm -rf \"$1\"", top.as_str())?;
    assert!(rt; matches!(system.read_file(file.as_str(), 3), FileRead::Absent));
    assert!(rt; !system.create_file(file.as_str()));
    assert!(rt; !system.put_file(file.as_str()));
    Ok(())
}

#[test]
fn locks_of_files(rt: HostRuntime) -> Result<(), Fail> {
    let top = fresh(&rt, "locks")?;
    let file = format!(in rt.alloc(); "{top}/f")?;
    let mut one = system(&rt);
    let mut other = system(&rt);
    assert_eq!(rt; one.lock_file(file.as_str()), LockAttempt::Absent);
    assert!(rt; one.await_lock(file.as_str()));
    assert_eq!(rt; other.lock_file(file.as_str()), LockAttempt::Taken);
    one.release_lock();
    assert_eq!(rt; other.lock_file(file.as_str()), LockAttempt::Held);
    assert_eq!(rt; one.lock_file(file.as_str()), LockAttempt::Taken);
    assert_eq!(rt; other.lock_directory(top.as_str()), LockAttempt::Held);
    assert_eq!(rt; one.lock_directory(top.as_str()), LockAttempt::Taken);
    line(&rt, "rm -rf \"$1\"", top.as_str())?;
    Ok(())
}

#[test]
fn process_and_paths(rt: HostRuntime) -> Result<(), Fail> {
    let top = fresh(&rt, "paths")?;
    line(&rt, "cd \"$1\" && mkdir d && ln -s d l", top.as_str())?;
    let mut system = system(&rt);
    let link = format!(in rt.alloc(); "{top}/l")?;
    let path = system.canonical_path(link.as_str()).ok_or("no path")?;
    let wanted = line(&rt, "printf %s \"$(realpath \"$1/l\")\"", top.as_str())?;
    assert_eq!(rt; path.as_str().as_bytes(), wanted.as_slice());
    line(&rt, "rm -rf \"$1\"", top.as_str())?;
    assert!(rt; system.canonical_path(link.as_str()).is_none());
    let directory = system.working_directory().ok_or("no directory")?;
    let wanted = line(&rt, "printf %s \"$(pwd -P)\"", ".")?;
    assert_eq!(rt; directory.as_str().as_bytes(), wanted.as_slice());
    assert!(rt; system.variable("NO_SUCH_VARIABLE")?.is_none());
    assert_eq!(rt; system.process_number(), process::id(rt.process()));
    let users = system.look_up_user("0").ok_or("no users")?;
    assert!(rt; users.as_slice().starts_with(b"root:"));
    assert!(rt;
        system
            .seconds()
            .is_some_and(|seconds| seconds > 1_700_000_000)
    );
    Ok(())
}
