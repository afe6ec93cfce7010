//! Rests: those that last as long as they are requested, and those that end at a second of the clock or at a change.
use crate::outside::Outside;
use crate::words::{clear, fresh_path, line, named, shell};
use host_calls::{Name, Readings};
use std::alloc::Global;
use std::fs::{File, Files, create_dir};
use std::io;
use std::test::Fail;
use std::time::{Clock, Duration};
use unix_host::UnixReadings;

#[test]
fn a_rest_is_asked_and_a_clock_after_all_seconds_is_none(rt: HostRuntime) -> Result<(), Fail> {
    let (input, writer) = io::pipe(&rt)?;
    drop(writer);
    let outside = Outside::at(&rt, Duration::MAX, 0, &input);
    let mut readings = UnixReadings::make(&outside);
    readings.rest(7);
    assert_eq!(rt; outside.rested.get(), Duration::from_secs(7));
    assert_eq!(rt; readings.now(), -1);
    Ok(())
}

// The readings of an outside that watch these files of a directory.
fn watching<R: Files<File = File> + Clock + Drop>(
    outside: R,
    alloc: Global,
    directory: &str,
    files: &[Name],
) -> Result<UnixReadings<R>, Fail> {
    if !directory.starts_with('/') {
        return Err(Fail::from("a relative path"));
    }
    Ok(UnixReadings::watching(outside, alloc, directory, files)?)
}

// What a rest of so many seconds lasts, in milliseconds, where the clock told the first time at the last `now`, and the second
// one as the rest began, and goes at this speed.
fn rested(rt: &HostRuntime, times: (u64, u64), speed: u32, seconds: u32) -> Result<u128, Fail> {
    let (input, writer) = io::pipe(rt)?;
    drop(writer);
    let outside = Outside::at(rt, Duration::from_millis(times.0), speed, &input);
    let mut readings = watching(&outside, rt.alloc(), "/nowhere", &[])?;
    readings.now();
    outside.time.set(Duration::from_millis(times.1));
    readings.rest(seconds);
    Ok(outside.rested.get().as_millis())
}

// A rest ends at a full second of the clock: at once where the turn before it took longer, and never after more than its
// seconds, where the clock was set back or stands still.
#[test]
fn a_rest_ends_at_a_second_of_the_clock(rt: HostRuntime) -> Result<(), Fail> {
    for &(now, begin, speed, seconds, wanted) in &[
        (30_400, 30_400, 1, 30, 29_600),
        (30_400, 32_900, 1, 30, 27_100),
        (30_000, 30_000, 1, 30, 30_000),
        (59_999, 59_999, 1, 1, 1),
        (30_400, 30_400, 1, 0, 0),
        (30_400, 60_000, 1, 30, 0),
        (30_400, 75_000, 1, 30, 0),
        (30_400, 10_000, 1, 30, 30_000),
        (30_400, 30_400, 0, 30, 30_000),
        (30_400, 30_400, 2, 30, 14_850),
    ] {
        let rested = rested(&rt, (now, begin), speed, seconds)?;
        assert_eq!(rt; rested, wanted, "at {now}, {begin}");
    }
    Ok(())
}

// How many milliseconds two rests of ten seconds last, once this line of the shell ran in a directory of which one file is
// watched.
fn rested_after(
    rt: &HostRuntime,
    directory: &str,
    file: &Name,
    text: &str,
) -> Result<(u128, u128), Fail> {
    let (input, writer) = io::pipe(rt)?;
    drop(writer);
    let outside = Outside::at(rt, Duration::from_millis(30_400), 1, &input);
    let mut readings = watching(&outside, rt.alloc(), directory, &[*file])?;
    readings.now();
    line(rt, text, directory)?;
    readings.rest(10);
    let first = outside.rested.get();
    readings.rest(10);
    let second = outside.rested.get().saturating_sub(first);
    Ok((first.as_millis(), second.as_millis()))
}

// A change of the watched file ends a rest after its first second, and the rest after that lasts to its end.
#[test]
fn a_rest_ends_where_a_watched_file_has_changed(rt: HostRuntime) -> Result<(), Fail> {
    let path = fresh_path(&rt, "watched")?;
    let sequence = named(&rt, ".SEQ");
    create_dir(&rt, path.as_str())?;
    for &(text, wanted) in &[
        (":", (9_600, 10_000)),
        ("echo 1 >\"$1/.SEQ\"", (1_000, 9_600)),
        (
            "echo 2 >\"$1/.TMP\"; mv \"$1/.TMP\" \"$1/.SEQ\"",
            (1_000, 9_600),
        ),
        ("sleep 0.02; echo 3 >\"$1/.SEQ\"", (1_000, 9_600)),
        ("echo 4 >\"$1/a\"", (9_600, 10_000)),
        ("cat \"$1/.SEQ\"", (9_600, 10_000)),
        ("rm \"$1/.SEQ\"", (1_000, 9_600)),
    ] {
        let rested = rested_after(&rt, path.as_str(), &sequence, text)?;
        assert_eq!(rt; rested, wanted, "{text}");
    }
    clear(&rt, path.as_str())
}

// How long a rest of a minute lasts by the system's clock, where these files of a directory are watched.
fn time_of_rest(rt: &HostRuntime, directory: &str, files: &[Name]) -> Result<Duration, Fail> {
    let mut readings = watching(rt.clone()?, rt.alloc(), directory, files)?;
    let before = rt.monotonic()?;
    readings.rest(60);
    Ok(rt.monotonic()?.saturating_sub(before))
}

#[test]
fn a_rest_ends_while_it_lasts(rt: HostRuntime) -> Result<(), Fail> {
    let path = fresh_path(&rt, "changing")?;
    let text = "mkdir \"$1\"; (sleep 1.5; : >\"$1/.JRN\") >/dev/null 2>&1 &";
    let files = [named(&rt, ".SEQ"), named(&rt, ".JRN")];
    line(&rt, text, path.as_str())?;
    let rested = time_of_rest(&rt, path.as_str(), &files)?;
    clear(&rt, path.as_str())?;
    assert!(rt; rested >= Duration::from_secs(1) && rested < Duration::from_secs(20));
    Ok(())
}

// How many milliseconds two rests of ten seconds last next to a child of this process that runs this line of the
// shell.
fn rested_beside(rt: &HostRuntime, text: &str) -> Result<(u128, u128), Fail> {
    let (input, writer) = io::pipe(rt)?;
    drop(writer);
    let outside = Outside::at(rt, Duration::from_millis(30_400), 1, &input);
    let mut readings = watching(&outside, rt.alloc(), "/nowhere", &[])?;
    readings.now();
    let mut child = shell(rt, text)?;
    // It ends meanwhile, or goes on for longer than that.
    line(rt, "sleep 0.5", "")?;
    readings.rest(10);
    let first = outside.rested.get();
    readings.rest(10);
    let second = outside.rested.get().saturating_sub(first);
    child.kill()?;
    child.wait()?;
    Ok((first.as_millis(), second.as_millis()))
}

// The end of a child ends one rest after its first second, whatever its name is, and no other.
#[test]
fn the_end_of_a_child_ends_one_rest(rt: HostRuntime) -> Result<(), Fail> {
    for &(text, wanted) in &[
        ("sleep 5", (9_600, 10_000)),
        (":", (1_000, 9_600)),
        ("kill -9 $$", (1_000, 9_600)),
        ("printf '(x) R 1' >/proc/self/comm; exit 3", (1_000, 9_600)),
    ] {
        let rested = rested_beside(&rt, text)?;
        assert_eq!(rt; rested, wanted, "{text}");
    }
    Ok(())
}
