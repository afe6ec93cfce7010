//! Readings, inputs and sinks.
use crate::outside::Outside;
use crate::words::{clear, fresh_path, line};
use host_calls::{InputFault, Inputs, Readings, Sink, SinkFault};
use load_reading::hundredths;
use std::alloc::Global;
use std::fmt::Display;
use std::fs::File;
use std::io::{self, Write};
use std::test::Fail;
use std::time::Duration;
use unix_host::{UnixErr, UnixInputs, UnixOut, UnixReadings};

#[test]
fn the_clock_and_the_load_are_read(rt: HostRuntime) -> Result<(), Fail> {
    let mut readings = UnixReadings::make(rt.clone()?);
    let before = readings.now();
    readings.rest(0);
    assert!(rt; before > 1_700_000_000 && readings.now() >= before);
    // The system reckons it anew every five seconds.
    let earlier = line(&rt, "cat \"$1\"", "/proc/loadavg")?;
    let load = readings.load();
    let later = line(&rt, "cat \"$1\"", "/proc/loadavg")?;
    assert!(rt; load == hundredths(&earlier) || load == hundredths(&later));
    assert!(rt; load.is_some());
    Ok(())
}

// How many bytes a file gives, of which at most so many are requested.
fn count_of<I: Inputs>(
    alloc: Global,
    inputs: &mut I,
    path: &str,
    most: usize,
) -> Result<usize, InputFault> {
    let bytes = inputs.file(alloc, path, most)?;
    Ok(bytes.as_slice().len())
}

#[test]
fn the_first_bytes_of_a_file_are_read(rt: HostRuntime) -> Result<(), Fail> {
    let path = fresh_path(&rt, "input")?;
    line(&rt, "head -c 10000 /dev/zero >\"$1\"", path.as_str())?;
    let mut inputs = UnixInputs::make(rt.clone()?);
    for &(most, count) in &[
        (0, 0),
        (5, 5),
        (4096, 4096),
        (9_999, 9_999),
        (20_000, 10_000),
    ] {
        assert_eq!(rt;
            count_of(rt.alloc(), &mut inputs, path.as_str(), most),
            Ok(count)
        );
    }
    let nothing = inputs.standard(rt.alloc(), 0).expect(&rt, "nothing");
    assert!(rt; nothing.as_slice().is_empty());
    drop(nothing);
    clear(&rt, path.as_str())
}

#[test]
fn what_is_no_file_is_a_fault(rt: HostRuntime) -> Result<(), Fail> {
    let mut inputs = UnixInputs::make(rt.clone()?);
    for &path in &["/tmp/streams_of_nobody", "/tmp"] {
        let answer = count_of(rt.alloc(), &mut inputs, path, 9);
        assert_eq!(rt; answer, Err(InputFault::Failed), "{path}");
    }
    Ok(())
}

// Each read gives a part, after an interruption.
#[test]
fn standard_input_is_read_part_by_part(rt: HostRuntime) -> Result<(), Fail> {
    let alloc = rt.alloc();
    let (input, mut writer) = io::pipe(&rt)?;
    Write::write_all(&mut writer, b"echo hi\n")?;
    drop(writer);
    let outside = Outside::at(&rt, Duration::ZERO, 0, &input);
    let mut inputs = UnixInputs::make(&outside);
    for &(most, wanted) in &[(4, "echo"), (100, " hi\n"), (100, "")] {
        let bytes = inputs.standard(alloc, most).expect(&rt, "bytes");
        assert_eq!(rt; bytes.as_slice(), wanted.as_bytes());
    }
    Ok(())
}

/// A file in the place of standard output and standard error.
#[derive(Drop)]
struct Stream(File);

impl Print for Stream {
    fn print<D: Display + Drop>(&self, value: D) -> io::Result<()> {
        write!(&mut &self.0, "{value}")
    }

    fn println<D: Display + Drop>(&self, value: D) -> io::Result<()> {
        writeln!(&mut &self.0, "{value}")
    }

    fn write_all(&self, bytes: &[u8]) -> io::Result<()> {
        Write::write_all(&mut &self.0, bytes)
    }
}

impl Eprint for Stream {
    fn eprint<D: Display + Drop>(&self, value: D) -> io::Result<()> {
        self.print(value)
    }

    fn eprintln<D: Display + Drop>(&self, value: D) -> io::Result<()> {
        self.println(value)
    }
}

#[test]
fn a_full_device_is_a_fault(rt: HostRuntime) -> Result<(), Fail> {
    let device = File::options().write(true).open(&rt, "/dev/full")?;
    let mut out = UnixOut::make(Stream(device.try_clone()?));
    let mut err = UnixErr::make(Stream(device));
    let first = out.put(rt.alloc(), b"hi\n");
    let second = err.put(rt.alloc(), b"hi\n");
    assert!(rt; first == Err(SinkFault::Failed) && second == Err(SinkFault::Failed));
    Ok(())
}

#[test]
fn a_pipe_that_nobody_reads_is_a_fault(rt: HostRuntime) -> Result<(), Fail> {
    let path = fresh_path(&rt, "pipe")?;
    line(&rt, "mkfifo \"$1\"", path.as_str())?;
    let reader = File::options()
        .read(true)
        .write(true)
        .open(&rt, path.as_str())?;
    let writer = File::options().write(true).open(&rt, path.as_str())?;
    drop(reader);
    let mut out = UnixOut::make(Stream(writer));
    let answer = out.put(rt.alloc(), b"hi\n");
    clear(&rt, path.as_str())?;
    assert!(rt; answer == Err(SinkFault::Failed));
    Ok(())
}

#[test]
fn text_alone_goes_to_standard_error(rt: HostRuntime) -> Result<(), Fail> {
    let alloc = rt.alloc();
    let mut out = UnixOut::make(rt.clone()?);
    out.put(alloc, b"\xff\n")?;
    let mut err = UnixErr::make(rt.clone()?);
    err.put(alloc, b"at: spool busy\n")?;
    assert_eq!(rt; err.put(alloc, b"\xff\n").err(), Some(SinkFault::Failed));
    Ok(())
}
