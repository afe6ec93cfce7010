//! An outside of the tests' own: the files of the system, a clock that goes on by rests alone, and a pipe as standard input.
use std::alloc::Allocator;
use std::cell::Cell;
use std::fs::{File, Files, Metadata, OpenOptions};
use std::io;
use std::io::{BufRead, ErrorKind, Lines, PipeReader, Read};
use std::path::PathBuf;
use std::time::{Clock, Duration};

/// Its clock tells `time`, which goes on by `speed` times what a rest was requested. All that was requested is `rested`.
#[derive(Drop)]
pub struct Outside<'a> {
    rt: &'a HostRuntime,
    pub time: Cell<Duration>,
    speed: u32,
    pub rested: Cell<Duration>,
    input: &'a PipeReader,
}

impl<'a> Outside<'a> {
    pub fn at(
        rt: &'a HostRuntime,
        time: Duration,
        speed: u32,
        input: &'a PipeReader,
    ) -> Outside<'a> {
        Outside {
            rt,
            time: Cell::new(time),
            speed,
            rested: Cell::new(Duration::ZERO),
            input,
        }
    }
}

impl Clock for Outside<'_> {
    fn monotonic(&self) -> io::Result<Duration> {
        self.rt.monotonic()
    }

    fn since_1970(&self) -> io::Result<Duration> {
        Ok(self.time.get())
    }

    fn sleep(&self, duration: Duration) {
        self.rested.set(self.rested.get().saturating_add(duration));
        let passed = duration.saturating_mul(self.speed);
        self.time.set(self.time.get().saturating_add(passed));
    }
}

/// The pipe, of which each second read gives three bytes at most. The others are interrupted.
#[derive(Clone, Copy)]
pub struct Trickle<'a> {
    pipe: &'a PipeReader,
    was_interrupted: bool,
}

impl Read for Trickle<'_> {
    fn read(&mut self, buffer: &mut [u8]) -> io::Result<usize> {
        self.was_interrupted = !self.was_interrupted;
        if self.was_interrupted {
            return Err(io::Error::from(ErrorKind::Interrupted));
        }
        let room = buffer.len().min(3);
        let mut pipe = self.pipe;
        pipe.read(&mut buffer[..room])
    }
}

// Nobody requests its buffer.
impl BufRead for Trickle<'_> {
    fn fill_buf(&mut self) -> io::Result<&[u8]> {
        Ok(&[])
    }

    fn consume(&mut self, amount: usize) {
        let _ = amount;
    }
}

impl<'a> Input for Outside<'a> {
    type Reader = Trickle<'a>;

    fn read_line<A: Allocator + Clone>(&self, line: &mut String<A>) -> io::Result<usize> {
        self.reader().read_line(line)
    }

    fn lines<A: Allocator>(&self, alloc: A) -> Lines<Trickle<'a>, A> {
        self.reader().lines(alloc)
    }

    fn reader(&self) -> Trickle<'a> {
        Trickle {
            pipe: self.input,
            was_interrupted: false,
        }
    }
}

impl Files for Outside<'_> {
    type File = File;

    type Dir = <HostRuntime as Files>::Dir;

    fn open_file(&self, how: &OpenOptions, path: &str) -> io::Result<File> {
        self.rt.open_file(how, path)
    }

    fn open_dir(&self, path: &str) -> io::Result<<HostRuntime as Files>::Dir> {
        self.rt.open_dir(path)
    }

    fn metadata(&self, path: &str) -> io::Result<Metadata> {
        self.rt.metadata(path)
    }

    fn symlink_metadata(&self, path: &str) -> io::Result<Metadata> {
        self.rt.symlink_metadata(path)
    }

    fn copy(&self, from: &str, to: &str) -> io::Result<u64> {
        self.rt.copy(from, to)
    }

    fn rename(&self, from: &str, to: &str) -> io::Result<()> {
        self.rt.rename(from, to)
    }

    fn remove_file(&self, path: &str) -> io::Result<()> {
        self.rt.remove_file(path)
    }

    fn create_dir(&self, path: &str) -> io::Result<()> {
        self.rt.create_dir(path)
    }

    fn create_dir_with_mode(&self, path: &str, mode: u32) -> io::Result<()> {
        self.rt.create_dir_with_mode(path, mode)
    }

    fn remove_dir(&self, path: &str) -> io::Result<()> {
        self.rt.remove_dir(path)
    }

    fn remove_dir_all<B: Allocator>(&self, alloc: B, path: &str) -> io::Result<()> {
        self.rt.remove_dir_all(alloc, path)
    }

    fn canonicalize<B: Allocator>(&self, alloc: B, path: &str) -> io::Result<PathBuf<B>> {
        self.rt.canonicalize(alloc, path)
    }
}
