//! The system, but for what it refuses: to sync or to read what lies at one path, and to start a child.
use std::alloc::{AllocError, Allocator, Global};
use std::cell::Cell;
use std::env::FillError;
use std::fmt::Display;
use std::fs::{File, Files, Metadata, OpenOptions};
use std::io;
use std::io::{ErrorKind, Lines};
use std::path::PathBuf;
use std::process::{Child, Command, Processes, Stdio};
use std::rt::{Env, Runtime};
use std::time::{Clock, Duration};

// This device keeps nothing and gives nothing, and the system refuses to sync it.
const DEVICE: &str = "/dev/null";

/// A path with the end `device` is opened as that of a device, but for so many first times.
#[derive(Clone, Drop)]
pub struct Refusing {
    pub rt: HostRuntime,
    pub device: &'static str,
    pub spared: Cell<u32>,
}

/// The system, but for the children that it refuses.
pub fn childless(rt: &HostRuntime) -> Result<Refusing, AllocError> {
    Ok(Refusing {
        rt: rt.clone()?,
        device: "none",
        spared: Cell::new(0),
    })
}

impl Refusing {
    // Whether this open of a path is that of the device.
    fn is_device(&self, path: &str) -> bool {
        if !path.ends_with(self.device) {
            return false;
        }
        let spared = self.spared.get();
        self.spared.set(spared.saturating_sub(1));
        spared == 0
    }
}

impl Files for Refusing {
    type File = File;

    type Dir = <HostRuntime as Files>::Dir;

    fn open_file(&self, how: &OpenOptions, path: &str) -> io::Result<File> {
        if self.is_device(path) {
            self.rt.open_file(how, DEVICE)
        } else {
            self.rt.open_file(how, path)
        }
    }

    fn open_dir(&self, path: &str) -> io::Result<<HostRuntime as Files>::Dir> {
        self.rt.open_dir(path)
    }

    fn metadata(&self, path: &str) -> io::Result<Metadata> {
        self.rt.metadata(path)
    }

    fn symlink_metadata(&self, path: &str) -> io::Result<Metadata> {
        self.rt.symlink_metadata(path)
    }

    fn copy(&self, from: &str, to: &str) -> io::Result<u64> {
        self.rt.copy(from, to)
    }

    fn rename(&self, from: &str, to: &str) -> io::Result<()> {
        self.rt.rename(from, to)
    }

    fn remove_file(&self, path: &str) -> io::Result<()> {
        self.rt.remove_file(path)
    }

    fn create_dir(&self, path: &str) -> io::Result<()> {
        self.rt.create_dir(path)
    }

    fn create_dir_with_mode(&self, path: &str, mode: u32) -> io::Result<()> {
        self.rt.create_dir_with_mode(path, mode)
    }

    fn remove_dir(&self, path: &str) -> io::Result<()> {
        self.rt.remove_dir(path)
    }

    fn remove_dir_all<B: Allocator>(&self, alloc: B, path: &str) -> io::Result<()> {
        self.rt.remove_dir_all(alloc, path)
    }

    fn canonicalize<B: Allocator>(&self, alloc: B, path: &str) -> io::Result<PathBuf<B>> {
        self.rt.canonicalize(alloc, path)
    }
}

impl Clock for Refusing {
    fn monotonic(&self) -> io::Result<Duration> {
        self.rt.monotonic()
    }

    fn since_1970(&self) -> io::Result<Duration> {
        self.rt.since_1970()
    }
}

impl Input for Refusing {
    type Reader = <HostRuntime as Input>::Reader;

    fn read_line<A: Allocator + Clone>(&self, line: &mut String<A>) -> io::Result<usize> {
        self.rt.read_line(line)
    }

    fn lines<A: Allocator>(&self, alloc: A) -> Lines<<HostRuntime as Input>::Reader, A> {
        self.rt.lines(alloc)
    }

    fn reader(&self) -> <HostRuntime as Input>::Reader {
        self.rt.reader()
    }
}

impl Env for Refusing {
    fn arg(&self, _i: usize, _buf: &mut [u8]) -> Result<usize, FillError> {
        Err(FillError::NotPresent)
    }

    fn var(&self, _name: &str, _buf: &mut [u8]) -> Result<usize, FillError> {
        Err(FillError::NotPresent)
    }

    fn var_at(&self, _i: usize, _buf: &mut [u8]) -> Result<usize, FillError> {
        Err(FillError::NotPresent)
    }
}

impl Print for Refusing {
    fn print<D: Display + Drop>(&self, value: D) -> io::Result<()> {
        self.rt.print(value)
    }

    fn println<D: Display + Drop>(&self, value: D) -> io::Result<()> {
        self.rt.println(value)
    }

    fn write_all(&self, bytes: &[u8]) -> io::Result<()> {
        self.rt.write_all(bytes)
    }
}

impl Eprint for Refusing {
    fn eprint<D: Display + Drop>(&self, value: D) -> io::Result<()> {
        self.rt.eprint(value)
    }

    fn eprintln<D: Display + Drop>(&self, value: D) -> io::Result<()> {
        self.rt.eprintln(value)
    }
}

impl Alloc for Refusing {
    type A = Global;

    fn alloc(&self) -> Global {
        self.rt.alloc()
    }
}

impl Processes for Refusing {
    type Started = <HostRuntime as Processes>::Started;

    fn spawn<B: Allocator + Clone>(
        &self,
        _command: &Command<B>,
        _stdin: &Stdio,
        _stdout: &Stdio,
        _stderr: &Stdio,
    ) -> io::Result<Child<<HostRuntime as Processes>::Started>> {
        Err(io::Error::from(ErrorKind::WouldBlock))
    }
}

impl Runtime for Refusing {}
