//! The system on which the process runs: the only file that says which call of the runtime answers which question.
ghost use Rattle.std.specs.Prelude.{[], false};

use crate::call::{FileStatus, LockAttempt};
use crate::file_read::FileRead;
use crate::process_files::{
    directory_made, file_created, file_put, file_read_up_to, lock_attempt, locked_after_wait,
    status_of_metadata, synced_directory,
};
use crate::process_users::user_lines;
use crate::raw_system::RawSystem;
use host_calls::{Bytes, Text};
use std::alloc::AllocError;
use std::env::VarError;
use std::fs::{File, OpenOptions};
use std::io::IsTerminal;
use std::time::Clock;
use std::{env, fs, process};

/// The system on which the process runs. It records nothing. A child of the process has its locks closed.
#[derive(Drop)]
pub struct ProcessSystem {
    rt: HostRuntime,
    file: Option<File>,
    directory: Option<File>,
    awaited: Option<File>,
}

impl ProcessSystem {
    /// The system of this runtime, of which no lock is held.
    pub fn new(rt: HostRuntime) -> ProcessSystem {
        ProcessSystem {
            rt,
            file: None,
            directory: None,
            awaited: None,
        }
    }
}

impl RawSystem for ProcessSystem {
    ghost tells = { false };

    ghost trace = { λ _. [] };

    fn status(&mut self, path: &str) -> Option<FileStatus> {
        Some(status_of_metadata(&fs::metadata(&self.rt, path).ok()?))
    }

    fn link_status(&mut self, path: &str) -> Option<FileStatus> {
        Some(status_of_metadata(&fs::symlink_metadata(&self.rt, path).ok()?))
    }

    fn make_directory(&mut self, path: &str) -> bool {
        directory_made(&self.rt, path)
    }

    fn put_file(&mut self, path: &str) -> bool {
        file_put(&self.rt, path).is_ok()
    }

    fn create_file(&mut self, path: &str) -> bool {
        file_created(&self.rt, path).is_ok()
    }

    fn sync_directory(&mut self, path: &str) -> bool {
        synced_directory(&self.rt, path).is_ok()
    }

    fn read_file(&mut self, path: &str, most: u64) -> FileRead {
        file_read_up_to(&self.rt, path, most)
    }

    fn lock_file(&mut self, path: &str) -> LockAttempt {
        let opened = OpenOptions::new().write(true).open(&self.rt, path);
        let (answer, file) = lock_attempt(opened);
        self.file = file;
        answer
    }

    fn lock_directory(&mut self, path: &str) -> LockAttempt {
        let (answer, file) = lock_attempt(File::open(&self.rt, path));
        self.directory = file;
        answer
    }

    fn await_lock(&mut self, path: &str) -> bool {
        self.awaited = locked_after_wait(&self.rt, path).ok();
        self.awaited.is_some()
    }

    fn release_lock(&mut self) {
        self.awaited = None;
    }

    fn canonical_path(&mut self, path: &str) -> Option<Text> {
        let path = fs::canonicalize(&self.rt, path).ok()?;
        Some(Text::from(path.into_string()))
    }

    fn working_directory(&mut self) -> Option<Text> {
        let directory = env::current_dir(&self.rt).ok()?;
        Some(Text::from(directory.into_string()))
    }

    fn variable(&mut self, name: &str) -> Result<Option<Text>, AllocError> {
        match env::var(&self.rt, name) {
            Ok(value) => Ok(Some(Text::from(value))),
            Err(VarError::OutOfMemory) => Err(AllocError),
            Err(VarError::NotPresent | VarError::NotUnicode) => Ok(None),
        }
    }

    fn look_up_user(&mut self, number: &str) -> Option<Bytes> {
        user_lines(&self.rt, number)
    }

    fn is_terminal(&mut self) -> bool {
        self.rt.stderr().is_terminal()
    }

    fn write_error(&mut self, line: &str) -> bool {
        self.rt.eprint(line).is_ok()
    }

    fn seconds(&mut self) -> Option<u64> {
        Some(self.rt.since_1970().ok()?.as_secs())
    }

    fn process_number(&mut self) -> u32 {
        process::id(self.rt.process())
    }
}
