//! A system next to the record of what was asked of it.
ghost use Rattle.std.specs.Prelude.{◌≡◌, [], IsTrue};
ghost use Rattle.system_calls.specs.Calls.{called};
ghost use Rattle.system_calls.specs.Calls.{AddsCall, await_lock_call, canonical_path_call, create_file_call, is_terminal_call, link_status_call, lock_directory_call, lock_file_call, look_up_user_call, make_directory_call, process_number_call, put_file_call, read_call, release_lock_call, seconds_call, status_call, sync_call, variable_call, working_directory_call, write_error_call};

use crate::call::{Answered, CallRecord, FileStatus, LockAttempt};
use crate::call_trace::CallTrace;
use crate::file_read::FileRead;
use crate::raw_system::RawSystem;
use crate::recorded_bytes::{
    bytes_of_lines, bytes_of_text, bytes_of_variable, outcome_of_variable,
};
use crate::system::System;
use host_calls::{Bytes, Text};
use std::alloc::AllocError;

/// A system next to the record of what was asked of it and what it answered.
#[derive(Drop)]
pub struct TracedSystem<R: RawSystem + Drop> {
    raw: R,
    made: CallTrace,
}

impl<R: RawSystem + Drop> TracedSystem<R> {
    /// The system, of which nothing was asked so far.
    pub fn new(raw: R) -> TracedSystem<R>
        ensures raw { result.raw ≡ raw }
        ensures nothing { result.made.calls ≡ [] }
    {
        TracedSystem {
            raw,
            made: CallTrace::new(),
        }
    }

    /// The system without the record.
    pub fn into_raw(self) -> R
        ensures { result ≡ self.raw }
    {
        let TracedSystem { raw, made: _ } = self;
        raw
    }

    // Records a call.
    fn note(&mut self, path: &str, answered: Answered, bytes: &[u8])
        ensures made { AddsCall (called path.now answered bytes.now) self.old.made.calls self.new.made.calls }
        ensures raw { self.new.raw ≡ self.old.raw }
    {
        self.made = self.made.and(&CallRecord {
            path,
            answered,
            bytes,
        });
    }
}

impl<R: RawSystem + Drop> System for TracedSystem<R> {
    ghost trace = { λ own. own.made.calls };

    fn status(&mut self, path: &str) -> Option<FileStatus>
        /// Each question is recorded with its answer.
        ensures made { AddsCall (status_call path.now result) self.old.made.calls self.new.made.calls }
        /// It is asked once, of the same path, and the answer is the system's.
        ensures below { IsTrue R.tells
            → AddsCall (status_call path.now result) (R.trace self.old.raw) (R.trace self.new.raw) }
    {
        let answer = self.raw.status(path);
        self.note(path, Answered::Status(answer), &[]);
        answer
    }

    fn link_status(&mut self, path: &str) -> Option<FileStatus>
        ensures made { AddsCall (link_status_call path.now result) self.old.made.calls self.new.made.calls }
        ensures below { IsTrue R.tells
            → AddsCall (link_status_call path.now result) (R.trace self.old.raw) (R.trace self.new.raw) }
    {
        let answer = self.raw.link_status(path);
        self.note(path, Answered::LinkStatus(answer), &[]);
        answer
    }

    fn make_directory(&mut self, path: &str) -> bool
        ensures made { AddsCall (make_directory_call path.now result) self.old.made.calls self.new.made.calls }
        ensures below { IsTrue R.tells
            → AddsCall (make_directory_call path.now result) (R.trace self.old.raw) (R.trace self.new.raw) }
    {
        let answer = self.raw.make_directory(path);
        self.note(path, Answered::DirectoryMade(answer), &[]);
        answer
    }

    fn put_file(&mut self, path: &str) -> bool
        ensures made { AddsCall (put_file_call path.now result) self.old.made.calls self.new.made.calls }
        ensures below { IsTrue R.tells
            → AddsCall (put_file_call path.now result) (R.trace self.old.raw) (R.trace self.new.raw) }
    {
        let answer = self.raw.put_file(path);
        self.note(path, Answered::FilePut(answer), &[]);
        answer
    }

    fn create_file(&mut self, path: &str) -> bool
        ensures made { AddsCall (create_file_call path.now result) self.old.made.calls self.new.made.calls }
        ensures below { IsTrue R.tells
            → AddsCall (create_file_call path.now result) (R.trace self.old.raw) (R.trace self.new.raw) }
    {
        let answer = self.raw.create_file(path);
        self.note(path, Answered::FileCreated(answer), &[]);
        answer
    }

    fn sync_directory(&mut self, path: &str) -> bool
        ensures made { AddsCall (sync_call path.now result) self.old.made.calls self.new.made.calls }
        ensures below { IsTrue R.tells
            → AddsCall (sync_call path.now result) (R.trace self.old.raw) (R.trace self.new.raw) }
    {
        let answer = self.raw.sync_directory(path);
        self.note(path, Answered::Synced(answer), &[]);
        answer
    }

    fn read_file(&mut self, path: &str, most: u64) -> FileRead
        ensures made { AddsCall (read_call path.now most result) self.old.made.calls self.new.made.calls }
        ensures below { IsTrue R.tells
            → AddsCall (read_call path.now most result) (R.trace self.old.raw) (R.trace self.new.raw) }
    {
        let answer = self.raw.read_file(path, most);
        self.note(path, Answered::Read(most, answer.outcome()), answer.bytes());
        answer
    }

    fn lock_file(&mut self, path: &str) -> LockAttempt
        ensures made { AddsCall (lock_file_call path.now result) self.old.made.calls self.new.made.calls }
        ensures below { IsTrue R.tells
            → AddsCall (lock_file_call path.now result) (R.trace self.old.raw) (R.trace self.new.raw) }
    {
        let answer = self.raw.lock_file(path);
        self.note(path, Answered::FileLocked(answer), &[]);
        answer
    }

    fn lock_directory(&mut self, path: &str) -> LockAttempt
        ensures made { AddsCall (lock_directory_call path.now result) self.old.made.calls self.new.made.calls }
        ensures below { IsTrue R.tells
            → AddsCall (lock_directory_call path.now result) (R.trace self.old.raw) (R.trace self.new.raw) }
    {
        let answer = self.raw.lock_directory(path);
        self.note(path, Answered::DirectoryLocked(answer), &[]);
        answer
    }

    fn await_lock(&mut self, path: &str) -> bool
        ensures made { AddsCall (await_lock_call path.now result) self.old.made.calls self.new.made.calls }
        ensures below { IsTrue R.tells
            → AddsCall (await_lock_call path.now result) (R.trace self.old.raw) (R.trace self.new.raw) }
    {
        let answer = self.raw.await_lock(path);
        self.note(path, Answered::LockAwaited(answer), &[]);
        answer
    }

    fn release_lock(&mut self)
        ensures made { AddsCall release_lock_call self.old.made.calls self.new.made.calls }
        ensures below { IsTrue R.tells
            → AddsCall release_lock_call (R.trace self.old.raw) (R.trace self.new.raw) }
    {
        self.raw.release_lock();
        self.note("", Answered::LockReleased, &[]);
    }

    fn canonical_path(&mut self, path: &str) -> Option<Text>
        ensures made { AddsCall (canonical_path_call path.now result) self.old.made.calls self.new.made.calls }
        ensures below { IsTrue R.tells
            → AddsCall (canonical_path_call path.now result) (R.trace self.old.raw) (R.trace self.new.raw) }
    {
        let answer = self.raw.canonical_path(path);
        self.note(
            path,
            Answered::CanonicalPath(answer.is_some()),
            bytes_of_text(&answer),
        );
        answer
    }

    fn working_directory(&mut self) -> Option<Text>
        ensures made { AddsCall (working_directory_call result) self.old.made.calls self.new.made.calls }
        ensures below { IsTrue R.tells
            → AddsCall (working_directory_call result) (R.trace self.old.raw) (R.trace self.new.raw) }
    {
        let answer = self.raw.working_directory();
        self.note(
            "",
            Answered::WorkingDirectory(answer.is_some()),
            bytes_of_text(&answer),
        );
        answer
    }

    fn variable(&mut self, name: &str) -> Result<Option<Text>, AllocError>
        ensures made { AddsCall (variable_call name.now result) self.old.made.calls self.new.made.calls }
        ensures below { IsTrue R.tells
            → AddsCall (variable_call name.now result) (R.trace self.old.raw) (R.trace self.new.raw) }
    {
        let answer = self.raw.variable(name);
        self.note(
            name,
            Answered::Variable(outcome_of_variable(&answer)),
            bytes_of_variable(&answer),
        );
        answer
    }

    fn look_up_user(&mut self, number: &str) -> Option<Bytes>
        ensures made { AddsCall (look_up_user_call number.now result) self.old.made.calls self.new.made.calls }
        ensures below { IsTrue R.tells
            → AddsCall (look_up_user_call number.now result) (R.trace self.old.raw) (R.trace self.new.raw) }
    {
        let answer = self.raw.look_up_user(number);
        self.note(
            number,
            Answered::UserLookedUp(answer.is_some()),
            bytes_of_lines(&answer),
        );
        answer
    }

    fn is_terminal(&mut self) -> bool
        ensures made { AddsCall (is_terminal_call result) self.old.made.calls self.new.made.calls }
        ensures below { IsTrue R.tells
            → AddsCall (is_terminal_call result) (R.trace self.old.raw) (R.trace self.new.raw) }
    {
        let answer = self.raw.is_terminal();
        self.note("", Answered::IsTerminal(answer), &[]);
        answer
    }

    fn write_error(&mut self, line: &str) -> bool
        ensures made { AddsCall (write_error_call line.now result) self.old.made.calls self.new.made.calls }
        ensures below { IsTrue R.tells
            → AddsCall (write_error_call line.now result) (R.trace self.old.raw) (R.trace self.new.raw) }
    {
        let answer = self.raw.write_error(line);
        self.note("", Answered::ErrorWritten(answer), line.as_bytes());
        answer
    }

    fn seconds(&mut self) -> Option<u64>
        ensures made { AddsCall (seconds_call result) self.old.made.calls self.new.made.calls }
        ensures below { IsTrue R.tells
            → AddsCall (seconds_call result) (R.trace self.old.raw) (R.trace self.new.raw) }
    {
        let answer = self.raw.seconds();
        self.note("", Answered::Seconds(answer), &[]);
        answer
    }

    fn process_number(&mut self) -> u32
        ensures made { AddsCall (process_number_call result) self.old.made.calls self.new.made.calls }
        ensures below { IsTrue R.tells
            → AddsCall (process_number_call result) (R.trace self.old.raw) (R.trace self.new.raw) }
    {
        let answer = self.raw.process_number();
        self.note("", Answered::ProcessNumber(answer), &[]);
        answer
    }
}
