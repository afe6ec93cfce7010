//! The same system, which may record nothing.
ghost use Rattle.std.specs.Prelude.{Bool, IsTrue, List};
ghost use Rattle.system_calls.specs.SystemCall.{SystemCall};
ghost use Rattle.system_calls.specs.Calls.{AddsCall, await_lock_call, canonical_path_call, create_file_call, is_terminal_call, link_status_call, lock_directory_call, lock_file_call, look_up_user_call, make_directory_call, process_number_call, put_file_call, read_call, release_lock_call, seconds_call, status_call, sync_call, variable_call, working_directory_call, write_error_call};

use crate::call::{FileStatus, LockAttempt};
use crate::file_read::FileRead;
use host_calls::{Bytes, Text};
use std::alloc::AllocError;

/// What `System` asks, of a system that may record nothing. See there for what the calls do.
pub trait RawSystem {
    /// Whether it records its calls.
    ghost tells: { Bool };

    /// The calls so far, in order. They are meant only where it records them.
    ghost trace: { Self → List SystemCall };

    fn status(&mut self, path: &str) -> Option<FileStatus>
        ensures { IsTrue tells → AddsCall (status_call path.now result) (trace self.old) (trace self.new) };

    fn link_status(&mut self, path: &str) -> Option<FileStatus>
        ensures { IsTrue tells → AddsCall (link_status_call path.now result) (trace self.old) (trace self.new) };

    fn make_directory(&mut self, path: &str) -> bool
        ensures { IsTrue tells → AddsCall (make_directory_call path.now result) (trace self.old) (trace self.new) };

    fn put_file(&mut self, path: &str) -> bool
        ensures { IsTrue tells → AddsCall (put_file_call path.now result) (trace self.old) (trace self.new) };

    fn create_file(&mut self, path: &str) -> bool
        ensures { IsTrue tells → AddsCall (create_file_call path.now result) (trace self.old) (trace self.new) };

    fn sync_directory(&mut self, path: &str) -> bool
        ensures { IsTrue tells → AddsCall (sync_call path.now result) (trace self.old) (trace self.new) };

    fn read_file(&mut self, path: &str, most: u64) -> FileRead
        ensures { IsTrue tells → AddsCall (read_call path.now most result) (trace self.old) (trace self.new) };

    fn lock_file(&mut self, path: &str) -> LockAttempt
        ensures { IsTrue tells → AddsCall (lock_file_call path.now result) (trace self.old) (trace self.new) };

    fn lock_directory(&mut self, path: &str) -> LockAttempt
        ensures { IsTrue tells → AddsCall (lock_directory_call path.now result) (trace self.old) (trace self.new) };

    fn await_lock(&mut self, path: &str) -> bool
        ensures { IsTrue tells → AddsCall (await_lock_call path.now result) (trace self.old) (trace self.new) };

    fn release_lock(&mut self)
        ensures { IsTrue tells → AddsCall release_lock_call (trace self.old) (trace self.new) };

    fn canonical_path(&mut self, path: &str) -> Option<Text>
        ensures { IsTrue tells → AddsCall (canonical_path_call path.now result) (trace self.old) (trace self.new) };

    fn working_directory(&mut self) -> Option<Text>
        ensures { IsTrue tells → AddsCall (working_directory_call result) (trace self.old) (trace self.new) };

    fn variable(&mut self, name: &str) -> Result<Option<Text>, AllocError>
        ensures { IsTrue tells → AddsCall (variable_call name.now result) (trace self.old) (trace self.new) };

    fn look_up_user(&mut self, number: &str) -> Option<Bytes>
        ensures { IsTrue tells → AddsCall (look_up_user_call number.now result) (trace self.old) (trace self.new) };

    fn is_terminal(&mut self) -> bool
        ensures { IsTrue tells → AddsCall (is_terminal_call result) (trace self.old) (trace self.new) };

    fn write_error(&mut self, line: &str) -> bool
        ensures { IsTrue tells → AddsCall (write_error_call line.now result) (trace self.old) (trace self.new) };

    fn seconds(&mut self) -> Option<u64>
        ensures { IsTrue tells → AddsCall (seconds_call result) (trace self.old) (trace self.new) };

    fn process_number(&mut self) -> u32
        ensures { IsTrue tells → AddsCall (process_number_call result) (trace self.old) (trace self.new) };
}
