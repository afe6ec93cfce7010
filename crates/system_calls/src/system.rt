//! The system around a call, as the program sees it.
ghost use Rattle.std.specs.Prelude.{List};
ghost use Rattle.system_calls.specs.SystemCall.{SystemCall};
ghost use Rattle.system_calls.specs.Calls.{AddsCall, await_lock_call, canonical_path_call, create_file_call, is_terminal_call, link_status_call, lock_directory_call, lock_file_call, look_up_user_call, make_directory_call, process_number_call, put_file_call, read_call, release_lock_call, seconds_call, status_call, sync_call, variable_call, working_directory_call, write_error_call};

use crate::call::{FileStatus, LockAttempt};
use crate::file_read::FileRead;
use host_calls::{Bytes, Text};
use std::alloc::AllocError;

/// What a program asks of the system. Each call is recorded with its answer.
pub trait System {
    /// The calls so far, in order.
    ghost trace: { Self → List SystemCall };

    /// The status of a file, links followed. None where it has none that the caller may read.
    fn status(&mut self, path: &str) -> Option<FileStatus>
        ensures { AddsCall (status_call path.now result) (trace self.old) (trace self.new) };

    /// The status of a file, which may be a link.
    fn link_status(&mut self, path: &str) -> Option<FileStatus>
        ensures { AddsCall (link_status_call path.now result) (trace self.old) (trace self.new) };

    /// Makes a directory of the mode 0700, whatever the umask. Answers whether it was made.
    fn make_directory(&mut self, path: &str) -> bool
        ensures { AddsCall (make_directory_call path.now result) (trace self.old) (trace self.new) };

    /// Makes an empty file of the mode 0600 where it is absent, and syncs it. Answers whether it is synced.
    fn put_file(&mut self, path: &str) -> bool
        ensures { AddsCall (put_file_call path.now result) (trace self.old) (trace self.new) };

    /// Makes an empty file of the mode 0600, which must be absent. Answers whether it was made.
    fn create_file(&mut self, path: &str) -> bool
        ensures { AddsCall (create_file_call path.now result) (trace self.old) (trace self.new) };

    /// Syncs a directory. Answers whether it was synced.
    fn sync_directory(&mut self, path: &str) -> bool
        ensures { AddsCall (sync_call path.now result) (trace self.old) (trace self.new) };

    /// The bytes of a plain file of at most so many.
    fn read_file(&mut self, path: &str, most: u64) -> FileRead
        ensures { AddsCall (read_call path.now most result) (trace self.old) (trace self.new) };

    /// Locks a file as long as the system lives.
    fn lock_file(&mut self, path: &str) -> LockAttempt
        ensures { AddsCall (lock_file_call path.now result) (trace self.old) (trace self.new) };

    /// Locks a directory as long as the system lives.
    fn lock_directory(&mut self, path: &str) -> LockAttempt
        ensures { AddsCall (lock_directory_call path.now result) (trace self.old) (trace self.new) };

    /// Waits for the lock of a file, which is made where it is absent. Answers whether it is held.
    fn await_lock(&mut self, path: &str) -> bool
        ensures { AddsCall (await_lock_call path.now result) (trace self.old) (trace self.new) };

    /// Releases the lock that was waited for.
    fn release_lock(&mut self)
        ensures { AddsCall release_lock_call (trace self.old) (trace self.new) };

    /// The absolute path without links of what has this path. None where nothing has it.
    fn canonical_path(&mut self, path: &str) -> Option<Text>
        ensures { AddsCall (canonical_path_call path.now result) (trace self.old) (trace self.new) };

    /// The directory of the process. None where it has no name.
    fn working_directory(&mut self) -> Option<Text>
        ensures { AddsCall (working_directory_call result) (trace self.old) (trace self.new) };

    /// The value of a variable of the environment, where it exists and is a text.
    fn variable(&mut self, name: &str) -> Result<Option<Text>, AllocError>
        ensures { AddsCall (variable_call name.now result) (trace self.old) (trace self.new) };

    /// The lines that the system's users have for a user number, in decimal, as `getent passwd` prints them.
    fn look_up_user(&mut self, number: &str) -> Option<Bytes>
        ensures { AddsCall (look_up_user_call number.now result) (trace self.old) (trace self.new) };

    /// Whether standard error is a terminal.
    fn is_terminal(&mut self) -> bool
        ensures { AddsCall (is_terminal_call result) (trace self.old) (trace self.new) };

    /// Writes a line, with its newline, to standard error. Answers whether it was written.
    fn write_error(&mut self, line: &str) -> bool
        ensures { AddsCall (write_error_call line.now result) (trace self.old) (trace self.new) };

    /// The seconds since 1970, by the clock. None before 1970.
    fn seconds(&mut self) -> Option<u64>
        ensures { AddsCall (seconds_call result) (trace self.old) (trace self.new) };

    /// The number of the process.
    fn process_number(&mut self) -> u32
        ensures { AddsCall (process_number_call result) (trace self.old) (trace self.new) };
}
