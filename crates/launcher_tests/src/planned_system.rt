//! A system in memory, which answers by a plan and keeps the questions as lines.
ghost use Rattle.std.specs.Prelude.{[], false};

use host_calls::{Bytes, Text};
use std::alloc::{AllocError, Global};
use std::test::Fail;
use system_calls::{FileKind, FileRead, FileStatus, LockAttempt, RawSystem, TracedSystem};

/// What the system answers to a question of a plan.
#[derive(Clone, Copy)]
pub enum Planned {
    /// The status of such a file of this user.
    Found(FileKind, u32),
    Whole(&'static str),
    Unreadable,
    TooLong,
    Named(&'static str),
    /// What is to be done can't be done.
    No,
    Taken,
    Missing,
}

/// A question, and its answer.
pub type Row = (&'static str, Planned);

/// A system that answers each question by the first row of it. Without a row nothing is found, and all that is to be done is
/// done.
#[derive(Drop)]
pub struct PlannedSystem {
    alloc: Global,
    plan: &'static [Row],
    asked: String,
}

/// The system of this plan.
pub fn system_by(alloc: Global, plan: &'static [Row]) -> TracedSystem<PlannedSystem> {
    TracedSystem::new(PlannedSystem {
        alloc,
        plan,
        asked: String::new(alloc),
    })
}

/// The questions that a system was asked, one a line.
pub fn asked_of(system: TracedSystem<PlannedSystem>) -> String {
    let PlannedSystem {
        alloc: _,
        plan: _,
        asked,
    } = system.into_raw();
    asked
}

impl PlannedSystem {
    fn answer(&mut self, question: &str, about: &str) -> Option<Planned> {
        let line = format!(in self.alloc; "{question} {about}").ok()?;
        let _ = self.asked.push_str(line.as_str());
        let _ = self.asked.push_str("\n");
        for row in self.plan {
            if row.0 == line.as_str() {
                return Some(row.1);
            }
        }
        None
    }

    fn status_of(&mut self, question: &str, path: &str) -> Option<FileStatus> {
        match self.answer(question, path) {
            Some(Planned::Found(kind, owner)) => Some(FileStatus {
                owner,
                kind,
                mode: 0o600,
                links: 1,
                device: 1,
                inode: path.len() as u64,
            }),
            _ => None,
        }
    }

    fn is_done(&mut self, question: &str, path: &str) -> bool {
        !matches!(self.answer(question, path), Some(Planned::No))
    }

    fn attempt(&mut self, question: &str, path: &str) -> LockAttempt {
        match self.answer(question, path) {
            Some(Planned::Taken) => LockAttempt::Taken,
            Some(Planned::Missing) => LockAttempt::Absent,
            Some(Planned::No) => LockAttempt::Unlocked,
            _ => LockAttempt::Held,
        }
    }

    fn text(&mut self, question: &str, about: &str) -> Option<Text> {
        match self.answer(question, about) {
            Some(Planned::Named(text)) => Text::of(self.alloc, text).ok(),
            _ => None,
        }
    }
}

impl RawSystem for PlannedSystem {
    ghost tells = { false };

    ghost trace = { λ _. [] };

    fn status(&mut self, path: &str) -> Option<FileStatus> {
        self.status_of("stat", path)
    }

    fn link_status(&mut self, path: &str) -> Option<FileStatus> {
        self.status_of("lstat", path)
    }

    fn make_directory(&mut self, path: &str) -> bool {
        self.is_done("mkdir", path)
    }

    fn put_file(&mut self, path: &str) -> bool {
        self.is_done("put", path)
    }

    fn create_file(&mut self, path: &str) -> bool {
        self.is_done("create", path)
    }

    fn sync_directory(&mut self, path: &str) -> bool {
        self.is_done("sync", path)
    }

    fn read_file(&mut self, path: &str, _most: u64) -> FileRead {
        match self.answer("read", path) {
            Some(Planned::Whole(text)) => match Bytes::of(self.alloc, text.as_bytes()) {
                Ok(bytes) => FileRead::Whole(bytes),
                Err(_) => FileRead::Unreadable,
            },
            Some(Planned::Unreadable) => FileRead::Unreadable,
            Some(Planned::TooLong) => FileRead::TooLong,
            _ => FileRead::Absent,
        }
    }

    fn lock_file(&mut self, path: &str) -> LockAttempt {
        self.attempt("lock", path)
    }

    fn lock_directory(&mut self, path: &str) -> LockAttempt {
        self.attempt("lock", path)
    }

    fn await_lock(&mut self, path: &str) -> bool {
        self.is_done("await", path)
    }

    fn release_lock(&mut self) {
        let _ = self.answer("release", "");
    }

    fn canonical_path(&mut self, path: &str) -> Option<Text> {
        self.text("path", path)
    }

    fn working_directory(&mut self) -> Option<Text> {
        self.text("pwd", "")
    }

    fn variable(&mut self, name: &str) -> Result<Option<Text>, AllocError> {
        Ok(self.text("variable", name))
    }

    fn look_up_user(&mut self, _number: &str) -> Option<Bytes> {
        None
    }

    fn is_terminal(&mut self) -> bool {
        self.is_done("terminal", "")
    }

    fn write_error(&mut self, line: &str) -> bool {
        self.is_done("say", line.trim_end())
    }

    fn seconds(&mut self) -> Option<u64> {
        None
    }

    fn process_number(&mut self) -> u32 {
        17
    }
}

/// The lines of a text that bars separate.
pub fn lines(alloc: Global, text: &str) -> Result<String, Fail> {
    let mut made = String::new(alloc);
    for line in text.split('|') {
        made.push_str(line)?;
        made.push_str("\n")?;
    }
    Ok(made)
}
