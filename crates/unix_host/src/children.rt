//! The children of this process, which are looked at to see whether one of them has ended.
ghost use Rattle.std.specs.Prelude.{◌≡◌, ◌&&◌, IfOk, not};
ghost use Rattle.unix_host.specs.inside.WatchedChildren.{has_seen_end};

use std::alloc::{AllocError, Global};
use std::fs::{File, Files};
use std::io::{ErrorKind, Read};
use std::{fs, io, str};

// The numbers of the children of this process, which has one thread, with a blank after each.
const CHILDREN: &str = "/proc/thread-self/children";

/// A child, and whether its end was seen.
#[derive(Drop)]
pub struct WatchedChild {
    number: u32,
    // It is gone once the child has ended, while its number lasts until it is waited for.
    program: String,
    has_ended: bool,
}

/// The children of this process.
#[derive(Drop)]
pub struct Children {
    alloc: Global,
    watched: Vec<WatchedChild>,
}

/// Whether the end of a child was seen that had not been seen before. It is made here alone, so that no rest goes on without
/// a look at the children.
#[derive(Clone, Copy)]
pub struct ChildEnds {
    is_new: bool,
}

impl ChildEnds {
    /// Whether there is one.
    pub fn is_new(&self) -> bool
        ensures { result ≡ self.now.is_new }
    {
        self.is_new
    }
}

impl Children {
    /// None so far.
    pub fn none(alloc: Global) -> Children {
        Children {
            alloc,
            watched: Vec::new(alloc),
        }
    }

    /// Lists the children that there are now. An end that was seen stays so, until its child is waited for. Without `/proc` there
    /// are none.
    pub fn list<R: Files<File = File>>(&mut self, rt: &R) {
        if let Ok(children) = self.listed(rt) {
            self.watched = children;
        }
    }

    fn listed<R: Files<File = File>>(&self, rt: &R) -> Result<Vec<WatchedChild>, AllocError> {
        let text = contents(rt, self.alloc, CHILDREN).unwrap_or(Vec::new(self.alloc));
        let mut children = Vec::new(self.alloc);
        for word in text.split(|byte| *byte == b' ') {
            if let Some(number) = process_number_in(word) {
                children.push(self.child(number)?)?;
            }
        }
        Ok(children)
    }

    // The child of this number, as it is known so far.
    fn child(&self, number: u32) -> Result<WatchedChild, AllocError>
        ensures number { IfOk result (λ child. child.number ≡ number) }
        ensures ended { IfOk result (λ child. child.has_ended ≡ has_seen_end self.now.watched.items number) }
    {
        Ok(WatchedChild {
            number,
            program: format!(in self.alloc; "/proc/{number}/exe")?,
            has_ended: self
                .watched
                .iter()
                .any(|child| child.number == number && child.has_ended),
        })
    }

    /// Looks at those whose end was not seen yet.
    pub fn look<R: Files<File = File>>(&mut self, rt: &R) -> ChildEnds {
        let mut is_new = false;
        for child in &mut self.watched {
            is_new |= child.look(rt, self.alloc);
        }
        ChildEnds { is_new }
    }
}

impl WatchedChild {
    // Looks at it, and answers whether its end is seen for the first time.
    fn look<R: Files<File = File>>(&mut self, rt: &R, alloc: Global) -> bool
        ensures { result ≡ (self.new.has_ended && not self.old.has_ended) }
    {
        if self.has_ended || !self.can_be_waited_for(rt, alloc) {
            return false;
        }
        self.has_ended = true;
        true
    }

    // Whether it has ended and can be waited for: while its memory is given back its program is gone, and it can't. A child of
    // another user can't be looked at.
    fn can_be_waited_for<R: Files<File = File>>(&self, rt: &R, alloc: Global) -> bool {
        match fs::metadata(rt, self.program.as_str()) {
            Err(error) if error.kind() == ErrorKind::NotFound => {
                is_zombie_now(rt, alloc, self.number)
            }
            _ => false,
        }
    }
}

fn is_zombie_now<R: Files<File = File>>(rt: &R, alloc: Global, number: u32) -> bool {
    let Ok(path) = format!(in alloc; "/proc/{number}/stat") else {
        return false;
    };
    match contents(rt, alloc, path.as_str()) {
        Ok(text) => is_zombie(text.as_slice()),
        Err(_) => false,
    }
}

// Whether a process that has this text as its `stat` has ended: the state comes after the name, which may hold anything.
fn is_zombie(text: &[u8]) -> bool {
    match text.iter().rposition(|byte| *byte == b')') {
        Some(place) => text[place..].starts_with(b") Z"),
        None => false,
    }
}

fn contents<R: Files<File = File>>(rt: &R, alloc: Global, path: &str) -> io::Result<Vec<u8>> {
    let mut bytes = Vec::new(alloc);
    File::open(rt, path)?.read_to_end(&mut bytes)?;
    Ok(bytes)
}

fn process_number_in(word: &[u8]) -> Option<u32> {
    str::from_utf8(word).ok()?.parse().ok()
}
