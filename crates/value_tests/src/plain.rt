//! The job table as a list that is searched from its start: slow and plain, to compare with.
use spool_model::{Entry, Fate, State, Step, Table};
use std::alloc::{AllocError, Global};

#[derive(Clone, Copy, PartialEq, Eq)]
enum Mark {
    Waits,
    Runs(i64),
    Is(Fate),
}

#[derive(Clone, Copy)]
struct Line {
    number: u32,
    queue: u8,
    mark: Mark,
}

#[derive(Drop)]
pub struct Plain {
    last: u32,
    lines: Vec<Line>,
    last_batch: Option<i64>,
}

impl Plain {
    pub fn new(alloc: Global) -> Plain {
        Plain {
            last: 0,
            lines: Vec::new(alloc),
            last_batch: None,
        }
    }

    /// Makes the step, if it is legal, and says whether it was.
    pub fn try_step(&mut self, step: &Step) -> Result<bool, AllocError> {
        match step {
            Step::Draw => {
                self.last = self.last.saturating_add(1);
                Ok(true)
            }
            Step::Accept(number, job) => {
                let is_new = self.find(*number).is_none();
                if is_new && *number > 0 && *number == self.last {
                    self.lines.push(Line {
                        number: *number,
                        queue: job.queue,
                        mark: Mark::Waits,
                    })?;
                    return Ok(true);
                }
                Ok(false)
            }
            Step::Start(number, second) => Ok(self.begin(*number, *second)),
            Step::Remove(number) => Ok(self.mark(*number, false, Fate::Removed)),
            Step::End(number, ending) => Ok(self.mark(*number, true, Fate::Finished(*ending))),
            Step::Interrupt(number) => Ok(self.mark(*number, true, Fate::Interrupted)),
            Step::Forget(number) => Ok(self.forget(*number)),
        }
    }

    fn find(&self, number: u32) -> Option<Line> {
        for line in &self.lines {
            if line.number == number {
                return Some(*line);
            }
        }
        None
    }

    fn begin(&mut self, number: u32, second: i64) -> bool {
        let mut was_there = false;
        for line in self.lines.iter_mut() {
            if line.number == number && line.mark == Mark::Waits {
                line.mark = Mark::Runs(second);
                was_there = true;
                if line.queue == b'b' || (line.queue >= b'A' && line.queue <= b'Z') {
                    self.last_batch = Some(second);
                }
            }
        }
        was_there
    }

    fn mark(&mut self, number: u32, from_running: bool, fate: Fate) -> bool {
        let mut was_there = false;
        for line in self.lines.iter_mut() {
            let fits = match line.mark {
                Mark::Waits => !from_running,
                Mark::Runs(_) => from_running,
                Mark::Is(_) => false,
            };
            if line.number == number && fits {
                line.mark = Mark::Is(fate);
                was_there = true;
            }
        }
        was_there
    }

    fn forget(&mut self, number: u32) -> bool {
        let before = self.lines.len();
        self.lines.retain(|line| line.number != number || !matches!(line.mark, Mark::Is(_)));
        self.lines.len() < before
    }

    /// Whether the table shows the same under the numbers up to 3.
    pub fn is_like(&self, table: &Table) -> bool {
        let mut is_like = self.last == table.last() && self.last_batch == table.last_batch();
        for number in 0..4 {
            is_like = is_like && is_like_line(table.entry(number), self.find(number));
        }
        is_like
    }
}

fn is_like_line(entry: Option<&Entry>, line: Option<Line>) -> bool {
    match (entry, line) {
        (None, None) => true,
        (Some(Entry::Live(job, State::Pending)), Some(line)) => {
            line.mark == Mark::Waits && line.queue == job.queue
        }
        (Some(Entry::Live(job, State::Running(second))), Some(line)) => {
            line.mark == Mark::Runs(*second) && line.queue == job.queue
        }
        (Some(Entry::Done(fate)), Some(line)) => line.mark == Mark::Is(*fate),
        _ => false,
    }
}
