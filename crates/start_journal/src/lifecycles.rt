//! What marks say of each number.
ghost use Rattle.std.specs.Prelude.{◌≡◌, [], ℕ, List, Some, IfOk, OnOk};
ghost use Rattle.std.specs.List.{filter_map};
ghost use Rattle.std.specs.List.Sorted.{IsStrictlySortedBy};
ghost use Rattle.std.specs.Map.{keys_of};
ghost use Rattle.std.specs.Ordering.{nat_cmp};
ghost use Rattle.start_journal.specs.declared.mark.Mark.{Mark};
ghost use Rattle.start_journal.specs.Journals.{is_legal_after};
ghost use Rattle.start_journal.specs.Lifecycles.{TellLifecycles, decided_of, lifecycle_in, lifecycle_with, remembered_fate, stage_of};
ghost use Rattle.start_journal.specs.Marks.{number_of_mark};

use crate::life_map::LifeMap;
use crate::{Mark, Stage};
use spool_model::{Decided, Fate};
use std::alloc::{AllocError, Global};

/// What marks say of one number.
#[derive(Clone, Copy)]
pub struct Lifecycle {
    /// The second of its start.
    pub started: Option<i64>,
    pub fate: Option<Fate>,
    pub forgotten: bool,
}

impl Lifecycle {
    /// Nothing is known.
    pub(crate) const UNMODELLED: Lifecycle = Lifecycle {
        started: None,
        fate: None,
        forgotten: false,
    };

    // The life with what a mark of its number tells.
    fn with(self, mark: Mark) -> Lifecycle
        ensures { (number : ℕ) → number_of_mark mark ≡ Some number → result ≡ lifecycle_with number mark self }
    {
        let mut life = self;
        match mark {
            Mark::Removed(_) => life.fate = self.fate.or(Some(Fate::Removed)),
            Mark::Started { second, .. } => life.started = self.started.or(Some(second)),
            Mark::Ended { ending, .. } => life.fate = self.fate.or(Some(Fate::Finished(ending))),
            Mark::Interrupted(_) => life.fate = self.fate.or(Some(Fate::Interrupted)),
            Mark::Forgotten(_) => life.forgotten = true,
            Mark::Batch(_) => {}
        }
        life
    }

    // How far it has come.
    fn stage(self) -> Stage
        ensures { result ≡ stage_of self }
    {
        match (self.forgotten, self.fate, self.started) {
            (true, _, _) => Stage::Gone,
            (false, Some(_), _) => Stage::Closed,
            (false, None, Some(_)) => Stage::Open,
            (false, None, None) => Stage::Fresh,
        }
    }

    // Its fate, unless it was forgotten.
    fn remembered(self) -> Option<Fate>
        ensures { result ≡ remembered_fate self }
    {
        if self.forgotten { None } else { self.fate }
    }
}

/// What marks say, by the numbers that they name.
#[derive(Drop)]
pub struct Lifecycles {
    pub(crate) by_number: LifeMap,
}

impl Lifecycles {
    // What no mark says. Most marks that come are to name this number or later ones, and none a much later one.
    pub(crate) fn new(alloc: Global, first: u32) -> Lifecycles
        ensures { TellLifecycles [] result }
    {
        Lifecycles {
            by_number: LifeMap::new(alloc, first),
        }
    }

    /// What is known of the number.
    pub fn get(&self, number: u32) -> Lifecycle
        ensures { result ≡ lifecycle_in self.now number }
    {
        self.by_number
            .get(number)
            .copied()
            .unwrap_or(Lifecycle::UNMODELLED)
    }

    /// The numbers whose fate is remembered, in their order.
    pub fn decided(&self, alloc: Global) -> Result<Vec<Decided>, AllocError>
        ensures items { IfOk result (λ list. list.items ≡ filter_map decided_of self.now.by_number) }
        ensures ordered { IsStrictlySortedBy nat_cmp (keys_of self.now.by_number) }
    {
        self.by_number.decided(alloc)
    }

    // Whether the mark is allowed after those that say this.
    pub(crate) fn allow(&self, mark: Mark) -> bool
        ensures { (marks : List Mark) → TellLifecycles marks self.now → result ≡ is_legal_after marks mark }
    {
        match mark.number() {
            Some(number) => self.stage_at(number).allows(mark),
            None => true,
        }
    }

    // How far the number has come.
    fn stage_at(&self, number: u32) -> Stage
        ensures { result ≡ stage_of (lifecycle_in self.now number) }
    {
        match self.by_number.get(number) {
            Some(life) => life.stage(),
            None => Stage::Fresh,
        }
    }

    // Puts what one more mark says to what is known.
    pub(crate) fn add(&mut self, mark: Mark) -> Result<(), AllocError>
        ensures { OnOk result ((number : ℕ)
            → lifecycle_in self.new number ≡ lifecycle_with number mark (lifecycle_in self.old number)) }
    {
        if let Some(number) = mark.number() {
            let life = self.get(number).with(mark);
            self.by_number.put(number, life)?;
        }
        Ok(())
    }
}

pub(crate) fn decided_of(number: u32, life: Lifecycle) -> Option<Decided>
    ensures { result ≡ decided_of (number, life) }
{
    let fate = life.remembered()?;
    Some(Decided { number, fate })
}
