//! The steps of a job that the store makes, each by one mark in the journal.
ghost use Rattle.spool_model.specs.declared.step.Step.TheVariants.{Remove, Start, End, Interrupt, Forget};
ghost use Rattle.std.specs.Prelude.{◌≡◌};
ghost use Rattle.host_calls.specs.ClockRange.{IsClockSecond};
ghost use Rattle.spool_shows.specs.FateSteps.{decision, decision_mark};
ghost use Rattle.spool_store.specs.OneStep.{MakesStep, MayStep};

use crate::mark::{add_mark, decide_job};
use crate::{Store, StoreFault};
use host_calls::{Ending, Host};
use spool_model::Fate;
use start_journal::Mark;
use std::alloc::Global;

impl Store {
    /// Takes the pending job of this number back, and removes its file.
    pub fn remove<H: Host>(
        self,
        alloc: Global,
        host: &mut H,
        number: u32,
    ) -> Result<Store, StoreFault>
        requires may { MayStep H.tells (H.session host.old) (H.world host.old) self (Remove number) }
        ensures makes { MakesStep H.tells (H.session host.old) (H.session host.new)
            (H.world host.old) (H.world host.new) self (Remove number) result }
    {
        self.decide(alloc, host, number, Fate::Removed)
    }

    /// Writes that the pending job of this number starts at this second. It starts nothing: once this has
    /// returned Ok, the start survives every crash.
    pub fn start<H: Host>(
        mut self,
        alloc: Global,
        host: &mut H,
        number: u32,
        second: i64,
    ) -> Result<Store, StoreFault>
        requires may { MayStep H.tells (H.session host.old) (H.world host.old) self (Start number second) }
        requires second { IsClockSecond second }
        ensures makes { MakesStep H.tells (H.session host.old) (H.session host.new)
            (H.world host.old) (H.world host.new) self (Start number second) result }
    {
        let queue = self.jobs.row(number).unwrap().queue;
        let mark = Mark::Started {
            number,
            queue,
            second,
        };
        self.journal = add_mark(alloc, host, self.journal, mark)?;
        self.jobs.start(number, second);
        Ok(self)
    }

    /// Writes how the running job of this number ended, and removes its file.
    pub fn end<H: Host>(
        self,
        alloc: Global,
        host: &mut H,
        number: u32,
        ending: Ending,
    ) -> Result<Store, StoreFault>
        requires may { MayStep H.tells (H.session host.old) (H.world host.old) self (End number ending) }
        ensures makes { MakesStep H.tells (H.session host.old) (H.session host.new)
            (H.world host.old) (H.world host.new) self (End number ending) result }
    {
        self.decide(alloc, host, number, Fate::Finished(ending))
    }

    /// Gives the running job of this number up, and removes its file.
    pub fn interrupt<H: Host>(
        self,
        alloc: Global,
        host: &mut H,
        number: u32,
    ) -> Result<Store, StoreFault>
        requires may { MayStep H.tells (H.session host.old) (H.world host.old) self (Interrupt number) }
        ensures makes { MakesStep H.tells (H.session host.old) (H.session host.new)
            (H.world host.old) (H.world host.new) self (Interrupt number) result }
    {
        self.decide(alloc, host, number, Fate::Interrupted)
    }

    /// Forgets what became of the job of this number, which is done.
    pub fn forget<H: Host>(
        mut self,
        alloc: Global,
        host: &mut H,
        number: u32,
    ) -> Result<Store, StoreFault>
        requires may { MayStep H.tells (H.session host.old) (H.world host.old) self (Forget number) }
        ensures makes { MakesStep H.tells (H.session host.old) (H.session host.new)
            (H.world host.old) (H.world host.new) self (Forget number) result }
    {
        self.journal = add_mark(alloc, host, self.journal, Mark::Forgotten(number))?;
        self.jobs.forget(number);
        Ok(self)
    }

    // Gives the live job of this number its fate, and removes its file.
    fn decide<H: Host>(
        mut self,
        alloc: Global,
        host: &mut H,
        number: u32,
        fate: Fate,
    ) -> Result<Store, StoreFault>
        requires may { MayStep H.tells (H.session host.old) (H.world host.old) self (decision number fate) }
        ensures makes { MakesStep H.tells (H.session host.old) (H.session host.new)
            (H.world host.old) (H.world host.new) self (decision number fate) result }
    {
        let file = self.file(number).unwrap();
        let mark = decision_mark(number, fate);
        self.jobs.decide(number, fate)?;
        self.journal = decide_job(alloc, host, self.journal, mark, &file)?;
        Ok(self)
    }
}

// The mark of this fate of the number.
fn decision_mark(number: u32, fate: Fate) -> Mark
    ensures { result ≡ decision_mark number fate }
{
    match fate {
        Fate::Removed => Mark::Removed(number),
        Fate::Finished(ending) => Mark::Ended { number, ending },
        Fate::Interrupted => Mark::Interrupted(number),
    }
}
