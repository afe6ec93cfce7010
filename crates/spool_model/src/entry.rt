//! An entry of the job table.
ghost use Rattle.std.specs.Prelude.{◌≡◌};

use crate::{Fate, Job, State};

/// What the job table has under a number.
#[derive(Drop)]
pub enum Entry {
    Live(Job, State),
    Done(Fate),
}

impl Entry {
    ghost use Rattle.spool_model.specs.Steps.{in_state};
    ghost use Rattle.spool_model.specs.declared.entry.Entry.TheVariants.{Done};

    // Brings the job, if it lives, to this state.
    pub(crate) fn set_state(&mut self, state: State)
        ensures { self.new ≡ in_state state self.old }
    {
        if let Entry::Live(_, was) = self {
            *was = state;
        }
    }

    // Puts the fate in the place of what was here.
    pub(crate) fn decide(&mut self, fate: Fate)
        ensures { self.new ≡ Done fate }
    {
        *self = Entry::Done(fate);
    }
}
