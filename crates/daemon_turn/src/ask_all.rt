//! Children are asked whether they have ended.
ghost use Rattle.std.specs.Prelude.{◌≡◌, ◌++◌, OnOk};
ghost use Rattle.host_calls.specs.Session.{IsInside, StaysInside};
ghost use Rattle.daemon_turn.specs.inside.AskedChildren.{AsksAll};
ghost use Rattle.daemon_turn.specs.Kids.{AreChildren};
ghost use Rattle.daemon_turn.specs.Decisions.{end_of};

use crate::{TurnStep, Turning};
use host_calls::{Ending, Host};
use std::alloc::{AllocError, Global};

impl Turning {
    // Polls each of the children, in order, and gives the ends that they report.
    pub(crate) fn ask_all<H: Host>(
        &self,
        alloc: Global,
        host: &mut H,
    ) -> Result<Vec<TurnStep>, AllocError>
        requires inside { IsInside (H.session host.old) }
        requires children { AreChildren (H.session host.old).children self.now.kids.items }
        ensures inside { StaysInside (H.session host.old) (H.session host.new) }
        ensures asks { AsksAll H.tells self.now.kids.items (H.world host.old) (H.world host.new) result }
    {
        let mut known = Vec::new(alloc);
        for kid in self.kids.as_slice() {
            let answer = host.ended(alloc, &kid.child)?;
            write_end(&mut known, kid.number, answer)?;
        }
        Ok(known)
    }
}

// Writes down the end that the answer gives for the job, if it is one.
fn write_end(
    known: &mut Vec<TurnStep>,
    number: u32,
    answer: Option<Ending>,
) -> Result<(), AllocError>
    ensures { OnOk result (known.new.items ≡ known.old.items ++ end_of number answer) }
{
    if let Some(ending) = answer {
        known.push(TurnStep::Ended(number, ending))?;
    }
    Ok(())
}
