//! The children of a daemon, in the order of their numbers.
ghost use Rattle.std.specs.Prelude.{◌≡◌, IsPermutation, map};
ghost use Rattle.std.specs.List.{list_any};
ghost use Rattle.queue_rules.specs.Order.{Differ};
ghost use Rattle.daemon_turn.specs.Decisions.{has_kid};
ghost use Rattle.daemon_turn.specs.Kids.{AreKidsByNumber, tells_end_of};
ghost use Rattle.daemon_turn.specs.inside.Ended.{AreEndsByNumber, without_ended};

use crate::{Kid, TurnStep};

// Whether one of the children has the number.
pub(crate) fn has_kid(kids: &[Kid], number: u32) -> bool
    requires { AreKidsByNumber kids.now }
    ensures { result ≡ has_kid kids.now number }
{
    kids.binary_search_by_key(&number, |kid| kid.number).is_ok()
}

// Drops the children that the ends name.
pub(crate) fn drop_ended(kids: &mut Vec<Kid>, ended: &[TurnStep])
    requires { AreEndsByNumber ended.now }
    ensures { kids.new.items ≡ without_ended ended.now kids.old.items }
{
    kids.retain(|kid| !has_ended(ended, kid.number));
}

// Whether one of the ends is that of the job of the number.
fn has_ended(ended: &[TurnStep], number: u32) -> bool
    requires { AreEndsByNumber ended.now }
    ensures { result ≡ list_any (tells_end_of number) ended.now }
{
    ended
        .binary_search_by_key(&number, |step| step.number())
        .is_ok()
}

// Brings the children into the order of their numbers. It takes no memory.
pub(crate) fn sort_kids(kids: &mut Vec<Kid>)
    requires { Differ (map (λ kid. kid.number) kids.old.items) }
    ensures same { IsPermutation kids.old.items kids.new.items }
    ensures ordered { AreKidsByNumber kids.new.items }
{
    kids.sort_unstable_by_key(|kid| kid.number);
}
