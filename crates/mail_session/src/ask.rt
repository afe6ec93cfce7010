//! Children are asked whether they have ended.
ghost use Rattle.std.specs.Prelude.{◌≡◌, ◌<◌, length, vec_len};
ghost use Rattle.daemon_turn.specs.Kids.{AreChildren};
ghost use Rattle.host_calls.specs.Session.{IsInside, StaysInside};
ghost use Rattle.mail_session.specs.AskedChildren.{AsksKids};
ghost use Rattle.mail_session.specs.inside.RemainingChildren.{IsChildAt, kids_left_by, place_by};

use daemon_turn::Kid;
use host_calls::{Child, Ending, Host};
use std::alloc::{AllocError, Global};

/// Polls each of the children once, in order, and drops those that have ended. Where memory runs out for a
/// question, the children that were not asked stay.
pub fn ask_kids<H: Host>(alloc: Global, host: &mut H, kids: &mut Vec<Kid>) -> Result<(), AllocError>
    requires inside { IsInside (H.session host.old) }
    requires children { AreChildren (H.session host.old).children kids.old.items }
    ensures inside { StaysInside (H.session host.old) (H.session host.new) }
    ensures asks { AsksKids H.tells kids.old.items kids.new.items (H.world host.old) (H.world host.new) result }
{
    let mut place = 0;
    for _count in 0..kids.as_slice().len() {
        let child = child_at(kids.as_slice(), place);
        let answer = host.ended(alloc, &child)?;
        place = pass(kids, place, answer);
    }
    Ok(())
}

// The child of the child at the place.
fn child_at(kids: &[Kid], place: usize) -> Child
    requires { place < length kids.now }
    ensures { IsChildAt kids.now place result }
{
    kids[place].child
}

// Passes the child at the place, which answered so: it is dropped where it has ended. The place of the next one.
fn pass(kids: &mut Vec<Kid>, place: usize, answer: Option<Ending>) -> usize
    requires { place < vec_len kids.old }
    ensures place { result ≡ place_by place answer }
    ensures kids { kids.new.items ≡ kids_left_by kids.old.items place answer }
{
    match answer {
        Some(_) => {
            kids.remove(place);
            place
        }
        None => place + 1,
    }
}
