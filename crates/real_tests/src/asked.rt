//! What children have answered so far.
ghost use Rattle.std.specs.Prelude.{◌≡◌, true};
ghost use Rattle.std.specs.List.{All};
ghost use Rattle.real_tests.specs.Kept.{AgreesWith};

use host_calls::{Asked, Child, Ending};

/// Whether an answer agrees with all that the child has answered.
pub fn agrees_with_all(asked: &[Asked], child: Child, answer: Option<Ending>) -> bool
    ensures { result ≡ true → All (AgreesWith child answer) asked.now }
{
    for one in asked {
        if !agrees(one, child, answer) {
            return false;
        }
    }
    true
}

// Whether an answer agrees with one before it.
fn agrees(one: &Asked, child: Child, answer: Option<Ending>) -> bool
    ensures { result ≡ true → AgreesWith child answer one.now }
{
    if one.child != child {
        return true;
    }
    match one.answer {
        Some(ending) => answer == Some(ending),
        None => true,
    }
}
