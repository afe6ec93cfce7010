//! How a session ends that recovers the store and works on it.
ghost use Rattle.std.specs.Prelude.{◌≡◌, IfErr, IfOk};
ghost use Rattle.host_calls.specs.SessionEnds.{end_after, end_of_session};
ghost use Rattle.host_calls.specs.StoreFaults.{IsReadingFault};

use crate::{EnterFault, StoreFault, TurnEnd};

/// The end of a session, by what came of it: of its work, or of the host's `enter`.
pub fn end_of_session(worked: Result<Result<(), StoreFault>, EnterFault>) -> TurnEnd
    requires { IfOk worked (λ done. IfErr done IsReadingFault) }
    ensures { result ≡ end_of_session worked }
{
    match worked {
        Ok(done) => end_of_work(done),
        Err(EnterFault::Taken) => TurnEnd::Busy,
        Err(EnterFault::Failed) => TurnEnd::FileFault,
        Err(EnterFault::Memory) => TurnEnd::Memory,
    }
}

// The end of a session, by what came of its work.
fn end_of_work(worked: Result<(), StoreFault>) -> TurnEnd
    requires { IfErr worked IsReadingFault }
    ensures { result ≡ end_after worked }
{
    match worked {
        Ok(()) => TurnEnd::Done,
        Err(StoreFault::FileFault) => TurnEnd::FileFault,
        Err(StoreFault::Damaged(damage)) => TurnEnd::Damaged(damage),
        Err(StoreFault::Memory) => TurnEnd::Memory,
        Err(StoreFault::QueueFull) => unreachable!(),
        Err(StoreFault::NumbersUsedUp) => unreachable!(),
    }
}
