//! What follows of every turn, each law as the contract of a function.
ghost use Rattle.daemon_turn.specs.Laws.{GoodDirectoriesStayGood, ReadingsStayGood, TurnsAreDone};

/// Where the outside doesn't fail, a turn is done or runs out of memory, also where a start failed. A directory of
/// which each image shows a table comes to show no damage, and one of which the reading shows a table reads as one.
pub fn turns_end_well()
    ensures done { TurnsAreDone }
    ensures good { GoodDirectoriesStayGood }
    ensures shown { ReadingsStayGood }
{}
