//! Rests after sessions, as the contract of a function.
ghost use Rattle.cron_turn.specs.Examples.{SmallRests};

/// Rests after sessions, written down.
pub fn small_rests()
    ensures { SmallRests }
{}
