//! That no minute comes twice, as the contract of a function.
ghost use Rattle.cron_session.specs.Minutes.{CutSessionsPass, NoMinuteComesTwice};

/// Over any list of sessions, and of whatever else keeps the mark, no two sessions accept a job at one minute. One in which
/// there was a crash passes as one that was cut off.
pub fn no_minute_comes_twice()
    ensures twice { NoMinuteComesTwice }
    ensures cut { CutSessionsPass }
{}
