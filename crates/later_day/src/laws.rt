//! What holds of the events of a day, as the contract of a function.
ghost use Rattle.later_day.specs.Laws.{DayOutcomesPass, LaterOutcomesKeepTheirPromise};

/// Each event of a day is one by which the headline goes on, whatever notices are sent between two of them, and it
/// leaves the files of mail and of crontabs alone.
pub fn day_outcomes_pass()
    ensures { DayOutcomesPass }
{}

/// Over any outcomes of events, sessions of mail and of crontabs among them, the headline is true of the scripts of jobs, no
/// notice is sent twice, and no minute has two sessions of crontabs that accepted a job.
pub fn later_outcomes_keep_their_promise()
    ensures { LaterOutcomesKeepTheirPromise }
{}
