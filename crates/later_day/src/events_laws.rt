//! What holds of sessions among the events of a day, each law as the contract of a function.
ghost use Rattle.later_day.specs.EffectLaws.{EffectsLeaveTheRest, JobsStayOver, LaterEventsHandOnce, SessionsGoBeside};
ghost use Rattle.later_day.specs.EventsLaws.{BesideTheStorePass, CronSessionsPass, MailSessionsPass};

/// Over all events, notices of mail among them, no script of a job is started twice, or before its start survives every
/// crash, and the host is in the state in which the events leave it. A session of mail goes on next to the table.
pub fn later_events_hand_once()
    ensures events { LaterEventsHandOnce }
    ensures sessions { SessionsGoBeside }
{}

/// Where each image shows a table, no job that is finished in it lives in what the directory shows after any events.
pub fn jobs_stay_over()
    ensures { JobsStayOver }
{}

/// What a command or a turn does leaves all files alone that are none of the store's, those of mail and of crontabs among
/// them, and starts no notice.
pub fn effects_leave_the_rest()
    ensures { EffectsLeaveTheRest }
{}

/// A session of mail, whatever its end, goes on next to the table of jobs, and keeps the mark of the crontab.
pub fn mail_sessions_pass()
    ensures { MailSessionsPass }
{}

/// A session of a crontab, whatever its end, does to the table of jobs what its own steps do, all of them or the first or
/// none, and leaves the notes of mail alone.
pub fn cron_sessions_pass()
    ensures { CronSessionsPass }
{}

/// Whatever leaves alone all files but the store's, and starts nothing but scripts of jobs, leaves the notes of mail and
/// the mark of the crontab alone.
pub fn beside_the_store_pass()
    ensures { BesideTheStorePass }
{}
