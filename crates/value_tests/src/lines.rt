//! The printed bytes of each line, as tables.
use civil_minute::CivilMinute;
use host_calls::{Damage, Ending, Name};
use listing_text::{
    Cause, Refusal, Status, TurnStepText, accepted_line, cause_line, date_text, fault_line,
    queue_line, turn_line,
};
use spool_model::{Row, State, UserName};
use std::test::Fail;

const NEW_YEAR: CivilMinute = CivilMinute {
    year: 2025,
    month: 1,
    day: 1,
    hour: 0,
    minute: 0,
    second: 0,
    weekday: 3,
};

#[test]
fn dates_are_those_of_the_posix_locale(rt: HostRuntime) {
    assert_eq!(rt; date_text(&NEW_YEAR), *b"Wed Jan  1 00:00:00 2025");
    let last = CivilMinute {
        year: 9998,
        month: 12,
        day: 31,
        hour: 23,
        minute: 59,
        second: 59,
        weekday: 4,
    };
    assert_eq!(rt; date_text(&last), *b"Thu Dec 31 23:59:59 9998");
}

// The first days of the months of 2025.
#[test]
fn months_and_weekdays_by_name(rt: HostRuntime) {
    for &(month, weekday, text) in &[
        (1, 3, "Wed Jan  1"),
        (2, 6, "Sat Feb  1"),
        (3, 6, "Sat Mar  1"),
        (4, 2, "Tue Apr  1"),
        (5, 4, "Thu May  1"),
        (6, 0, "Sun Jun  1"),
        (7, 2, "Tue Jul  1"),
        (8, 5, "Fri Aug  1"),
        (9, 1, "Mon Sep  1"),
        (10, 3, "Wed Oct  1"),
        (11, 6, "Sat Nov  1"),
        (12, 1, "Mon Dec  1"),
    ] {
        assert!(rt; 1 <= month && month <= 12 && weekday <= 6);
        let mut first = NEW_YEAR;
        first.month = month;
        first.weekday = weekday;
        let date = date_text(&first);
        assert!(rt; &date[..10] == text.as_bytes(), "{text}");
    }
}

#[test]
fn an_accepted_job_is_said_with_its_date(rt: HostRuntime) -> Result<(), Fail> {
    let line = accepted_line(rt.alloc(), 1, &date_text(&NEW_YEAR))?;
    assert_eq!(rt;
        line.as_slice(),
        b"job 1 at Wed Jan  1 00:00:00 2025\n".as_slice()
    );
    Ok(())
}

#[test]
fn a_listed_job_has_its_queue_or_an_equals_sign(rt: HostRuntime) -> Result<(), Fail> {
    let date = date_text(&NEW_YEAR);
    for &(number, queue, user, state, text) in &[
        (
            1,
            b'c',
            "ann",
            State::Pending,
            "1\tWed Jan  1 00:00:00 2025 c ann\n",
        ),
        (
            2,
            b'a',
            "bob",
            State::Running(1735689600),
            "2\tWed Jan  1 00:00:00 2025 = bob\n",
        ),
    ] {
        let user = UserName::of(user.as_bytes()).expect(&rt, user);
        let row = Row {
            number,
            queue,
            minute: 28928160,
            user,
            state,
        };
        let line = queue_line(rt.alloc(), &row, &date)?;
        assert_eq!(rt; line.as_slice(), text.as_bytes(), "{text}");
    }
    Ok(())
}

#[test]
fn steps_of_a_turn(rt: HostRuntime) -> Result<(), Fail> {
    for &(step, text) in &[
        (TurnStepText::HandedOver(1), "job 1 handed over\n"),
        (TurnStepText::Ended(1, Ending::Exit(0)), "job 1 exit 0\n"),
        (
            TurnStepText::Ended(12, Ending::Signal(9)),
            "job 12 signal 9\n",
        ),
        (
            TurnStepText::Ended(7, Ending::NotStarted),
            "job 7 not started\n",
        ),
        (
            TurnStepText::Interrupted(1048575),
            "job 1048575 interrupted\n",
        ),
    ] {
        let line = turn_line(rt.alloc(), &step)?;
        assert_eq!(rt; line.as_slice(), text.as_bytes(), "{text}");
    }
    Ok(())
}

#[test]
fn each_refusal_has_its_text(rt: HostRuntime) -> Result<(), Fail> {
    for &(refusal, line) in &[
        (Refusal::Usage, "at: usage\n"),
        (Refusal::NotAllowed, "at: not allowed\n"),
        (Refusal::Timespec { place: 0 }, "at: bad time at byte 0\n"),
        (Refusal::NoSuchDay, "at: no such day\n"),
        (Refusal::OutOfRange, "at: time out of range\n"),
        (Refusal::Past, "at: time is past\n"),
        (Refusal::BadTimeArg, "at: bad -t time\n"),
        (Refusal::BadZone, "at: bad TZ\n"),
        (Refusal::BadQueue, "at: bad queue\n"),
        (Refusal::BadDirectory, "at: bad directory\n"),
        (Refusal::BadUser, "at: bad user name\n"),
        (Refusal::TooLong, "at: commands too long\n"),
        (Refusal::EnvironmentTooLarge, "at: environment too large\n"),
        (Refusal::QueueFull, "at: queue full\n"),
        (Refusal::NumbersUsedUp, "at: job numbers used up\n"),
        (Refusal::NoSuchJob(99), "at: no such job 99\n"),
        (Refusal::NotYours(2), "at: job 2 is not yours\n"),
        (Refusal::RunningJob(2), "at: job 2 is running\n"),
        (Refusal::BadClock, "at: bad clock\n"),
        (Refusal::BadCrontab(12), "at: bad crontab at line 12\n"),
        (Refusal::AccountsFull, "at: accounts full\n"),
        (Refusal::TargetNotEmpty, "at: target not empty\n"),
    ] {
        let status = Status::of(Cause::Refused(refusal));
        assert_eq!(rt; status.code, 1);
        let text = cause_line(rt.alloc(), "at", &status.cause)?;
        assert_eq!(rt; text.as_slice(), line.as_bytes(), "{line}");
    }
    Ok(())
}

#[test]
fn each_cause_has_its_status_and_line(rt: HostRuntime) -> Result<(), Fail> {
    let name = Name::of(b".SEQ").expect(&rt, ".SEQ");
    let damage = Damage {
        name,
        offset: 4,
        byte: Some(b'g'),
    };
    for &(cause, code, line) in &[
        (Cause::Done, 0, ""),
        (Cause::Refused(Refusal::Past), 1, "atq: time is past\n"),
        (Cause::FileFault, 2, "atq: spool fault\n"),
        (Cause::InputFault, 3, "atq: input fault\n"),
        (Cause::OutputFault, 4, "atq: output fault\n"),
        (Cause::Busy, 5, "atq: spool busy\n"),
        (Cause::Memory, 6, "atq: out of memory\n"),
        (Cause::Damaged(damage), 7, "atq: .SEQ damaged at 4\n"),
        (Cause::StillRunning, 8, "atq: jobs still running\n"),
        (Cause::Faulty, 9, "atq: spool has faults\n"),
    ] {
        assert_eq!(rt; Status::of(cause).code, code, "{line}");
        let text = cause_line(rt.alloc(), "atq", &cause)?;
        assert_eq!(rt; text.as_slice(), line.as_bytes(), "{line}");
    }
    assert_eq!(rt;
        fault_line(rt.alloc(), &damage)?.as_slice(),
        b".SEQ damaged at 4\n".as_slice()
    );
    Ok(())
}
