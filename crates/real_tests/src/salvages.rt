//! What is saved of a real directory into another one, compared with the models of both.
ghost use Rattle.host_calls.specs.Session.{IsOutside};

use crate::commands::NOW;
use crate::sessions::{Beside, rounds_beside, saved_status};
use crate::spools::{clear, fresh_spool, kept_directory, line};
use crate::tally::Tally;
use host_calls::Host;
use std::test::Fail;

// What a salvage answered, and whether the witness of the new directory disputed an answer.
#[derive(Clone, Copy, Debug, PartialEq, Eq)]
struct Saved {
    code: u8,
    disputed: bool,
}

// What a salvage into the fresh directory at this path answers.
fn saved_at<H: Host>(rt: &HostRuntime, path: &str, from: &mut H) -> Result<Saved, Fail>
    requires { IsOutside (H.session from.old) }
    ensures { IsOutside (H.session from.new) }
{
    let mut to = kept_directory(rt, path)?;
    let code = saved_status(rt.alloc(), &["atcheck", "--salvage"], NOW, from, &mut to);
    let disputed = to.witness().tally().disputes > 0;
    drop(to);
    Ok(Saved {
        code: code?,
        disputed,
    })
}

// The same, where this was done to the directory before.
fn saved_into<H: Host>(rt: &HostRuntime, text: &str, from: &mut H) -> Result<Saved, Fail>
    requires { IsOutside (H.session from.old) }
    ensures { IsOutside (H.session from.new) }
{
    let path = fresh_spool(rt, "saved")?;
    line(rt, text, path.as_str())?;
    let saved = saved_at(rt, path.as_str(), from)?;
    clear(rt, path.as_str())?;
    Ok(saved)
}

// The same of each of these.
fn each_saved<H: Host>(rt: &HostRuntime, texts: &[&str], from: &mut H) -> Result<Vec<Saved>, Fail>
    requires { IsOutside (H.session from.old) }
    ensures { IsOutside (H.session from.new) }
{
    let mut saves = Vec::new(rt.alloc());
    for text in texts {
        saves.push(saved_into(rt, text, from)?)?;
    }
    Ok(saves)
}

// What was done to a fresh directory, and what a salvage into it is to answer then.
const TEXTS: [&str; 5] = [
    ":",
    "mkdir \"$1/.TMP\"",
    "echo 1 >\"$1/stranger\"",
    "touch \"$1/.SEQ\"",
    ":",
];

const WANTED: [(u8, bool); 5] = [(0, false), (2, false), (2, true), (2, true), (0, false)];

// How many of twelve rounds over this directory went well, and what salvages of it answer.
fn salvages<H: Host>(rt: &HostRuntime, from: &mut H) -> Result<(u32, Vec<Saved>), Fail>
    requires { IsOutside (H.session from.old) }
    ensures { IsOutside (H.session from.new) }
{
    let well = rounds_beside(rt.alloc(), Beside::Crontab, 0, 12, from)?;
    Ok((well, each_saved(rt, &TEXTS, from)?))
}

// The same over the directory at this path, and what its witness counted.
fn salvages_of(rt: &HostRuntime, path: &str) -> Result<((u32, Vec<Saved>), Tally), Fail> {
    let mut from = kept_directory(rt, path)?;
    let seen = salvages(rt, &mut from)?;
    let tally = from.witness().tally();
    drop(from);
    Ok((seen, tally))
}

#[test]
fn no_answer_of_a_salvage_is_disputed(rt: HostRuntime) -> Result<(), Fail> {
    let path = fresh_spool(&rt, "from")?;
    let ((well, saves), tally) = salvages_of(&rt, path.as_str())?;
    clear(&rt, path.as_str())?;
    assert!(rt; well == 12 && tally.is_undisputed(500), "{well} {tally:?}");
    assert_eq!(rt; saves.len(), WANTED.len());
    for (saved, (code, disputed)) in saves.iter().zip(WANTED) {
        assert_eq!(rt; *saved, Saved { code, disputed });
    }
    Ok(())
}
