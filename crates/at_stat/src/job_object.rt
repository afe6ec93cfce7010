//! The JSON object of a job, keys sorted, on a line of its own. No string in it needs an escape.
ghost use Rattle.std.specs.Prelude.{◌≡◌, ◌++◌, OnOk, codes};
ghost use Rattle.std.specs.Fmt.{decimal};
ghost use Rattle.at_stat.specs.Objects.{fate_object, job_member, live_object, owner_members, queue_member, state_member, user_member, word_object};

use crate::job_line::{put_bytes, put_ending};
use crate::states_words::state_word;
use host_calls::Ending;
use itoa::Buffer;
use spool_model::{Fate, Row, State, UserName};
use std::alloc::AllocError;

// Puts the object of a live job.
pub(crate) fn put_live_object(
    text: &mut Vec<u8>,
    row: &Row,
    date: &[u8; 24],
) -> Result<(), AllocError>
    ensures { OnOk result (text.new.items ≡ text.old.items ++ live_object row.now date.now) }
{
    text.extend_from_slice(b"{\"date\":\"")?;
    text.extend_from_slice(date)?;
    text.extend_from_slice(b"\",")?;
    put_job(text, row.number)?;
    put_owner(text, row)
}

// Puts the member of the number.
fn put_job(text: &mut Vec<u8>, number: u32) -> Result<(), AllocError>
    ensures { OnOk result (text.new.items ≡ text.old.items ++ job_member number) }
{
    let mut digits = Buffer::new();
    text.extend_from_slice(b"\"job\":")?;
    text.extend_from_slice(digits.format(number).as_bytes())?;
    Ok(())
}

// Puts the members after that of the number of a live job.
fn put_owner(text: &mut Vec<u8>, row: &Row) -> Result<(), AllocError>
    ensures { OnOk result (text.new.items ≡ text.old.items ++ owner_members row.now) }
{
    put_queue(text, row.queue)?;
    put_state(text, row.state)?;
    put_user(text, &row.user)
}

// Puts the member of the queue.
fn put_queue(text: &mut Vec<u8>, queue: u8) -> Result<(), AllocError>
    ensures { OnOk result (text.new.items ≡ text.old.items ++ queue_member queue) }
{
    text.extend_from_slice(b",\"queue\":\"")?;
    text.extend_from_slice(&[queue, b'"'])?;
    Ok(())
}

// Puts the member of the state.
fn put_state(text: &mut Vec<u8>, state: State) -> Result<(), AllocError>
    ensures { OnOk result (text.new.items ≡ text.old.items ++ state_member state) }
{
    text.extend_from_slice(b",\"state\":\"")?;
    text.extend_from_slice(state_word(state).as_bytes())?;
    text.push(b'"')?;
    Ok(())
}

// Puts the member of the user, and ends the line.
fn put_user(text: &mut Vec<u8>, user: &UserName) -> Result<(), AllocError>
    ensures { OnOk result (text.new.items ≡ text.old.items ++ user_member user.now) }
{
    text.extend_from_slice(b",\"user\":\"")?;
    text.extend_from_slice(user.as_bytes())?;
    text.extend_from_slice(b"\"}\n")?;
    Ok(())
}

// Puts the object of a job that is done.
pub(crate) fn put_fate_object(
    text: &mut Vec<u8>,
    number: u32,
    fate: &Fate,
) -> Result<(), AllocError>
    ensures { OnOk result (text.new.items ≡ text.old.items ++ fate_object number fate.now) }
{
    match fate {
        Fate::Removed => put_word_object(text, number, "removed"),
        Fate::Finished(Ending::Exit(code)) => put_exit_object(text, number, *code),
        Fate::Finished(Ending::Signal(signal)) => put_signal_object(text, number, *signal),
        Fate::Finished(Ending::NotStarted) => put_word_object(text, number, "not started"),
        Fate::Interrupted => put_word_object(text, number, "interrupted"),
    }
}

fn put_exit_object(text: &mut Vec<u8>, number: u32, code: u8) -> Result<(), AllocError>
    ensures { OnOk result (text.new.items ≡ text.old.items ++
        codes "{\"code\":" ++ decimal code ++ codes "," ++ job_member number ++ codes ",\"state\":\"exit\"}\n") }
{
    put_ending(text, b"{\"code\":", code)?;
    text.push(b',')?;
    put_job(text, number)?;
    put_bytes(text, b",\"state\":\"exit\"}\n")
}

fn put_signal_object(text: &mut Vec<u8>, number: u32, signal: u8) -> Result<(), AllocError>
    ensures { OnOk result (text.new.items ≡ text.old.items ++
        codes "{" ++ job_member number ++ codes ",\"signal\":" ++ decimal signal ++ codes ",\"state\":\"signal\"}\n") }
{
    text.push(b'{')?;
    put_job(text, number)?;
    put_ending(text, b",\"signal\":", signal)?;
    put_bytes(text, b",\"state\":\"signal\"}\n")
}

// Puts the object of a job of which there is a word alone.
pub(crate) fn put_word_object(text: &mut Vec<u8>, number: u32, word: &str) -> Result<(), AllocError>
    ensures { OnOk result (text.new.items ≡ text.old.items ++ word_object number word.now) }
{
    text.push(b'{')?;
    put_job(text, number)?;
    text.extend_from_slice(b",\"state\":\"")?;
    text.extend_from_slice(word.as_bytes())?;
    text.extend_from_slice(b"\"}\n")?;
    Ok(())
}
