//! The table at its edges, and next to a plain, slow one.

use crate::plain::Plain;
use host_calls::{Bytes, Ending};
use spool_model::{Entry, Job, State, Step, Table, UserName};
use std::alloc::{AllocError, Global};
use std::test::Fail;

fn job(alloc: Global, queue: u8, user: UserName) -> Result<Job, AllocError> {
    Ok(Job {
        queue,
        minute: 28_927_840,
        user,
        script: Bytes::of(alloc, b"echo hi\n")?,
    })
}

// Steps of which any five may follow one another.
fn nine_steps(alloc: Global, user: UserName) -> Result<Vec<Step>, AllocError> {
    let mut steps = Vec::new(alloc);
    steps.push(Step::Draw)?;
    steps.push(Step::Accept(0, job(alloc, b'a', user)?))?;
    steps.push(Step::Accept(1, job(alloc, b'b', user)?))?;
    steps.push(Step::Accept(2, job(alloc, b'a', user)?))?;
    steps.push(Step::Remove(1))?;
    steps.push(Step::Start(1, -60))?;
    steps.push(Step::End(1, Ending::Signal(9)))?;
    steps.push(Step::Interrupt(1))?;
    steps.push(Step::Forget(1))?;
    Ok(steps)
}

// Tries each of five steps on both tables, and says whether they always agree.
fn agree(alloc: Global, steps: &[Step], code: u32) -> Result<bool, AllocError> {
    let mut table = Table::new(alloc);
    let mut plain = Plain::new(alloc);
    let mut rest = code;
    for _ in 0..5 {
        if let Some(step) = steps.get((rest % 9) as usize) {
            let is_legal = table.is_legal(step);
            if is_legal {
                table.take(alloc, step)?;
            }
            if plain.try_step(step)? != is_legal || !plain.is_like(&table) {
                return Ok(false);
            }
        }
        rest /= 9;
    }
    Ok(true)
}

#[test]
fn all_lists_of_five_steps(rt: HostRuntime) -> Result<(), Fail> {
    let user = UserName::of(b"ann").ok_or("ann")?;
    let steps = nine_steps(rt.alloc(), user)?;
    for code in 0..59_049 {
        assert!(rt; agree(rt.alloc(), &steps, code)?, "list {code}");
    }
    Ok(())
}

// A job of each queue is drawn, accepted and started, each a minute after the one before.
fn starts(alloc: Global, user: UserName) -> Result<Vec<(Step, bool, Option<i64>)>, AllocError> {
    let mut rows = Vec::new(alloc);
    rows.push((Step::Accept(0, job(alloc, b'a', user)?), false, None))?;
    rows.push((Step::Draw, true, None))?;
    rows.push((Step::Accept(1, job(alloc, b'a', user)?), true, None))?;
    rows.push((Step::Accept(1, job(alloc, b'a', user)?), false, None))?;
    rows.push((Step::Forget(1), false, None))?;
    rows.push((Step::Start(1, 60), true, None))?;
    rows.push((Step::Forget(1), false, None))?;
    rows.push((Step::Draw, true, None))?;
    rows.push((Step::Accept(2, job(alloc, b'b', user)?), true, None))?;
    rows.push((Step::Start(2, 120), true, Some(120)))?;
    rows.push((Step::Draw, true, Some(120)))?;
    rows.push((Step::Accept(3, job(alloc, b'Z', user)?), true, Some(120)))?;
    rows.push((Step::Start(3, 180), true, Some(180)))?;
    rows.push((Step::Draw, true, Some(180)))?;
    rows.push((Step::Accept(4, job(alloc, b'c', user)?), true, Some(180)))?;
    rows.push((Step::Start(4, 240), true, Some(180)))?;
    Ok(rows)
}

#[test]
fn batch_starts_are_remembered(rt: HostRuntime) -> Result<(), Fail> {
    let user = UserName::of(b"ann").ok_or("ann")?;
    let mut table = Table::new(rt.alloc());
    for (step, is_legal, last_batch) in &starts(rt.alloc(), user)? {
        assert_eq!(rt; table.is_legal(step), *is_legal);
        if *is_legal {
            table.take(rt.alloc(), step)?;
        }
        assert_eq!(rt; table.last_batch(), *last_batch);
    }
    Ok(())
}

// The table after those of these steps that are legal.
fn table_after(alloc: Global, rows: &[(Step, bool, Option<i64>)]) -> Result<Table, AllocError> {
    let mut table = Table::new(alloc);
    for (step, _, _) in rows {
        if table.is_legal(step) {
            table.take(alloc, step)?;
        }
    }
    Ok(table)
}

#[test]
fn a_job_that_runs_keeps_its_text_and_its_second(rt: HostRuntime) -> Result<(), Fail> {
    let user = UserName::of(b"ann").ok_or("ann")?;
    let rows = starts(rt.alloc(), user)?;
    let table = table_after(rt.alloc(), rows.as_slice())?;
    match table.entry(2) {
        Some(Entry::Live(job, state)) => {
            assert_eq!(rt; job.script.as_slice(), b"echo hi\n".as_slice());
            assert_eq!(rt; job.user.as_bytes(), b"ann".as_slice());
            assert_eq!(rt; *state, State::Running(120));
        }
        _ => assert!(rt; false, "job 2 is live"),
    }
    Ok(())
}

#[test]
fn user_names_are_distinguished_from_other_bytes(rt: HostRuntime) {
    for &good in &["ann", "a", "_apt", "x.y-z", "web$", "a+b@c", "7"] {
        assert!(rt; UserName::of(good.as_bytes()).is_some(), "{good}");
    }
    for &bad in &["", "-ann", "a b", "a/b", "a\n", "a:b", "caf\u{e9}"] {
        assert!(rt; UserName::of(bad.as_bytes()).is_none(), "{bad}");
    }
    assert!(rt; UserName::of(&[b'x'; 32]).is_some());
    assert!(rt; UserName::of(&[b'x'; 33]).is_none());
}
