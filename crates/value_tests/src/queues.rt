//! The rules at their edges.
use queue_rules::{due_order, first_batch, is_batch, is_due, may_start_batch, nice_of};
use spool_model::{Row, State, UserName};
use std::test::Fail;

fn pending(user: UserName, number: u32, queue: u8, minute: u32) -> Row {
    Row {
        number,
        queue,
        minute,
        user,
        state: State::Pending,
    }
}

#[test]
fn queues_and_their_niceness(rt: HostRuntime) {
    for &(queue, batch, nice) in &[
        (b'a', false, 0),
        (b'b', true, 2),
        (b'j', false, 18),
        (b'k', false, 19),
        (b'z', false, 19),
        (b'A', true, 0),
        (b'B', true, 2),
        (b'Z', true, 19),
    ] {
        assert_eq!(rt; is_batch(queue), batch);
        assert_eq!(rt; nice_of(queue), nice);
    }
}

#[test]
fn batch_starts_by_load_and_interval(rt: HostRuntime) {
    for &(load, last, now, may) in &[
        (Some(150), None, 1735689600, false),
        (Some(149), None, 1735689600, true),
        (None, None, 1735689600, false),
        (Some(149), Some(1735689600), 1735689659, false),
        (Some(149), Some(1735689600), 1735689660, true),
        (Some(149), Some(1735689600), 1735689599, true),
    ] {
        assert_eq!(rt; may_start_batch(load, 150, last, now, 60), may, "{now}");
    }
}

#[test]
fn due_jobs_go_by_minute_then_number(rt: HostRuntime) -> Result<(), Fail> {
    let ann = UserName::of(b"ann").expect(&rt, "ann");
    let mut running = pending(ann, 9, b'a', 0);
    running.state = State::Running(0);
    let rows = [
        pending(ann, 1, b'b', 2),
        pending(ann, 2, b'a', 2),
        pending(ann, 3, b'c', 1),
        pending(ann, 4, b'a', 1),
        pending(ann, 5, b'B', 1),
        pending(ann, 6, b'a', 3),
        running,
    ];
    let order = due_order(rt.alloc(), &rows, 120)?;
    assert_eq!(rt; order.as_slice(), [3, 4, 2].as_slice());
    assert_eq!(rt; first_batch(&rows, 120), Some(5));
    assert_eq!(rt; first_batch(&rows, 59), None);
    assert!(rt; is_due(&rows[5], 180) && !is_due(&rows[5], 179));
    Ok(())
}
