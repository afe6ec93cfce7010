//! The second of eight events, from the table of the kinds.
use at_day::{Event, make_events};
use std::test::Fail;

// Whether the event is a command whose fourth of five words is 30, with this input and at this second.
fn is_second(event: &Event) -> bool {
    match event {
        Event::Command {
            words,
            input,
            now,
            ..
        } => {
            let words = words.as_slice();
            words.len() == 5
                && words[3].as_str() == "30"
                && input.as_slice() == b"echo 1\n".as_slice()
                && *now == 1_735_689_660
        }
        _ => false,
    }
}

#[test]
fn second_of_eight(rt: HostRuntime) -> Result<(), Fail> {
    let made = make_events(rt.alloc(), 8)?;
    let events = made.events.as_slice();
    assert!(rt; events.len() == 8 && is_second(&events[1]));
    Ok(())
}
