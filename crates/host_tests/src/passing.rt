//! A host and inputs next to a witness are called once for each call, with what that was given, and what they answered
//! is passed on.
use crate::input_recorder::InputRecorder;
use crate::recorder::Recorder;
use host_calls::{Child, Ending, Host, Inputs, Name};
use std::process::Abort;
use std::test::Fail;
use witnessed_host::{Unchecked, Witnessed, WitnessedInputs};

// A line for each call on the files.
const FILE_CALLS: &[u8] =
    b"enter||\nnames||\nlength|a|\ncreate|b|new\nwrite 3|c|old\nsync|d|\nsync_names||\nsettle||\nrename|e|f\nremove|g|\nread|h|5 1000\n";

// And for each of the others.
const OTHER_CALLS: &[u8] = b"enter||\nstart|a|7 2\nended|6|\nleave||\nenter||\nread|b|1 1000\n";

fn name(rt: &impl Abort, text: &[u8]) -> Name {
    Name::of(text).expect(rt, "a name")
}

#[test]
fn file_calls_are_passed_on(rt: HostRuntime) -> Result<(), Fail> {
    let alloc = rt.alloc();
    let mut host = Witnessed::new(Recorder::new(alloc), Unchecked);
    assert!(rt; host.enter(alloc).is_ok());
    let names = host.names(alloc).expect(&rt, "names");
    assert!(rt; names.as_slice() == [name(&rt, b"a")].as_slice());
    assert_eq!(rt; host.length(alloc, &name(&rt, b"a")), Ok(42));
    assert!(rt; host.create(alloc, &name(&rt, b"b"), b"new").is_ok());
    assert!(rt; host.write(alloc, &name(&rt, b"c"), 3, b"old").is_ok());
    assert!(rt; host.sync(alloc, &name(&rt, b"d")).is_ok());
    assert!(rt; host.sync_names(alloc).is_ok());
    assert!(rt; host.settle(alloc).is_ok());
    assert!(rt;
        host.rename(alloc, &name(&rt, b"e"), &name(&rt, b"f"))
            .is_ok()
    );
    assert!(rt; host.remove(alloc, &name(&rt, b"g")).is_ok());
    let calls = host
        .read(alloc, &name(&rt, b"h"), 5, 1000)
        .expect(&rt, "lines");
    assert_eq!(rt; calls.as_slice(), FILE_CALLS);
    Ok(())
}

#[test]
fn other_calls_are_passed_on(rt: HostRuntime) -> Result<(), Fail> {
    let alloc = rt.alloc();
    let mut host = Witnessed::new(Recorder::new(alloc), Unchecked);
    assert!(rt; host.enter(alloc).is_ok());
    let child = host
        .start(alloc, 7, &name(&rt, b"a"), 2)
        .expect(&rt, "a child");
    assert_eq!(rt; child, Child { id: 6 });
    assert_eq!(rt; host.ended(alloc, &child)?, Some(Ending::Signal(9)));
    host.leave();
    assert!(rt; host.enter(alloc).is_ok());
    let calls = host
        .read(alloc, &name(&rt, b"b"), 1, 1000)
        .expect(&rt, "lines");
    assert_eq!(rt; calls.as_slice(), OTHER_CALLS);
    Ok(())
}

#[test]
fn calls_on_inputs_are_passed_on(rt: HostRuntime) {
    let alloc = rt.alloc();
    let mut inputs = WitnessedInputs::new(InputRecorder::new(alloc), Unchecked);
    let found = inputs.file(alloc, "a/b", 6).expect(&rt, "a file");
    assert_eq!(rt; found.as_slice(), b"of the".as_slice());
    let calls = inputs.standard(alloc, 1000).expect(&rt, "lines");
    assert_eq!(rt;
        calls.as_slice(),
        b"file|a/b|6\nstandard|1000|\n".as_slice()
    );
}
