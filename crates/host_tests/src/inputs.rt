//! Answers along lists, inputs that fail, and a sink that fails at one put.
use host_calls::{InputFault, Inputs, Readings, Sink, SinkFault};
use memory_host::{ListReadings, MemoryInputs, MemorySink};
use std::alloc::Global;
use std::test::Fail;

#[test]
fn the_last_answer_of_a_list_repeats(rt: HostRuntime) -> Result<(), Fail> {
    let mut readings = ListReadings::make(rt.alloc(), &[60, -1], &[None, Some(150)])?;
    assert_eq!(rt; readings.now(), 60);
    assert_eq!(rt; readings.now(), -1);
    assert_eq!(rt; readings.now(), -1);
    assert_eq!(rt; readings.load(), None);
    assert_eq!(rt; readings.load(), Some(150));
    assert_eq!(rt; readings.load(), Some(150));
    readings.rest(60);
    readings.rest(1);
    assert_eq!(rt; readings.rested(), 61);
    Ok(())
}

#[test]
fn inputs_give_their_first_bytes(rt: HostRuntime) -> Result<(), Fail> {
    let alloc = rt.alloc();
    let mut inputs = MemoryInputs::make(alloc, b"echo hi\n", Some(b"ls\n"), false)?;
    let prefix = inputs.standard(alloc, 4).expect(&rt, "four bytes");
    assert_eq!(rt; prefix.as_slice(), b"echo".as_slice());
    let file = inputs.file(alloc, "any", 100).expect(&rt, "a file");
    assert_eq!(rt; file.as_slice(), b"ls\n".as_slice());
    Ok(())
}

// How standard input and a file fail.
fn faults<I: Inputs>(alloc: Global, inputs: &mut I) -> (Option<InputFault>, Option<InputFault>) {
    let standard = inputs.standard(alloc, 4).err();
    (standard, inputs.file(alloc, "any", 4).err())
}

#[test]
fn inputs_fail_where_planned_or_where_there_is_no_file(rt: HostRuntime) -> Result<(), Fail> {
    let alloc = rt.alloc();
    let failed = Some(InputFault::Failed);
    let mut without = MemoryInputs::make(alloc, b"", None, false)?;
    assert_eq!(rt; faults(alloc, &mut without), (None, failed));
    drop(without);
    let mut failing = MemoryInputs::make(alloc, b"", Some(b""), true)?;
    assert_eq!(rt; faults(alloc, &mut failing), (failed, failed));
    Ok(())
}

#[test]
fn a_sink_fails_at_the_put_of_that_number_alone(rt: HostRuntime) {
    let mut sink = MemorySink::make(rt.alloc(), Some(1));
    assert!(rt; sink.put(rt.alloc(), b"one ").is_ok());
    assert_eq!(rt; sink.put(rt.alloc(), b"two "), Err(SinkFault::Failed));
    assert!(rt; sink.put(rt.alloc(), b"three").is_ok());
    assert_eq!(rt; sink.content(), b"one three".as_slice());
}
