//! What the host does as planned.
ghost use Rattle.std.specs.Prelude.{ℕ, List, Contains};
ghost use Rattle.host_calls.specs.Directory.{IsInNoImage};
ghost use Rattle.host_calls.specs.Session.{IsInside, IsOutside};
ghost use Rattle.memory_host.specs.Host.{memory_session, memory_world};

use host_calls::{Child, Ending, EnterFault, Host, HostFault, Name, StartFault};
use memory_host::{
    CallList, ChildPlan, ChildPlans, Failing, FailingList, Files, MemoryHost, Part, Plan,
};
use std::alloc::Global;
use std::process::Abort;

fn name(rt: &impl Abort, text: &str) -> Name {
    Name::of(text.as_bytes()).expect(rt, "a name")
}

fn no_plan(alloc: Global) -> Plan {
    Plan {
        failing: FailingList::new(alloc),
        taken: CallList::new(alloc),
        failing_starts: CallList::new(alloc),
        fuse: None,
        children: ChildPlans::new(alloc),
    }
}

// A host without a file, inside a session.
fn empty_host(rt: &impl Abort, alloc: Global) -> MemoryHost
    ensures inside { IsInside (memory_session result) }
    ensures empty { (name : List ℕ) → IsInNoImage (memory_world result).now.directory name }
{
    let files = Files::new(alloc);
    let mut host = MemoryHost::make(alloc, files, no_plan(alloc)).expect(rt, "memory");
    let entered = host.enter(alloc).is_ok();
    assert!(rt; entered);
    host
}

// A host with the file `a`, before its first call.
fn host_with(rt: &impl Abort, alloc: Global, plan: Plan) -> MemoryHost
    ensures { IsOutside (memory_session result) }
{
    let mut files = Files::new(alloc);
    assert!(rt; files.put(alloc, name(rt, "a"), b"hello").is_ok());
    MemoryHost::make(alloc, files, plan).expect(rt, "memory")
}

// A host with the file `a`, inside a session.
fn open_host(rt: &impl Abort, alloc: Global, plan: Plan) -> MemoryHost
    ensures inside { IsInside (memory_session result) }
{
    let mut host = host_with(rt, alloc, plan);
    assert!(rt; host.enter(alloc).is_ok());
    host
}

#[test]
fn a_file_that_was_never_synced_is_cut(rt: HostRuntime) {
    let alloc = rt.alloc();
    let a = name(&rt, "a");
    for &(pick, kept) in &[
        (0, b"".as_slice()),
        (5, b"\x05\x06\x07\x08\x09".as_slice()),
        (255, b"\xff\x00\x01".as_slice()),
        (u64::MAX, b"\xff\x00\x01".as_slice()),
    ] {
        let mut host = empty_host(&rt, alloc);
        assert!(rt; host.create(alloc, &a, b"hello").is_ok());
        assert!(rt; host.sync_names(alloc).is_ok());
        assert!(rt; host.reboot(alloc, pick, None).is_ok());
        assert_eq!(rt; host.reading(&a), Some(kept), "{pick}");
        drop(host);
    }
}

#[test]
fn a_pending_change_follows_its_bit(rt: HostRuntime) {
    let alloc = rt.alloc();
    let a = name(&rt, "a");
    let b = name(&rt, "b");
    for &(pick, at_a, at_b) in &[
        (0, false, false),
        (1, true, false),
        (2, false, false),
        (3, false, true),
    ] {
        let mut host = empty_host(&rt, alloc);
        assert!(rt; host.create(alloc, &a, b"hello").is_ok());
        assert!(rt; host.reading(&a).is_some());
        assert!(rt; host.rename(alloc, &a, &b).is_ok());
        assert!(rt; host.reboot(alloc, pick, None).is_ok());
        assert_eq!(rt; host.reading(&a).is_some(), at_a, "{pick}");
        assert_eq!(rt; host.reading(&b).is_some(), at_b, "{pick}");
        drop(host);
    }
}

#[test]
fn the_bits_begin_again_after_64_changes(rt: HostRuntime) {
    let alloc = rt.alloc();
    let a = name(&rt, "a");
    let b = name(&rt, "b");
    let mut host = empty_host(&rt, alloc);
    assert!(rt; host.create(alloc, &a, b"hello").is_ok());
    for _ in 1..64 {
        assert!(rt; host.reading(&a).is_some());
        assert!(rt; host.rename(alloc, &a, &a).is_ok());
    }
    assert!(rt; host.reading(&a).is_some());
    assert!(rt; host.rename(alloc, &a, &b).is_ok());
    assert!(rt; host.reboot(alloc, 1, None).is_ok());
    assert!(rt; host.reading(&a).is_none());
    assert!(rt; host.reading(&b).is_some());
    drop(host);
}

#[test]
fn a_written_range_is_uncertain(rt: HostRuntime) {
    let alloc = rt.alloc();
    let a = name(&rt, "a");
    let mut host = open_host(&rt, alloc, no_plan(alloc));
    let long = host.reading(&a).is_some_and(|bytes| bytes.len() >= 3);
    assert!(rt; long);
    assert!(rt; host.write(alloc, &a, 1, b"ul").is_ok());
    assert_eq!(rt; host.reading(&a), Some(b"hullo".as_slice()));
    assert!(rt; host.reboot(alloc, 200, None).is_ok());
    assert_eq!(rt; host.reading(&a), Some(b"h\xc9\xcalo".as_slice()));
    drop(host);
}

#[test]
fn a_failing_call_does_nothing_or_all(rt: HostRuntime) {
    let alloc = rt.alloc();
    let a = name(&rt, "a");
    for &(part, stays) in &[(Part::Nothing, true), (Part::All, false)] {
        let mut plan = no_plan(alloc);
        assert!(rt; plan.failing.push(alloc, Failing { call: 1, part }).is_ok());
        let mut host = open_host(&rt, alloc, plan);
        assert!(rt; host.reading(&a).is_some());
        assert_eq!(rt; host.remove(alloc, &a), Err(HostFault::Failed));
        assert_eq!(rt; host.reading(&a).is_some(), stays);
        drop(host);
    }
}

#[test]
fn the_lock_is_taken_as_planned(rt: HostRuntime) {
    let alloc = rt.alloc();
    let mut plan = no_plan(alloc);
    assert!(rt; plan.taken.push(alloc, 0).is_ok());
    let mut host = host_with(&rt, alloc, plan);
    assert_eq!(rt; host.enter(alloc), Err(EnterFault::Taken));
    assert_eq!(rt; host.calls(), 1);
    drop(host);
}

// Starts `a` as the job 7.
fn started(rt: &impl Abort, alloc: Global, host: &mut MemoryHost) -> Child
    requires inside { IsInside (memory_session host.old) }
    ensures inside { IsInside (memory_session host.new) }
    ensures child { Contains (memory_session host.new).children result }
{
    let a = name(rt, "a");
    assert!(rt; host.reading(&a).is_some());
    host.start(alloc, 7, &a, 2).expect(rt, "a child")
}

#[test]
fn a_start_fails_as_planned(rt: HostRuntime) {
    let alloc = rt.alloc();
    let a = name(&rt, "a");
    let mut plan = no_plan(alloc);
    assert!(rt; plan.failing_starts.push(alloc, 1).is_ok());
    let mut host = open_host(&rt, alloc, plan);
    let child = started(&rt, alloc, &mut host);
    assert!(rt; child.id == 0 && host.reading(&a).is_some());
    assert_eq!(rt; host.start(alloc, 8, &a, 2), Err(StartFault::Failed));
    let scripts = host.handed();
    assert_eq!(rt; scripts.len(), 2);
    assert_eq!(rt; scripts[0].script.as_slice(), b"hello".as_slice());
    assert!(rt; scripts[0].started && !scripts[1].started);
    drop(host);
}

#[test]
fn a_child_ends_as_planned(rt: HostRuntime) {
    let alloc = rt.alloc();
    let ending = Ending::Signal(9);
    let mut plan = no_plan(alloc);
    let kept = plan.children.push(alloc, ChildPlan { asks: 1, ending });
    assert!(rt; kept.is_ok());
    let mut host = open_host(&rt, alloc, plan);
    let child = started(&rt, alloc, &mut host);
    assert_eq!(rt; host.ended(alloc, &child), Ok(None));
    assert_eq!(rt; host.ended(alloc, &child), Ok(Some(ending)));
    assert_eq!(rt; host.ended(alloc, &child), Ok(Some(ending)));
    assert_eq!(rt; host.asked().len(), 3);
    drop(host);
}

#[test]
fn the_fuse_lets_no_call_through(rt: HostRuntime) {
    let alloc = rt.alloc();
    let a = name(&rt, "a");
    let mut plan = no_plan(alloc);
    plan.fuse = Some(1);
    let mut host = open_host(&rt, alloc, plan);
    assert!(rt; host.reading(&a).is_some());
    assert_eq!(rt; host.remove(alloc, &a), Err(HostFault::Failed));
    assert!(rt; host.names(alloc).is_err());
    assert!(rt; host.reading(&a).is_some());
    assert!(rt; host.reboot(alloc, 0, Some(0)).is_ok());
    assert_eq!(rt; host.enter(alloc), Err(EnterFault::Failed));
    assert_eq!(rt; host.calls(), 4);
    drop(host);
}
