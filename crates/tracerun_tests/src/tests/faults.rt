//! What no clause says: the texts of the faults.
use crate::tests::compare::same;
use span_id::Fault;
use span_replay::ReplayFault;
use span_run::WriteFailed;
use span_script::Reason;
use span_storm::StormFault;
use std::alloc::Global;
use std::fmt::Display;
use std::process::Abort;

#[test]
fn faults_of_replays_have_their_text_and_status(rt: HostRuntime) {
    let alloc = rt.alloc();
    for (fault, text, status) in [
        (
            ReplayFault::Script(2, Reason::NotJson),
            "line 2: not JSON",
            1,
        ),
        (
            ReplayFault::Script(0, Reason::TooLong),
            "line 0: too long",
            1,
        ),
        (ReplayFault::Memory, "out of memory", 3),
        (ReplayFault::Read, "device: read failed", 3),
        (ReplayFault::Write, "device: write failed", 3),
    ] {
        is_told(&rt, alloc, &fault, fault.status(), text, status);
    }
}

#[test]
fn faults_of_storms_have_their_text_and_status(rt: HostRuntime) {
    let alloc = rt.alloc();
    for (fault, text) in [
        (StormFault::Memory, "out of memory"),
        (StormFault::Refused(Fault::Backlog), "refused: backlog"),
        (StormFault::Refused(Fault::Memory), "refused: out of memory"),
        (StormFault::Held(0), "worker 0 was held"),
        (StormFault::Held(16), "worker 16 was held"),
    ] {
        is_told(&rt, alloc, &fault, fault.status(), text, 3);
    }
    let failed = WriteFailed;
    is_told(
        &rt,
        alloc,
        &failed,
        failed.status(),
        "device: write failed",
        3,
    );
}

// Whether the fault is told in this text, and has this status.
fn is_told<F: Display>(
    rt: &impl Abort,
    alloc: Global,
    fault: &F,
    status: u8,
    text: &str,
    want: u8,
) {
    let told = fault.to_string(alloc).expect(rt, "memory");
    same(rt, (told.as_str(), status), (text, want), text);
}
