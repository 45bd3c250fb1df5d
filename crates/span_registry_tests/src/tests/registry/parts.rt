//! Shares that know how many parts they have.
ghost use Rattle.std.specs.Prelude.{◌≡◌, ◌+◌, ◌^◌, ◌<◌, IfSome, OnSome};
ghost use Rattle.span_registry.specs.Share.{IsWhole};

use span_registry::{DroppableHandle, HANDLE_PARTS, Setup, Share, Worker};
use std::process::Abort;
use std::sync::ledger::Ledger;

/// A share, and its parts of the two ledgers.
#[derive(Drop)]
pub(crate) struct Part<H: Ledger, C: Ledger, S: Setup> {
    share: Share<H, C, S>,
    handle_parts: u64,
    call_parts: u64,
    ghost counted: { (share.handle_parts ≡ handle_parts) × (share.call_parts ≡ call_parts) },
}

// The parts of both ledgers that two parts have together, where these and all other sums fit.
fn sums<H: Ledger, C: Ledger, S: Setup>(
    one: &Part<H, C, S>,
    other: &Part<H, C, S>,
) -> Option<(u64, u64)>
    ensures handles { IfSome result (λ sums. one.now.handle_parts + other.now.handle_parts ≡ sums.0) }
    ensures calls { IfSome result (λ sums. one.now.call_parts + other.now.call_parts ≡ sums.1) }
    ensures units { OnSome result (one.now.share.units + other.now.share.units < 2 ^ 64) }
    ensures accepted { OnSome result (one.now.share.accepted + other.now.share.accepted < 2 ^ 64) }
{
    one.share.units().checked_add(other.share.units())?;
    one.share.accepted().checked_add(other.share.accepted())?;
    let handle_parts = one.handle_parts.checked_add(other.handle_parts)?;
    let call_parts = one.call_parts.checked_add(other.call_parts)?;
    Some((handle_parts, call_parts))
}

impl<H: Ledger, C: Ledger, S: Setup> Part<H, C, S> {
    /// What a worker leaves.
    pub(crate) fn of_worker(worker: Worker<H, C, S>) -> Part<H, C, S> {
        let handle_parts = worker.spare();
        Part {
            share: worker.leave(),
            handle_parts,
            call_parts: 1,
        }
    }

    /// A handle that is given up.
    pub(crate) fn of_handle(held: DroppableHandle<H, C, S>) -> Part<H, C, S> {
        Part {
            share: held.into_handle().into_share(),
            handle_parts: 1,
            call_parts: 0,
        }
    }

    /// Both together; all sums have to fit.
    pub(crate) fn join(self, rt: &impl Abort, other: Part<H, C, S>) -> Part<H, C, S> {
        let (handle_parts, call_parts) = sums(&self, &other).expect(rt, "sums that fit");
        Part {
            share: self.share.join(other.share),
            handle_parts,
            call_parts,
        }
    }
}

// The parts so far with one more.
fn with_part<H: Ledger, C: Ledger, S: Setup>(
    rt: &impl Abort,
    whole: Option<Part<H, C, S>>,
    part: Part<H, C, S>,
) -> Option<Part<H, C, S>> {
    match whole {
        None => Some(part),
        Some(before) => Some(before.join(rt, part)),
    }
}

/// The parts of workers that leave and of handles that are given up, put together.
pub(crate) fn gather<H: Ledger, C: Ledger, S: Setup>(
    rt: &impl Abort,
    workers: Vec<Worker<H, C, S>>,
    held: Vec<DroppableHandle<H, C, S>>,
) -> Option<Part<H, C, S>> {
    let mut whole = None;
    for worker in workers {
        whole = with_part(rt, whole, Part::of_worker(worker));
    }
    for one in held {
        whole = with_part(rt, whole, Part::of_handle(one));
    }
    whole
}

/// The share of a registry with so many workers; these have to be all its parts.
pub(crate) fn whole_share<H: Ledger, C: Ledger, S: Setup>(
    rt: &impl Abort,
    workers: u32,
    whole: Option<Part<H, C, S>>,
) -> Share<H, C, S>
    requires { (H.parts ≡ HANDLE_PARTS) × (C.parts ≡ workers) }
    ensures { IsWhole H.parts C.parts result }
{
    let whole = whole.expect(rt, "a part");
    assert!(rt; whole.handle_parts == HANDLE_PARTS && whole.call_parts == u64::from(workers));
    whole.share
}
