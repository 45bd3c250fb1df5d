use crate::{SpanDetails, Store};
use span_id::{Bits, Fault, Id, Limits};
use std::alloc::Global;
use std::test::Fail;

// A store of so many slots, whose spans may be held so often.
fn store(alloc: Global, slots: u32, max_count: u32) -> Result<Store, Fault> {
    let limits = Limits {
        slots,
        last_generation: 1,
        max_count,
        workers: 1,
        ring: 1,
    };
    let checked = limits.check()?;
    Store::new(alloc, &checked)
}

#[test]
fn a_chain_closes_child_first_by_its_ends(rt: HostRuntime) -> Result<(), Fail> {
    let mut spans = store(rt.alloc(), 4, 9)?;
    let root = spans.add(None, Bits(1), 11)?;
    let child = spans.add(Some(root), Bits(2), 22)?;
    let leaf = spans.add(Some(child), Bits(3), 33)?;
    assert_eq!(rt; spans.release(root), Ok(false));
    assert_eq!(rt; spans.release(child), Ok(false));
    assert_eq!(rt; spans.release(leaf), Ok(true));
    assert_eq!(rt; spans.len(), 3);
    assert_eq!(rt; spans.ended(leaf), Ok(Some(child)));
    assert_eq!(rt; spans.ended(child), Ok(Some(root)));
    assert_eq!(rt; spans.ended(root), Ok(None));
    assert!(rt; spans.is_empty());
    assert_eq!(rt; spans.handles(), 0);
    Ok(())
}

#[test]
fn a_closing_span_is_found_and_kept_by_nobody(rt: HostRuntime) -> Result<(), Fail> {
    let mut spans = store(rt.alloc(), 2, 9)?;
    let root = spans.add(None, Bits(5), 77)?;
    let child = spans.add(Some(root), Bits(6), 88)?;
    assert_eq!(rt; spans.release(child), Ok(true));
    let found = spans.find(child).ok_or("it is there")?;
    assert_eq!(rt; found.parent, Some(root));
    assert_eq!(rt; (found.word, found.bits.0), (88, 6));
    assert_eq!(rt; (found.handles, found.children), (0, 0));
    assert_eq!(rt; spans.keep(child), Err(Fault::Unknown));
    assert_eq!(rt; spans.add(Some(child), Bits(0), 0), Err(Fault::Unknown));
    assert_eq!(rt; spans.release(child), Err(Fault::Unknown));
    // Its parent is still held by it, and its slot is nobody else's.
    assert_eq!(rt; spans.release(root), Ok(false));
    assert_eq!(rt; spans.add(None, Bits(0), 0), Err(Fault::Full));
    assert_eq!(rt; spans.ended(root), Err(Fault::Unknown));
    assert_eq!(rt; spans.ended(child), Ok(Some(root)));
    assert!(rt; spans.find(child).is_none());
    assert_eq!(rt; spans.ended(child), Err(Fault::Unknown));
    Ok(())
}

#[test]
fn a_parent_may_be_kept_while_its_child_is_closing(rt: HostRuntime) -> Result<(), Fail> {
    let mut spans = store(rt.alloc(), 2, 9)?;
    let root = spans.add(None, Bits(0), 1)?;
    let child = spans.add(Some(root), Bits(0), 2)?;
    assert_eq!(rt; spans.release(root), Ok(false));
    assert_eq!(rt; spans.release(child), Ok(true));
    assert_eq!(rt; spans.keep(root), Ok(()));
    assert_eq!(rt; spans.ended(child), Ok(None));
    assert_eq!(rt; spans.release(root), Ok(true));
    assert_eq!(rt; spans.ended(root), Ok(None));
    Ok(())
}

#[test]
fn counts_and_slots_have_limits(rt: HostRuntime) -> Result<(), Fail> {
    let mut spans = store(rt.alloc(), 1, 2)?;
    let first = spans.add(None, Bits(0), 1)?;
    assert_eq!(rt; spans.keep(first), Ok(()));
    assert_eq!(rt; spans.keep(first), Err(Fault::CountFull));
    assert_eq!(rt; spans.add(Some(first), Bits(0), 2), Err(Fault::CountFull));
    assert_eq!(rt; spans.release(first), Ok(false));
    assert_eq!(rt; spans.add(Some(first), Bits(0), 2), Err(Fault::Full));
    assert_eq!(rt; spans.release(first), Ok(true));
    assert_eq!(rt; spans.ended(first), Ok(None));
    let second = spans.add(None, Bits(0), 3)?;
    assert_eq!(rt; second, Id::pack(0, 1));
    assert_eq!(rt; spans.release(second), Ok(true));
    assert_eq!(rt; spans.ended(second), Ok(None));
    assert_eq!(rt; spans.add(None, Bits(0), 4), Err(Fault::Full));
    Ok(())
}

#[test]
fn a_walk_meets_open_and_closing_spans_by_their_slots(rt: HostRuntime) -> Result<(), Fail> {
    let mut spans = store(rt.alloc(), 4, 9)?;
    assert_eq!(rt; spans.id_from(0), None);
    let first = spans.add(None, Bits(0), 1)?;
    let second = spans.add(None, Bits(0), 2)?;
    let third = spans.add(Some(second), Bits(0), 3)?;
    assert_eq!(rt; spans.release(third), Ok(true));
    assert_eq!(rt; spans.release(first), Ok(true));
    assert_eq!(rt; spans.ended(first), Ok(None));
    assert_eq!(rt; spans.id_from(0), Some(second));
    assert_eq!(rt; spans.id_from(2), Some(third));
    assert_eq!(rt; spans.id_from(3), None);
    let again = spans.add(None, Bits(0), 4)?;
    assert_eq!(rt; spans.id_from(0), Some(again));
    assert_eq!(rt; again, Id::pack(0, 1));
    assert_eq!(rt; spans.id_from(1), Some(second));
    assert_eq!(rt; spans.id_from(u32::MAX), None);
    Ok(())
}

// What is told of a root of slot 0, made with word 11, and of its child, made with word 22.
fn of_root(handles: u32, children: u32, closing: bool) -> SpanDetails {
    SpanDetails {
        id: Id::pack(0, 0),
        parent: None,
        word: 11,
        handles,
        children,
        closing,
    }
}

fn of_child(handles: u32, closing: bool) -> SpanDetails {
    SpanDetails {
        id: Id::pack(1, 0),
        parent: Some(Id::pack(0, 0)),
        word: 22,
        handles,
        children: 0,
        closing,
    }
}

#[test]
fn it_tells_what_holds_each_span(rt: HostRuntime) -> Result<(), Fail> {
    let mut spans = store(rt.alloc(), 4, 9)?;
    assert!(rt; spans.span_details()?.is_empty());
    let root = spans.add(None, Bits(0), 11)?;
    let child = spans.add(Some(root), Bits(0), 22)?;
    assert_eq!(rt; spans.keep(child), Ok(()));
    let told = spans.span_details()?;
    assert_eq!(rt;
        told.as_slice(),
        [of_root(1, 1, false), of_child(2, false)].as_slice()
    );
    Ok(())
}

#[test]
fn it_tells_which_spans_are_closing(rt: HostRuntime) -> Result<(), Fail> {
    let mut spans = store(rt.alloc(), 4, 9)?;
    let root = spans.add(None, Bits(0), 11)?;
    let child = spans.add(Some(root), Bits(0), 22)?;
    assert_eq!(rt; spans.release(root), Ok(false));
    assert_eq!(rt; spans.release(child), Ok(true));
    let told = spans.span_details()?;
    assert_eq!(rt;
        told.as_slice(),
        [of_root(0, 1, false), of_child(0, true)].as_slice()
    );
    assert_eq!(rt; spans.ended(child), Ok(Some(root)));
    let told = spans.span_details()?;
    assert_eq!(rt; told.as_slice(), [of_root(0, 0, true)].as_slice());
    Ok(())
}
