//! Each call of a forest with what it answers where memory is there, and who owns fields.
ghost use Rattle.std.specs.Prelude.{◌≡◌};

use crate::tests::compare::{holds, id, same};
use crate::tests::layers::fixtures::{are_fields, fields};
use crate::values::meta;
use span_forest::Holder::{Entry, Handle};
use span_forest::{Forest, Held, Holder, PathText};
use span_id::{Bits, Fault, Fields, Id, Level, Limits, SharedMeta};
use std::alloc::Global;
use std::process::Abort;

// A forest with room for so many spans at two generations.
fn forest(rt: &impl Abort, alloc: Global, slots: u32) -> Forest
    ensures { result.max_count ≡ 9 }
{
    let limits = Limits {
        slots,
        last_generation: 1,
        max_count: 9,
        workers: 1,
        ring: 1,
    };
    let checked = limits.check().expect(rt, "limits");
    Forest::new(alloc, &checked).expect(rt, "memory")
}

// Adds a span that the layers of these bits admit.
fn add(
    rt: &impl Abort,
    alloc: Global,
    forest: &mut Forest,
    name: &str,
    parent: Option<Id>,
    bits: u64,
) -> Result<Id, Fault>
    ensures { forest.new.max_count ≡ forest.old.max_count }
{
    let meta = meta(alloc, name, "app", Level::Info).expect(rt, "memory");
    let meta = SharedMeta::copy_of(alloc, &meta).expect(rt, "memory");
    forest.add(meta, Fields::none(), parent, Bits(bits))
}

// Three spans below each other: layers 0 and 3 admit the first and the last, layer 1 the second and the last.
fn adds_three(rt: &impl Abort, alloc: Global, forest: &mut Forest)
    ensures { forest.new.max_count ≡ forest.old.max_count }
{
    let (one, two, three) = (id(rt, 1), id(rt, 2), id(rt, 3));
    same(rt, add(rt, alloc, forest, "a", None, 9), Ok(one), "a");
    same(rt, add(rt, alloc, forest, "b", Some(one), 2), Ok(two), "b");
    same(
        rt,
        add(rt, alloc, forest, "c", Some(two), 11),
        Ok(three),
        "c",
    );
}

// How many spans are open and whether none is, how many holders and handles there are, and the next id.
type Sizes = (u32, bool, u64, u64, Option<Id>);

fn sizes(forest: &Forest) -> Sizes {
    let (len, empty) = (forest.len(), forest.is_empty());
    let (total, handles) = (forest.total(), forest.handles());
    (len, empty, total, handles, forest.next_id())
}

// The handles, the entries and the count of a span.
fn counts(forest: &Forest, id: Id) -> Option<[u32; 3]> {
    let span = forest.find(id)?;
    Some([span.handles, span.entries, span.count])
}

// These are the ids of a list.
fn are_listed(rt: &impl Abort, list: Result<Vec<Id>, Fault>, want: &[Id]) {
    let list = list.expect(rt, "memory");
    same(rt, list.as_slice(), want, "the list");
}

// These spans are listed, with their handles and their entries.
fn are_held(rt: &impl Abort, list: Result<Vec<Held>, Fault>, want: &[(u64, u32, u32)]) {
    let list = list.expect(rt, "memory");
    same(rt, list.len(), want.len(), "how many spans");
    for (held, wanted) in list.iter().zip(want) {
        let found = (held.id.get(), held.handles, held.entries);
        same(rt, found, *wanted, "a span");
    }
}

// These are the names of a path.
fn are_named(rt: &impl Abort, names: Result<Vec<String>, Fault>, want: &[&str]) {
    let names = names.expect(rt, "memory");
    same(rt, names.len(), want.len(), "how many names");
    for (name, wanted) in names.iter().zip(want) {
        same(rt, name.as_str(), *wanted, "a name");
    }
}

// The text of a path, and the bits of the first four layers that see it.
fn is_seen(rt: &impl Abort, path: Result<PathText, Fault>, want: (&str, u64)) {
    let path = path.expect(rt, "memory");
    let seen = (path.text.as_str(), path.same.and(Bits(15)).0);
    same(rt, seen, want, "a path");
}

fn tells_paths(rt: &impl Abort, forest: &Forest) {
    let (one, last) = (id(rt, 1), id(rt, 3));
    are_named(rt, forest.path(0, last), &["a", "c"]);
    are_named(rt, forest.path(2, last), &[]);
    is_seen(rt, forest.path_text(0, last), ("a:c", 9));
    is_seen(rt, forest.path_text(1, last), ("b:c", 2));
    is_seen(rt, forest.path_text(2, last), ("-", 4));
    is_seen(rt, forest.path_text(64, one), ("-", 6));
    is_seen(rt, forest.path_text_below(0, last, "d"), ("a:c:d", 9));
    is_seen(rt, forest.path_text_below(2, last, "d"), ("d", 4));
}

// The first two spans give their handles back, and the last one its second handle, with which all close but the first
// two, which close with the entry of the second.
fn closes(rt: &impl Abort, forest: &mut Forest) {
    let (one, two, three) = (id(rt, 1), id(rt, 2), id(rt, 3));
    let kept = [forest.keep(two, Entry), forest.keep(three, Handle)];
    same(rt, kept, [Ok(()), Ok(())], "two holders more");
    same(
        rt,
        sizes(forest),
        (3, false, 5, 4, Some(id(rt, 4))),
        "three spans",
    );
    same(rt, counts(forest, two), Some([1, 1, 3]), "the second span");
    are_listed(rt, forest.release(one, Handle), &[]);
    are_listed(rt, forest.release(two, Handle), &[]);
    are_listed(rt, forest.release(three, Handle), &[]);
    are_listed(rt, forest.open_spans(), &[one, two, three]);
    lists_holders(rt, forest);
    are_listed(rt, forest.closing(three, Handle), &[three]);
    are_listed(rt, forest.release(three, Handle), &[three]);
    are_listed(rt, forest.release(two, Entry), &[two, one]);
    same(rt, counts(forest, two), None, "the second span");
    same(
        rt,
        forest.keep(one, Entry),
        Err(Fault::Unknown),
        "a closed span",
    );
    same(
        rt,
        sizes(forest),
        (0, true, 0, 0, Some(id(rt, 16777217))),
        "no span",
    );
}

// What is left of the holders: the entry of the second span, and a handle of the last.
fn lists_holders(rt: &impl Abort, forest: &Forest) {
    are_held(rt, forest.held_spans(), &[(2, 0, 1), (3, 1, 0)]);
    are_held(rt, forest.holders_of(id(rt, 1)), &[(2, 0, 1), (3, 1, 0)]);
    are_held(rt, forest.holders_of(id(rt, 3)), &[(3, 1, 0)]);
}

#[test]
fn three_spans_are_open_and_close(rt: HostRuntime) {
    let mut forest = forest(&rt, rt.alloc(), 4);
    adds_three(&rt, rt.alloc(), &mut forest);
    tells_paths(&rt, &forest);
    closes(&rt, &mut forest);
}

// One more handle of a span that has one.
fn adds_a_handle(rt: &impl Abort, forest: &mut Forest, id: Id)
    requires { forest.old.max_count ≡ 9 }
{
    let span = forest.find(id).expect(rt, "an open span");
    let (handles, count) = (span.handles, span.count);
    assert!(rt; handles == 1 && count == 1);
    forest.add_holder(id, Handle);
}

// The lists that are told of a span's handle, which is given back with the last of them.
fn closes_as_told(rt: &impl Abort, forest: &mut Forest, id: Id, want: &[Id]) {
    let span = forest.find(id).expect(rt, "an open span");
    let (handles, count, parent) = (span.handles, span.count, span.parent);
    assert!(rt; handles == 1);
    are_listed(rt, forest.closing_above(id, Handle, count, parent), want);
    let told = forest.closing_of_held(id, Handle).expect(rt, "memory");
    same(rt, told.as_slice(), want, "the list");
    forest.release_closing(id, Handle, told.as_slice());
}

// The calls for those who looked the span up.
#[test]
fn what_was_looked_up_is_taken(rt: HostRuntime) {
    let mut forest = forest(&rt, rt.alloc(), 4);
    adds_three(&rt, rt.alloc(), &mut forest);
    let (two, last) = (id(&rt, 2), id(&rt, 3));
    adds_a_handle(&rt, &mut forest, last);
    are_listed(&rt, forest.release(last, Handle), &[]);
    are_listed(&rt, forest.release(two, Handle), &[]);
    closes_as_told(&rt, &mut forest, last, &[last, two]);
    same(&rt, forest.handles(), 1, "the handles");
}

// The fields that come out where a holder of a span is given back.
fn gives_fields(
    rt: &impl Abort,
    forest: &mut Forest,
    number: u64,
    holder: Holder,
    want: &[(&str, &str)],
) {
    let id = id(rt, number);
    let span = forest.find(id).expect(rt, "an open span");
    let held = if holder == Handle {
        span.handles
    } else {
        span.entries
    };
    assert!(rt; held > 0);
    let closing = forest.closing_of_held(id, holder).expect(rt, "memory");
    let given = forest.release_for_fields(id, holder, closing.as_slice());
    are_fields(rt, &given, want);
}

// A span that stays open keeps its fields, and of those above it that close with it none come out.
#[test]
fn fields_of_the_span_that_closes_come_out(rt: HostRuntime) {
    let alloc = rt.alloc();
    let mut forest = forest(&rt, alloc, 4);
    adds_three(&rt, alloc, &mut forest);
    let (one, two, last) = (id(&rt, 1), id(&rt, 2), id(&rt, 3));
    adds_a_handle(&rt, &mut forest, last);
    let (low, mid, high) = (&[("k", "3")], &[("k", "2")], &[("k", "1")]);
    for (span, said) in [(last, low), (two, mid), (one, high)] {
        let said = fields(&rt, alloc, said);
        forest.share_fields(span, &said).expect(&rt, "an open span");
    }
    gives_fields(&rt, &mut forest, 3, Handle, &[]);
    are_listed(&rt, forest.release(two, Handle), &[]);
    gives_fields(&rt, &mut forest, 3, Handle, low);
    holds(
        &rt,
        forest.find(two).is_none() & forest.find(one).is_some(),
        "the one above",
    );
    forest.keep(one, Entry).expect(&rt, "a handle");
    gives_fields(&rt, &mut forest, 1, Handle, &[]);
    gives_fields(&rt, &mut forest, 1, Entry, high);
}

// Shares the fields with the first span once and with the second one twice, and writes others to the first one.
fn share_and_write(rt: &impl Abort, forest: &mut Forest, fields: &Fields, others: &Fields) {
    let (one, two) = (id(rt, 1), id(rt, 2));
    for span in [one, two, two] {
        forest.share_fields(span, fields).expect(rt, "an open span");
    }
    let written = forest.write_fields(one, others.as_slice());
    written.expect(rt, "an open span");
}

// The span has these fields.
fn has_fields(rt: &impl Abort, forest: &Forest, number: u64, want: &[(&str, &str)]) {
    let span = forest.find(id(rt, number)).expect(rt, "an open span");
    are_fields(rt, &span.fields, want);
}

#[test]
fn spans_share_their_first_fields(rt: HostRuntime) {
    let alloc = rt.alloc();
    let mut forest = forest(&rt, alloc, 4);
    adds_three(&rt, alloc, &mut forest);
    let first = fields(&rt, alloc, &[("k", "1")]);
    let others = fields(&rt, alloc, &[("l", "2"), ("k", "3")]);
    share_and_write(&rt, &mut forest, &first, &others);
    has_fields(&rt, &forest, 1, &[("k", "1"), ("l", "2"), ("k", "3")]);
    has_fields(&rt, &forest, 2, &[("k", "1"), ("k", "1")]);
    are_fields(&rt, &first, &[("k", "1")]);
}

// A chain of so many spans, of which each but the last is kept open by its child alone, and the last one.
fn adds_chain(rt: &impl Abort, alloc: Global, forest: &mut Forest, length: u32) -> Id {
    let mut last = add(rt, alloc, forest, "p", None, 1).expect(rt, "a span");
    for _ in 1..length {
        let next = add(rt, alloc, forest, "p", Some(last), 1).expect(rt, "a span");
        are_listed(rt, forest.release(last, Handle), &[]);
        last = next;
    }
    last
}

// Deep spans are as good as others: nothing of a chain takes more of the stack than one span does.
#[test]
fn a_long_chain_has_a_path_and_closes(rt: HostRuntime) {
    let mut forest = forest(&rt, rt.alloc(), 65536);
    let last = adds_chain(&rt, rt.alloc(), &mut forest, 65536);
    let names = forest.path(0, last).expect(&rt, "memory");
    let text = forest.path_text(0, last).expect(&rt, "memory").text;
    let closed = forest.release(last, Handle).expect(&rt, "a handle");
    let lengths = (names.len(), text.as_str().len(), closed.len());
    same(&rt, lengths, (65536, 131071, 65536), "a chain");
    same(&rt, forest.is_empty(), true, "no span is open");
}
