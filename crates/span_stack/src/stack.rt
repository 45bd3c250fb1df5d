ghost use Rattle.std.specs.Prelude.{◌≡◌, ℕ, ◌+◌, ◌^◌, ◌<◌, ◌≤◌, ◌==◌, ◌&&◌, true, false, not, [], ◌∷◌, ◌++◌, length, IsOk, IfErr, OnOk, OnErr, IfSome, IfNone, OnSome, MatchOption, is_some, slice_get, take};
ghost use Rattle.std.specs.Iterator.{YieldsFirst};
ghost use Rattle.std.specs.Iterator.Runs.{YieldsInOrder};
ghost use Rattle.span_stack.specs.inside.Entry.{ids_of, IsLastPlace};
ghost use Rattle.span_id.specs.Ids as lists;
ghost use Rattle.span_stack.specs.Stack as words;

use crate::entry::Entry;
use crate::walk::Walk;
use smallvec::SmallVec;
use span_id::{Fault, Id};
use std::alloc::Global;
use std::marker::Model;

/// How many entries lie in the value itself, and need no memory.
pub const IN_PLACE: usize = 8;

/// The spans that a worker has entered and not left, the one entered last topmost.
///
/// Contracts see the list of ids, the topmost last, and how many more entries it takes with no
/// further memory. Up to `IN_PLACE` entries lie in the value itself.
#[derive(Debug, Drop)]
pub struct SpanStack {
    entries: SmallVec<Entry, IN_PLACE>,
}

impl Model for SpanStack {
    ghost use Rattle.span_stack.specs.Stack.{Stack};

    ghost Value = { Stack };

    ghost use Rattle.span_stack.specs.inside.Entry.{stack_of, IsSound};

    ghost view = { λ s. stack_of s.entries };

    ghost invariant = { λ s. IsSound s.entries };
}

impl SpanStack {
    /// An empty stack, which takes no memory.
    pub fn new(alloc: Global) -> SpanStack
        ensures ids { result.ids ≡ [] }
        ensures room { result.room ≡ IN_PLACE }
    {
        SpanStack {
            entries: SmallVec::new(alloc),
        }
    }

    /// Makes room for `n` more entries, after which `n` calls of `push` take no memory.
    ///
    /// The one error is `Fault::Memory`, which leaves the stack as it was.
    pub fn reserve(&mut self, n: usize) -> Result<(), Fault>
        ensures ok { OnOk result (n ≤ self.new.room) }
        ensures ids { self.new.ids ≡ self.old.ids }
        ensures room { self.old.room ≤ self.new.room }
        ensures succeeds { n ≤ self.old.room → IsOk result }
        ensures had_room { n ≤ self.old.room → self.new ≡ self.old }
        ensures err { OnErr result (self.new ≡ self.old) }
        ensures memory { IfErr result (λ fault. fault ≡ Fault.Memory) }
    {
        Ok(self.entries.reserve(n)?)
    }

    /// Puts the span on top, and answers whether this entry is no duplicate.
    ///
    /// It takes no memory: the room was made by `new` or `reserve`.
    pub fn push(&mut self, id: Id) -> bool
        requires { 0 < self.old.room }
        ensures ids { self.new.ids ≡ self.old.ids ++ id ∷ [] }
        ensures no_duplicate { result ≡ not (lists.has self.old.ids id) }
        ensures room { self.new.room + 1 ≡ self.old.room }
    {
        let duplicate = self.has(id);
        self.put(id, duplicate);
        !duplicate
    }

    /// Puts a span on top that doesn't stand in the stack, so that this entry is no duplicate.
    ///
    /// It looks at no entry, and takes no memory: the room was made by `new` or `reserve`.
    pub fn push_new(&mut self, id: Id)
        requires room { 0 < self.old.room }
        requires absent { lists.has self.old.ids id ≡ false }
        ensures ids { self.new.ids ≡ self.old.ids ++ id ∷ [] }
        ensures room { self.new.room + 1 ≡ self.old.room }
    {
        self.put(id, false);
    }

    /// Puts a span on top that stands in the stack already, so that this entry is a duplicate.
    ///
    /// It looks at no entry, and takes no memory: the room was made by `new` or `reserve`.
    pub fn push_again(&mut self, id: Id)
        requires room { 0 < self.old.room }
        requires stands { lists.has self.old.ids id ≡ true }
        ensures ids { self.new.ids ≡ self.old.ids ++ id ∷ [] }
        ensures room { self.new.room + 1 ≡ self.old.room }
    {
        self.put(id, true);
    }

    // Puts an entry on top, where it is known whether it is a duplicate.
    fn put(&mut self, id: Id, duplicate: bool)
        requires room { 0 < self.old.room }
        requires flagged { duplicate ≡ lists.has self.old.ids id }
        ensures ids { self.new.ids ≡ self.old.ids ++ id ∷ [] }
        ensures room { self.new.room + 1 ≡ self.old.room }
    {
        self.entries.push_reserved(Entry { id, duplicate });
    }

    /// Takes out the topmost entry of the span, and answers whether that entry was no duplicate.
    ///
    /// It answers `None`, and changes nothing, where the span doesn't stand in the stack.
    pub fn pop(&mut self, id: Id) -> Option<bool>
        ensures found { is_some result ≡ lists.has self.old.ids id }
        ensures ids { self.new.ids ≡ words.without_last self.old.ids id }

        // The entry taken out stood at the first place of its id exactly if the id is gone now.
        ensures no_duplicate { IfSome result (λ first. first ≡ not (lists.has self.new.ids id)) }
        ensures room { OnSome result (self.new.room ≡ self.old.room + 1) }
        ensures absent { IfNone result (self.new ≡ self.old) }
    {
        let place = last_place(self.entries.as_slice(), id)?;
        Some(!self.entries.remove(place).duplicate)
    }

    /// What `pop` would answer: whether the topmost entry of the span is no duplicate, or `None` where the span doesn't
    /// stand in the stack.
    ///
    /// It looks at the entries from the top down to that one, and takes no memory.
    pub fn would_pop(&self, id: Id) -> Option<bool>
        ensures found { is_some result ≡ lists.has self.now.ids id }
        ensures no_duplicate { IfSome result (λ first. first
            ≡ not (lists.has (words.without_last self.now.ids id) id)) }
    {
        let entries = self.entries.as_slice();
        let place = last_place(entries, id)?;
        Some(!entries[place].duplicate)
    }

    /// The spans entered and not left, each once: the entries that are no duplicates, topmost first.
    ///
    /// A walk to its end looks once at each entry.
    pub fn walk(&self) -> Walk<'_>
        ensures ids { result ≡ words.distinct_from_top self.now.ids }
        ensures fits { length result < 2 ^ 64 }
        ensures runs { YieldsInOrder (YieldsFirst {A = ℕ} (λ rest. rest)) (λ rest. rest) }
    {
        Walk {
            entries: self.entries.as_slice().iter(),
        }
    }

    /// Those of the entries from one place to below another, counted from the lowest, that are no duplicates, topmost
    /// first. So the walk of all entries below the second place is this one, and then that of those below the first.
    ///
    /// A walk to its end looks once at each entry between the places, and at no other.
    pub fn walk_between(&self, from: usize, to: usize) -> Walk<'_>
        requires order { from ≤ to }
        requires within { to ≤ length self.now.ids }
        ensures ids { words.distinct_from_top (take to self.now.ids)
            ≡ result ++ words.distinct_from_top (take from self.now.ids) }
        ensures fits { length result < 2 ^ 64 }
        ensures runs { YieldsInOrder (YieldsFirst {A = ℕ} (λ rest. rest)) (λ rest. rest) }
    {
        Walk {
            entries: self.entries.as_slice()[from..to].iter(),
        }
    }

    /// The current span: the topmost entry that is no duplicate.
    pub fn current(&self) -> Option<Id>
        ensures { result ≡ words.current self.now.ids }
    {
        self.walk().next()
    }

    /// The topmost entry, duplicate or not.
    pub fn top(&self) -> Option<Id>
        ensures { result ≡ words.top self.now.ids }
    {
        self.entries.as_slice().last().map(|entry| entry.id)
    }

    /// The entry at this place, counted from the lowest, duplicate or not.
    pub fn get(&self, place: usize) -> Option<Id>
        ensures { result ≡ slice_get self.now.ids place }
    {
        self.entries.as_slice().get(place).map(|entry| entry.id)
    }

    /// Whether the span stands in the stack.
    pub fn has(&self, id: Id) -> bool
        ensures { result ≡ lists.has self.now.ids id }
    {
        self.entries.as_slice().iter().any(|entry| entry.id == id)
    }

    /// Whether the span stands in the stack at one place alone, so that `pop` would take it out of the stack.
    ///
    /// It looks at each entry at most once, and takes no memory.
    pub fn stands_once(&self, id: Id) -> bool
        ensures { result ≡ (lists.has self.now.ids id && not (lists.has (words.without_last self.now.ids id) id)) }
    {
        self.would_pop(id).unwrap_or(false)
    }

    /// The number of entries, duplicates too.
    pub fn len(&self) -> usize
        ensures { result ≡ length self.now.ids }
    {
        self.entries.len()
    }

    /// Whether there is no entry.
    pub fn is_empty(&self) -> bool
        ensures { result ≡ (length self.now.ids == 0) }
    {
        self.entries.is_empty()
    }
}

// The place of the topmost entry of the span, if there is one.
fn last_place(entries: &[Entry], id: Id) -> Option<usize>
    ensures { MatchOption result (lists.has (ids_of entries.now) id ≡ false) (IsLastPlace entries.now id) }
{
    entries.iter().rposition(|entry| entry.id == id)
}
