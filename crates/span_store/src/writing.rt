ghost use Rattle.std.specs.Prelude.{◌≡◌, ◌<◌, ◌-◌, ◌+◌, ◌==◌, Some, IsSomeAnd};
ghost use Rattle.span_slots.specs.Table.{find, with_value};
ghost use Rattle.span_store.specs.declared.entry.Entry.{Entry};

use crate::entry::Entry;
use span_id::Id;
use span_slots::Slots;

// Writes one more handle of a span down.
pub(crate) fn add_handle(slots: &mut Slots<Entry>, id: Id)
    requires { IsSomeAnd (find slots.old.entries id) (λ entry. entry.handles < 4294967295) }
    ensures { (entry : Entry) → find slots.old.entries id ≡ Some entry → slots.new ≡ record slots.old {
      entries = with_value slots.old.entries id (record entry { handles = entry.handles + 1 });
    } }
{
    if let Some(entry) = slots.get_mut(id) {
        entry.handles += 1;
    }
}

// Writes one more child of a span down.
pub(crate) fn add_child(slots: &mut Slots<Entry>, id: Id)
    requires { IsSomeAnd (find slots.old.entries id) (λ entry. entry.children < 4294967295) }
    ensures { (entry : Entry) → find slots.old.entries id ≡ Some entry → slots.new ≡ record slots.old {
      entries = with_value slots.old.entries id (record entry { children = entry.children + 1 });
    } }
{
    if let Some(entry) = slots.get_mut(id) {
        entry.children += 1;
    }
}

// Takes one handle from a span, and answers whether nothing holds it any longer.
pub(crate) fn drop_handle(slots: &mut Slots<Entry>, id: Id) -> bool
    requires { IsSomeAnd (find slots.old.entries id) (λ entry. 0 < entry.handles) }
    ensures table { (entry : Entry) → find slots.old.entries id ≡ Some entry → slots.new ≡ record slots.old {
      entries = with_value slots.old.entries id (record entry { handles = entry.handles - 1 });
    } }
    ensures last { (entry : Entry) → find slots.old.entries id ≡ Some entry →
        result ≡ (entry.handles - 1 + entry.children == 0) }
{
    let Some(entry) = slots.get_mut(id) else {
        unreachable!()
    };
    entry.handles -= 1;
    entry.handles == 0 && entry.children == 0
}

// Takes one child from a span, and answers whether nothing holds it any longer.
pub(crate) fn drop_child(slots: &mut Slots<Entry>, id: Id) -> bool
    requires { IsSomeAnd (find slots.old.entries id) (λ entry. 0 < entry.children) }
    ensures table { (entry : Entry) → find slots.old.entries id ≡ Some entry → slots.new ≡ record slots.old {
      entries = with_value slots.old.entries id (record entry { children = entry.children - 1 });
    } }
    ensures last { (entry : Entry) → find slots.old.entries id ≡ Some entry →
        result ≡ (entry.handles + (entry.children - 1) == 0) }
{
    let Some(entry) = slots.get_mut(id) else {
        unreachable!()
    };
    entry.children -= 1;
    entry.children == 0 && entry.handles == 0
}
