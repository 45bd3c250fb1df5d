ghost use Rattle.std.specs.Prelude.{◌≡◌, ℕ, ◌<◌, ◌≤◌, ◌↔◌, ◌⊎◌, Some, None, IsOk, IsSome, IsSomeAnd, MatchOption, IfOk, IfErr, OnErr, length};
ghost use Rattle.span_id.specs.Id.{IsId};
ghost use Rattle.span_slots.specs.Table.{find, next_id, IsIssued};
ghost use Rattle.span_slots.specs.Change.{Insert, after};
ghost use Rattle.span_store.specs.inside.Adding.{child_in};

use crate::entry::Entry;
use crate::writing::add_child;
use span_id::{Fault, Id};
use span_slots::Slots;
use span_slots::laws::{insert_issues_its_id_alone, next_id_was_never_issued};

// Stores a new entry, and counts it at its parent. Refused with `Full` where no slot is free.
pub(crate) fn place(slots: &mut Slots<Entry>, entry: Entry) -> Result<Id, Fault>
    requires { MatchOption entry.parent (Unit {0}) (λ p. IsSomeAnd (find slots.old.entries p)
        (λ above. above.children < 4294967295)) }
    ensures full { IsOk result ↔ IsSome (next_id slots.old) }
    ensures id { IfOk result (λ id. next_id slots.old ≡ Some id) }
    ensures vacant { IfOk result (λ id. find slots.old.entries id ≡ None) }
    ensures table { IfOk result (λ _. slots.new ≡ child_in (after slots.old (Insert entry)) entry.parent) }
    ensures unchanged { OnErr result (slots.new ≡ slots.old) }
    ensures fault { IfErr result (λ fault. fault ≡ Fault.Full) }
    ensures never_issued { IfOk result (λ id. IsIssued slots.old id → ⊥) }
    ensures issued { IfOk result (λ id. (other : ℕ) → IsId other →
        (IsIssued slots.new other ↔ (IsIssued slots.old other ⊎ (id ≡ other)))) }
    ensures few { length slots.new.entries ≤ 4294967295 }
{
    let parent = entry.parent;
    next_id_was_never_issued(slots);
    insert_issues_its_id_alone(slots);
    let Ok(id) = slots.insert(entry) else {
        let _there = slots.len();
        return Err(Fault::Full);
    };
    if let Some(parent) = parent {
        add_child(slots, parent);
    }
    // How many spans are there fits 32 bits, so the number of all handles fits 64.
    let _there = slots.len();
    Ok(id)
}
