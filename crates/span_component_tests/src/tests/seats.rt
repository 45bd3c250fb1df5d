//! Steps in a table of two slots.
ghost use Rattle.std.specs.Prelude.{◌≡◌, [], ◌∷◌};

use crate::tests::compare::same;
use span_id::Id;
use span_seats::laws::two_handles_have_two_numbers;
use span_seats::{HandleSeat, RootSeat, SeatTable, TableName};
use std::marker::Brand;

fn is_send<T: Send>(_value: &T) {}

// A span is opened and has two handles, one of which is shown and gets its seat back.
fn opened<T: TableName + Send>(root: &mut RootSeat<T>, id: Id) -> (HandleSeat<T>, HandleSeat<T>)
    requires empty { root.old ≡ record { handles = []; next_number = 0; words = 0 ∷ 0 ∷ []; split_id = 0 } }
    requires id { id ≡ 2 }
    ensures words { root.new.words ≡ 0 ∷ 1 ∷ [] }
    ensures handles { root.new.handles ≡ record { id = 2; number = 2 } ∷ record { id = 2; number = 1 } ∷ [] }
    ensures next_number { root.new.next_number ≡ 3 }
    ensures one { result.0 ≡ record { id = 2; number = 2 } }
    ensures other { result.1 ≡ record { id = 2; number = 1 } }
{
    is_send(root);
    root.mark_open(id);
    let one = root.split();
    is_send(&one);
    let other = root.split();
    root.join(one);
    (root.split(), other)
}

// Both handles are given back, the span is closed, and its slot is given again at the next generation.
fn closed_and_opened_again<T: TableName>(
    root: &mut RootSeat<T>,
    one: HandleSeat<T>,
    other: HandleSeat<T>,
) -> HandleSeat<T>
    requires words { root.old.words ≡ 0 ∷ 1 ∷ [] }
    requires handles { root.old.handles ≡ record { id = 2; number = 2 } ∷ record { id = 2; number = 1 } ∷ [] }
    requires next_number { root.old.next_number ≡ 3 }
    requires one { one ≡ record { id = 2; number = 2 } }
    requires other { other ≡ record { id = 2; number = 1 } }
    ensures words { root.new.words ≡ 0 ∷ 2 ∷ [] }
    ensures handles { root.new.handles ≡ record { id = 16777218; number = 3 } ∷ [] }
    ensures again { result ≡ record { id = 16777218; number = 3 } }
{
    root.join(other);
    root.join(one);
    root.mark_closed(&[Id::pack(1, 0)]);
    root.mark_open(Id::pack(1, 1));
    root.split()
}

fn steps<T: TableName + Send>(table: SeatTable)
    requires named { table ≡ T.table }
    requires slots { table.words ≡ 2 }
{
    let mut root = table.named::<T>();
    let (one, other) = opened(&mut root, Id::pack(1, 0));
    let again = closed_and_opened_again(&mut root, one, other);
    two_handles(&mut root, again);
}

// Two handles of one id are told apart, and each gets a seat back.
fn two_handles<T: TableName>(root: &mut RootSeat<T>, first: HandleSeat<T>)
    ensures { root.new.words ≡ root.old.words }
{
    root.join(first);
    let one = root.split();
    let other = root.split();
    let (one, other) = two_handles_have_two_numbers(root, one, other);
    root.join(one);
    root.join(other);
}

#[test]
fn gives_a_slot_again(rt: HostRuntime) {
    let table = SeatTable::new(rt.alloc(), 2).expect(&rt, "memory");
    same(&rt, table.slots(), 2, "the slots");
    steps::<Brand>(table);
}
