//! The table of the slots' words, made before it has a name, and names of tables.
ghost use Rattle.std.specs.Prelude.{◌≡◌, ◌<◌, IfOk, IfErr};
ghost use Rattle.atomic_table.specs.Seated.{TableId};
ghost use Rattle.span_seats.specs.RootView.{empty_table};

use crate::root::RootSeat;
use crate::rule::SeatRule;
use crate::view::SeatView;
use atomic_table::{Seat, Table};
use span_id::Fault;
use std::alloc::Global;
use std::marker::{Brand, Model, PhantomData};

/// Names the two tables of one registry, so that the types tell the seats of different registries apart.
pub trait TableName {
    ghost use Rattle.atomic_table.specs.Seated.{TableId};

    /// The table of the handles' seats.
    ghost table: { TableId };

    /// The table of the history, whose seats are the workers' and the keeper's.
    ghost history: { TableId };
}

impl TableName for Brand {
    ghost use Rattle.span_seats.specs.TableName.{no_table};

    ghost table = { no_table };

    ghost history = { no_table };
}

pub(crate) type WordTable = Table<(), SeatView, u64, SeatRule, Global>;

/// A table with the root's seat, which has no name yet. To a contract it is the table's id.
///
/// A name's `table` is picked where a function that is generic in the name is called, and only from that call's
/// arguments. So the table is made first.
#[derive(Drop)]
pub struct SeatTable {
    table: WordTable,
    seat: Seat<(), SeatView>,
}

impl Model for SeatTable {
    ghost use Rattle.std.specs.Prelude.{◌≡◌, ◌<◌, []};
    ghost use Rattle.atomic_table.specs.Seated.{TableId};
    ghost use Rattle.span_seats.specs.inside.SeatView.{first_view};

    ghost Value = { TableId };

    ghost view = { λ t. t.table.shared.table_id };

    ghost invariant = { λ t.
        (t.seat.table_id ≡ t.table.shared.table_id) × (0 < t.table.shared.table_id.words) × (t.seat.id ≡ 0)
        × (t.seat.me ≡ (first_view t.table.shared.table_id.words, [])) };
}

impl SeatTable {
    /// Makes a table of so many slots, at least one: no handle, and each slot's word 0. The only error is `Memory`.
    pub fn new(alloc: Global, slots: u32) -> Result<SeatTable, Fault>
        requires { 0 < slots }
        ensures slots { IfOk result (λ table. table.words ≡ slots) }
        ensures memory { IfErr result (λ fault. fault ≡ Fault.Memory) }
    {
        let zeros = vec![in alloc; 0u64; slots as usize]?;
        let (table, seat) = WordTable::of_words(alloc, zeros.as_slice(), &u64::from(slots))?;
        Ok(SeatTable { table, seat })
    }

    /// The number of slots.
    pub fn slots(&self) -> usize
        ensures { result ≡ self.now.words }
    {
        self.table.word_count()
    }

    /// The root, which from here on is that of the table named `T`.
    #[tactic(auto, using(crate::proofs::WellFormed::empty_well_formed))]
    pub fn named<T: TableName>(self) -> RootSeat<T>
        requires { self ≡ T.table }
        ensures { result ≡ empty_table self.words }
    {
        let SeatTable { table, seat } = self;
        RootSeat {
            table,
            seat,
            name: PhantomData,
        }
    }
}
