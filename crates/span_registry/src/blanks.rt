//! What a registry's names are picked from.
ghost use Rattle.std.specs.Prelude.{◌≡◌, IfOk, IfErr};

use crate::registry::HANDLE_PARTS;
use span_history::History;
use span_id::{Checked, Fault};
use span_seats::SeatTable;
use std::alloc::Global;
use std::marker::Model;
use std::sync::ledger::Blank;

/// The limits of a registry to be made, and all of it that needs a name and has none yet: its two ledgers, the table of
/// its handles' seats, and its history. To a contract it is the limits and the names.
///
/// A name is picked where a function that is generic in it is called, and only from that call's arguments. So this is
/// made first.
#[derive(Drop)]
pub struct Blanks {
    pub(crate) limits: Checked,
    pub(crate) handles: Blank,
    pub(crate) calls: Blank,
    pub(crate) table: SeatTable,
    pub(crate) history: History,
}

impl Model for Blanks {
    ghost use Rattle.std.specs.Prelude.{◌≡◌, ◌-◌, ◌^◌};
    ghost use Rattle.span_registry.specs.Blanks.{BlanksView};

    ghost Value = { BlanksView };

    ghost view = { λ b. record {
      limits = b.limits;
      handles = b.handles.name;
      handle_parts = b.handles.parts;
      calls = b.calls.name;
      call_parts = b.calls.parts;
      table = b.table;
      history = b.history;
    } };

    ghost invariant = { λ b.
        (b.handles.parts ≡ 2 ^ 64 - 1) × (b.calls.parts ≡ b.limits.workers) × (b.table.words ≡ b.limits.slots) };
}

impl Blanks {
    /// Of a registry with these limits: a ledger of `HANDLE_PARTS` parts for handles, one of a part for each worker for
    /// calls, a table with a word for each slot, and an empty history. The only error is `Memory`.
    pub fn new(alloc: Global, limits: &Checked) -> Result<Blanks, Fault>
        ensures limits { IfOk result (λ blanks. blanks.limits ≡ limits.now) }
        ensures parts { IfOk result (λ blanks. (blanks.handle_parts ≡ HANDLE_PARTS) × (blanks.call_parts ≡ limits.now.workers)) }
        ensures memory { IfErr result (λ fault. fault ≡ Fault.Memory) }
    {
        let table = SeatTable::new(alloc, limits.limits().slots)?;
        let history = History::new(alloc)?;
        Ok(Blanks {
            limits: *limits,
            handles: Blank::new(HANDLE_PARTS),
            calls: Blank::new(u64::from(limits.limits().workers)),
            table,
            history,
        })
    }

    /// The limits.
    pub fn limits(&self) -> &Checked
        ensures { result.now ≡ self.now.limits }
    {
        &self.limits
    }
}
