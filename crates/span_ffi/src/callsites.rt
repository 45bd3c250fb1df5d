//! Places of a program that make spans or tell events, each with a meta that was handed over once.
ghost use Rattle.std.specs.Prelude.{◌≡◌, ◌<◌, ◌↔◌, ◌^◌, ◌++◌, ◌∷◌, [], length, slice_get, IsTrue, IsSome, IfSome, IfNone, OnOk, OnErr};
ghost use Rattle.std.specs.Option.{option_map};
ghost use Rattle.span_id.specs.Meta.{plain_meta};
ghost use Rattle.span_ffi.specs.CallsiteOf.{LacksMeta, IsFirstWith};

use span_id::{Meta, SharedMeta};
use std::alloc::{AllocError, Global};
use std::marker::Model;

/// The metas of callsites, which have numbers from 0 on. Contracts see the list of the metas.
#[derive(Drop)]
pub struct Callsites {
    metas: Vec<SharedMeta>,
}

impl Model for Callsites {
    ghost use Rattle.std.specs.Prelude.{◌≤◌, ◌^◌, List, length};
    ghost use Rattle.span_id.specs.Meta.{PlainMeta};

    ghost Value = { List PlainMeta };

    ghost view = { λ callsites. callsites.metas.items };

    // Each has a number.
    ghost invariant = { λ callsites. length callsites.metas.items ≤ 2 ^ 32 };
}

impl Callsites {
    /// None.
    pub fn new(alloc: Global) -> Callsites
        ensures { result ≡ [] }
    {
        Callsites {
            metas: Vec::new(alloc),
        }
    }

    /// The number that the next one gets. None: each number is taken.
    pub fn next_number(&self) -> Option<u32>
        ensures exact { IsSome result ↔ (length self.now < 2 ^ 32) }
        ensures number { IfSome result (λ number. number ≡ length self.now) }
    {
        u32::try_from(self.metas.len()).ok()
    }

    /// One more, behind the others, where a number is left for it.
    pub fn add(&mut self, meta: SharedMeta) -> Result<(), AllocError>
        requires { length self.old < 2 ^ 32 }
        ensures added { OnOk result (self.new ≡ self.old ++ meta ∷ []) }
        ensures unchanged { OnErr result (self.new ≡ self.old) }
    {
        self.metas.push(meta)?;
        Ok(())
    }

    /// The meta of the callsite of this number, if it is there.
    pub fn get(&self, number: u32) -> Option<&SharedMeta>
        ensures { option_map (λ meta. meta.now) result ≡ slice_get self.now number }
    {
        self.metas.get(number as usize)
    }

    /// The number of the first callsite with the same meta. None: no callsite has it.
    pub fn first_like(&self, meta: &Meta) -> Option<u32>
        ensures first { IfSome result (λ number. IsFirstWith (plain_meta meta.now) number self.now) }
        ensures none { IfNone result (LacksMeta (plain_meta meta.now) self.now) }
    {
        for (number, other) in self.metas.iter().enumerate() {
            if is_same(other.as_meta(), meta) {
                return Some(number as u32);
            }
        }
        None
    }
}

// Whether two metas have the same level, name and target.
fn is_same(first: &Meta, second: &Meta) -> bool
    ensures { IsTrue result ↔ (plain_meta first.now ≡ plain_meta second.now) }
{
    first == second
}
