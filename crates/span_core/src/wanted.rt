//! Whether anything listens, and above which level nothing does.
ghost use Rattle.std.specs.Prelude.{◌≡◌, ◌≤◌, true, IsSomeAnd, string_bytes};
ghost use Rattle.span_id.specs.Level.{verbosity};
ghost use Rattle.span_id.specs.Meta.{PlainMeta};
ghost use Rattle.span_core.specs.Step.{is_wanted_meta};
ghost use Rattle.span_core.specs.Wanted.{some_rule_admits, IsMaxLevel};

use crate::Core;
use span_id::{Level, Meta};
use span_layers::Admit;
use span_outlet::Outlet;

impl<O: Outlet, A: Admit> Core<O, A> {
    /// Whether some layer's rule admits what has this target and level. The rules never change, so the answer doesn't
    /// either.
    pub fn wants(&self, meta: &Meta) -> bool
        ensures { result ≡ some_rule_admits self.now.rules (string_bytes meta.now.target) meta.now.level }
    {
        self.rules.bits(&self.admitters, meta).0 != 0
    }

    /// No span and no event is wanted at a level above this one: `Trace` where there is no layer, since then everything
    /// is, else the most verbose one that a layer's rule names, also in a pair that a later one of the same prefix
    /// overrides; none where no rule names one. The answer never changes.
    pub fn max_level(&self) -> Option<Level>
        ensures level { IsMaxLevel self.now.rules result }
        ensures wanted { (meta : PlainMeta) → is_wanted_meta self.now.rules meta ≡ true
            → IsSomeAnd result (λ most. verbosity meta.level ≤ verbosity most) }
    {
        if self.rules.is_empty() {
            return Some(Level::Trace);
        }
        self.rules.max_level()
    }
}
