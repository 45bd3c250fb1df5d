//! What lies behind the handle of a registry.

use crate::callsites::Callsites;
use crate::headings::Headings;
use span_core::Core;
use span_layers::{Admitters, ByRule};
use span_outlet::Ring;
use std::marker::Model;

/// A registry without a lock whose layers admit by their rules, and which sends its batches into a ring.
pub(crate) type RingCore = Core<Ring, Admitters<ByRule>>;

/// The registry behind a handle. Contracts see the core, the metas of the callsites, and the end of the headings.
#[derive(Drop)]
pub struct Registry {
    pub(crate) core: RingCore,
    pub(crate) callsites: Callsites,
    // Where they are kept.
    pub(crate) headings: Option<Headings>,
}

impl Model for Registry {
    ghost use Rattle.span_ffi.specs.Registry.{RegistryView};

    ghost Value = { RegistryView };

    ghost view = { λ registry. record {
      core = registry.core;
      callsites = registry.callsites;
      headings = registry.headings;
    } };
}
