//! What a storm's layers call, as its threads call it.
//!
//! A thread is sent what is a type parameter with its bounds, and nothing that rests on a bound of a type made of one.
//! So that a registry of the layers' `Admitters<A>`, and a drain of their `Formatters<F>`, may go to threads for every
//! `A` and `F`, a storm has a parameter for each of these too, and these traits pass them on as they are.
ghost use Rattle.std.specs.Prelude.{◌≡◌};

use span_layers::{Admitters, Formatters};
use span_registry::{Drain, Registry, Ring, Setup};
use std::sync::ledger::Ledger;

/// What applies a layer's rule. The storm's registry calls it as an `M`, which is `Admitters` of it.
pub trait AdmitAs<M>: Drop {
    /// The registry, as it is. No clause says so, since contracts see nothing of a registry: what a storm promises rests
    /// on the registry's names alone, and holds whatever comes back under them.
    fn registry<H: Ledger, C: Ledger, S: Setup>(
        registry: Registry<H, C, S, Ring, Admitters<Self>>,
    ) -> Registry<H, C, S, Ring, M>;
}

/// What writes a layer's notes. The storm's drain calls it as a `V`, which is `Formatters` of it.
pub trait SayAs<V>: Drop {
    /// The drain, as it is.
    fn drain(drain: Drain<Formatters<Self>>) -> Drain<V>
        ensures { result ≡ drain };
}

impl<A: Drop> AdmitAs<Admitters<A>> for A {
    fn registry<H: Ledger, C: Ledger, S: Setup>(
        registry: Registry<H, C, S, Ring, Admitters<A>>,
    ) -> Registry<H, C, S, Ring, Admitters<A>> {
        registry
    }
}

impl<F: Drop> SayAs<Formatters<F>> for F {
    fn drain(drain: Drain<Formatters<F>>) -> Drain<Formatters<F>>
        ensures { result ≡ drain }
    {
        drain
    }
}
