//! A meta that has several owners.
ghost use Rattle.std.specs.Prelude.{◌≡◌, IfOk, IfErr};
ghost use Rattle.span_id.specs.Meta.{plain_meta};

use crate::fault::Fault;
use crate::meta::Meta;
use std::alloc::Global;
use std::fmt::{self, Debug, Formatter, Write};
use std::marker::Model;
use std::sync::Arc;

/// A meta that is copied or moved in once, and then shared by whoever keeps it, in any threads.
///
/// Contracts see its name, its target and its level.
#[derive(Drop)]
pub struct SharedMeta {
    shared: Arc<Meta, Global>,
}

impl Model for SharedMeta {
    ghost use Rattle.std.specs.Arc.{arc_value};
    ghost use Rattle.span_id.specs.Meta.{PlainMeta, plain_meta};

    ghost Value = { PlainMeta };

    ghost view = { λ meta. plain_meta (arc_value meta.shared) };
}

impl SharedMeta {
    /// This meta, which is moved in: nothing is copied.
    ///
    /// The only error is `Memory`, where it can get no count of owners; it is dropped then.
    pub fn new(alloc: Global, meta: Meta) -> Result<SharedMeta, Fault>
        ensures meta { IfOk result (λ shared. shared ≡ plain_meta meta) }
        ensures memory { IfErr result (λ fault. fault ≡ Fault.Memory) }
    {
        let shared = Arc::new(alloc, meta)?;
        Ok(SharedMeta { shared })
    }

    /// An equal meta of its own. The only error is `Memory`.
    pub fn copy_of(alloc: Global, meta: &Meta) -> Result<SharedMeta, Fault>
        ensures meta { IfOk result (λ copy. copy ≡ plain_meta meta.now) }
        ensures memory { IfErr result (λ fault. fault ≡ Fault.Memory) }
    {
        let copy = meta.copy(alloc)?;
        SharedMeta::new(alloc, copy)
    }

    /// One more owner of the same meta: nothing is copied. The only error is `Memory`, where one more can't be counted.
    pub fn share(&self) -> Result<SharedMeta, Fault>
        ensures same { IfOk result (λ shared. shared ≡ self.now) }
        ensures memory { IfErr result (λ fault. fault ≡ Fault.Memory) }
    {
        let shared = Arc::try_clone(&self.shared)?;
        Ok(SharedMeta { shared })
    }

    /// The meta, to be read.
    pub fn as_meta(&self) -> &Meta
        ensures { plain_meta result.now ≡ self.now }
    {
        &self.shared
    }
}

impl Debug for SharedMeta {
    fn fmt<W: Write>(&self, f: &mut Formatter<W>) -> fmt::Result {
        self.as_meta().fmt(f)
    }
}
