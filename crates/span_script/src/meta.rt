//! The meta of a span or an event.
ghost use Rattle.std.specs.Prelude.{◌≡◌, IfOk, IfErr};

use crate::stop::Stop;
use span_id::{Level, Meta, SharedMeta};
use std::alloc::Global;

/// A meta that has copies of the texts. The only error is `Memory`.
pub fn meta(alloc: Global, name: &str, target: &str, level: Level) -> Result<SharedMeta, Stop>
    ensures meta { IfOk result (λ meta. meta ≡ record { name = name.now; target = target.now; level = level }) }
    ensures memory { IfErr result (λ stop. stop ≡ Stop.Memory) }
{
    let name = String::from_str(alloc, name)?;
    let target = String::from_str(alloc, target)?;
    let meta = Meta {
        name,
        target,
        level,
    };
    SharedMeta::new(alloc, meta).map_err(|_| Stop::Memory)
}
