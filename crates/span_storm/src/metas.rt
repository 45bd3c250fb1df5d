//! What the spans and the event of a round are called.
ghost use Rattle.std.specs.Prelude.{◌≡◌, codes, IfOk, IfErr};
ghost use Rattle.span_id.specs.Meta.{plain_meta};
ghost use Rattle.span_storm.specs.Storm.{app_meta};

use span_id::{Fault, Level, Meta, copy_text};
use std::alloc::Global;

/// The metas of all rounds, made once.
#[derive(Drop)]
pub(crate) struct Metas {
    pub(crate) job: Meta,
    pub(crate) step: Meta,
    pub(crate) event: Meta,
    ghost job_is: { plain_meta job ≡ app_meta (codes "job") },
    ghost step_is: { plain_meta step ≡ app_meta (codes "step") },
    ghost event_is: { plain_meta event ≡ app_meta (codes "event") },
}

impl Metas {
    /// The only error is `Memory`.
    pub(crate) fn new(alloc: Global) -> Result<Metas, Fault>
        ensures { IfErr result (λ fault. fault ≡ Fault.Memory) }
    {
        Ok(Metas {
            job: of_app(alloc, "job")?,
            step: of_app(alloc, "step")?,
            event: of_app(alloc, "event")?,
        })
    }
}

// What has this name is of the target `app`, at the level of information.
fn of_app(alloc: Global, name: &str) -> Result<Meta, Fault>
    ensures meta { IfOk result (λ meta. plain_meta meta ≡ app_meta name.now) }
    ensures memory { IfErr result (λ fault. fault ≡ Fault.Memory) }
{
    Ok(Meta {
        name: copy_text(alloc, name)?,
        target: copy_text(alloc, "app")?,
        level: Level::Info,
    })
}
