//! A handle given back that is known and not kept.
ghost use Rattle.std.specs.Prelude.{◌≡◌};
ghost use Rattle.span_outlet.specs.KnownRelease.{request_of_known_release, answer_of_known_release};
ghost use Rattle.span_outlet.specs.Request.{try_close, released};

use span_id::Id;
use span_known::KnownItems;

/// A handle that was given back, as clauses see the call: nothing of it is kept but the number of its worker and the id of
/// its span.
#[derive(Drop)]
pub struct KnownRelease {
    pub worker: u32,
    pub id: Id,
    /// The spans that closed, child first.
    pub closed: KnownItems<Id>,
}

impl KnownRelease {
    /// The handle of this span that this worker gives back, and what that closes. It takes no memory, and copies nothing.
    #[inline(always)]
    pub fn new(worker: u32, id: Id, closed: &[Id]) -> KnownRelease
        ensures request { request_of_known_release result ≡ try_close worker id }
        ensures answer { answer_of_known_release result ≡ released closed.now }
    {
        KnownRelease {
            worker,
            id,
            closed: KnownItems::of(closed),
        }
    }
}
