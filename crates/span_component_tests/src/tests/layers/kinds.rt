//! Which bits stand for kinds of notes.

use crate::tests::compare::holds;
use bitflags::Flags;
use span_layers::FmtSpan;

#[test]
fn kinds_have_four_bits(rt: HostRuntime) {
    let all = FmtSpan::from_bits(15) == Some(FmtSpan::FULL);
    holds(&rt, all, "four bits");
    holds(&rt, FmtSpan::from_bits(16).is_none(), "a fifth bit");
}
