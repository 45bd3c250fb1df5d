//! Notes that are missed: refused memory, or of layers without a form.
use crate::tests::acts::Act;
use crate::tests::hooks::{add_plan, layers};
use crate::tests::play::{Play, SMALL, ends, played_on};
use span_component_tests::plans::EVERYTHING;
use span_component_tests::watch::Refused;
use span_layers::{Kind, Layers};
use span_outlet::Kept;
use std::alloc::Global;
use std::process::Abort;

// A span is entered and left. Two layers let everything in.
const FIRST_REFUSED: Play<'static> = Play {
    limits: SMALL,
    plans: &[EVERYTHING, EVERYTHING],
    acts: &[
        (0, Act::New("a")),
        (0, Act::Enter(1)),
        (0, Act::Close(1)),
        (0, Act::Exit(1)),
    ],
    expected: "L0 new 1 w0 a\nL1 new 1 w0 a\n= 1\nL1 enter 1 w0 a\n= entered\n= open\n\
        L0 exit 1 w0 a\nL1 exit 1 w0 a\nL0 close 1 w0 a\nL1 close 1 w0 a\n= closed\n",
};

// The first of two layers is refused memory for the text of an entry.
fn first_refused(rt: &impl Abort, alloc: Global) -> Layers {
    let mut both = Layers::new(alloc);
    let at_enter = Refused::At(Kind::OnEnter);
    add_plan(rt, alloc, &mut both, &EVERYTHING, at_enter);
    add_plan(rt, alloc, &mut both, &EVERYTHING, Refused::None);
    both
}

#[test]
fn a_note_whose_text_is_refused_memory(rt: HostRuntime) {
    let (filters, formatting) = first_refused(&rt, rt.alloc()).split();
    let outlet = Kept::new(rt.alloc(), formatting);
    let played = played_on(&rt, rt.alloc(), filters, outlet, &FIRST_REFUSED);
    ends(&rt, &played, FIRST_REFUSED.expected, (0, 1));
}

const WITHOUT_FORM: &str =
    "L0 new 1 w0 a\n= 1\nL0 enter 1 w0 a\n= entered\n= open\nL0 exit 1 w0 a\nL0 close 1 w0 a\n= closed\n";

#[test]
fn notes_of_a_layer_without_a_form(rt: HostRuntime) {
    let (filters, _) = layers(&rt, rt.alloc(), FIRST_REFUSED.plans).split();
    let (_, formatting) = layers(&rt, rt.alloc(), &[EVERYTHING]).split();
    let outlet = Kept::new(rt.alloc(), formatting);
    let played = played_on(&rt, rt.alloc(), filters, outlet, &FIRST_REFUSED);
    ends(&rt, &played, WITHOUT_FORM, (0, 4));
}
